// Folding the run that was found: a loop that goes round more than once is shown once, and the end of a stem that is part of the
// loop goes into it. The endless path stays as it is. Which run is shown is not promised; this is for the reader's sake.
ghost use Rattle.std.specs.Prelude.{◌≡◌, true, ◌+◌, ◌≤◌, ◌<◌};
ghost use Rattle.meaning.specs.Runs.{position};
ghost use Rattle.meaning.proofs.Folds.{Folds, Rotates, StemEnds};
ghost use Rattle.tracks.specs.Entries.{entries};

use crate::Run;

impl<'a> Run<'a> {
    // The entry at a position of the endless path, within a turn after the first. (`judge::run::Run::after` is so for the next entry: an `if`
    // each, in crates of which neither stands on the other.)
    fn entry_at(&self, i: usize) -> usize
        requires { i < self.now.stem + self.now.repeat + self.now.repeat }
        ensures position { result ≡ position self.now.stem self.now.repeat i }
        ensures within { result < self.now.stem + self.now.repeat }
    {
        if i < self.stem + self.repeat {
            return i;
        }
        i - self.repeat
    }

    // Whether the loop is the same again p further round.
    fn comes_round(&self, p: usize) -> bool
        requires { p ≤ self.now.repeat }
        ensures { result ≡ true → Rotates (entries self.now) self.now.stem self.now.repeat p }
    {
        let end = self.stem + self.repeat;
        for here in self.stem..end {
            let there = self.entry_at(here + p);
            if self.state_at(here) != self.state_at(there) {
                return false;
            }
        }
        true
    }

    // The length of the shortest loop that the loop goes round a whole number of times.
    pub fn fold_loop(&self) -> usize
        ensures some { 1 ≤ result }
        ensures within { result ≤ self.now.repeat }
        ensures rotates { Rotates (entries self.now) self.now.stem self.now.repeat result }
    {
        for p in 1..self.repeat {
            if self.repeat % p == 0 && self.comes_round(p) {
                return p;
            }
        }
        self.repeat
    }

    // How much of the stem is left when its end, as far as it is that of the loop, goes into the loop.
    pub fn fold_stem(&self) -> usize
        ensures within { result ≤ self.now.stem }
        ensures ends { StemEnds (entries self.now) result self.now.stem self.now.repeat }
    {
        for i in (0..self.stem).rev() {
            if self.state_at(i) != self.state_at(i + self.repeat) {
                return i + 1;
            }
        }
        0
    }

    // The same run, folded.
    pub fn folded(self) -> Run<'a>
        ensures folds { Folds (entries self.entry) self.entry.stem self.entry.repeat result.stem result.repeat }
        ensures workspace { result.workspace.now ≡ self.entry.workspace.now }
        ensures places { result.places ≡ self.entry.places }
        ensures outer { result.outer ≡ self.entry.outer }
    {
        let mut run = self;
        run.repeat = run.fold_loop();
        run.stem = run.fold_stem();
        run
    }
}
