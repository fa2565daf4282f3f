// A run that the track holds.
ghost use Rattle.std.specs.Prelude.{◌≡◌, suc, ◌+◌, ◌≤◌, ◌<◌, length, get_or};
ghost use Rattle.meaning.specs.Runs.{position};

// A run: the first k + m entries of the track, of which the last m are the loop.
#[derive(Clone, Copy)]
pub struct Run<'a> {
    pub track: &'a [u16],
    pub k: usize,
    pub m: usize,
    pub ghost some_loop: { 1 ≤ m },
    pub ghost stored: { k + m ≤ length track.now },
}

impl Run<'_> {
    // How many entries the run has.
    pub(crate) fn length(&self) -> usize
        ensures { result ≡ self.now.k + self.now.m }
    {
        self.k + self.m
    }

    // The state at an entry.
    pub(crate) fn entry(&self, i: usize) -> usize
        requires { i < self.now.k + self.now.m }
        ensures { result ≡ get_or self.now.track.now i 0 }
    {
        usize::from(self.track[i])
    }

    // The entry after an entry of the run: after the last comes entry k. (`tracks::Run::entry_at` is so within a whole turn: an `if` each, in
    // crates of which neither stands on the other.)
    #[tactic(auto, using(meaning::proofs::Loops::position_in, scratch::proofs::Entries::position_ends))]
    pub(crate) fn after(&self, i: usize) -> usize
        requires { i < self.now.k + self.now.m }
        ensures next { result ≡ position self.now.k self.now.m (suc i) }
        ensures within { result < self.now.k + self.now.m }
    {
        if i + 1 < self.length() { i + 1 } else { self.k }
    }
}
