// The workspace before and after, and the run that is written out.
#![tactic(auto)]

ghost use Rattle.std.specs.Prelude.{◌≡◌, ◌++◌, ◌+◌, ◌*◌, ◌≤◌, ◌<◌, length, drop, replicate};
ghost use Rattle.workspace.proofs.Tracks.{Stands, Lowest, Wrote};

use scans::places;

pub mod folds;

// Makes the first n entries 0.
pub fn clear(workspace: &mut [u16], n: usize)
    requires { n ≤ length workspace.old }
    ensures { workspace.new ≡ replicate n 0 ++ drop n workspace.old }
{
    workspace[..n].fill(0);
}

// Where a place stands on the stack that starts at `base`.
pub fn find(workspace: &[u16], base: usize, code: usize) -> usize
    requires { Stands workspace.now base code }
    ensures { Lowest workspace.now base code result }
{
    workspace[base..]
        .iter()
        .position(|entry| usize::from(*entry) == code)
        .unwrap()
}

// A run as the stacks hold it: on the outer stack, `outer` places deep, and then on the inner one above its first place, stand the
// states of a stem and of a loop.
#[derive(Clone, Copy)]
pub struct Run<'a> {
    pub workspace: &'a [u16],
    pub places: usize,
    pub outer: usize,
    pub stem: usize,
    pub repeat: usize,
    pub ghost outer_lies: { places + outer ≤ length workspace.now },
    pub ghost run_lies: { 3 * places + 1 + (stem + repeat) ≤ length workspace.now + outer },
    pub ghost some_loop: { 1 ≤ repeat },
}

impl Run<'_> {
    ghost use Rattle.tracks.specs.Entries.{entries};

    // The state at index i.
    pub fn state_at(&self, i: usize) -> u16
        requires { i < self.now.stem + self.now.repeat }
        ensures is { result ≡ entries self.now i }
        ensures small { result < 512 }
    {
        let at = if i < self.outer {
            self.places + i
        } else {
            3 * self.places + 1 + (i - self.outer)
        };
        // `as`: std has no From that narrows, and the proof shows that it fits.
        places::state(usize::from(self.workspace[at])) as u16
    }

    // Writes its states.
    pub fn write(&self, track: &mut [u16])
        requires { self.now.stem + self.now.repeat ≤ length track.old }
        ensures { Wrote self.now.workspace.now self.now.places self.now.outer (self.now.stem + self.now.repeat) track.old track.new }
    {
        for (i, entry) in track[..self.stem + self.repeat].iter_mut().enumerate() {
            *entry = self.state_at(i);
        }
    }
}
