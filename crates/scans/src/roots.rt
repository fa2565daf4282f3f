// Roots: the initial places, from which the search starts.
ghost use Rattle.std.specs.Prelude.{◌≡◌, ◌<◌};
ghost use Rattle.workspace.proofs.Roots.{root_at};
ghost use Rattle.scans.specs.Cases.{RootsOfCase};

use lanes::Rows;
use reading::parts;
use rule::is_set;

// What tells the initial places: the states, the rows, of which the rule's starts at `last`, and 2 to the power T. (Sizes
// has the last too. It stands here so that `is_initial` answers for any b by the roots alone.) That they are one case's is no ghost field,
// for the reasons beside Setting.
#[derive(Clone, Copy)]
pub struct Roots<'a> {
    pub states: &'a [u8],
    pub rows: &'a Rows,
    pub last: usize,
    pub guesses: usize,
}

impl Roots<'_> {
    // Whether the place of state s and bits b with waiting number 0 is initial: the state is, and the rule's row is false there.
    #[tactic(auto, using(workspace::proofs::Roots::rooting_state, workspace::proofs::Roots::root_false))]
    pub fn is_initial(&self, s: usize, b: usize) -> bool
        requires { (c : RootsOfCase self.now) × (s < c.parts.states) }
        ensures { (c : RootsOfCase self.now) → s < c.parts.states → result ≡ root_at c.parts self.now.guesses s b }
    {
        if self.guesses <= b {
            return false;
        }
        let rule = self.rows[self.last + s];
        if is_set(u32::from(rule), b) {
            return false;
        }
        parts::initial(self.states, s)
    }
}
