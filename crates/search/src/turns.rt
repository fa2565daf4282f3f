// The turns of the search. In the workspace lie P entries each of: colours, outer stack, its cursors, inner stack, its cursors. They are
// one slice, since C lends the workspace as one array of 16-bit entries, and there is no heap. The workspace stays a parameter beside the
// setting: in one struct behind a `&mut`, each contract would have to say that the setting is as it was; and what stays of the workspace,
// `Kept`, is a clause of each. The functions that take a setting are no methods of it, since it is declared in scans. An `as` stands where
// std has no From: from an enum, and to a narrower type, where the proof shows that it fits.
ghost use Rattle.std.specs.Prelude.{◌≡◌, ℕ, suc, ◌+◌, ◌%◌, ◌≤◌, ◌<◌, List, get_or, set, take};
ghost use Rattle.graph.proofs.Machine.{below};
ghost use Rattle.workspace.proofs.Views.{Kept};
ghost use Rattle.workspace.proofs.ViewsIn.{OuterIn, InnerIn, OuterOn, InnerOn};
ghost use Rattle.workspace.proofs.TurnsIn.{Paints, Pushes, Advances, pushed, advanced};
ghost use Rattle.workspace.proofs.InnerTurnsIn.{Leaving};
ghost use Rattle.workspace.proofs.RootTurnsIn.{Root};
ghost use Rattle.scans.specs.Cases.{OfCase, shade};
ghost use Rattle.search.specs.Searching.{place_in, root_in, OneCase, UnlessMet, PassedTo};

use scans::places::{Colour, Place};
use scans::roots::Roots;
use scans::{Candidate, Setting, Stack, places};
use std::ops::ControlFlow;

// A place of the outer stack that was met above an inner stack this deep.
#[derive(Clone, Copy)]
pub struct Met {
    pub inner: usize,
    pub at: usize,
}

// The same, with how deep the outer stack is.
#[derive(Clone, Copy)]
pub struct Hit {
    pub outer: usize,
    pub met: Met,
}

// The colour of a place, as the workspace has it: that its entry is a colour's number would have to be shown at each read.
fn colour_of(setting: &Setting, workspace: &[u16], code: usize) -> u16
    requires { Paints setting.now.sizes.guesses setting.now.sizes.top workspace.now code }
    ensures { result ≡ get_or workspace.now (place_in setting.now code) 0 }
{
    workspace[setting.sizes.number_of(code)]
}

// Paints a place.
fn paint(setting: &Setting, workspace: &mut [u16], code: usize, colour: Colour)
    requires { Paints setting.now.sizes.guesses setting.now.sizes.top workspace.old code }
    ensures { workspace.new ≡ set workspace.old (place_in setting.now code) (shade colour) }
{
    workspace[setting.sizes.number_of(code)] = colour as u16;
}

// Puts a place with cursor 0 on a stack.
fn push(setting: &Setting, workspace: &mut [u16], stack: Stack, code: usize)
    requires { Pushes setting.now.sizes.places workspace.old stack.base stack.depth code }
    ensures { workspace.new ≡ pushed setting.now.sizes.places stack.base stack.depth code workspace.old }
{
    workspace[stack.base + stack.depth] = code as u16;
    workspace[stack.base + setting.sizes.places + stack.depth] = 0;
}

// The cursor of a stack's top goes past what was found, and the place there is painted and pushed.
fn advance(setting: &Setting, workspace: &mut [u16], stack: Stack, found: Candidate, colour: Colour)
    requires { Advances setting.now.sizes.guesses setting.now.sizes.top setting.now.sizes.places workspace.old stack.base stack.depth
        found.cursor found.code }
    ensures { workspace.new ≡ advanced setting.now.sizes.guesses setting.now.sizes.top setting.now.sizes.places stack.base stack.depth
        found.cursor found.code (shade colour) workspace.old }
{
    workspace[stack.base + setting.sizes.places + stack.depth - 1] = (found.cursor + 1) as u16;
    paint(setting, workspace, found.code, colour);
    push(setting, workspace, stack, found.code);
}

// A turn of the inner search, whose stack has `depth` places: on to a blue place, which becomes red, or back, to a new depth; or a
// cyan place is met.
fn inner_turn(setting: &Setting, workspace: &mut [u16], depth: usize) -> ControlFlow<Met, usize>
    requires inside { (c : OfCase setting.now) × (r w d : ℕ) × (first : List ℕ) × InnerIn c r w d first workspace.old depth }
    requires deep { 1 ≤ depth }
    ensures kept { Kept setting.now.sizes.places workspace.old workspace.new }
    ensures turned { (c : OfCase setting.now) (r w d : ℕ) (first : List ℕ) → InnerIn c r w d first workspace.old depth
        → UnlessMet c (suc d) workspace.new result (InnerOn c r w d first workspace.old depth workspace.new) }
{
    let stack = Stack {
        base: 3 * setting.sizes.places,
        depth,
    };
    match setting.scan_top(workspace, stack, Colour::Red) {
        None => ControlFlow::Continue(depth - 1),
        Some(found) => {
            if colour_of(setting, workspace, found.code) == Colour::Cyan as u16 {
                return ControlFlow::Break(Met {
                    inner: depth,
                    at: found.code,
                });
            }
            advance(setting, workspace, stack, found, Colour::Red);
            ControlFlow::Continue(depth + 1)
        }
    }
}

// The inner search from a marked place that is about to be left.
fn inner_search(setting: &Setting, workspace: &mut [u16], code: usize) -> ControlFlow<Met>
    requires leaving { (c : OfCase setting.now) × (r d : ℕ) × Leaving c r workspace.old d code }
    requires marked { setting.now.sizes.top ≤ code % 8 }
    ensures kept { Kept setting.now.sizes.places workspace.old workspace.new }
    ensures searched { (c : OfCase setting.now) (r d : ℕ) → Leaving c r workspace.old d code
        → UnlessMet c (suc d) workspace.new result
        (λ _. InnerIn c r (below 1 (take setting.now.sizes.places workspace.old)) d workspace.old workspace.new 0) }
{
    let stack = Stack {
        base: 3 * setting.sizes.places,
        depth: 0,
    };
    push(setting, workspace, stack, code);
    // Not a `for`: the depth goes up and down. The outer search's loop is alike in shape alone: another turn, and it tells another thing.
    let mut depth = 1;
    while 0 < depth {
        depth = inner_turn(setting, workspace, depth)?;
    }
    ControlFlow::Continue(())
}

// Leaves the top of the outer stack, whose successors are exhausted: a marked place only after an inner search.
fn leave(setting: &Setting, workspace: &mut [u16], code: usize) -> ControlFlow<Met>
    requires { (c : OfCase setting.now) × (r d : ℕ) × Leaving c r workspace.old d code }
    ensures kept { Kept setting.now.sizes.places workspace.old workspace.new }
    ensures left { (c : OfCase setting.now) (r d : ℕ) → Leaving c r workspace.old d code
        → UnlessMet c (suc d) workspace.new result (λ _. OuterOn c r workspace.old (suc d) workspace.new d) }
{
    if !places::is_marked(setting.sizes.top, places::waiting(code)) {
        paint(setting, workspace, code, Colour::Blue);
        return ControlFlow::Continue(());
    }
    inner_search(setting, workspace, code)?;
    paint(setting, workspace, code, Colour::Red);
    ControlFlow::Continue(())
}

// A turn of the outer search, whose stack has `depth` places: on to a white place, which becomes cyan, or the top is left.
fn outer_turn(setting: &Setting, workspace: &mut [u16], depth: usize) -> ControlFlow<Met, usize>
    requires inside { (c : OfCase setting.now) × (r : ℕ) × OuterIn c r workspace.old depth }
    requires deep { 1 ≤ depth }
    ensures kept { Kept setting.now.sizes.places workspace.old workspace.new }
    ensures turned { (c : OfCase setting.now) (r : ℕ) → OuterIn c r workspace.old depth
        → UnlessMet c depth workspace.new result (OuterOn c r workspace.old depth workspace.new) }
{
    let stack = Stack {
        base: setting.sizes.places,
        depth,
    };
    match setting.scan_top(workspace, stack, Colour::Blue) {
        None => {
            let code = usize::from(workspace[stack.base + depth - 1]);
            leave(setting, workspace, code)?;
            ControlFlow::Continue(depth - 1)
        }
        Some(found) => {
            advance(setting, workspace, stack, found, Colour::Cyan);
            ControlFlow::Continue(depth + 1)
        }
    }
}

// The outer search from a white root.
fn outer_search(setting: &Setting, workspace: &mut [u16], root: usize) -> ControlFlow<Hit>
    requires { (c : OfCase setting.now) × Root c workspace.old root }
    ensures kept { Kept setting.now.sizes.places workspace.old workspace.new }
    ensures searched { (c : OfCase setting.now) → Root c workspace.old root
        → PassedTo c (place_in setting.now root + 1) workspace.new result }
{
    paint(setting, workspace, root, Colour::Cyan);
    let stack = Stack {
        base: setting.sizes.places,
        depth: 0,
    };
    push(setting, workspace, stack, root);
    // Not a `for`: the depth goes up and down.
    let mut depth = 1;
    while 0 < depth {
        depth = outer_turn(setting, workspace, depth).map_break(|met| Hit { outer: depth, met })?;
    }
    ControlFlow::Continue(())
}

// What a whole search goes by: the setting of its scans, and the roots that it starts from. That both are one case's is no ghost field,
// for the reasons beside Setting.
#[derive(Clone, Copy)]
pub struct Plan<'a> {
    pub setting: Setting<'a>,
    pub roots: Roots<'a>,
}

impl Plan<'_> {
    // Searches from the place of state s and bits b with waiting number 0, if it is initial and still white.
    fn root_turn(&self, workspace: &mut [u16], s: usize, b: usize) -> ControlFlow<Hit>
        requires inside { (x : OneCase self.now) × (s < x.case.parts.states) × OuterIn x.case (root_in self.now.setting s b) workspace.old 0 }
        requires guess { b < self.now.setting.sizes.guesses }
        ensures kept { Kept self.now.setting.sizes.places workspace.old workspace.new }
        ensures searched { (x : OneCase self.now) → s < x.case.parts.states → OuterIn x.case (root_in self.now.setting s b) workspace.old 0
            → PassedTo x.case (root_in self.now.setting s (b + 1)) workspace.new result }
    {
        let place = Place {
            state: s,
            bits: b,
            waiting: 0,
        };
        let root = place.code();
        if self.roots.is_initial(s, b)
            && colour_of(&self.setting, workspace, root) == Colour::White as u16
        {
            return outer_search(&self.setting, workspace, root);
        }
        ControlFlow::Continue(())
    }

    // From each initial place of state s.
    fn state_roots(&self, workspace: &mut [u16], s: usize) -> ControlFlow<Hit>
        requires { (x : OneCase self.now) × (s < x.case.parts.states) × OuterIn x.case (root_in self.now.setting s 0) workspace.old 0 }
        ensures kept { Kept self.now.setting.sizes.places workspace.old workspace.new }
        ensures searched { (x : OneCase self.now) → s < x.case.parts.states → OuterIn x.case (root_in self.now.setting s 0) workspace.old 0
            → PassedTo x.case (root_in self.now.setting (s + 1) 0) workspace.new result }
    {
        for b in 0..self.setting.sizes.guesses {
            self.root_turn(workspace, s, b)?;
        }
        ControlFlow::Continue(())
    }

    // From the roots of every state.
    pub fn search(&self, workspace: &mut [u16]) -> ControlFlow<Hit>
        requires { (x : OneCase self.now) × OuterIn x.case 0 workspace.old 0 }
        ensures kept { Kept self.now.setting.sizes.places workspace.old workspace.new }
        ensures searched { (x : OneCase self.now) → OuterIn x.case 0 workspace.old 0
            → PassedTo x.case self.now.setting.sizes.places workspace.new result }
    {
        for s in 0..self.roots.states.len() / 3 {
            self.state_roots(workspace, s)?;
        }
        ControlFlow::Continue(())
    }
}
