// The search: a nested depth-first search of the product for a marked place on a loop, in lent room. It answers holds, or
// violated with a looping run in the track.
#![tactic(auto)]

ghost use Rattle.std.specs.Prelude.{◌≡◌, List, ltb, ℕ, ◌-◌, ◌*◌, ◌^◌, ◌≤◌, ◌<◌, length, get_or};
ghost use Rattle.reading.specs.Parts.{temporals, eventualities, places as places_of};
ghost use Rattle.reading.specs.Refusals.{parts_of};
ghost use Rattle.workspace.proofs.Views.{Kept};
ghost use Rattle.workspace.proofs.ViewsIn.{MetIn};
ghost use Rattle.scans.specs.Cases.{OfCase};
ghost use Rattle.search.specs.Answers.{search_number, search_place};
ghost use Rattle.search.specs.Outcome.{Searched, Searches, Decides, HasBroken, workspace_needs, track_needs, cleared};

use lanes::starts::Starts;
use lanes::{Lanes, Rows};
use reading::parts::Case;
use reading::{CaseRefusal, parts};
use scans::places::Sizes;
use scans::roots::Roots;
use scans::{Setting, places};
use std::ops::ControlFlow;
use tracks::Run;

pub mod turns;

use turns::{Hit, Plan};

// A run that breaks the rule: its first states, `stem` and `repeat` together, stand in the track, and the last `repeat` of them go
// round.
#[derive(Clone, Copy)]
pub struct Lasso {
    pub stem: usize,
    pub repeat: usize,
}

// Why there is no verdict: the case is refused, or the workspace or the track is shorter than the entries that it needs.
#[derive(Clone, Copy)]
pub enum SearchRefusal {
    Case(CaseRefusal),
    Workspace(usize),
    Track(usize),
}

// What is told of a refusal is by hand: the definitions that promises go by have a row for each variant.
impl SearchRefusal {
    // The row of a refusal.
    pub fn number(self) -> usize
        ensures { result ≡ search_number self }
    {
        match self {
            SearchRefusal::Case(r) => r.number(),
            SearchRefusal::Workspace(_) => 40,
            SearchRefusal::Track(_) => 41,
        }
    }

    // The place that a refusal gives.
    pub fn place(self) -> usize
        ensures { result ≡ search_place self }
    {
        match self {
            SearchRefusal::Case(r) => r.place(),
            SearchRefusal::Workspace(entries) | SearchRefusal::Track(entries) => entries,
        }
    }
}

// A refused case is a refusal of the search. By hand: a derive writes no from_gives, which says what `?` made.
impl From<CaseRefusal> for SearchRefusal {
    ghost use Rattle.search.specs.declared.SearchRefusal.TheVariants.{Case as refused};

    ghost from_gives = { λ r e. e ≡ refused r };

    fn from(r: CaseRefusal) -> Self {
        Self::Case(r)
    }
}

// Looks for a run that breaks the rule of a case: none if it holds.
pub fn search(
    bytes: &[u8],
    workspace: &mut [u16],
    track: &mut [u16],
) -> Result<Option<Lasso>, SearchRefusal>
    ensures { Searched bytes.now workspace.old track.old result workspace.new track.new }
{
    let case = reading::admit(bytes)?;
    search_admitted(&case, workspace, track)
}

// Looks for one in a case that was read: refuses too little room, and clears the workspace before and after.
#[tactic(auto, using(crate::proofs::Prepared::places_within, crate::proofs::Prepared::short_workspace, crate::proofs::Prepared::short_track, crate::proofs::Prepared::clear_zero, crate::proofs::Prepared::clear_twice, crate::proofs::Prepared::room_enough, reading::proofs::Known::known))]
fn search_admitted(
    case: &Case,
    workspace: &mut [u16],
    track: &mut [u16],
) -> Result<Option<Lasso>, SearchRefusal>
    ensures { let p = parts_of case.now.bytes.now in
        Searches (ltb (length workspace.old) (workspace_needs p)) (ltb (length track.old) (track_needs p)) p
        workspace.old track.old result workspace.new track.new }
{
    let places = sizes_of(case).places;
    let needed = 6 * places;
    if workspace.len() < needed {
        return Err(SearchRefusal::Workspace(needed));
    }
    let track_needed = 2 * places;
    if track.len() < track_needed {
        return Err(SearchRefusal::Track(track_needed));
    }
    tracks::clear(workspace, needed);
    let found = verdict(case, workspace, track);
    tracks::clear(workspace, needed);
    Ok(found)
}

// What the numbering of a case's places needs.
#[tactic(auto, using(crate::proofs::Prepared::sizes_low, crate::proofs::Prepared::places_are, reading::proofs::Known::known))]
fn sizes_of(case: &Case) -> Sizes
    ensures guesses { result.guesses ≡ 2 ^ temporals (parts_of case.now.bytes.now) }
    ensures ones { result.ones ≡ 2 ^ result.guesses - 1 }
    ensures top { result.top ≡ eventualities (parts_of case.now.bytes.now) }
    ensures places { result.places ≡ places_of (parts_of case.now.bytes.now) }
{
    let shape = case.shape;
    let guesses = parts::guesses(shape.temporals);
    Sizes {
        guesses,
        ones: places::ones(guesses),
        top: shape.eventualities,
        places: parts::places(shape),
    }
}

// The verdict on a case, with the run in the track if it is violated. The workspace's first entries are 0 before; what the search
// leaves there is cleared by the caller.
fn verdict(case: &Case, workspace: &mut [u16], track: &mut [u16]) -> Option<Lasso>
    requires room { workspace_needs (parts_of case.now.bytes.now) ≤ length workspace.old }
    requires cleared { (i : ℕ) → i < places_of (parts_of case.now.bytes.now) → get_or workspace.old i 0 ≡ 0 }
    requires track_room { track_needs (parts_of case.now.bytes.now) ≤ length track.old }
    ensures kept { Kept (places_of (parts_of case.now.bytes.now)) workspace.old workspace.new }
    ensures decides { (lent : List ℕ) → Decides (parts_of case.now.bytes.now) lent track.old (Ok result)
        (cleared (parts_of case.now.bytes.now) lent) track.new }
{
    let shape = case.shape;
    let states = case.states();
    let edges = case.edges();
    let mut rows: Rows = [0; 2048];
    let mut lanes: Lanes = [0; 1024];
    let mut starts: Starts = [0; 65];
    lanes::fill(states, case.nodes(), shape.nodes, &mut rows, &mut lanes);
    lanes::starts::fill(edges, shape.states, &mut starts);
    let sizes = sizes_of(case);
    let setting = Setting {
        edges,
        lanes: &lanes,
        starts: &starts,
        sizes,
    };
    let roots = Roots {
        states,
        rows: &rows,
        last: (shape.nodes - 1) * 64,
        guesses: sizes.guesses,
    };
    let plan = Plan { setting, roots };
    match plan.search(workspace) {
        ControlFlow::Continue(()) => None,
        ControlFlow::Break(hit) => Some(show(&setting, workspace, hit, track)),
    }
}

// Writes the run that was found, folded: the outer stack, and the inner stack above its first place; the loop starts where the place
// met again stands.
fn show(setting: &Setting, workspace: &[u16], hit: Hit, track: &mut [u16]) -> Lasso
    requires met { (c : OfCase setting.now) × MetIn c workspace.now hit.outer hit.met.inner hit.met.at }
    requires room { 2 * setting.now.sizes.places ≤ length track.old }
    ensures { (c : OfCase setting.now) → MetIn c workspace.now hit.outer hit.met.inner hit.met.at
        → (lent : List ℕ) → HasBroken c.parts lent track.old (cleared c.parts lent) track.new result.stem result.repeat }
{
    let places = setting.sizes.places;
    let stem = tracks::find(workspace, places, hit.met.at);
    let found = Run {
        workspace,
        places,
        outer: hit.outer,
        stem,
        repeat: hit.outer + hit.met.inner - 1 - stem,
    };
    let run = found.folded();
    run.write(track);
    Lasso {
        stem: run.stem,
        repeat: run.repeat,
    }
}
