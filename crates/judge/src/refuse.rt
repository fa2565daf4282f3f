// The rows on runs, in the order of the table: 50, 51, 52, 53, 54, 40.
ghost use Rattle.std.specs.Prelude.{◌≡◌, suc, ◌+◌, leb, not, get_or, Ok, Err, IfOk, IfErr};
ghost use Rattle.meaning.specs.Runs.{position};
ghost use Rattle.reading.specs.Parts.{table_of, has_edge};
ghost use Rattle.reading.specs.Refusals.{parts_of};
ghost use Rattle.judge.specs.Refusals.{refused_at, stored_refusal, run_refusal};

use crate::RunRefusal;
use crate::run::Run;
use reading::parts::{self, Case};

// 50 and 51, and then the rows on the run that the track holds. k and m are any numbers, so their sum is not taken before it is known
// to be small.
#[tactic(auto, using(crate::proofs::Refused::refused_50, crate::proofs::Refused::refused_51, crate::proofs::Refused::stored_run))]
pub fn check_run<'a>(
    case: &Case,
    track: &'a [u16],
    k: u64,
    m: u64,
    room: usize,
) -> Result<Run<'a>, RunRefusal>
    ensures refused { IfErr result (λ r. run_refusal (table_of (parts_of case.now.bytes.now)) track.now k m room ≡ Err r) }
    ensures passed { IfOk result (λ run. run_refusal (table_of (parts_of case.now.bytes.now)) run.track.now run.k run.m room
        ≡ Ok tt) }
    ensures track { IfOk result (λ run. run.track.now ≡ track.now) }
    ensures k { IfOk result (λ run. run.k ≡ k) }
    ensures m { IfOk result (λ run. run.m ≡ m) }
{
    if m == 0 {
        return Err(RunRefusal::NoLoop);
    }
    // `as`, here and below: std has no From between u64 and usize
    let length = track.len() as u64;
    if length < k || length - k < m {
        return Err(RunRefusal::TooLong(track.len()));
    }
    let run = Run {
        track,
        k: k as usize,
        m: m as usize,
    };
    check_stored(case, &run, room)?;
    Ok(run)
}

// 52, 53, 54 and 40.
fn check_stored(case: &Case, run: &Run, room: usize) -> Result<(), RunRefusal>
    ensures { result ≡ stored_refusal (table_of (parts_of case.now.bytes.now)) run.now.track.now run.now.k run.now.m room }
{
    check_states(case.shape.states, run)?;
    if !parts::initial(case.states(), run.entry(0)) {
        return Err(RunRefusal::NotInitial);
    }
    check_steps(case.edges(), run)?;
    let needed = run.length();
    if room < needed {
        return Err(RunRefusal::NoRoom(needed));
    }
    Ok(())
}

// 52, at the lowest entry that is S or more.
fn check_states(states: usize, run: &Run) -> Result<(), RunRefusal>
    ensures { result ≡ refused_at (λ i. leb states (get_or run.now.track.now i 0)) (run.now.k + run.now.m)
        RunRefusal.NoState (Ok tt) }
{
    for i in 0..run.length() {
        if states <= run.entry(i) {
            return Err(RunRefusal::NoState(i));
        }
    }
    Ok(())
}

// 54, at the lowest entry with no edge to the one after it.
fn check_steps(edges: &[u8], run: &Run) -> Result<(), RunRefusal>
    ensures { result ≡ refused_at (λ i. not (has_edge edges.now (get_or run.now.track.now i 0)
        (get_or run.now.track.now (position run.now.k run.now.m (suc i)) 0))) (run.now.k + run.now.m)
        RunRefusal.NoEdge (Ok tt) }
{
    for here in 0..run.length() {
        let next = run.after(here);
        if !parts::has_edge(edges, run.entry(here), run.entry(next)) {
            return Err(RunRefusal::NoEdge(here));
        }
    }
    Ok(())
}
