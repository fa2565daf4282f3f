// The entries of include/mullodai.h, for C: each is `mullodai`'s, with the same contract.
#![tactic(auto)]

ghost use Rattle.mullodai.specs.Outcomes.{StateOutcome, StatesOutcome, JudgeOutcome, SearchOutcome};

use mullodai::{Answer, StateAnswer};
use reading::StateRecord;

// Reads one state of a case.
#[unsafe(no_mangle)]
pub extern "C" fn mullodai_state(bytes: &[u8], state: u64) -> StateAnswer
    ensures { StateOutcome bytes.now state result }
{
    mullodai::mullodai_state(bytes, state)
}

// Fills a lent list with the states of a case.
#[unsafe(no_mangle)]
pub extern "C" fn mullodai_states(bytes: &[u8], list: &mut [StateRecord]) -> Answer
    ensures { StatesOutcome bytes.now list.old result list.new }
{
    mullodai::mullodai_states(bytes, list)
}

// Judges the run of stem k and loop m that the track holds: 0 satisfies, 1 violates.
#[unsafe(no_mangle)]
pub extern "C" fn mullodai_judge(
    bytes: &[u8],
    track: &[u16],
    k: u64,
    m: u64,
    scratch: &mut [u32],
) -> Answer
    ensures { JudgeOutcome bytes.now track.now k m scratch.old result scratch.new }
{
    mullodai::mullodai_judge(bytes, track, k, m, scratch)
}

// Searches for a run that breaks the case's rule: 0 holds; 1 violated, with the run in the track and its stem and loop.
#[unsafe(no_mangle)]
pub extern "C" fn mullodai_search(bytes: &[u8], workspace: &mut [u16], track: &mut [u16]) -> Answer
    ensures { SearchOutcome bytes.now workspace.old track.old result workspace.new track.new }
{
    mullodai::mullodai_search(bytes, workspace, track)
}
