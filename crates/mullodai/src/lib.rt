// The bench's entries, thin over the crates below. No entry requires anything of its caller. `mullodai_c` exports them for C.
#![tactic(auto)]

ghost use Rattle.std.specs.Prelude.{◌≡◌};
ghost use Rattle.mullodai.specs.Outcomes.{state_told, answer_at, filled_told, judge_answer, search_answer};
ghost use Rattle.mullodai.specs.Outcomes.{StateOutcome, StatesOutcome, JudgeOutcome, SearchOutcome};

use judge::{Refusal, Verdict};
use reading::{StateRecord, StateRefusal};
use search::{Lasso, SearchRefusal};

// One state of a case: the number of the table, 0 on success; the place; and the record, all 0 on a refusal. A number with a record
// beside it, as `include/mullodai.h` has it for C; so has `Answer`.
#[repr(C)]
#[derive(Clone, Copy)]
pub struct StateAnswer {
    pub number: u64,
    pub place: u64,
    pub state: StateRecord,
}

// What reading one state gave. (By hand, as the others below: no derive writes them, nor the `from_gives` that the entries' promises rest
// on. `as`: std has no From between usize and u64.)
impl From<Result<StateRecord, StateRefusal>> for StateAnswer {
    ghost from_gives = { λ read answer. answer ≡ state_told read };

    fn from(read: Result<StateRecord, StateRefusal>) -> Self {
        match read {
            Ok(state) => Self {
                number: 0,
                place: 0,
                state,
            },
            Err(refusal) => Self {
                number: refusal.number() as u64,
                place: refusal.place() as u64,
                state: StateRecord {
                    label: 0,
                    initial: 0,
                },
            },
        }
    }
}

// The answer of an entry: the number of the table, its place, and the lengths k and m of a run's stem and loop, which are 0 where
// there is no run. (C's field `loop` is `repeat` here, since `loop` is a word of the language.)
#[repr(C)]
#[derive(Clone, Copy)]
pub struct Answer {
    pub number: u64,
    pub place: u64,
    pub stem: u64,
    pub repeat: u64,
}

impl Answer {
    // An answer with no run.
    fn at(number: usize, place: usize) -> Self
        ensures { result ≡ answer_at number place }
    {
        Self {
            number: number as u64,
            place: place as u64,
            stem: 0,
            repeat: 0,
        }
    }
}

// What filling a list gave: how many records.
impl From<Result<usize, StateRefusal>> for Answer {
    ghost from_gives = { λ filled answer. answer ≡ filled_told filled };

    fn from(filled: Result<usize, StateRefusal>) -> Self {
        match filled {
            Ok(records) => Self::at(0, records),
            Err(refusal) => Self::at(refusal.number(), refusal.place()),
        }
    }
}

// What the judge gave.
impl From<Result<Verdict, Refusal>> for Answer {
    ghost from_gives = { λ judged answer. answer ≡ judge_answer judged };

    fn from(judged: Result<Verdict, Refusal>) -> Self {
        match judged {
            Ok(verdict) => Self::at(verdict.number(), 0),
            Err(refusal) => Self::at(refusal.number(), refusal.place()),
        }
    }
}

// What the search gave: a run that breaks the rule, or that none does.
impl From<Result<Option<Lasso>, SearchRefusal>> for Answer {
    ghost from_gives = { λ found answer. answer ≡ search_answer found };

    fn from(found: Result<Option<Lasso>, SearchRefusal>) -> Self {
        match found {
            Ok(None) => Self::at(0, 0),
            Ok(Some(Lasso { stem, repeat })) => Self {
                number: 1,
                place: 0,
                stem: stem as u64,
                repeat: repeat as u64,
            },
            Err(refusal) => Self::at(refusal.number(), refusal.place()),
        }
    }
}

// Reads one state of a case.
#[tactic(auto, unfolding(crate::specs::Outcomes::state_answer))]
pub fn mullodai_state(bytes: &[u8], state: u64) -> StateAnswer
    ensures { StateOutcome bytes.now state result }
{
    reading::state(bytes, state as usize).into()
}

// Fills a lent list with the states of a case.
pub fn mullodai_states(bytes: &[u8], list: &mut [StateRecord]) -> Answer
    ensures { StatesOutcome bytes.now list.old result list.new }
{
    fill(bytes, list).into()
}

// Fills the first records of a list with the S states of a case, and says how many. Nothing is written where the case is refused, or the
// list is shorter than S: that is the row of a state that is not there.
fn fill(bytes: &[u8], list: &mut [StateRecord]) -> Result<usize, StateRefusal>
    ensures { StatesOutcome bytes.now list.old (filled_told result) list.new }
{
    let case = reading::admit(bytes)?;
    let states = case.shape.states;
    if list.len() < states {
        return Err(StateRefusal::NoState(states));
    }
    let state_list = case.states();
    for (s, record) in list[..states].iter_mut().enumerate() {
        *record = reading::record_at(state_list, s);
    }
    Ok(states)
}

// Judges the run of stem k and loop m that the track holds: 0 satisfies, 1 violates.
pub fn mullodai_judge(bytes: &[u8], track: &[u16], k: u64, m: u64, scratch: &mut [u32]) -> Answer
    ensures { JudgeOutcome bytes.now track.now k m scratch.old result scratch.new }
{
    judge::judge(bytes, track, k, m, scratch).into()
}

// Searches for a run that breaks the case's rule: 0 holds; 1 violated, with the run in the track and its stem and loop.
pub fn mullodai_search(bytes: &[u8], workspace: &mut [u16], track: &mut [u16]) -> Answer
    ensures { SearchOutcome bytes.now workspace.old track.old result workspace.new track.new }
{
    search::search(bytes, workspace, track).into()
}
