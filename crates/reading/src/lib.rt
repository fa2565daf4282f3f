// A case is read: refused exactly as the table says, or admitted, as a value with its sizes. Labels, edges and nodes are read from its
// parts, which are slices.
#![tactic(auto)]

ghost use Rattle.std.specs.Prelude.{◌≡◌, ◌+◌, ◌*◌, ◌<◌, ◌/◌, length, Result, Ok, Err, IfOk, IfErr};
ghost use Rattle.reading.specs.Refusals.{case_of};
ghost use Rattle.reading.specs.Answers.{number_of, place_of, record_of, state_of, state_number, state_place};

pub mod parts;
pub mod refuse;

use parts::{Case, Parts};

// A refusal, one variant for each row 10 to 32, with the place that the row gives.
#[derive(Clone, Copy, PartialEq, Eq)]
pub enum CaseRefusal {
    Short(usize),
    Tag(usize),
    Length(usize),
    Range(usize),
    Rest(usize),
    Bits(usize),
    End(usize),
    Order(usize),
    DeadEnd(usize),
    Operator(usize),
    Operand(usize),
    Temporals(usize),
}

// The sizes of an admitted case: S, A, the numbers of edges and of nodes, T and E.
#[derive(Clone, Copy)]
pub struct Shape {
    pub states: usize,
    pub atoms: usize,
    pub edges: usize,
    pub nodes: usize,
    pub temporals: usize,
    pub eventualities: usize,
}

// A state's label and its initial mark, 0 or 1. That the mark is a byte, and the layout, are C's.
#[repr(C)]
#[derive(Clone, Copy)]
pub struct StateRecord {
    pub label: u16,
    pub initial: u8,
}

// Why there is no record of a state: the case is refused, or has only S states.
#[derive(Clone, Copy)]
pub enum StateRefusal {
    Case(CaseRefusal),
    NoState(usize),
}

// No trait has `number` and `place`, and they are by hand: the definitions that promises go by are one for each enum, with a row for each
// variant.
impl CaseRefusal {
    // The row of a refusal.
    pub fn number(self) -> usize
        ensures { result ≡ number_of self }
    {
        match self {
            CaseRefusal::Short(_) => 10,
            CaseRefusal::Tag(_) => 11,
            CaseRefusal::Length(_) => 12,
            CaseRefusal::Range(_) => 13,
            CaseRefusal::Rest(_) => 14,
            CaseRefusal::Bits(_) => 20,
            CaseRefusal::End(_) => 21,
            CaseRefusal::Order(_) => 22,
            CaseRefusal::DeadEnd(_) => 23,
            CaseRefusal::Operator(_) => 30,
            CaseRefusal::Operand(_) => 31,
            CaseRefusal::Temporals(_) => 32,
        }
    }

    // The place that a refusal gives.
    pub fn place(self) -> usize
        ensures { result ≡ place_of self }
    {
        match self {
            CaseRefusal::Short(at)
            | CaseRefusal::Tag(at)
            | CaseRefusal::Length(at)
            | CaseRefusal::Range(at)
            | CaseRefusal::Rest(at)
            | CaseRefusal::Bits(at)
            | CaseRefusal::End(at)
            | CaseRefusal::Order(at)
            | CaseRefusal::DeadEnd(at)
            | CaseRefusal::Operator(at)
            | CaseRefusal::Operand(at)
            | CaseRefusal::Temporals(at) => at,
        }
    }
}

impl StateRefusal {
    // The row of a refusal.
    pub fn number(self) -> usize
        ensures { result ≡ state_number self }
    {
        match self {
            StateRefusal::Case(r) => r.number(),
            StateRefusal::NoState(_) => 42,
        }
    }

    // The place that a refusal gives.
    pub fn place(self) -> usize
        ensures { result ≡ state_place self }
    {
        match self {
            StateRefusal::Case(r) => r.place(),
            StateRefusal::NoState(states) => states,
        }
    }
}

// By hand: a derive writes no `from_gives`, which says what a `?` made.
impl From<CaseRefusal> for StateRefusal {
    ghost use Rattle.reading.specs.declared.StateRefusal.TheVariants.{Case as refused};

    ghost from_gives = { λ r e. e ≡ refused r };

    fn from(r: CaseRefusal) -> Self {
        Self::Case(r)
    }
}

// Reads a case: its first refusal, or the case with its sizes.
#[tactic(auto, using(crate::proofs::Read::read_refused, crate::proofs::Read::read_passed), unfolding(crate::specs::Refusals::case_of, crate::specs::Refusals::refusal))]
pub fn admit(bytes: &[u8]) -> Result<Case, CaseRefusal>
    ensures refused { IfErr result (λ r. case_of bytes.now ≡ Err r) }
    ensures read { IfOk result (λ case. case.bytes.now ≡ bytes.now) }
{
    refuse::check_fields(bytes)?;
    let parts = Parts::of(bytes);
    parts.check()?;
    Ok(Case {
        bytes,
        shape: parts.shape(),
    })
}

// The record of one state.
#[tactic(auto, unfolding(crate::specs::Answers::record_of))]
pub fn record_at(states: &[u8], s: usize) -> StateRecord
    requires { 3 * s + 2 < length states.now }
    ensures { result ≡ record_of states.now s }
{
    StateRecord {
        label: parts::label(states, s),
        initial: parts::flags(states, s),
    }
}

// One state of a case, or why there is none.
#[tactic(auto, using(crate::proofs::Read::state_refused, crate::proofs::Read::state_there, crate::proofs::Read::state_none, crate::proofs::Known::known))]
pub fn state(bytes: &[u8], s: usize) -> Result<StateRecord, StateRefusal>
    ensures { result ≡ state_of bytes.now s }
{
    let case = admit(bytes)?;
    let states = case.shape.states;
    if states <= s {
        return Err(StateRefusal::NoState(states));
    }
    Ok(record_at(case.states(), s))
}
