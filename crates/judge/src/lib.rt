// The judge: whether a run that is given satisfies a case's rule. Refusals first, in the order of the table; then the truth of every
// node at every entry of the run, in the scratch, a bit for each node; then the rule's bit at entry 0.
#![tactic(auto)]

ghost use Rattle.std.specs.Prelude.{◌≡◌};
ghost use Rattle.judge.specs.Judged.{Judged, run_number, run_place, refusal_number, refusal_place, verdict_number};

use reading::CaseRefusal;

mod refuse;
pub mod run;
pub mod truths;
mod word;

use truths::Judging;

// What refuses a run: rows 50 to 54 and 40, with the place that the row gives.
#[derive(Clone, Copy, PartialEq, Eq)]
pub enum RunRefusal {
    NoLoop,
    TooLong(usize),
    NoState(usize),
    NotInitial,
    NoEdge(usize),
    NoRoom(usize),
}

// Why there is no verdict: the case is refused, or the run is.
#[derive(Clone, Copy, PartialEq, Eq)]
pub enum Refusal {
    Case(CaseRefusal),
    Run(RunRefusal),
}

// What the judge says of a run.
#[derive(Clone, Copy, PartialEq, Eq)]
pub enum Verdict {
    Satisfied,
    Violated,
}

// What is told of a refusal and of a verdict is by hand: the definitions that promises go by have a row for each variant.
impl RunRefusal {
    // The row of a refusal.
    pub fn number(self) -> usize
        ensures { result ≡ run_number self }
    {
        match self {
            RunRefusal::NoLoop => 50,
            RunRefusal::TooLong(_) => 51,
            RunRefusal::NoState(_) => 52,
            RunRefusal::NotInitial => 53,
            RunRefusal::NoEdge(_) => 54,
            RunRefusal::NoRoom(_) => 40,
        }
    }

    // The place that a refusal gives.
    pub fn place(self) -> usize
        ensures { result ≡ run_place self }
    {
        match self {
            RunRefusal::NoLoop | RunRefusal::NotInitial => 0,
            RunRefusal::TooLong(place)
            | RunRefusal::NoState(place)
            | RunRefusal::NoEdge(place)
            | RunRefusal::NoRoom(place) => place,
        }
    }
}

impl Refusal {
    // The row of a refusal.
    pub fn number(self) -> usize
        ensures { result ≡ refusal_number self }
    {
        match self {
            Refusal::Case(r) => r.number(),
            Refusal::Run(r) => r.number(),
        }
    }

    // The place that a refusal gives.
    pub fn place(self) -> usize
        ensures { result ≡ refusal_place self }
    {
        match self {
            Refusal::Case(r) => r.place(),
            Refusal::Run(r) => r.place(),
        }
    }
}

// A refused case refuses the run. By hand, as the next: a derive writes no `from_gives`, which says what a `?` makes of it.
impl From<CaseRefusal> for Refusal {
    ghost use Rattle.judge.specs.declared.Refusal.TheVariants.{Case as refused};

    ghost from_gives = { λ r e. e ≡ refused r };

    fn from(r: CaseRefusal) -> Self {
        Self::Case(r)
    }
}

// A refused run.
impl From<RunRefusal> for Refusal {
    ghost use Rattle.judge.specs.declared.Refusal.TheVariants.{Run as refused};

    ghost from_gives = { λ r e. e ≡ refused r };

    fn from(r: RunRefusal) -> Self {
        Self::Run(r)
    }
}

impl Verdict {
    // The row of a verdict: 0 for satisfied, 1 for violated.
    pub fn number(self) -> usize
        ensures { result ≡ verdict_number self }
    {
        match self {
            Verdict::Satisfied => 0,
            Verdict::Violated => 1,
        }
    }
}

// Judges the run of stem k and loop m that the track holds.
pub fn judge(
    bytes: &[u8],
    track: &[u16],
    k: u64,
    m: u64,
    scratch: &mut [truths::Entry],
) -> Result<Verdict, Refusal>
    ensures { Judged bytes.now track.now k m scratch.old result scratch.new }
{
    let case = reading::admit(bytes)?;
    let run = refuse::check_run(&case, track, k, m, scratch.len())?;
    let judging = Judging {
        states: case.states(),
        nodes: case.nodes(),
        run,
    };
    Ok(if judging.rule_holds(scratch) {
        Verdict::Satisfied
    } else {
        Verdict::Violated
    })
}
