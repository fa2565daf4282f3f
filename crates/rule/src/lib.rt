// The twelve operators, and what they make of words of truth values: one at a time (ones = 1), or sixteen (ones = 65,535). Judge and
// search both use these, so that the tables of `meaning` are written once in code.
#![tactic(auto)]

ghost use Rattle.std.specs.Prelude.{◌≡◌, ◌≤◌, ◌<◌};
ghost use Rattle.bits.specs.Bits.{bit};
ghost use Rattle.meaning.specs.Laws.{plain, now, stay, greatest, operands};
ghost use Rattle.bits.proofs.Word.{Word};

// Whether bit j of a word of truth values is set.
#[tactic(auto, using(bits::proofs::Bit::test_bit, bits::proofs::Bit::eqb_digit))]
pub fn is_set(word: u32, j: usize) -> bool
    requires { j < 32 }
    ensures { result ≡ bit word j }
{
    word >> j & 1 == 1
}

// The operators that one position decides.
#[derive(Clone, Copy, Debug, PartialEq, Eq)]
pub enum Plain {
    True,
    Atom,
    Not,
    And,
    Or,
    Implies,
}

// The operators that look ahead.
#[derive(Clone, Copy, Debug, PartialEq, Eq)]
pub enum Temporal {
    X,
    F,
    G,
    U,
    R,
    W,
}

// The operators, in the order of their numbers.
#[derive(Clone, Copy, Debug, PartialEq, Eq)]
pub enum Operator {
    Plain(Plain),
    Temporal(Temporal),
}

// A number above 11.
#[derive(Clone, Copy, Debug, PartialEq, Eq)]
pub struct UnknownOperator(pub u8);

// The operator with a number, if there is one.
impl TryFrom<u8> for Operator {
    type Error = UnknownOperator;

    ghost use Rattle.rule.specs.Operator.{Decodes};

    ghost try_from_gives = { Decodes };

    fn try_from(number: u8) -> Result<Self, UnknownOperator> {
        match number {
            0 => Ok(Self::Plain(Plain::True)),
            1 => Ok(Self::Plain(Plain::Atom)),
            2 => Ok(Self::Plain(Plain::Not)),
            3 => Ok(Self::Plain(Plain::And)),
            4 => Ok(Self::Plain(Plain::Or)),
            5 => Ok(Self::Plain(Plain::Implies)),
            6 => Ok(Self::Temporal(Temporal::X)),
            7 => Ok(Self::Temporal(Temporal::F)),
            8 => Ok(Self::Temporal(Temporal::G)),
            9 => Ok(Self::Temporal(Temporal::U)),
            10 => Ok(Self::Temporal(Temporal::R)),
            11 => Ok(Self::Temporal(Temporal::W)),
            _ => Err(UnknownOperator(number)),
        }
    }
}

impl Operator {
    ghost use Rattle.rule.specs.Operator.{code};

    // How many operands an operator has.
    pub fn operands(self) -> usize
        ensures { result ≡ operands (code self) }
    {
        match self {
            Self::Plain(Plain::True | Plain::Atom) => 0,
            Self::Plain(Plain::Not) => 1,
            Self::Plain(Plain::And | Plain::Or | Plain::Implies) => 2,
            Self::Temporal(Temporal::X | Temporal::F | Temporal::G) => 1,
            Self::Temporal(Temporal::U | Temporal::R | Temporal::W) => 2,
        }
    }
}

// The operands' words and `ones` are numbers, here and below, and no struct: each arm would name its fields one by one again.
impl Plain {
    ghost use Rattle.rule.specs.Operator.{plain_code};

    // What the operator makes of an atom's word and its operands'.
    pub fn word(self, atom: u16, a: u16, b: u16, ones: u16) -> u16
        requires atom_fits { atom ≤ ones }
        requires a_fits { a ≤ ones }
        requires b_fits { b ≤ ones }
        ensures { Word ones (λ j. plain (plain_code self) (bit atom j) (bit a j) (bit b j)) result }
    {
        match self {
            Self::True => ones,
            Self::Atom => atom,
            Self::Not => ones - a,
            Self::And => a & b,
            Self::Or => a | b,
            Self::Implies => (ones - a) | b,
        }
    }
}

impl Temporal {
    ghost use Rattle.rule.specs.Operator.{temporal_code};

    // Where the operator is true at once: X never (it waits for the next position), F a, G never, U b, R a and b, W b.
    pub fn now_word(self, a: u16, b: u16, ones: u16) -> u16
        requires a_fits { a ≤ ones }
        requires b_fits { b ≤ ones }
        ensures { Word ones (λ j. now (temporal_code self) (bit a j) (bit b j)) result }
    {
        match self {
            Self::X => 0,
            Self::F => a,
            Self::G => 0,
            Self::U => b,
            Self::R => a & b,
            Self::W => b,
        }
    }

    // Where it is true if it is true at the next position: X and F always, G, U and W where a is, R where b is.
    pub fn stay_word(self, a: u16, b: u16, ones: u16) -> u16
        requires a_fits { a ≤ ones }
        requires b_fits { b ≤ ones }
        ensures { Word ones (λ j. stay (temporal_code self) (bit a j) (bit b j)) result }
    {
        match self {
            Self::X => ones,
            Self::F => ones,
            Self::G => a,
            Self::U => a,
            Self::R => b,
            Self::W => a,
        }
    }

    // What it is where it stays for ever: G, R and W are true there, F and U are not. X never stays.
    pub fn pole_word(self, ones: u16) -> u16
        ensures { Word ones (λ j. greatest (temporal_code self)) result }
    {
        match self {
            Self::X => 0,
            Self::F => 0,
            Self::G => ones,
            Self::U => 0,
            Self::R => ones,
            Self::W => ones,
        }
    }
}
