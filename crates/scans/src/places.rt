// Places as the stacks hold them, and their numbers: the colours are by the place's number.
ghost use Rattle.std.specs.Prelude.{◌≡◌, leb, ◌+◌, ◌-◌, ◌*◌, ◌/◌, ◌%◌, ◌^◌, ◌≤◌, ◌<◌};
ghost use Rattle.workspace.proofs.Setting.{code_of, number_in};

// The lane of the lowest n ones, for n up to 16.
pub fn ones(n: usize) -> u16
    requires { n ≤ 16 }
    ensures { result ≡ 2 ^ n - 1 }
{
    // `as`: std has no From that narrows, and the proof shows that it fits.
    ((1u32 << n) - 1) as u16
}

// The state of the place that a code stands for.
pub fn state(code: usize) -> usize
    ensures { result ≡ code / 128 }
{
    code / 128
}

// Its bits.
pub fn bits(code: usize) -> usize
    ensures { result ≡ code / 8 % 16 }
{
    code / 8 % 16
}

// Its waiting number.
pub fn waiting(code: usize) -> usize
    ensures { result ≡ code % 8 }
{
    code % 8
}

// Whether a place of this waiting number is marked: with no promise every place is; else where none is waited for any more.
pub fn is_marked(top: usize, w: usize) -> bool
    ensures { result ≡ leb top w }
{
    // Its own line, though 0 <= w: the edit marked_only_above_no_promise turns it.
    if top == 0 {
        return true;
    }
    top <= w
}

// The colour of a place, in their order: a scan asks for a colour below a limit. An entry of the lent workspace has 16 bits, so each
// stands there as its number, and 0 is white.
#[derive(Clone, Copy)]
pub enum Colour {
    White,
    Blue,
    Cyan,
    Red,
}

// A place. An entry of the lent workspace has 16 bits, so the stacks hold it as one number, its code.
#[derive(Clone, Copy)]
pub struct Place {
    pub state: usize,
    pub bits: usize,
    pub waiting: usize,
    pub ghost state_fits: { state < 64 },
    pub ghost bits_fit: { bits < 16 },
    pub ghost waiting_fits: { waiting < 8 },
}

impl Place {
    // The place that a code stands for. No From: it asks for a bound; so neither is `code`, its inverse.
    pub(crate) fn decode(code: usize) -> Place
        requires { code < 8192 }
        ensures state { result.state ≡ code / 128 }
        ensures bits { result.bits ≡ code / 8 % 16 }
        ensures waiting { result.waiting ≡ code % 8 }
    {
        Place {
            state: state(code),
            bits: bits(code),
            waiting: waiting(code),
        }
    }

    // The code of the place.
    pub fn code(self) -> usize
        ensures { result ≡ code_of self.state self.bits self.waiting }
    {
        self.state * 128 + self.bits * 8 + self.waiting
    }
}

// What the numbering needs: 2 to the power T, the lane of as many ones, E, and P.
#[derive(Clone, Copy)]
pub struct Sizes {
    pub guesses: usize,
    pub ones: u16,
    pub top: usize,
    pub places: usize,
    pub ghost guesses_fit: { guesses ≤ 16 },
    pub ghost top_fits: { top ≤ 4 },
}

impl Sizes {
    // A place's number: by state, then bits, then waiting number.
    pub fn number(self, place: Place) -> usize
        ensures { result ≡ (place.state * self.guesses + place.bits) * (self.top + 1) + place.waiting }
    {
        (place.state * self.guesses + place.bits) * (self.top + 1) + place.waiting
    }

    // The number of the place that a code stands for.
    pub fn number_of(self, code: usize) -> usize
        requires { code < 8192 }
        ensures { result ≡ number_in self.guesses self.top code }
    {
        self.number(Place::decode(code))
    }
}
