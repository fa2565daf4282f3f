// The verdict as text, byte for byte as the program prints it, in a lent array that the longest text fills. Each function says how many bytes
// it filled. The longest text fits, so there is no refusal.
#![tactic(auto)]

ghost use Rattle.text.specs.declared.TheConstants.{LONGEST};
ghost use Rattle.std.specs.Prelude.{◌≡◌, ◌+◌, ◌≤◌, ◌++◌, length};
ghost use Rattle.text.specs.Text.{digits, states_text, holds_text, refused_text, violated_text, Printed, Shown};

// 10,240 states of a space and two digits each, and 19 bytes of words and line feeds.
pub const LONGEST: usize = 30739;

// The word alone.
#[tactic(auto, using(crate::proofs::Laws::adds_printed), unfolding(crate::specs::Text::holds_text))]
pub fn holds(out: &mut [u8; LONGEST]) -> usize
    ensures { Printed holds_text out.old out.new result }
{
    let mut text = Text { out, filled: 0 };
    text.word(b"holds\n");
    text.filled
}

// The three lines of a violation. An empty stem is the word alone.
#[tactic(auto, using(crate::proofs::Laws::run_room))]
pub fn violated(stem: &[u16], around: &[u16], out: &mut [u8; LONGEST]) -> usize
    requires { Shown (stem.now ++ around.now) }
    ensures { Printed (violated_text stem.now around.now) out.old out.new result }
{
    let mut text = Text { out, filled: 0 };
    text.word(b"violated\nstem");
    text.states(stem);
    text.word(b"\nloop");
    text.states(around);
    text.word(b"\n");
    text.filled
}

// The line of a refusal: its two numbers, as they are printed.
#[tactic(auto, using(crate::proofs::Laws::word_digits))]
pub fn refused(number: usize, place: usize, out: &mut [u8; LONGEST]) -> usize
    ensures { Printed (refused_text number place) out.old out.new result }
{
    let mut text = Text { out, filled: 0 };
    text.word(b"refused ");
    text.number(number);
    text.word(b" at ");
    text.number(place);
    text.word(b"\n");
    text.filled
}

// The text so far: the first bytes of the array. Each method puts one part behind it. (The array is lent, and the contracts say what then
// stands in it. An `ArrayVec` owns its array. std's `Cursor` promises that of a `write` alone, and not of `write_all` or `write!`; and each
// `write` gives a Result, where nothing can fail.)
#[derive(Drop)]
struct Text<'a> {
    out: &'a mut [u8],
    filled: usize,
    ghost whole: { length out.now ≡ LONGEST },
    ghost within: { filled ≤ LONGEST },
}

impl Text<'_> {
    ghost use Rattle.text.specs.Parts.{Adds};

    // The bytes of a word.
    fn word(&mut self, word: &[u8])
        requires { self.old.filled + length word.now ≤ LONGEST }
        ensures { Adds word.now self.old self.new }
    {
        let start = self.filled;
        self.filled += word.len();
        let out = &mut *self.out;
        out[start..start + word.len()].copy_from_slice(word);
    }

    // A number in decimal: the digits of its tenth first, unless it is below ten. By hand: the kit's `itoa` would be one crate more to
    // trust. (`as`: std has no From to a narrower type.)
    fn number(&mut self, n: usize)
        requires { self.old.filled + length (digits n) ≤ LONGEST }
        ensures { Adds (digits n) self.old self.new }
    {
        let last = [b'0' + (n % 10) as u8];
        if n < 10 {
            self.word(&last);
            return;
        }
        self.number(n / 10);
        self.word(&last);
    }

    // Each state after one space.
    #[tactic(auto, using(crate::proofs::Laws::states_room), unfolding(crate::specs::Text::states_text))]
    fn states(&mut self, states: &[u16])
        requires { self.old.filled + length (states_text states.now) ≤ LONGEST }
        ensures { Adds (states_text states.now) self.old self.new }
    {
        for state in states {
            self.word(b" ");
            self.number(usize::from(*state));
        }
    }
}
