// An entry of the scratch as a word: a bit for each node, and what an operator makes of its operands' bits.
ghost use Rattle.std.specs.Prelude.{◌≡◌, ◌&&◌, ◌||◌, ◌^◌, ◌≤◌, ◌<◌};
ghost use Rattle.bits.specs.Bits.{bit as bit_of};
ghost use Rattle.bits.proofs.Bit.{digit};
ghost use Rattle.meaning.specs.Laws.{plain, now, stay};
ghost use Rattle.rule.specs.Operator.{plain_code, temporal_code};
ghost use Rattle.scratch.proofs.Scratch.{width, added};

use rule::{Plain, Temporal, is_set};

// An entry of the scratch: a bit for each node.
pub type Entry = u32;

// A word with bit n added.
pub fn with_bit(word: Entry, n: usize, bit: bool) -> Entry
    requires narrow { n < width }
    requires below { word < 2 ^ n }
    ensures { result ≡ added word n bit }
{
    // No branch on a truth value, here or in `carried`: it is foreseen wrongly about every second time, and the judge took twice as long.
    word + (Entry::from(bit) << n)
}

// A node's two bytes, which are bits of a word: its operands, or an atom's number. The operator goes beside them: a struct for each
// kind of operator would be a twin, and a generic one with a ghost field derives no Clone.
#[derive(Clone, Copy)]
pub struct Operands {
    pub first: usize,
    pub second: usize,
    pub ghost first_narrow: { first < width },
    pub ghost second_narrow: { second < width },
}

// Bit j of a word, as a word of one truth value: a u16, since the operators of `rule` take words of 16 bits.
fn truth(word: Entry, j: usize) -> u16
    requires { j < width }
    ensures { result ≡ digit (bit_of word j) }
{
    u16::from(is_set(word, j))
}

impl Operands {
    // What a plain operator is at an entry with this label.
    pub fn plain(self, operator: Plain, label: u16, word: Entry) -> bool
        ensures { result ≡ plain (plain_code operator) (bit_of label self.first) (bit_of word self.first)
            (bit_of word self.second) }
    {
        let atom = truth(Entry::from(label), self.first);
        operator.word(atom, truth(word, self.first), truth(word, self.second), 1) == 1
    }

    // What a temporal operator is at an entry, from its truth at the next.
    pub fn carried(self, operator: Temporal, word: Entry, next: bool) -> bool
        ensures { result ≡ (now (temporal_code operator) (bit_of word self.first) (bit_of word self.second)
            || (stay (temporal_code operator) (bit_of word self.first) (bit_of word self.second) && next)) }
    {
        let first = truth(word, self.first);
        let second = truth(word, self.second);
        let now = operator.now_word(first, second, 1) == 1;
        let stay = operator.stay_word(first, second, 1) == 1;
        now | (stay & next)
    }
}
