// Lanes: a 16-bit word whose bit b speaks of a state with bits b, for all b at once. `rows` has the truth of node n in state s at
// n * 64 + s. `lanes` has sixteen words for each state s, from s * 16 on: NEED + t, whether the bit of temporal node number t must
// be carried on by the next place; CARRY + t, what it is carried on by; MET + e, whether promise e is met; and FAILS, whether
// nothing follows, since some bit that is not carried on is not what it has to be at once. Both are flat: Rattle proves a write into
// [[u16; 16]; 64], but a contract reads that as a list of lists, and each of the six reads and five writes would need a lemma
// beside it that it is the entry at s * 16 + k, of which the theorems of `product`, `filled` and `workspace` speak.
#![tactic(auto)]

ghost use Rattle.std.specs.Prelude.{◌≡◌, cond, not, ◌||◌, ℕ, suc, ◌+◌, ◌*◌, ◌/◌, ◌≤◌, ◌<◌, length, get_or};
ghost use Rattle.bits.specs.Bits.{bit};
ghost use Rattle.meaning.specs.Table as Meaning;
ghost use Rattle.meaning.specs.Laws.{operands, greatest};
ghost use Rattle.rule.specs.Operator.{temporal_code, code};
ghost use Rattle.reading.specs.Parts.{node_of, table_of};
ghost use Rattle.reading.specs.Node.{node_is};
ghost use Rattle.product.specs.Product.{truth, carried, temporal};
ghost use Rattle.product.proofs.Lanes.{Rows as RowsOf, Lanes as LanesOf};
ghost use Rattle.filled.proofs.Lane.{Lane};
ghost use Rattle.filled.proofs.Filling.{Filling, Filled, Blank, Counted, Ready, Stated, RowAdded, NodeLanes};
ghost use Rattle.filled.proofs.Stores.{stores};

use reading::parts::{self, Node};
use rule::{Operator, Plain, Temporal, is_set};

pub mod starts;

// The truths of the nodes, by node and state.
pub type Rows = [u16; 2048];

// The lanes, by state.
pub type Lanes = [u16; 1024];

pub const ONES: u16 = 65535;

// Where each kind of word begins among a state's sixteen. A number of a temporal node or of a promise is added, so they are offsets.
pub const NEED: usize = 0;

pub const CARRY: usize = 4;

pub const MET: usize = 8;

pub const FAILS: usize = 12;

// How many temporal nodes there are among some nodes, and how many promises, which are of temporal nodes other than X.
#[derive(Clone, Copy, Debug, PartialEq, Eq)]
pub struct Counts {
    pub temporals: usize,
    pub promises: usize,
    pub ghost fewer: { promises ≤ temporals },
}

impl Counts {
    // With a node of this operator added: a temporal node, and a promise unless it is X. `temporals < 4` is no field: the counts after
    // the last node may be 4.
    fn with(self, operator: Temporal) -> Self
        requires { self.temporals < 4 }
        ensures { (node : ℕ → Meaning.Node) (n : ℕ) → (node n).operator ≡ temporal_code operator
            → Counted node n self.temporals self.promises → Counted node (suc n) result.temporals result.promises }
    {
        let temporals = self.temporals + 1;
        if let Temporal::X = operator {
            return Counts {
                temporals,
                promises: self.promises,
            };
        }
        Counts {
            temporals,
            promises: self.promises + 1,
        }
    }
}

// The word whose bit b is bit t of b: the truth of temporal node number t.
pub fn pattern(t: usize) -> u16
    requires { t < 4 }
    ensures { Lane (λ b. bit b t) result }
{
    match t {
        0 => 0xAAAA,
        1 => 0xCCCC,
        2 => 0xF0F0,
        _ => 0xFF00,
    }
}

// An atom's truth in a state with this label, whatever the bits; 0 for another operator.
#[tactic(auto, using(filled::proofs::Lane::lane_true, filled::proofs::Lane::lane_false))]
fn atom_lane(operator: Plain, label: u16, atom: usize) -> u16
    requires { operator ≡ Plain.Atom → atom < 16 }
    ensures { operator ≡ Plain.Atom → Lane (λ b. bit label atom) result }
{
    match operator {
        Plain::Atom if is_set(u32::from(label), atom) => ONES,
        _ => 0,
    }
}

// The lane of node x in state s. `s < 64` stays a clause here and below: as a type, each function would take the number out again, and
// each loop over the states would put it in.
fn row_lane(rows: &Rows, x: usize, s: usize) -> u16
    requires low { x < 32 }
    requires within { s < 64 }
    ensures { result ≡ get_or rows.now (x * 64 + s) 0 }
{
    rows[x * 64 + s]
}

// Where the promise of a node is met: G, R and W true or not staying, F and U false or at once. X has none.
fn met_lane(operator: Temporal, v: u16, at_once: u16, stay: u16) -> u16
    ensures { Lane (λ b. cond (greatest (temporal_code operator)) (bit v b || not (bit stay b)) (not (bit v b) || bit at_once b)) result }
{
    if operator.pole_word(ONES) == ONES {
        v | !stay
    } else {
        !v | at_once
    }
}

// What a temporal node adds to the lanes of a state.
#[derive(Clone, Copy)]
struct Words {
    need: u16,
    carry: u16,
    met: u16,
    fails: u16,
}

impl Words {
    // Puts them into the lanes of state s, for the next temporal node and the next promise. X has none, and the word that it leaves is
    // not read.
    fn store(self, before: Counts, s: usize, lanes: &mut Lanes)
        requires few { before.temporals < 4 }
        requires within { s < 64 }
        ensures { lanes.new ≡ stores before.temporals before.promises s self.need self.carry self.met self.fails lanes.old }
    {
        lanes[s * 16 + FAILS] |= self.fails;
        lanes[s * 16 + (NEED + before.temporals)] = self.need;
        lanes[s * 16 + (CARRY + before.temporals)] = self.carry;
        lanes[s * 16 + (MET + before.promises)] = self.met;
    }
}

// A node and its number: its operands are lower nodes, and an atom's number is below 16.
#[derive(Clone, Copy)]
struct Numbered {
    number: usize,
    node: Node,
    ghost ready: { Ready (node_is node) number },
}

// What each method ensures holds of any table and rule that has this node at its number: a field cannot say that, since the contract is
// what brings them in.
impl Numbered {
    // Node n of an admitted case.
    fn read(nodes: &[u8], n: usize) -> Self
        requires there { 3 * n + 2 < length nodes.now }
        requires ready { Ready (node_of nodes.now n) n }
        ensures number { result.number ≡ n }
        ensures node { node_is result.node ≡ node_of nodes.now n }
    {
        Numbered {
            number: n,
            node: parts::node_at(nodes, n),
        }
    }

    // The lanes of its operands in state s, 0 for one that its operator does not have.
    fn operand_lanes(self, s: usize, rows: &Rows) -> (u16, u16)
        requires { s < 64 }
        ensures first { 1 ≤ operands (code self.node.operator) → result.0 ≡ get_or rows.now (self.node.first * 64 + s) 0 }
        ensures second { 2 ≤ operands (code self.node.operator) → result.1 ≡ get_or rows.now (self.node.second * 64 + s) 0 }
    {
        match self.node.operator.operands() {
            0 => (0, 0),
            1 => (row_lane(rows, self.node.first, s), 0),
            _ => (
                row_lane(rows, self.node.first, s),
                row_lane(rows, self.node.second, s),
            ),
        }
    }

    // Its lane in a state with this label, from the rows below: what its operator computes, or its pattern as the next temporal node.
    fn truth_lane(self, label: u16, temporals: usize, s: usize, rows: &Rows) -> u16
        requires within { s < 64 }
        requires few { 6 ≤ code self.node.operator → temporals < 4 }
        ensures { (table : Meaning.Table) (node : ℕ → Meaning.Node) → node self.number ≡ node_is self.node
            → table.label s ≡ label → s < table.states → temporals ≡ length (temporal node self.number)
            → RowsOf table node self.number rows.now
            → Lane (truth table node self.number s) result }
    {
        match self.node.operator {
            Operator::Plain(operator) => {
                let (a, b) = self.operand_lanes(s, rows);
                operator.word(atom_lane(operator, label, self.node.first), a, b, ONES)
            }
            Operator::Temporal(_) => pattern(temporals),
        }
    }

    // Adds its row.
    fn add_row(self, states: &[u8], temporals: usize, rows: &mut Rows)
        requires few_states { length states.now / 3 ≤ 64 }
        requires few { 6 ≤ code self.node.operator → temporals < 4 }
        ensures { (table : Meaning.Table) (node : ℕ → Meaning.Node) → node self.number ≡ node_is self.node
            → Stated table states.now → temporals ≡ length (temporal node self.number)
            → RowsOf table node self.number rows.old
            → RowAdded self.number (length states.now / 3) (truth table node self.number) rows.old rows.new }
    {
        for s in 0..states.len() / 3 {
            rows[self.number * 64 + s] = self.truth_lane(
                parts::label(states, s),
                temporals,
                s,
                rows,
            );
        }
    }
}

// A node that is temporal, with its operator.
#[derive(Clone, Copy)]
struct TemporalNode {
    numbered: Numbered,
    operator: Temporal,
    ghost operator_is: { code numbered.node.operator ≡ temporal_code operator },
}

impl TemporalNode {
    // What it reads of the next place: X its operand, another operator itself.
    fn carry_lane(self, s: usize, rows: &Rows) -> u16
        requires { s < 64 }
        ensures { let n = self.numbered.number in (table : Meaning.Table) (node : ℕ → Meaning.Node)
            → node n ≡ node_is self.numbered.node → s < table.states → RowsOf table node (suc n) rows.now
            → Lane (carried table node n s) result }
    {
        match self.operator {
            Temporal::X => row_lane(rows, self.numbered.node.first, s),
            _ => row_lane(rows, self.numbered.number, s),
        }
    }

    // Its words in state s.
    fn words(self, s: usize, rows: &Rows) -> Words
        requires { s < 64 }
        ensures { let n = self.numbered.number in (table : Meaning.Table) (node : ℕ → Meaning.Node)
            → node n ≡ node_is self.numbered.node → s < table.states → RowsOf table node (suc n) rows.now
            → NodeLanes table node n s result.need result.carry result.met result.fails }
    {
        let (a, b) = self.numbered.operand_lanes(s, rows);
        let at_once = self.operator.now_word(a, b, ONES);
        let stay = self.operator.stay_word(a, b, ONES);
        let need = stay & !at_once;
        let v = row_lane(rows, self.numbered.number, s);
        Words {
            need,
            carry: self.carry_lane(s, rows),
            met: met_lane(self.operator, v, at_once, stay),
            fails: !need & (v ^ at_once),
        }
    }

    // Adds its lanes in each of the states.
    fn add_lanes(self, states: usize, before: Counts, rows: &Rows, lanes: &mut Lanes)
        requires few_states { states ≤ 64 }
        requires few { before.temporals < 4 }
        ensures { let n = self.numbered.number in (table : Meaning.Table) (node : ℕ → Meaning.Node)
            → node n ≡ node_is self.numbered.node → table.states ≡ states
            → Counted node n before.temporals before.promises → RowsOf table node (suc n) rows.now
            → LanesOf table node n lanes.old → LanesOf table node (suc n) lanes.new }
    {
        for s in 0..states {
            self.words(s, rows).store(before, s, lanes);
        }
    }
}

// Adds node n: its row, and its lanes if it is temporal.
fn add_node(
    states: &[u8],
    nodes: &[u8],
    n: usize,
    before: Counts,
    rows: &mut Rows,
    lanes: &mut Lanes,
) -> Counts
    requires filling { Filling states.now nodes.now (suc n) }
    requires counted { Counted (node_of nodes.now) n before.temporals before.promises }
    ensures { (table : Meaning.Table) → Stated table states.now
        → Filled table (node_of nodes.now) n rows.old lanes.old before.temporals before.promises
        → Filled table (node_of nodes.now) (suc n) rows.new lanes.new result.temporals result.promises }
{
    let numbered = Numbered::read(nodes, n);
    numbered.add_row(states, before.temporals, rows);
    match numbered.node.operator {
        Operator::Plain(_) => before,
        Operator::Temporal(operator) => {
            TemporalNode { numbered, operator }.add_lanes(states.len() / 3, before, rows, lanes);
            before.with(operator)
        }
    }
}

// The rows of nodes 0 to n-1: those of nodes 0 to n-2 with node n-1's added; and the lanes of the temporal ones.
pub fn fill(states: &[u8], nodes: &[u8], n: usize, rows: &mut Rows, lanes: &mut Lanes) -> Counts
    requires filling { Filling states.now nodes.now n }
    requires blank_rows { Blank 2048 rows.old }
    requires blank_lanes { Blank 1024 lanes.old }
    ensures { (f : Filling states.now nodes.now n)
        → Filled (table_of f.parts) (node_of f.parts.node_list) n rows.new lanes.new result.temporals result.promises }
{
    if n == 0 {
        return Counts {
            temporals: 0,
            promises: 0,
        };
    }
    let before = fill(states, nodes, n - 1, rows, lanes);
    add_node(states, nodes, n - 1, before, rows, lanes)
}
