// The refusals, in the order of the table. Each check refuses at the lowest bad place.
ghost use Rattle.std.specs.Prelude.{◌≡◌, false, not, ◌||◌, eqb, leb, ltb, IsNone, IfSome, ◌+◌, ◌*◌, ◌≤◌, ◌<◌, ◌/◌, ◌^◌, length};
ghost use Rattle.rule.specs.Operator.{code};
ghost use Rattle.reading.specs.Lowest.{lowest, any};
ghost use Rattle.reading.specs.Refusals.{in_steps, length_at, out_of_range, field_refusal, last_refusal, fields_refusal, not_above, starts_none, first_limit, second_limit, states_refusal, edges_refusal, dead_end_refusal, nodes_refusal, temporals_refusal, parts_refusal};

use crate::parts::{Edge, FIRST_TEMPORAL, Node, Parts};
use crate::{CaseRefusal, StateRecord, parts, record_at};
use rule::{Operator, Plain};

const MOST_STATES: usize = 64;

const MOST_ATOMS: usize = 16;

const MOST_EDGE_BYTES: usize = 1024;

const MOST_NODE_BYTES: usize = 96;

const MOST_TEMPORALS: usize = 4;

// The length of the field that starts at `at`: two bytes after its tag, low byte first.
#[tactic(auto, unfolding(crate::specs::Refusals::length_at))]
pub fn length_at(bytes: &[u8], at: usize) -> usize
    requires { at + 2 < length bytes.now }
    ensures value { result ≡ length_at bytes.now at }
    ensures small { result < 65536 }
{
    u16::from_le_bytes([bytes[at + 1], bytes[at + 2]]).into()
}

// The lengths that a field may have: the multiples of `step` from `least` to `most`.
#[derive(Clone, Copy)]
struct Lengths {
    step: usize,
    least: usize,
    most: usize,
    ghost some_step: { 0 < step },
}

impl Lengths {
    // Whether a length is one of them.
    #[tactic(auto, unfolding(crate::specs::Refusals::in_steps))]
    fn allow(self, n: usize) -> bool
        ensures { result ≡ in_steps self.step self.least self.most n }
    {
        n % self.step == 0 && self.least <= n && n <= self.most
    }
}

// 10, 11, 12 and 10 again, for the field that starts at `at`.
#[tactic(auto, unfolding(crate::specs::Refusals::field_refusal))]
fn check_field(bytes: &[u8], at: usize, tag: usize, lengths: Lengths) -> Result<(), CaseRefusal>
    requires { at < 4294967296 }
    ensures { result ≡ field_refusal bytes.now at tag (in_steps lengths.step lengths.least lengths.most) }
{
    if bytes.len() < at + 3 {
        return Err(CaseRefusal::Short(at));
    }
    // Both tests are made before either is asked, so that an edit can ask them in the other order (must-fail/length_before_tag).
    let tag_right = parts::byte(bytes, at) == tag;
    let size = length_at(bytes, at);
    let size_right = lengths.allow(size);
    if !tag_right {
        return Err(CaseRefusal::Tag(at));
    }
    if !size_right {
        return Err(CaseRefusal::Length(at));
    }
    if bytes.len() < at + 3 + size {
        return Err(CaseRefusal::Short(at));
    }
    Ok(())
}

// Whether S or A is outside its range.
#[tactic(auto, unfolding(crate::specs::Refusals::out_of_range))]
fn out_of_range(states: usize, atoms: usize) -> bool
    ensures { result ≡ out_of_range states atoms }
{
    states < 1 || MOST_STATES < states || MOST_ATOMS < atoms
}

// Rows 10 to 14.
#[tactic(auto, using(crate::proofs::Fields::field_passed, crate::proofs::Fields::first_there), unfolding(crate::specs::Refusals::fields_refusal, crate::specs::Refusals::at04))]
pub fn check_fields(bytes: &[u8]) -> Result<(), CaseRefusal>
    ensures { result ≡ fields_refusal bytes.now }
{
    check_field(
        bytes,
        0,
        1,
        Lengths {
            step: 1,
            least: 2,
            most: 2,
        },
    )?;
    let states = parts::byte(bytes, 3);
    if out_of_range(states, parts::byte(bytes, 4)) {
        return Err(CaseRefusal::Range(0));
    }
    check_field(
        bytes,
        5,
        2,
        Lengths {
            step: 1,
            least: 3 * states,
            most: 3 * states,
        },
    )?;
    let at = 8 + 3 * states;
    check_field(
        bytes,
        at,
        3,
        Lengths {
            step: 2,
            least: 2,
            most: MOST_EDGE_BYTES,
        },
    )?;
    check_last_field(bytes, at + 3 + length_at(bytes, at))
}

// Field 04, and nothing after it.
#[tactic(auto, using(crate::proofs::Fields::field_passed), unfolding(crate::specs::Refusals::last_refusal))]
fn check_last_field(bytes: &[u8], at: usize) -> Result<(), CaseRefusal>
    requires { at < 4294967296 }
    ensures { result ≡ last_refusal bytes.now at }
{
    check_field(
        bytes,
        at,
        4,
        Lengths {
            step: 3,
            least: 3,
            most: MOST_NODE_BYTES,
        },
    )?;
    let end = at + 3 + length_at(bytes, at);
    if end < bytes.len() {
        return Err(CaseRefusal::Rest(end));
    }
    Ok(())
}

// 20 of one state.
fn bad_state(state: StateRecord, atoms: usize) -> bool
    requires { atoms ≤ 16 }
    ensures { result ≡ (not (eqb (state.label / 2 ^ atoms) 0) || ltb 1 state.initial) }
{
    u32::from(state.label) >> atoms != 0 || 1 < state.initial
}

// 21 of one edge.
fn bad_end(edge: Edge, states: usize) -> bool
    ensures { result ≡ (leb states edge.from || leb states edge.to) }
{
    states <= edge.from || states <= edge.to
}

// 22 of one edge.
#[tactic(auto, unfolding(crate::specs::Refusals::not_above, crate::specs::Refusals::above))]
fn not_above(list: &[u8], e: usize) -> bool
    requires { 2 * e + 1 < length list.now }
    ensures { result ≡ not_above list.now e }
{
    if e == 0 {
        return false;
    }
    // By from and then by to, and not `<=` of two edges: compiled, that has 20 instructions where this has 14 or 15, and a small table of
    // many edges took 1.5 times as long to read.
    let edge = parts::edge_at(list, e);
    let from = parts::edge_at(list, e - 1).from;
    if edge.from == from {
        return edge.to <= parts::edge_at(list, e - 1).to;
    }
    edge.from < from
}

// What the first byte of node n must be below: A for an atom, the node's own number for an operand, 1 where it is unused.
#[tactic(auto, unfolding(crate::specs::Refusals::first_limit))]
fn first_limit(operator: Operator, atoms: usize, n: usize) -> usize
    ensures { result ≡ first_limit (code operator) atoms n }
{
    match operator {
        Operator::Plain(Plain::True) => 1,
        Operator::Plain(Plain::Atom) => atoms,
        _ => n,
    }
}

// The same of its second byte.
#[tactic(auto, unfolding(crate::specs::Refusals::second_limit))]
fn second_limit(operator: Operator, n: usize) -> usize
    ensures { result ≡ second_limit (code operator) n }
{
    if 2 <= operator.operands() { n } else { 1 }
}

// 31 of node n.
fn wrong_byte(node: Node, atoms: usize, n: usize) -> bool
    ensures { result ≡ leb (first_limit (code node.operator) atoms n) node.first
        || leb (second_limit (code node.operator) n) node.second }
{
    first_limit(node.operator, atoms, n) <= node.first
        || second_limit(node.operator, n) <= node.second
}

impl Parts<'_> {
    ghost use Rattle.reading.specs.Held.{parts_are};

    // 20.
    #[tactic(auto, unfolding(crate::specs::Refusals::bad_state, crate::specs::Answers::record_of))]
    fn check_states(&self) -> Result<(), CaseRefusal>
        ensures { result ≡ states_refusal self.now.states self.now.atoms self.now.state_list.now }
    {
        for s in 0..self.states {
            if bad_state(record_at(self.state_list, s), self.atoms) {
                return Err(CaseRefusal::Bits(s));
            }
        }
        Ok(())
    }

    // 21 and 22, edge by edge.
    #[tactic(auto, unfolding(crate::specs::Refusals::bad_end))]
    fn check_edges(&self) -> Result<(), CaseRefusal>
        ensures { result ≡ edges_refusal self.now.states self.now.edge_list.now }
    {
        for e in 0..self.edge_list.len() / 2 {
            if bad_end(parts::edge_at(self.edge_list, e), self.states) {
                return Err(CaseRefusal::End(e));
            }
            if not_above(self.edge_list, e) {
                return Err(CaseRefusal::Order(e));
            }
        }
        Ok(())
    }

    // The lowest state that starts no edge, if there is one: two loops left by a label, the form that docs/DECISIONS.md keeps. At
    // the first edge that the state starts it goes on to the next state, and at a dead end it ends both.
    #[tactic(auto, using(crate::proofs::Rows::starts_one, crate::proofs::Rows::starts_none_lem, crate::proofs::Lowest::lowest_is, crate::proofs::Lowest::any_none))]
    fn lowest_dead_end(&self) -> Option<usize>
        ensures none { IsNone result → any (starts_none self.now.edge_list.now) self.now.states ≡ false }
        ensures lowest { IfSome result (λ s. s ≡ lowest (starts_none self.now.edge_list.now) self.now.states) }
        ensures within { IfSome result (λ s. s < self.now.states) }
    {
        let mut found = None;
        'states: for s in 0..self.states {
            for e in 0..self.edge_list.len() / 2 {
                if parts::edge_at(self.edge_list, e).from == s {
                    continue 'states;
                }
            }
            found = Some(s);
            break 'states;
        }
        found
    }

    // 23.
    #[tactic(auto, unfolding(crate::specs::Refusals::dead_end_refusal, crate::specs::Lowest::any))]
    fn check_dead_ends(&self) -> Result<(), CaseRefusal>
        ensures { result ≡ dead_end_refusal self.now.states self.now.edge_list.now }
    {
        match self.lowest_dead_end() {
            Some(s) => Err(CaseRefusal::DeadEnd(s)),
            None => Ok(()),
        }
    }

    // 30 and 31, node by node.
    #[tactic(auto, unfolding(crate::specs::Refusals::unknown, crate::specs::Refusals::wrong_byte))]
    fn check_nodes(&self) -> Result<(), CaseRefusal>
        ensures { result ≡ nodes_refusal self.now.atoms self.now.node_list.now }
    {
        for n in 0..self.node_list.len() / 3 {
            let Ok(node) = parts::read_node(self.node_list, n) else {
                return Err(CaseRefusal::Operator(n));
            };
            if wrong_byte(node, self.atoms, n) {
                return Err(CaseRefusal::Operand(n));
            }
        }
        Ok(())
    }

    // 32.
    #[tactic(auto, unfolding(crate::specs::Refusals::temporals_refusal))]
    fn check_temporals(&self) -> Result<(), CaseRefusal>
        ensures { result ≡ temporals_refusal self.now.node_list.now }
    {
        let temporals = parts::operators_from(self.node_list, FIRST_TEMPORAL);
        if MOST_TEMPORALS < temporals {
            return Err(CaseRefusal::Temporals(temporals));
        }
        Ok(())
    }

    // Rows 20 to 32.
    #[tactic(auto, unfolding(crate::specs::Refusals::parts_refusal))]
    pub fn check(&self) -> Result<(), CaseRefusal>
        ensures { result ≡ parts_refusal (parts_are self.now) }
    {
        self.check_states()?;
        self.check_edges()?;
        self.check_dead_ends()?;
        self.check_nodes()?;
        self.check_temporals()
    }
}
