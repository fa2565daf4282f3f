// What an admitted case says: its parts as slices, and from them labels, edges and nodes.
ghost use Rattle.std.specs.Prelude.{◌≡◌, ◌↔◌, ◌+◌, ◌*◌, ◌≤◌, ◌<◌, ◌/◌, ◌^◌, length, get_or, Ok, IsErr, IfOk};
ghost use Rattle.reading.specs.Parts.{label_of, flags_of, initial_of, from_of, to_of, has_edge, node_of, operators_from};
ghost use Rattle.reading.specs.Node.{node_is};
ghost use Rattle.reading.specs.Refusals.{fields_refusal, parts_of, shape_of, case_of};

use crate::{Shape, refuse};
use rule::{Operator, UnknownOperator};

// An admitted case: its bytes, and the sizes that reading them gave.
#[derive(Clone, Copy)]
pub struct Case<'a> {
    pub bytes: &'a [u8],
    pub shape: Shape,
    pub ghost admitted: { case_of bytes.now ≡ Ok shape },
}

// The parts of a case whose fields are right: S, A, and the values of fields 02, 03 and 04.
#[derive(Clone, Copy)]
pub struct Parts<'a> {
    pub states: usize,
    pub atoms: usize,
    pub state_list: &'a [u8],
    pub edge_list: &'a [u8],
    pub node_list: &'a [u8],
    pub ghost few_states: { 3 * states ≤ length state_list.now },
    pub ghost few_atoms: { atoms ≤ 16 },
}

impl<'a> Parts<'a> {
    ghost use Rattle.reading.specs.Held.{parts_are};

    // The parts, by their positions: field 01 takes five bytes, and a field's head three.
    pub fn of(bytes: &'a [u8]) -> Self
        requires { fields_refusal bytes.now ≡ Ok tt }
        ensures { parts_are result ≡ parts_of bytes.now }
    {
        let states = byte(bytes, 3);
        let states_end = 8 + 3 * states;
        let edges_start = states_end + 3;
        let edges_end = edges_start + refuse::length_at(bytes, states_end);
        let nodes_start = edges_end + 3;
        let state_list = &bytes[8..states_end];
        let edge_list = &bytes[edges_start..edges_end];
        let node_list = &bytes[nodes_start..];
        Self {
            states,
            atoms: byte(bytes, 4),
            state_list,
            edge_list,
            node_list,
        }
    }

    // The sizes.
    #[tactic(auto, unfolding(crate::specs::Refusals::shape_of))]
    pub fn shape(&self) -> Shape
        ensures { result ≡ shape_of (parts_are self.now) }
    {
        Shape {
            states: self.states,
            atoms: self.atoms,
            edges: self.edge_list.len() / 2,
            nodes: self.node_list.len() / 3,
            temporals: operators_from(self.node_list, FIRST_TEMPORAL),
            eventualities: operators_from(self.node_list, FIRST_EVENTUALITY),
        }
    }
}

impl<'a> Case<'a> {
    ghost use Rattle.reading.specs.Held.{parts_are};

    // The parts, taken again as `admit` took them.
    #[tactic(auto, using(crate::proofs::Known::known, crate::proofs::Known::passed_fields))]
    fn parts(&self) -> Parts<'a>
        ensures { parts_are result ≡ parts_of self.now.bytes.now }
    {
        Parts::of(self.bytes)
    }

    // The value of field 02.
    pub fn states(&self) -> &'a [u8]
        ensures { result.now ≡ (parts_of self.now.bytes.now).state_list }
    {
        self.parts().state_list
    }

    // The value of field 03.
    pub fn edges(&self) -> &'a [u8]
        ensures { result.now ≡ (parts_of self.now.bytes.now).edge_list }
    {
        self.parts().edge_list
    }

    // The value of field 04.
    pub fn nodes(&self) -> &'a [u8]
        ensures { result.now ≡ (parts_of self.now.bytes.now).node_list }
    {
        self.parts().node_list
    }
}

// The byte at an index, as a number.
pub fn byte(list: &[u8], i: usize) -> usize
    requires { i < length list.now }
    ensures value { result ≡ get_or list.now i 0 }
    ensures small { result < 256 }
{
    usize::from(list[i])
}

// A state's label: bit j of it is atom j. Like those below it asks for the state's three bytes itself: a struct of the list and a
// number within it would have to be made anew for each state.
#[tactic(auto, unfolding(crate::specs::Parts::label_of))]
pub fn label(states: &[u8], s: usize) -> u16
    requires { 3 * s + 2 < length states.now }
    ensures { result ≡ label_of states.now s }
{
    u16::from_le_bytes([states[3 * s], states[3 * s + 1]])
}

// A state's flags, which are 0 or 1 in an admitted case.
#[tactic(auto, unfolding(crate::specs::Parts::flags_of))]
pub fn flags(states: &[u8], s: usize) -> u8
    requires { 3 * s + 2 < length states.now }
    ensures { result ≡ flags_of states.now s }
{
    states[3 * s + 2]
}

// Whether a state is initial.
#[tactic(auto, unfolding(crate::specs::Parts::initial_of))]
pub fn initial(states: &[u8], s: usize) -> bool
    requires { 3 * s + 2 < length states.now }
    ensures { result ≡ initial_of states.now s }
{
    flags(states, s) == 1
}

// An edge: the state that it leaves, and the state that it enters. Edges are ordered by from and then by to.
#[derive(Clone, Copy, PartialEq, Eq, PartialOrd, Ord)]
pub struct Edge {
    pub from: usize,
    pub to: usize,
}

// An edge of the list.
#[tactic(auto, unfolding(crate::specs::Parts::from_of, crate::specs::Parts::to_of))]
pub fn edge_at(edges: &[u8], e: usize) -> Edge
    requires { 2 * e + 1 < length edges.now }
    ensures from { result.from ≡ from_of edges.now e }
    ensures to { result.to ≡ to_of edges.now e }
{
    Edge {
        from: byte(edges, 2 * e),
        to: byte(edges, 2 * e + 1),
    }
}

// Whether the table has an edge from x to y.
#[tactic(auto, using(crate::proofs::Lowest::any_none), unfolding(crate::specs::Parts::has_edge))]
pub fn has_edge(edges: &[u8], x: usize, y: usize) -> bool
    ensures { result ≡ has_edge edges.now x y }
{
    for e in 0..edges.len() / 2 {
        if edge_at(edges, e) == (Edge { from: x, to: y }) {
            return true;
        }
    }
    false
}

// A node: its operator, and its two bytes (an atom's number or the first operand, and the second operand).
#[derive(Clone, Copy, Debug, PartialEq, Eq)]
pub struct Node {
    pub operator: Operator,
    pub first: usize,
    pub second: usize,
}

// Node n, unless its operator is unknown. (Like a state's, a node's three bytes are asked for where they are read.)
#[tactic(auto, unfolding(crate::specs::Parts::node_of))]
pub fn read_node(nodes: &[u8], n: usize) -> Result<Node, UnknownOperator>
    requires { 3 * n + 2 < length nodes.now }
    ensures ok { IfOk result (λ node. node_is node ≡ node_of nodes.now n) }
    ensures unknown { IsErr result ↔ (11 < (node_of nodes.now n).operator) }
{
    Ok(Node {
        operator: Operator::try_from(nodes[3 * n])?,
        first: byte(nodes, 3 * n + 1),
        second: byte(nodes, 3 * n + 2),
    })
}

// Node n of an admitted case.
pub fn node_at(nodes: &[u8], n: usize) -> Node
    requires there { 3 * n + 2 < length nodes.now }
    requires known { (node_of nodes.now n).operator < 12 }
    ensures { node_is result ≡ node_of nodes.now n }
{
    read_node(nodes, n).unwrap()
}

// T counts the operators 6 to 11, and E those from 7.
pub const FIRST_TEMPORAL: usize = 6;

const FIRST_EVENTUALITY: usize = 7;

pub const LAST_OPERATOR: usize = 11;

// How many nodes have operators from this number to 11. By number, since T and E are defined so: an enum read from each number
// would be numbered again to say what was counted.
#[tactic(auto, unfolding(crate::specs::Parts::operators_from, crate::specs::Parts::operator_from, crate::specs::Parts::node_of, crate::specs::Lowest::count))]
pub fn operators_from(nodes: &[u8], low: usize) -> usize
    ensures { result ≡ operators_from low nodes.now }
{
    let mut total = 0;
    for n in 0..nodes.len() / 3 {
        let operator = byte(nodes, 3 * n);
        if (low..=LAST_OPERATOR).contains(&operator) {
            total += 1;
        }
    }
    total
}

// 2 to the power T, for T up to 4.
pub fn guesses(temporals: usize) -> usize
    requires { temporals ≤ 4 }
    ensures power { result ≡ 2 ^ temporals }
    ensures few { result ≤ 16 }
{
    1 << temporals
}

// P, the number of places of the product.
pub fn places(shape: Shape) -> usize
    requires few_states { shape.states ≤ 64 }
    requires few_temporals { shape.temporals ≤ 4 }
    requires fewer_eventualities { shape.eventualities ≤ 4 }
    ensures { result ≡ shape.states * 2 ^ shape.temporals * (shape.eventualities + 1) }
{
    shape.states * guesses(shape.temporals) * (shape.eventualities + 1)
}
