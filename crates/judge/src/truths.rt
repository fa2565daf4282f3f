// The truth of every node at every entry of a run. Entry i of the scratch is the value of the nodes there: its bit n is node n.
ghost use Rattle.std.specs.Prelude.{◌≡◌, ◌++◌, suc, ◌+◌, ◌-◌, ◌≤◌, ◌<◌, length, drop, replicate};
ghost use Rattle.bits.specs.Bits.{bit};
ghost use Rattle.meaning.specs.Laws.{greatest};
ghost use Rattle.meaning.specs.Runs.{position};
ghost use Rattle.rule.proofs.Passes.{pass, seed as seed_of};
ghost use Rattle.rule.specs.Operator.{plain_code, temporal_code};
ghost use Rattle.reading.specs.Parts.{node_count};
ghost use Rattle.scratch.proofs.Scratch.{node_with, now_in, stay_in, plain_in, at, Adding, AddedByPasses, AddedTo, labels_of, Tellable};

use crate::run::Run;
pub use crate::word::Entry;
use crate::word::{Operands, with_bit};
use reading::parts;
use rule::{Operator, Plain, Temporal, is_set};

// A rule and a run of its table: the truth of each node can be told at each entry.
#[derive(Clone, Copy)]
pub struct Judging<'a> {
    pub states: &'a [u8],
    pub nodes: &'a [u8],
    pub run: Run<'a>,
    pub ghost tellable: { Tellable states.now nodes.now run.track.now run.k run.m },
}

// The entries stand beside it, and three methods ask for as many as the run has. In one struct with their `&mut`, five would promise that
// the rule, the run and the borrow stay the same, as `text`'s `Adds` does by `same_array`. That bit n is still to be added (`Adding`)
// speaks of the entries too, so it stays a clause of the three functions that add a node.
impl Judging<'_> {
    ghost use Rattle.judge.specs.Truths.{value, Valued};

    // Whether the rule, the last node, is true at entry 0. The first k+m entries of the scratch are 0 afterwards.
    #[tactic(auto, unfolding(rule::proofs::Entries::entries))]
    pub fn rule_holds(&self, scratch: &mut [Entry]) -> bool
        requires { self.now.run.k + self.now.run.m ≤ length scratch.old }
        ensures rule { let n = node_count self.now.nodes.now in result ≡ bit (value self.now n 0) (n - 1) }
        ensures cleared { let used = self.now.run.k + self.now.run.m in
            scratch.new ≡ replicate used 0 ++ drop used scratch.old }
    {
        let count = self.nodes.len() / 3;
        let used = self.run.length();
        let entries = &mut scratch[..used];
        entries.fill(0);
        self.truths(count, entries);
        let rule = is_set(entries[0], count - 1);
        scratch[..used].fill(0);
        rule
    }

    // The value of nodes 0 to n-1 at every entry: that of nodes 0 to n-2 with node n-1's added.
    fn truths(&self, n: usize, entries: &mut [Entry])
        requires few { n ≤ node_count self.now.nodes.now }
        requires none { Valued self.now 0 entries.old }
        ensures { Valued self.now n entries.new }
    {
        if 0 < n {
            self.truths(n - 1, entries);
            self.add_node(n - 1, entries);
        }
    }

    // Adds node n's bit at every entry.
    fn add_node(&self, n: usize, entries: &mut [Entry])
        requires there { n < node_count self.now.nodes.now }
        requires lower { Valued self.now n entries.old }
        ensures { Valued self.now (suc n) entries.new }
    {
        let node = parts::node_at(self.nodes, n);
        let operands = Operands {
            first: node.first,
            second: node.second,
        };
        match node.operator {
            Operator::Plain(operator) => self.add_plain(operator, operands, n, entries),
            Operator::Temporal(operator) => match operator {
                Temporal::X => self.add_next(operands.first, n, entries),
                _ => self.add_passes(operator, operands, n, entries),
            },
        }
    }

    // An operator that lasts, by two passes. Each operator by its name, so that each has two loops of its own: with one pair of loops, which
    // ask at each entry which operator it is, a rule of F took 1.4 times as long. (X never comes here; with an arm for it nothing is asked.)
    fn add_passes(&self, operator: Temporal, operands: Operands, n: usize, entries: &mut [Entry])
        requires whole { length entries.old ≡ self.now.run.k + self.now.run.m }
        requires adding { Adding n entries.old }
        ensures { let node = node_with (temporal_code operator) operands.first operands.second in
            AddedByPasses node self.now.run.k self.now.run.m n entries.old entries.new }
    {
        match operator {
            Temporal::X => self.two_passes(Temporal::X, operands, n, entries),
            Temporal::F => self.two_passes(Temporal::F, operands, n, entries),
            Temporal::G => self.two_passes(Temporal::G, operands, n, entries),
            Temporal::U => self.two_passes(Temporal::U, operands, n, entries),
            Temporal::R => self.two_passes(Temporal::R, operands, n, entries),
            Temporal::W => self.two_passes(Temporal::W, operands, n, entries),
        }
    }

    // The two passes.
    #[inline(always)]
    fn two_passes(&self, operator: Temporal, operands: Operands, n: usize, entries: &mut [Entry])
        requires whole { length entries.old ≡ self.now.run.k + self.now.run.m }
        requires adding { Adding n entries.old }
        ensures { let node = node_with (temporal_code operator) operands.first operands.second in
            AddedByPasses node self.now.run.k self.now.run.m n entries.old entries.new }
    {
        let seed = self.loop_seed(operator, operands, entries);
        add_lasting(operator, operands, n, seed, entries);
    }

    // A plain operator at each entry.
    fn add_plain(&self, operator: Plain, operands: Operands, n: usize, entries: &mut [Entry])
        requires whole { length entries.old ≡ self.now.run.k + self.now.run.m }
        requires adding { Adding n entries.old }
        ensures { let node = node_with (plain_code operator) operands.first operands.second in
            AddedTo n (plain_in node (labels_of self.now.states.now self.now.run.track.now) entries.old)
            entries.old entries.new }
    {
        for (i, entry) in entries.iter_mut().enumerate() {
            let label = parts::label(self.states, self.run.entry(i));
            *entry = with_bit(*entry, n, operands.plain(operator, label, *entry));
        }
    }

    // X is its operand at the next entry.
    fn add_next(&self, operand: usize, n: usize, entries: &mut [Entry])
        requires whole { length entries.old ≡ self.now.run.k + self.now.run.m }
        requires adding { Adding n entries.old }
        requires lower { operand < n }
        ensures { AddedTo n (λ i. bit (at entries.old (position self.now.run.k self.now.run.m (suc i))) operand)
            entries.old entries.new }
    {
        // by index, since another entry is read while this one is written
        for i in 0..entries.len() {
            let next = entries[self.run.after(i)];
            entries[i] = with_bit(entries[i], n, is_set(next, operand));
        }
    }

    // The first pass: over the loop from the last entry down, with the pole as the seed. It gives the truth at entry k.
    #[inline(always)]
    #[tactic(auto, unfolding(rule::proofs::Passes::seed))]
    fn loop_seed(&self, operator: Temporal, operands: Operands, entries: &[Entry]) -> bool
        requires { length entries.now ≡ self.now.run.k + self.now.run.m }
        ensures { let node = node_with (temporal_code operator) operands.first operands.second in
            result ≡ seed_of (now_in node entries.now) (stay_in node entries.now) (greatest (temporal_code operator))
            self.now.run.k self.now.run.m }
    {
        let mut next = operator.pole_word(1) == 1;
        for entry in entries[self.run.k..].iter().rev() {
            next = operands.carried(operator, *entry, next);
        }
        next
    }
}

// The second pass: over all entries from the last down, from the truth at entry k, which comes after the last.
#[inline(always)]
#[tactic(auto, unfolding(rule::proofs::Passes::pass))]
fn add_lasting(operator: Temporal, operands: Operands, n: usize, seed: bool, entries: &mut [Entry])
    requires { Adding n entries.old }
    ensures { let node = node_with (temporal_code operator) operands.first operands.second in
        AddedTo n (λ i. pass (now_in node entries.old) (stay_in node entries.old) seed i (length entries.old - i))
        entries.old entries.new }
{
    let mut next = seed;
    // by index: after `iter_mut().rev()` a proof knows how many entries there are, and not what is in them
    for i in (0..entries.len()).rev() {
        next = operands.carried(operator, entries[i], next);
        entries[i] = with_bit(entries[i], n, next);
    }
}
