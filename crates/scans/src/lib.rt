// Scans: the next successor of a place whose colour is below a limit. A cursor is 16 times the edge, counted from the state's
// first, plus the successor's bits.
#![tactic(auto)]

ghost use Rattle.std.specs.Prelude.{◌≡◌, ℕ, ◌+◌, ◌-◌, ◌*◌, ◌/◌, ◌%◌, ◌≤◌, ◌<◌, length, get_or, true, IfSome, MatchOption};
ghost use Rattle.bits.specs.Bits.{bit};
ghost use Rattle.workspace.proofs.Setting.{Topped, Coded};
ghost use Rattle.workspace.proofs.TurnsIn.{ScanFinds, ScanSkips};
ghost use Rattle.workspace.proofs.Scanning.{next_in, cursors_in, RowIn, narrowed_in, fitting_in, Clear, LowestSet, Spared, LowestUnder, Scannable, Passed, Stops};
ghost use Rattle.scans.specs.Cases.{OfCase, shade, index_with, colour_with, line};

use lanes::starts::Starts;
use lanes::{CARRY, FAILS, Lanes, MET, NEED};
use reading::parts;
use rule::is_set;

pub mod places;
pub mod roots;

use places::{Colour, Place, Sizes};

// What a scan finds: where it stands then, and the code of the place there.
#[derive(Clone, Copy)]
pub struct Candidate {
    pub cursor: usize,
    pub code: usize,
}

// A stack in the workspace: where it starts, and how many places it has. As many entries as there are places lie from its start to that
// of its cursors.
#[derive(Clone, Copy)]
pub struct Stack {
    pub base: usize,
    pub depth: usize,
}

// The cursors of a place: its successors' waiting number, its first edge, and where its cursors end.
#[derive(Clone, Copy)]
struct Cursors {
    place: Place,
    next: usize,
    first: usize,
    end: usize,
}

// The lowest bit from b on that is set in a lane.
#[tactic(auto, using(workspace::proofs::Trailing::clear_from, workspace::proofs::Trailing::set_from))]
fn lowest_set(lane: u16, b: usize) -> Option<usize>
    requires { b ≤ 16 }
    ensures { MatchOption result (Clear lane b 16) (λ r. LowestSet lane b r) }
{
    // `as`, here and below, where std has no From: between u32 and usize, to a narrower type, and from an enum.
    let lowest = b + (u32::from(lane) >> b).trailing_zeros() as usize;
    if lowest < 16 { Some(lowest) } else { None }
}

// What a scan goes by: a case's edges, its lanes, where each state's edges start, and its sizes. That they are one case's is a clause
// where it is needed, one that begins with `(c : OfCase ..)`. It is no ghost field: the fields do not give the case, and a ghost field
// has one proof at most. It is no `ghost` clause: a caller picks such a value from the arguments alone, and a case is not made from
// those.
#[derive(Clone, Copy)]
pub struct Setting<'a> {
    pub edges: &'a [u8],
    pub lanes: &'a Lanes,
    pub starts: &'a Starts,
    pub sizes: Sizes,
}

impl Setting<'_> {
    // The waiting number after a place.
    fn next_waiting(&self, place: Place) -> usize
        ensures { result ≡ next_in self.now.lanes.now self.now.sizes.top place.state place.bits place.waiting }
    {
        if self.sizes.top <= place.waiting {
            return 0;
        }
        let met = self.lanes[place.state * 16 + MET + place.waiting];
        if is_set(u32::from(met), place.bits) {
            return place.waiting + 1;
        }
        place.waiting
    }

    // Where the cursors of a place end whose state has so many edges: 16 for each of them, or none where nothing follows.
    fn end(&self, edges: usize, place: Place) -> usize
        requires { edges < 65536 }
        ensures { result ≡ cursors_in self.now.lanes.now edges place.state place.bits }
    {
        let fails = self.lanes[place.state * 16 + FAILS];
        if is_set(u32::from(fails), place.bits) {
            return 0;
        }
        edges * 16
    }

    // The cursors of the place that a code stands for. That a code is below 8192 stays a clause, here and in `places`: as a type it would
    // be no plainer, since tracks reads codes of which no bound is known.
    fn cursors_of(&self, code: usize) -> Cursors
        requires coded { code < 8192 }
        requires rises { get_or self.now.starts.now (code / 128) 0 ≤ get_or self.now.starts.now (code / 128 + 1) 0 }
        ensures { RowIn self.now.lanes.now self.now.starts.now self.now.sizes.top code result.place.state result.place.bits result.next result.first result.end }
    {
        let place = Place::decode(code);
        let first = usize::from(self.starts[place.state]);
        let after = usize::from(self.starts[place.state + 1]);
        Cursors {
            place,
            next: self.next_waiting(place),
            first,
            end: self.end(after - first, place),
        }
    }

    // The bits that fit, cut down by temporal node number t: where the place needs it, it is carried on as it is.
    #[tactic(auto, unfolding(workspace::proofs::Scanning::narrowed_in))]
    fn narrowed(&self, fit: u16, place: Place, next: usize, t: usize) -> u16
        requires next { next < 64 }
        requires node { t < 4 }
        ensures { result ≡ narrowed_in self.now.lanes.now fit place.state place.bits next t }
    {
        let need = self.lanes[place.state * 16 + NEED + t];
        if is_set(u32::from(need), place.bits) {
            let lane = self.lanes[next * 16 + CARRY + t];
            if is_set(place.bits as u32, t) {
                return fit & lane;
            }
            return fit & !lane;
        }
        fit
    }

    // The bits with which state `next` follows a place, as a lane.
    #[tactic(auto, unfolding(workspace::proofs::Scanning::fitting_in))]
    fn fitting(&self, ones: u16, place: Place, next: usize) -> u16
        requires { next < 64 }
        ensures { result ≡ fitting_in self.now.lanes.now ones place.state place.bits next }
    {
        let mut fit = ones;
        for t in 0..4 {
            fit = self.narrowed(fit, place, next, t);
        }
        fit
    }

    // This place with the lowest bits, from its own on, that are set in `fit` and give it a colour below the limit.
    fn scan_bits(&self, workspace: &[u16], fit: u16, from: Place, limit: Colour) -> Option<Place>
        requires { (j : ℕ) → j < 16 → bit fit j ≡ true → index_with self.now from j < length workspace.now }
        ensures state { IfSome result (λ p. p.state ≡ from.state) }
        ensures waiting { IfSome result (λ p. p.waiting ≡ from.waiting) }
        ensures lowest { let colour = colour_with self.now workspace.now from in
            MatchOption result (Spared fit colour (shade limit) from.bits 16) (λ p. LowestUnder fit colour (shade limit) from.bits p.bits) }
    {
        // From set bit to set bit: the median ratio of `make speed` is 0.58 so, and 0.65 with a `for` over all bits.
        let mut b = from.bits;
        while let Some(bits) = lowest_set(fit, b) {
            let place = Place {
                state: from.state,
                bits,
                waiting: from.waiting,
            };
            if workspace[self.sizes.number(place)] < limit as u16 {
                return Some(place);
            }
            b = bits + 1;
        }
        None
    }

    // The lowest cursor from this one on whose candidate has a colour below the limit.
    fn scan(
        &self,
        workspace: &[u16],
        cursors: Cursors,
        cursor: usize,
        limit: Colour,
    ) -> Option<Candidate>
        requires { Scannable (line self.now cursors) workspace.now cursors.end }
        ensures { MatchOption result (Passed (line self.now cursors) workspace.now (shade limit) cursor cursors.end)
            (λ found. Stops (line self.now cursors) workspace.now (shade limit) cursors.end cursor found.cursor found.code) }
    {
        let mut bits = cursor % 16;
        for edge in cursor / 16..cursors.end / 16 {
            let state = parts::edge_at(self.edges, cursors.first + edge).to;
            let fit = self.fitting(self.sizes.ones, cursors.place, state);
            let from = Place {
                state,
                bits,
                waiting: cursors.next,
            };
            if let Some(place) = self.scan_bits(workspace, fit, from, limit) {
                return Some(Candidate {
                    cursor: edge * 16 + place.bits,
                    code: place.code(),
                });
            }
            bits = 0;
        }
        None
    }

    // Scans on from the top of a stack. Inlined, since each of its two callers has a limit of its own: the median ratio of
    // `make speed` is 0.58 so, and 0.69 with a call.
    #[inline(always)]
    pub fn scan_top(&self, workspace: &[u16], stack: Stack, limit: Colour) -> Option<Candidate>
        requires { (c : OfCase self.now) × Topped c.parts workspace.now stack.base stack.depth }
        ensures coded { (c : OfCase self.now) → Topped c.parts workspace.now stack.base stack.depth
            → IfSome result (λ found. Coded c.parts found.code) }
        ensures scanned { (c : OfCase self.now) → Topped c.parts workspace.now stack.base stack.depth
            → MatchOption result (ScanSkips c workspace.now stack.base stack.depth (shade limit))
            (λ found. ScanFinds c workspace.now stack.base stack.depth (shade limit) found.cursor found.code) }
    {
        let code = usize::from(workspace[stack.base + stack.depth - 1]);
        let cursor = usize::from(workspace[stack.base + self.sizes.places + stack.depth - 1]);
        self.scan(workspace, self.cursors_of(code), cursor, limit)
    }
}
