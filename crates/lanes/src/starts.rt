// Where each state's edges start in field 03: they rise, so the edges of state s are those from starts[s] to below starts[s + 1].
ghost use Rattle.std.specs.Prelude.{◌≡◌, ◌*◌, ◌≤◌, length};
ghost use Rattle.reading.specs.Parts.{from_of, edge_count};
ghost use Rattle.product.proofs.Lanes.{Starts as StartsOf};
ghost use Rattle.filled.proofs.Filling.{Leaving, Skipped};

use reading::parts;

// By state, and after the last the number of edges.
pub type Starts = [u16; 65];

// The first edge from e on that leaves state s or a higher one, or the number of edges.
fn skip(edges: &[u8], s: usize, e: usize) -> usize
    requires bytes { length edges.now ≡ 2 * edge_count edges.now }
    requires within { e ≤ edge_count edges.now }
    ensures { Skipped edges.now s e result }
{
    let count = edges.len() / 2;
    for at in e..count {
        if s <= parts::edge_at(edges, at).from {
            return at;
        }
    }
    count
}

// Sets the starts of states 0 to S-1, and after them the number of edges.
pub fn fill(edges: &[u8], states: usize, starts: &mut Starts)
    requires { Leaving edges.now states }
    ensures { StartsOf (from_of edges.now) (edge_count edges.now) states starts.new }
{
    let mut e = 0;
    for s in 0..=states {
        e = skip(edges, s, e);
        // `as`: std has no From that narrows, and the proof shows that it fits.
        starts[s] = e as u16;
    }
}
