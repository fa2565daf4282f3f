// The bench program: reads a case from standard input, runs the search, and prints the verdict.
#![tactic(auto)]

ghost use Rattle.std.specs.Prelude.{◌≡◌, length};
ghost use Rattle.bench.specs.Told.{Told, Within, Takes};

use search::Lasso;
use std::io;
use std::io::{Read, Write};

// "1,327 bytes are enough for any verdict": one more than the longest case.
const ENOUGH: usize = 1327;

// The most entries that a search needs: 6 and 2 for each of 64 · 2^4 · 5 places.
const WORKSPACE: usize = 30720;

const TRACK: usize = 10240;

// Reads, answers and prints. A read that failed must not pass for a short case: it ends the program with an error, and nothing goes to
// standard output.
fn main(rt: HostRuntime) -> io::Result<()> {
    let mut input = [0u8; ENOUGH];
    let mut workspace = [0u16; WORKSPACE];
    let mut track = [0u16; TRACK];
    let mut out = [0u8; text::LONGEST];
    let length = read_case(&mut rt.stdin(), &mut input)?;
    let filled = answer(&input[..length], &mut workspace, &mut track, &mut out);
    rt.stdout().write_all(&out[..filled])
}

// Reads until the input ends or the room is full. (Not `read_exact`, since the input may end first; and not `read_to_end`, since there is no
// heap for a Vec. So the length stands beside the room.)
fn read_case<R: Read>(from: &mut R, room: &mut [u8]) -> io::Result<usize>
    ensures within { Within result (length room.new) }
    ensures taken { Takes (R.remaining from.old) (R.remaining from.new) result room.new }
{
    let mut taken = 0;
    while taken < room.len() {
        let more = from.read(&mut room[taken..])?;
        if more == 0 {
            return Ok(taken);
        }
        taken += more;
    }
    Ok(taken)
}

// The verdict on a case as text, at the start of out, and how many bytes it is long.
#[tactic(auto, using(crate::proofs::Says::run_fits, crate::proofs::Says::run_shown, crate::proofs::Says::told))]
fn answer(
    bytes: &[u8],
    workspace: &mut [u16],
    track: &mut [u16],
    out: &mut [u8; text::LONGEST],
) -> usize
    requires workspace_room { length workspace.old ≡ WORKSPACE }
    requires track_room { length track.old ≡ TRACK }
    ensures { Told bytes.now out.old out.new result }
{
    match search::search(bytes, workspace, track) {
        Ok(None) => text::holds(out),
        Ok(Some(Lasso { stem, repeat })) => {
            let (stem, rest) = track.split_at(stem);
            text::violated(stem, &rest[..repeat], out)
        }
        Err(refusal) => text::refused(refusal.number(), refusal.place(), out),
    }
}
