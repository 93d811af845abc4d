// Standard input and output around `bus_stream`: a block is read, its answers are written, and the next is read.
ghost use Rattle.std.specs.Prelude.{◌≡◌, ◌≤◌, [], IfSome};
ghost use Rattle.bus_stream.specs.Stream.{stream_of, fed_bytes};
ghost use Rattle.bus_output.specs.Output.{block_length};

use crate::system::fail;
use crate::written;
use bus_output::BLOCK;
use bus_stream::Session;
use chain_record::Chain;
use std::io::Read;

// Stays: no Option is plainer: the session goes on after a failed write too, as `fed` promises.
#[derive(Clone, Copy)]
struct Run {
    session: Session,
    // false once a write failed
    open: bool,
}

// A part of the input. Every answer goes out before the next read, since a host may wait for it.
fn fed<R: Print + Eprint>(
    rt: &R,
    part: &[u8],
    out: &mut [u8; BLOCK],
    file: &mut [u8],
    first: Run,
) -> Run
    ensures { (result.session ≡ (fed_bytes (stream_of first.session file.old []) part.now).session) × (file.new ≡ (fed_bytes (stream_of first.session file.old []) part.now).file) }
{
    let mut r = first;
    let mut rest = part;
    while !rest.is_empty() {
        let t = bus_stream::feed(rest, out, file, r.session);
        let session = t.session;
        let open = r.open && written(rt, &out[..t.at]);
        r = Run { session, open };
        rest = &rest[t.used..];
    }
    r
}

// Reads once: how much came, and nothing at the end of the input or where the read fails, which is said.
fn filled<I: Read>(rt: &impl Eprint, input: &mut I, block: &mut [u8; BLOCK]) -> Option<usize>
    ensures { IfSome result (λ n. n ≤ block_length) }
{
    match input.read(block) {
        Ok(0) => None,
        Ok(n) => Some(n),
        Err(why) => {
            fail(rt, "standard input", &why);
            None
        }
    }
}

// Reads to the end of the input, or until a write has failed.
// A proved loop must end, so this one counts its turns up to a number that no run reaches.
fn run_all<R: Print + Eprint, I: Read>(
    rt: &R,
    input: &mut I,
    out: &mut [u8; BLOCK],
    file: &mut [u8],
    first: Run,
) -> Run {
    let mut block = [0u8; BLOCK];
    let mut r = first;
    // Stays: rt.forever() needs a Wait bound, which no function may gain, so the turns are counted up to what no run reaches.
    for _ in 0..u64::MAX {
        if !r.open {
            break;
        }
        let Some(n) = filled(rt, input, &mut block) else {
            break;
        };
        r = fed(rt, &block[..n], out, file, r);
    }
    r
}

// Answers every line of standard input.
pub fn serve<R: Input + Print + Eprint>(rt: &R, chain: Chain, file: &mut [u8]) {
    let mut out = [0u8; BLOCK];
    let first = Run {
        session: bus_stream::opened(chain),
        open: true,
    };
    let r = run_all(rt, &mut rt.reader(), &mut out, file, first);
    let n = bus_stream::close(&mut out, file, r.session);
    if r.open {
        written(rt, &out[..n]);
    }
}
