// A capture around `bus_capture`: looked at whole before anything is done, then read again from its start, run, and its answers written.
ghost use Rattle.std.specs.Prelude.{◌≡◌, ◌≤◌, IfSome, length};
ghost use Rattle.bus_capture.specs.Parts.{session_after, file_after};

use crate::system::{at_end, fail, read_full};
use crate::{usage, written};
use bus_capture::Session;
use bus_output::BLOCK;
use capture_samples::LENGTH;
use chain_record::Chain;
use std::fs;
use std::io::Read;
use std::rt::Files;

// The length of a block of a capture: whole samples, so that none straddles two blocks.
const PART: usize = 65_532;

// A capture that is open, and room for a block of it.
#[derive(Drop)]
struct Source<'a, F> {
    from: F,
    path: &'a str,
    block: [u8; PART],
}

fn complain_bad(rt: &impl Eprint, path: &str, place: u64) {
    let _ = eprintln!(rt; "{path}: refused 40 at {place}");
}

fn complain_changed(rt: &impl Eprint, path: &str) {
    let _ = eprintln!(rt; "{path}: changed while it was read");
}

impl<'a, F: Read> Source<'a, F> {
    fn new(from: F, path: &'a str) -> Source<'a, F> {
        Source {
            from,
            path,
            block: [0; PART],
        }
    }

    // Whether the capture ends behind what was read.
    fn ends(&mut self, rt: &impl Eprint) -> bool {
        match at_end(&mut self.from) {
            Ok(true) => return true,
            Ok(false) => complain_changed(rt, self.path),
            Err(why) => fail(rt, self.path, &why),
        }
        false
    }

    // Reads the next block, which is full but at the end, and says how long it is.
    fn fill(&mut self, rt: &impl Eprint) -> Option<usize>
        ensures { IfSome result (λ n. n ≤ 65_532) }
    {
        let n = match read_full(&mut self.from, &mut self.block) {
            Ok(n) => n,
            Err(why) => {
                fail(rt, self.path, &why);
                return None;
            }
        };
        if n == PART {
            return Some(n);
        }
        if self.ends(rt) {
            return Some(n);
        }
        None
    }

    // Looks at every block, and says where the first bad sample stands in the whole capture.
    fn looked(&mut self, rt: &impl Eprint) -> Option<u64> {
        let mut length = 0u64;
        // Stays: rt.forever() needs a Wait bound, which no function may gain, so the turns are counted up to what no run reaches.
        for _ in 0..u64::MAX {
            let n = self.fill(rt)?;
            let good = capture_samples::good_bytes(&self.block[..n]);
            if good != n {
                complain_bad(rt, self.path, length.wrapping_add(good as u64));
                return None;
            }
            length = length.wrapping_add(n as u64);
            if n < PART {
                break;
            }
        }
        Some(length)
    }

    // Reads the next block anew, which is as long as it was when it was looked at.
    fn fill_anew(&mut self, rt: &impl Eprint, left: u64) -> Option<usize>
        ensures { IfSome result (λ n. n ≤ 65_532) }
    {
        let n = self.fill(rt)?;
        if n as u64 != left.min(PART as u64) {
            complain_changed(rt, self.path);
            return None;
        }
        Some(n)
    }
}

// Whether the file is a capture, and how long; where it is none, why is said.
pub fn look<R: Files + Eprint>(rt: &R, path: &str) -> Option<u64> {
    let from = match fs::open(rt, path) {
        Ok(from) => from,
        Err(why) => {
            fail(rt, path, &why);
            usage(rt);
            return None;
        }
    };
    let mut source = Source::new(from, path);
    source.looked(rt)
}

// Runs a part of whole samples. Every answer goes out before the next part is read; without a reader nothing more is run.
fn fed<R: Print + Eprint>(
    rt: &R,
    part: &[u8],
    out: &mut [u8; BLOCK],
    file: &mut [u8],
    first: Session,
) -> Option<Session>
    ensures { IfSome result (λ s. (s ≡ session_after first file.old part.now) × (file.new ≡ file_after first file.old part.now)) }
{
    let mut session = first;
    let mut rest = part;
    while rest.len() >= LENGTH {
        let t = bus_capture::feed(rest, out, file, session);
        if !written(rt, &out[..t.at]) {
            return None;
        }
        session = t.session;
        rest = &rest[t.used..];
    }
    Some(session)
}

// A block is looked at again before it is run: the file may have changed since.
fn taken<R: Print + Eprint>(
    rt: &R,
    path: &str,
    part: &[u8],
    out: &mut [u8; BLOCK],
    file: &mut [u8],
    first: Session,
) -> Option<Session>
    ensures { IfSome result (λ s. (s ≡ session_after first file.old part.now) × (file.new ≡ file_after first file.old part.now)) }
{
    if capture_samples::good_bytes(part) != part.len() {
        complain_changed(rt, path);
        return None;
    }
    fed(rt, part, out, file, first)
}

// Runs every block of the capture, which has so many bytes.
// A proved loop must end, so this one counts its turns up to a number that no run reaches.
fn run_all<R: Print + Eprint, F: Read>(
    rt: &R,
    chain: Chain,
    file: &mut [u8],
    source: &mut Source<F>,
    length: u64,
) -> Option<()> {
    let mut out = [0u8; BLOCK];
    let mut left = length;
    let mut n = source.fill_anew(rt, left)?;
    let mut session = bus_capture::opened(chain, &source.block[..n]);
    // Stays: rt.forever() needs a Wait bound, which no function may gain, so the turns are counted up to what no run reaches.
    for _ in 0..u64::MAX {
        session = taken(rt, source.path, &source.block[..n], &mut out, file, session)?;
        if n < PART {
            break;
        }
        left = left.wrapping_sub(n as u64);
        n = source.fill_anew(rt, left)?;
    }
    Some(())
}

// Answers every event of the capture, which was so long when it was looked at.
pub fn serve<R: Files + Print + Eprint>(
    rt: &R,
    chain: Chain,
    file: &mut [u8],
    path: &str,
    length: u64,
) {
    match fs::open(rt, path) {
        Ok(from) => {
            run_all(rt, chain, file, &mut Source::new(from, path), length);
        }
        Err(why) => fail(rt, path, &why),
    }
}
