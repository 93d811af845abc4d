// The bus runner: fits a chain from a pack file and answers event lines, or a capture's events. What is wrong goes to standard error.
#![tactic(auto)]

mod capture;
mod stream;
mod system;

ghost use Rattle.std.specs.Prelude.{◌≤◌, IfOk, IfSome};

use chain_record::Chain;
use pack_read::read::Refused;
use std::io::{ErrorKind, Read};
use std::rt::Runtime;
use std::{fs, io};
use system::{WORD, at_end, fail, read_full, word, words};

// The longest pack file that is taken: it lies on the stack.
const LIMIT: usize = 1_048_576;

// The length of two packs of the smallest drive.
const TWO: usize = 2 * bus_smallest::PACK;

// The system's number for a descriptor that is not open: std has no kind of error for it.
const NOT_OPEN: i32 = 9;

// Where the events are read.
#[derive(Clone, Copy)]
enum Events<'a> {
    Input,
    // a capture's file, and how long it was when it was looked at
    Capture { path: &'a str, length: u64 },
}

// What can't be said on standard error is left unsaid.
fn complain(rt: &impl Eprint, text: &str) {
    let _ = rt.eprintln(text);
}

fn usage(rt: &impl Eprint) {
    complain(
        rt,
        "usage: bus [PACK-FILE] < EVENTS, or bus --capture CAPTURE [PACK-FILE]",
    );
}

// The words are not those of the usage.
fn misused(rt: &impl Eprint, text: &str) {
    complain(rt, text);
    usage(rt);
}

// A reader that has gone away is not reported.
fn complain_unwritten(rt: &impl Eprint, why: &io::Error) {
    if why.kind() == ErrorKind::BrokenPipe {
        return;
    }
    if why.raw_os_error() == Some(NOT_OPEN) {
        return;
    }
    fail(rt, "standard output", why);
}

// Writes what waits. Gives whether the reader is still there.
fn written<R: Print + Eprint>(rt: &R, waiting: &[u8]) -> bool {
    match rt.write_all(waiting) {
        Ok(()) => true,
        Err(why) => {
            complain_unwritten(rt, &why);
            false
        }
    }
}

fn complain_refused(rt: &impl Eprint, refused: Refused) {
    let number = u8::from(refused.why);
    let at = refused.place.0;
    let _ = eprintln!(rt; "refused {number} at {at}");
}

fn serve<R: Runtime>(rt: &R, chain: Chain, file: &mut [u8], events: Events) {
    match events {
        Events::Input => stream::serve(rt, chain, file),
        Events::Capture { path, length } => capture::serve(rt, chain, file, path, length),
    }
}

// Answers the events over a pack file in memory.
fn run<R: Runtime>(rt: &R, file: &mut [u8], events: Events) {
    let fitted = chain_fit::fit(file);
    match fitted.answer {
        Ok(()) => serve(rt, fitted.chain, file, events),
        Err(refused) => complain_refused(rt, refused),
    }
}

// The smallest drive in slots 1 and 3.
fn run_two<R: Runtime>(rt: &R, file: &mut [u8; TWO], events: Events) {
    let _ = pack_lay::lay(bus_smallest::drive(1), file);
    let _ = pack_lay::lay(bus_smallest::drive(3), &mut file[bus_smallest::PACK..]);
    run(rt, file, events);
}

fn run_smallest<R: Runtime>(rt: &R, events: Events) {
    run_two(rt, &mut [0u8; TWO], events);
}

// Reads a file whole and says how long it is, or nothing where it is longer than the room.
fn read_whole<F: Read>(from: &mut F, room: &mut [u8; LIMIT]) -> io::Result<Option<usize>>
    ensures { IfOk result (λ read. IfSome read (λ n. n ≤ 1_048_576)) }
{
    let n = read_full(from, room)?;
    if at_end(from)? {
        return Ok(Some(n));
    }
    Ok(None)
}

// Runs on a pack file. Where it can't be taken, why is said.
fn run_named<R: Runtime>(rt: &R, path: &str, events: Events) {
    let mut from = match fs::open(rt, path) {
        Ok(from) => from,
        Err(why) => {
            fail(rt, path, &why);
            usage(rt);
            return;
        }
    };
    let mut room = [0u8; LIMIT];
    let read = read_whole(&mut from, &mut room);
    drop(from);
    match read {
        Ok(Some(n)) => run(rt, &mut room[..n], events),
        Ok(None) => {
            let _ = eprintln!(rt; "{path}: longer than {LIMIT} bytes, the most that is taken");
        }
        Err(why) => fail(rt, path, &why),
    }
}

// Runs a capture, on the pack file that the words name, or on the smallest drives.
fn run_captured<R: Runtime>(rt: &R, count: usize, path: &str) {
    let Some(length) = capture::look(rt, path) else {
        return;
    };
    let events = Events::Capture { path, length };
    if count == 3 {
        run_smallest(rt, events);
        return;
    }
    let mut room = [0u8; WORD];
    let Some(pack) = word(rt, 3, &mut room) else {
        usage(rt);
        return;
    };
    run_named(rt, pack, events);
}

fn start_capture<R: Runtime>(rt: &R, count: usize) {
    if count < 3 {
        misused(rt, "bus: no capture");
        return;
    }
    if count > 4 {
        misused(rt, "bus: more than two files");
        return;
    }
    let mut room = [0u8; WORD];
    let Some(path) = word(rt, 2, &mut room) else {
        usage(rt);
        return;
    };
    run_captured(rt, count, path);
}

// The whole program: no argument, or the path of a pack file; or a capture and perhaps a pack file.
// Stays: no plainer: the usage is told apart by how many words there are, here and in the two functions above.
pub fn start<R: Runtime>(rt: &R) {
    let count = words(rt, 5);
    if count < 2 {
        run_smallest(rt, Events::Input);
        return;
    }
    let mut room = [0u8; WORD];
    let Some(first) = word(rt, 1, &mut room) else {
        usage(rt);
        return;
    };
    if first == "--capture" {
        start_capture(rt, count);
        return;
    }
    if count > 2 {
        misused(rt, "bus: more than one argument");
        return;
    }
    run_named(rt, first, Events::Input);
}
