// What the runner asks of the system: the words that it was started with, the bytes of files, and a line where either fails.
ghost use Rattle.std.specs.Prelude.{◌<◌, ◌≤◌, length, take, IfOk};
ghost use Rattle.std.specs.Io.KnownBytes.{Consumes, IsAtEnd};

use std::env::FillError;
use std::io::{Cursor, Read, Write};
use std::rt::Env;
use std::{io, str};

// The longest word that is taken: no path is longer.
pub const WORD: usize = 4_096;

// Room for the system's words for an error.
const REASON: usize = 128;

// The system's words alone: std puts the error's number behind them.
fn reason(text: &str) -> &str {
    match text.split_once(" (os error ") {
        Some((words, _)) => words,
        None => text.trim_end_matches('\0'),
    }
}

// Says what failed, and why.
pub fn fail(rt: &impl Eprint, what: &str, error: &io::Error) {
    let mut room = Cursor::new([0u8; REASON]);
    let _ = write!(room, "{error}");
    let text = str::from_utf8(room.get_ref()).unwrap_or("");
    let why = reason(text);
    let _ = eprintln!(rt; "{what}: {why}");
}

// How many words there are, the program's own name among them, counted no further than asked.
pub fn words<R: Env>(rt: &R, most: usize) -> usize
    ensures { result ≤ most }
{
    let mut next = [0u8; 1];
    (0..most)
        .find(|i| matches!(rt.arg(*i, &mut next), Err(FillError::NotPresent)))
        .unwrap_or(most)
}

// A word as text; where it is none, why is said.
pub fn word<'a, R: Env + Eprint>(rt: &R, i: usize, room: &'a mut [u8; WORD]) -> Option<&'a str> {
    let why = match rt.arg(i, room) {
        Ok(n) => match str::from_utf8(&room[..n]) {
            Ok(text) => return Some(text),
            Err(_) => "not UTF-8",
        },
        Err(FillError::TooLong) => "File name too long",
        Err(FillError::NotPresent) => "Invalid argument",
    };
    let _ = eprintln!(rt; "path: {why}");
    None
}

// Reads until the room is full or the file ends.
pub fn read_full<F: Read>(from: &mut F, room: &mut [u8]) -> io::Result<usize>
    ensures within { IfOk result (λ n. n ≤ length room.new) }
    ensures bytes { IfOk result (λ n. Consumes (F.remaining from.old) (F.remaining from.new) (take n room.new)) }
    ensures end { IfOk result (λ n. n < length room.new → IsAtEnd (F.remaining from.new)) }
{
    // Stays: no plainer otherwise: how far the room is filled is the answer itself.
    let mut done = 0;
    while done < room.len() {
        let n = from.read(&mut room[done..])?;
        if n == 0 {
            break;
        }
        done += n;
    }
    Ok(done)
}

// Whether a file has no byte past those read.
pub fn at_end<F: Read>(from: &mut F) -> io::Result<bool> {
    let mut next = [0u8; 1];
    let n = from.read(&mut next)?;
    Ok(n == 0)
}
