// Event lines, read byte by byte.
ghost use Rattle.std.specs.Prelude.{◌≡◌, ◌≤◌, length};
ghost use Rattle.bus_text.specs.Scan.{parted_of, grown_of, fed_of, finish_of, has_byte_of};
ghost use Rattle.bus_text.specs.TextLines.{line_stop};

use crate::{Numbers, Scan, Stop};

// A space ends a word that has a byte, and begins the second or the third.
#[tactic(auto, unfolding(crate::specs::Scan::parted_of))]
fn parted(s: Scan) -> Scan
    ensures { result ≡ parted_of s }
{
    if s.spaces > 1 {
        return Scan::SPOILED;
    }
    if !s.begun {
        return Scan::SPOILED;
    }
    Scan {
        spaces: s.spaces + 1,
        begun: false, // so that a second space spoils the line
        first: s.second,
        second: s.third,
        third: 0,
    }
}

// Any other byte is one more digit.
#[tactic(auto, unfolding(crate::specs::Scan::grown_of))]
fn grown(s: Scan, byte: u8) -> Scan
    ensures { result ≡ grown_of s byte }
{
    if byte < b'0' {
        return Scan::SPOILED;
    }
    if byte > b'9' {
        return Scan::SPOILED;
    }
    let number = s.third as u32 * 10 + (byte - b'0') as u32;
    if number > 65_535 {
        return Scan::SPOILED;
    }
    Scan {
        begun: true,
        third: number as u16,
        ..s
    }
}

// The line with one byte more.
#[tactic(auto, unfolding(crate::specs::Scan::fed_of))]
fn fed(s: Scan, byte: u8) -> Scan
    ensures { result ≡ fed_of s byte }
{
    if byte == b' ' {
        return parted(s);
    }
    grown(s, byte)
}

// What the line says at its end: none where it can't be read.
#[tactic(auto, unfolding(crate::specs::Scan::finish_of))]
pub fn finish(s: Scan) -> Option<Numbers>
    ensures { result ≡ finish_of s }
{
    if s.spaces != 2 {
        return None;
    }
    if !s.begun {
        return None;
    }
    Some(Numbers {
        kind: s.first,
        a: s.second,
        b: s.third,
    })
}

// Whether the line has a byte. Behind the last newline a line without one does not count.
pub fn has_byte(s: Scan) -> bool
    ensures { result ≡ has_byte_of s }
{
    s.begun | (s.spaces > 0)
}

// Reads on from the part's start to the next newline, or to the part's end.
pub fn scan_on(part: &[u8], scan: Scan) -> Stop
    ensures { (result ≡ line_stop part.now scan) × (result.at ≤ length part.now) }
{
    let mut s = scan;
    for (at, &byte) in part.iter().enumerate() {
        if byte == b'\n' {
            return Stop { at, scan: s };
        }
        s = fed(s, byte);
    }
    Stop {
        at: part.len(),
        scan: s,
    }
}
