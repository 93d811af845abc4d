// The lines of the control cable that the host drives.
#![tactic(auto)]

ghost use Rattle.std.specs.Prelude.{◌≡◌};
ghost use Rattle.lines.specs.Lines.{lines_b};

use counts::{Head, LAST_SLOT};

// The levels of the control cable's lines that the host drives. The gates have two bytes so that no byte is padding.
// Stays: levels are numbers, since C lends the record.
#[repr(C)]
#[derive(Clone, Copy, Default, PartialEq, Eq)]
pub struct Lines {
    pub select: u8,
    pub heads: Head,
    pub writegate: u16,
    pub readgate: u16,
    pub command: u8,
    pub request: u8,
}

impl Lines {
    // The highest drive select code, the last slot's.
    pub const LAST_SELECT: u8 = LAST_SLOT;

    // The highest code of the head lines.
    pub const LAST_HEAD: u8 = 15;
}

// Whether every line has a level that an event could give it.
pub fn kept(l: Lines) -> bool
    ensures { result ≡ lines_b l }
{
    (l.select <= Lines::LAST_SELECT)
        & (l.heads.0 <= Lines::LAST_HEAD)
        & (l.writegate <= 1)
        & (l.readgate <= 1)
        & (l.command <= 1)
        & (l.request <= 1)
}
