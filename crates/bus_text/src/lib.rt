// The runner's text: event lines read byte by byte, and answer lines stored as bytes.
#![tactic(auto)]

pub mod put;
pub mod read;

ghost use Rattle.std.specs.Prelude.{◌≡◌};
ghost use Rattle.bus_text.specs.Whole.{unreadable_number};
ghost use Rattle.bus_text.specs.Scan.{fresh_scan};

// What an event line says that can be read.
#[derive(Clone, Copy)]
pub struct Numbers {
    pub kind: u16,
    pub a: u16,
    pub b: u16,
}

// An event line as far as it was read, in fixed memory whatever its length.
#[derive(Clone, Copy, Default)]
pub struct Scan {
    // how many spaces were met (u32: with a scan of eight bytes reading was a third slower)
    spaces: u32,
    // whether the word behind the last space has a byte
    // Stays: no plainer as third's Option: parted and finish would match it, but has_byte and grown take it apart for one half.
    begun: bool,
    // the numbers of the last three words
    first: u16,
    second: u16,
    third: u16,
}

impl Scan {
    // Three spaces are one too many, so nothing that follows makes the line readable.
    // Stays: no plainer: an Option of a scan would be asked for at each byte, and three spaces say the same.
    const SPOILED: Scan = Scan {
        spaces: 3,
        begun: true,
        first: 0,
        second: 0,
        third: 0,
    };

    pub fn fresh() -> Scan
        ensures { result ≡ fresh_scan }
    {
        Scan::default()
    }
}

// Where a line stopped in a part of the input, at its newline or at the part's end, and its scan there.
#[derive(Clone, Copy)]
pub struct Stop {
    pub at: usize,
    pub scan: Scan,
}

// Document 01's number of a line that isn't three numbers: the runner's own answer.
// Stays: a public function: its contract ties the number to the document's (unreadable_number), and a constant has none.
pub fn unreadable() -> u8
    ensures { result ≡ unreadable_number }
{
    19
}
