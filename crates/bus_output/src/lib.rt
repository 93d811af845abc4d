// The output that waits: answer lines stored one behind the other in a block, until they are written.
#![tactic(auto)]

ghost use Rattle.std.specs.Prelude.{◌+◌, ◌≤◌, length};
ghost use Rattle.bus_text.specs.AnswerLine.{bytes_of, longest_line};
ghost use Rattle.bus_output.specs.Output.{room_for, Stored};

use bus_text::put::{AnswerLine, LONGEST};

// The length of a block of input, and of the output that waits.
pub const BLOCK: usize = 65_536;

// The line behind the output that waits, where there is room for it.
fn store(out: &mut [u8], at: usize, line: AnswerLine) -> usize
    requires { at + longest_line ≤ length out.old }
    ensures { Stored out.old at (bytes_of line) out.new result }
{
    at + bus_text::put::put_answer(&mut out[at..], line)
}

// Puts an answer line behind the output that waits, and gives the place where it ends.
// Where the longest line might not fit nothing is stored, and the place stays.
// Stays: any place may be given, also past the block (room_for), so no struct keeps it within, here or in Waiting and Turn.
pub fn put(out: &mut [u8; BLOCK], at: usize, line: AnswerLine) -> usize
    ensures { Stored out.old at (room_for at (bytes_of line)) out.new result }
{
    if at > BLOCK - LONGEST {
        return at;
    }
    store(out, at, line)
}
