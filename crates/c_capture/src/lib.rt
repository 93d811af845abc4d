// A capture in plain numbers: run on a chain, and its answers counted.
#![tactic(auto)]

ghost use Rattle.std.specs.Prelude.{◌≡◌, length};
ghost use Rattle.capture_run.specs.Captured.{captured_file, captured_answers};
ghost use Rattle.c_capture.specs.Capture.{count_code, taking_code, lent_capture, capture_count};

use c_pack::{Coded, SECOND_BYTE};
use capture_judge::Untaken;
use chain_record::Chain;

// What there is room for above the answer's byte.
const MOST: u64 = 72_057_594_037_927_935;

// An answer's number in the low byte, a count or a place above it.
#[tactic(auto, unfolding(crate::specs::Capture::count_code))]
fn code(number: u8, n: u64) -> u64
    ensures { result ≡ count_code number n }
{
    let told = n.min(MOST);
    number as u64 + told * SECOND_BYTE
}

// What becomes of a capture: its number, and its count or place.
fn taking_code(t: Result<u64, Untaken>) -> u64
    ensures { result ≡ taking_code t }
{
    code(
        capture_judge::taking_number(t),
        capture_judge::taking_value(t),
    )
}

// A capture on a chain and its file, an answer of two bytes for each event.
// Stays: the C interface. C lends record, file, capture and answers singly (esdi_capture in include/esdi.h).
#[tactic(auto, unfolding(crate::specs::Capture::lent_capture))]
pub fn capture(c: Chain, file: &mut [u8], capture: &[u8], answers: &mut [u8]) -> Coded<Chain>
    ensures { (result ≡ lent_capture c file.old capture.now (length answers.old))
        × ((file.new ≡ captured_file c file.old capture.now (length answers.old))
        × (answers.new ≡ captured_answers c file.old capture.now answers.old)) }
{
    let ran = capture_run::run(c, file, capture, answers);
    Coded {
        lent: ran.chain,
        code: taking_code(ran.taking),
    }
}

// How many answers a capture will have, or where it is none. No room is asked for, so none is missed.
#[tactic(auto, unfolding(crate::specs::Capture::capture_count))]
pub fn count(c: Chain, capture: &[u8]) -> u64
    ensures { result ≡ capture_count c capture.now }
{
    let taking = capture_judge::judge(c.lines, capture, 0);
    match taking {
        Err(Untaken::NoRoom(n)) => taking_code(Ok(n)),
        Err(Untaken::NotCapture(_)) | Ok(_) => taking_code(taking),
    }
}
