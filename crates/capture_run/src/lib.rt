// A capture run on a chain and its file, an answer of two bytes for each event: the same as its events fed singly.
#![tactic(auto)]

ghost use Rattle.std.specs.Prelude.{◌≡◌, ◌+◌, ◌*◌, ◌≤◌, length};
ghost use Rattle.capture_events.specs.Events.{capture_events};
ghost use Rattle.capture_run.specs.Captured.{answer_put, Fed, RunThrough, captured_of, captured_file, captured_answers};

use capture_events::Ahead;
use capture_judge::Untaken;
use capture_samples::{LENGTH, sample_of};
use chain_record::Chain;
use event::Answer;
use event::numbers::{number, value};

#[derive(Clone, Copy)]
pub struct Captured {
    pub chain: Chain,
    pub taking: Result<u64, Untaken>,
}

// An answer's number and value, one behind the other.
// Stays: no plainer: a pair of bytes taken from an iterator over the answers may be none, and here its room is proved.
fn put(answers: &mut [u8], at: usize, answer: Answer)
    requires { at + 2 ≤ length answers.old }
    ensures { answers.new ≡ answer_put answers.old at answer }
{
    answers[at..at + 2].copy_from_slice(&[number(answer), value(answer)]);
}

// An event without a second operand, and its answer put down.
fn feed(c: Chain, file: &mut [u8], answers: &mut [u8], at: usize, e: Ahead) -> Chain
    requires { at + 2 ≤ length answers.old }
    ensures { Fed c file.old answers.old at e.kind e.a result file.new answers.new }
{
    let s = chain_step::step(c, file, e.kind, e.a, 0);
    put(answers, at, s.answer);
    s.chain
}

// Every event of a capture, for whose answers there is room.
fn run_through(c: Chain, file: &mut [u8], capture: &[u8], answers: &mut [u8]) -> Chain
    requires { 2 * length (capture_events c.lines capture.now) ≤ length answers.old }
    ensures { RunThrough c file.old capture.now answers.old result file.new answers.new }
{
    let (samples, _) = capture.as_chunks::<LENGTH>();
    let mut chain = c;
    let mut at = capture_events::start(c.lines, capture);
    let mut said = 0;
    for part in samples {
        let to = sample_of(part);
        while let Some(ahead) = capture_events::next(at, to) {
            chain = feed(chain, file, answers, said, ahead);
            at = ahead.reached;
            said += 2;
        }
        at = to;
    }
    chain
}

// A capture on a chain and its file. One that is refused leaves the chain, the file and the answers.
// Stays: the C interface. C lends record, file, capture and answers singly (esdi_capture in include/esdi.h).
#[tactic(auto, unfolding(crate::specs::Captured::captured_of, crate::specs::Captured::captured_file, crate::specs::Captured::captured_answers))]
pub fn run(c: Chain, file: &mut [u8], capture: &[u8], answers: &mut [u8]) -> Captured
    ensures { (result ≡ captured_of c file.old capture.now (length answers.old))
        × ((file.new ≡ captured_file c file.old capture.now (length answers.old))
        × (answers.new ≡ captured_answers c file.old capture.now answers.old)) }
{
    let taking = capture_judge::judge(c.lines, capture, answers.len());
    let chain = match taking {
        Ok(_) => run_through(c, file, capture, answers),
        Err(_) => c,
    };
    Captured { chain, taking }
}
