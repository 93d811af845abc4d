// The runner over a capture as a function of bytes: samples in, an answer line for each event out. No descriptor is read or written here.
#![tactic(auto)]

ghost use Rattle.std.specs.Prelude.{◌≡◌, ◌+◌, ◌≤◌};
ghost use Rattle.bus_text.specs.AnswerLine.{longest_line};
ghost use Rattle.bus_output.specs.Output.{block_length};
ghost use Rattle.bus_capture.specs.Parts.{opened_of};
ghost use Rattle.bus_capture.specs.Kept.{Answers, Fed};

use bus_output::BLOCK;
use bus_text::put::LONGEST;
use capture_events::Ahead;
use capture_samples::{LENGTH, Sample, sample_of};
use chain_record::Chain;

// A session reaches a sample of the capture.
pub type Session = bus_session::Session<Sample>;

type Waiting = bus_session::Waiting<Sample>;

pub type Turn = bus_session::Turn<Sample>;

// A session before the first sample, which stands at the start of the part.
pub fn opened(chain: Chain, part: &[u8]) -> Session
    ensures { result ≡ opened_of chain part.now }
{
    let lines = chain.lines;
    let at = capture_events::start(lines, part);
    Session {
        chain,
        at,
        lines: 0,
    }
}

// An event without a second operand, its answer put behind the output that waits.
fn answered(out: &mut [u8; BLOCK], at: usize, file: &mut [u8], s: Session, e: Ahead) -> Waiting
    requires { at + longest_line ≤ block_length }
    ensures { Answers s e file.old out.old at result file.new out.new }
{
    let reply = bus_reply::to_event(s.chain, file, e.kind, e.a, 0);
    bus_session::answered(out, at, s.lines, reply, e.reached)
}

// Runs a part's whole samples, from an output with nothing waiting, until they are used up or the next answer might not fit.
// It may stop inside a sample: going on is the same call over the rest of the part.
// Stays: no plainer: the contract, Fed, names out, file and session singly, so a struct of them would be taken apart in it.
pub fn feed(part: &[u8], out: &mut [u8; BLOCK], file: &mut [u8], first: Session) -> Turn
    ensures { Fed part.now first file.old out.old result file.new out.new }
{
    let mut session = first;
    let mut rest = part;
    let mut at = 0;
    while rest.len() >= LENGTH {
        let to = sample_of(rest);
        match capture_events::next(session.at, to) {
            Some(e) => {
                if at > BLOCK - LONGEST {
                    let used = part.len() - rest.len();
                    return Turn { session, used, at };
                }
                let w = answered(out, at, file, session, e);
                session = w.session;
                at = w.at;
            }
            None => {
                session.at = to;
                rest = &rest[LENGTH..];
            }
        }
    }
    let used = part.len() - rest.len();
    Turn { session, used, at }
}
