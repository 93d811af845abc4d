// The runner as a function of bytes: event lines in, answer lines out, wherever the input is cut. No descriptor is read or written here.
// Bytes are scanned apart from the chain, which moves once a line.
#![tactic(auto)]

ghost use Rattle.std.specs.Prelude.{◌≡◌, ◌+◌, ◌≤◌};
ghost use Rattle.bus_text.specs.AnswerLine.{longest_line};
ghost use Rattle.bus_output.specs.Output.{block_length};
ghost use Rattle.bus_stream.specs.Stream.{opened_of};
ghost use Rattle.bus_stream.specs.Kept.{Answers, Fed, Closes};

use bus_output::BLOCK;
use bus_text::Scan;
use bus_text::put::LONGEST;
use chain_record::Chain;

// A session reaches the line that is being read.
pub type Session = bus_session::Session<Scan>;

pub type Waiting = bus_session::Waiting<Scan>;

pub type Turn = bus_session::Turn<Scan>;

// A session at the input's first byte.
pub fn opened(chain: Chain) -> Session
    ensures { result ≡ opened_of chain }
{
    Session {
        chain,
        at: Scan::fresh(),
        lines: 0,
    }
}

// Runs the event of the line that was read, and puts its answer behind the output that waits.
#[tactic(auto, unfolding(crate::specs::Stream::answered_of))]
fn answered(out: &mut [u8; BLOCK], at: usize, file: &mut [u8], s: Session) -> Waiting
    requires { at + longest_line ≤ block_length }
    ensures { Answers s file.old out.old at result file.new out.new }
{
    let reply = bus_reply::to_line(s.chain, file, bus_text::read::finish(s.at));
    bus_session::answered(out, at, s.lines, reply, Scan::fresh())
}

// Runs a part of the input, from an output with nothing waiting, until the part is used up or the next answer might not fit.
// Stays: no plainer: the contract, Fed, names out, file and session singly, so a struct of them would be taken apart in it.
pub fn feed(part: &[u8], out: &mut [u8; BLOCK], file: &mut [u8], first: Session) -> Turn
    ensures { Fed part.now first file.old out.old result file.new out.new }
{
    let mut session = first;
    let mut rest = part;
    let mut at = 0;
    while !rest.is_empty() {
        let stop = bus_text::read::scan_on(rest, session.at);
        let scan = stop.scan;
        session.at = scan;
        rest = &rest[stop.at..];
        if rest.is_empty() {
            break;
        }
        if at > BLOCK - LONGEST {
            break;
        }
        let w = answered(out, at, file, session);
        session = w.session;
        at = w.at;
        rest = &rest[1..]; // behind the newline
    }
    let used = part.len() - rest.len();
    Turn { session, used, at }
}

// Ends the input, from an output with nothing waiting: the last line may lack its newline. Gives how much of the output waits.
pub fn close(out: &mut [u8; BLOCK], file: &mut [u8], s: Session) -> usize
    ensures { Closes s file.old out.old result file.new out.new }
{
    if !bus_text::read::has_byte(s.at) {
        return 0;
    }
    let w = answered(out, 0, file, s);
    w.at
}
