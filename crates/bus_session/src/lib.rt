// What a run leaves to the next, whatever is read: a chain, what is reached of the input, and how many events were answered.
#![tactic(auto)]

ghost use Rattle.std.specs.Prelude.{◌≡◌};
ghost use Rattle.bus_reply.specs.Reply.{line_count, line_answer};
ghost use Rattle.bus_output.specs.Output.{room_for, Stored};
ghost use Rattle.bus_session.specs.Session.{session_of};

use bus_output::BLOCK;
use bus_reply::Reply;
use bus_text::put::AnswerLine;
use chain_record::Chain;

// What one event leaves to the next.
#[derive(Clone, Copy)]
pub struct Session<P> {
    pub chain: Chain,
    // what is reached of the input
    pub at: P,
    // how many events were answered
    pub lines: u64,
}

// A session, and how much of the output waits.
#[derive(Clone, Copy)]
pub struct Waiting<P> {
    pub session: Session<P>,
    pub at: usize,
}

// What a part of the input leaves, and how much of the part was used.
#[derive(Clone, Copy)]
pub struct Turn<P> {
    pub session: Session<P>,
    pub used: usize,
    pub at: usize,
}

// Puts an event's reply behind the output that waits, so many answered before it, and goes on at what is reached.
// Where the longest line might not fit nothing is stored, and the place stays.
pub fn answered<P>(
    out: &mut [u8; BLOCK],
    at: usize,
    count: u64,
    reply: Reply,
    reached: P,
) -> Waiting<P>
    ensures session { result.session ≡ session_of reply.chain reached (line_count count) }
    ensures output { Stored out.old at (room_for at (line_answer (line_count count) reply)) out.new result.at }
{
    let lines = count.wrapping_add(1);
    // Stays: no plainer: line_answer and event_reply name the three singly, so a struct of them would be taken apart in each.
    let line = AnswerLine {
        count: lines,
        answer: reply.answer,
        value: reply.value,
        sum: reply.sum,
    };
    let next = bus_output::put(out, at, line);
    Waiting {
        session: Session {
            chain: reply.chain,
            at: reached,
            lines,
        },
        at: next,
    }
}
