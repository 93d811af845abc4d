// What the runner answers to an event line: the event carried out, and the numbers of the output line.
#![tactic(auto)]

ghost use Rattle.std.specs.Prelude.{◌≡◌};
ghost use Rattle.chain_step.specs.Step.{step_file};
ghost use Rattle.bus_reply.specs.Reply.{event_reply, reply_of, reply_file};

use bus_text::Numbers;
use chain_decide::shown;
use chain_record::Chain;

// The chain that is left, and the numbers of the output line behind its count.
#[derive(Clone, Copy)]
pub struct Reply {
    pub chain: Chain,
    // Stays: no plainer: 19, unreadable, is no event::Answer, so a reply holds the numbers of the output line.
    pub answer: u8,
    pub value: u8,
    pub sum: u8,
}

// The reply to an event, by its three numbers. The sum is of the lines that the event leaves.
pub fn to_event(c: Chain, file: &mut [u8], kind: u32, a: u32, b: u32) -> Reply
    ensures { (result ≡ event_reply kind a b c file.old) × (file.new ≡ step_file kind a b c file.old) }
{
    let s = chain_step::step(c, file, kind, a, b);
    let chain = s.chain;
    let said = s.answer;
    let sum = shown::line_sum(chain);
    Reply {
        chain,
        answer: event::numbers::number(said),
        value: event::numbers::value(said),
        sum,
    }
}

// The reply to a line; one that can't be read leaves the chain and the file.
pub fn to_line(c: Chain, file: &mut [u8], line: Option<Numbers>) -> Reply
    ensures { (result ≡ reply_of c file.old line) × (file.new ≡ reply_file c file.old line) }
{
    match line {
        Some(n) => to_event(c, file, n.kind as u32, n.a as u32, n.b as u32),
        None => Reply {
            chain: c,
            answer: bus_text::unreadable(),
            value: 0,
            sum: shown::line_sum(c),
        },
    }
}
