// What three numbers come to on any record and any length of file: a decision, which for a refusal is that nothing changes.
#![tactic(auto)]

ghost use Rattle.std.specs.Prelude.{◌≡◌};
ghost use Rattle.chain_judge.specs.Judge.{judged_of};

use chain_decide::decide;
use chain_decision::Decision;
use chain_record::Chain;
use event::{Answer, Undecoded};

// Refusals 20 to 25 in their order, else what the event decides.
#[tactic(auto, unfolding(crate::specs::Judge::judged_of, crate::specs::Judge::allowed_of))]
pub fn judge(c: Chain, long: usize, kind: u32, a: u32, b: u32) -> Decision
    ensures { result ≡ judged_of c long kind a b }
{
    let lines = c.lines;
    match event::decode::decode(kind, a, b) {
        Err(Undecoded::Unknown) => chain_decision::say(lines, Answer::UnknownKind),
        Err(Undecoded::Range) => chain_decision::say(lines, Answer::OutOfRange),
        Ok(e) => {
            if !chain_sound::is_sound(c) {
                return chain_decision::say(lines, Answer::Malformed);
            }
            if long != c.length.0 as usize {
                return chain_decision::say(lines, Answer::WrongLength);
            }
            decide::decide(c, e)
        }
    }
}
