// An event in, an answer out, over the lent file. Nothing is expected of the caller: every record, file and number is taken or refused.
#![tactic(auto)]

ghost use Rattle.std.specs.Prelude.{◌≡◌, length};
ghost use Rattle.chain_decision.specs.Deeds.{spot_place, Fits};
ghost use Rattle.chain_step.specs.Step.{Obeyed, perform_of, step_of, step_file};

use chain_decision::{Decision, Deed, Spot};
use chain_record::{Chain, slots};
use counts::SLOTS;
use drive_gates::cell;
use event::Answer;
use pack_read::Pack;

// What is decided and done on the file; the record is still to change.
#[derive(Clone, Copy)]
pub struct Performed {
    pub decision: Decision,
    pub answer: Answer,
}

#[derive(Clone, Copy)]
pub struct Stepped {
    pub chain: Chain,
    pub answer: Answer,
}

// Where in the file a cell stands.
#[tactic(auto, unfolding(chain_decision::specs::Deeds::spot_place))]
fn place_of(packs: [Pack; SLOTS], s: Spot) -> usize
    ensures { result ≡ spot_place packs s }
{
    let p = slots::pack_in(packs, s.slot);
    p.place.0 as usize + cell::place(p.profile, s.cylinder, s.head, s.position)
}

// The one place that touches the file: one byte read, one byte written, or nothing.
fn obey(packs: [Pack; SLOTS], file: &mut [u8], deed: Deed) -> Answer
    requires { Fits packs (length file.old) deed }
    ensures { Obeyed packs deed file.old result file.new }
{
    match deed {
        Deed::Say(answer) => answer,
        Deed::Read(spot) => {
            let i = place_of(packs, spot);
            Answer::Read(file[i])
        }
        Deed::Write(spot, byte) => {
            let i = place_of(packs, spot);
            file[i] = byte;
            Answer::Written
        }
    }
}

// An event, given by its three numbers, judged and done on the file.
// Stays: no plainer. C gives the three singly and step_of names them, so a struct would be made for each call and taken apart in decode.
#[tactic(auto, unfolding(crate::specs::Step::perform_of, crate::specs::Step::step_file))]
pub fn perform(c: Chain, file: &mut [u8], kind: u32, a: u32, b: u32) -> Performed
    ensures { (result ≡ perform_of kind a b c file.old) × (file.new ≡ step_file kind a b c file.old) }
{
    let decision = chain_judge::judge(c, file.len(), kind, a, b);
    let answer = obey(c.packs, file, decision.deed);
    Performed { decision, answer }
}

// What an event, given by its three numbers, does to the chain and to its file.
#[tactic(auto, unfolding(crate::specs::Step::perform_of, crate::specs::Step::step_of))]
pub fn step(c: Chain, file: &mut [u8], kind: u32, a: u32, b: u32) -> Stepped
    ensures { (result ≡ step_of kind a b c file.old) × (file.new ≡ step_file kind a b c file.old) }
{
    let performed = perform(c, file, kind, a, b);
    let chain = chain_apply::apply(c, performed.decision);
    Stepped {
        chain,
        answer: performed.answer,
    }
}
