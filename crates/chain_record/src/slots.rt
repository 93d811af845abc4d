// The slots of a chain, and the selected drive.
ghost use Rattle.std.specs.Prelude.{◌≡◌, ◌-◌, slice_index_or};
ghost use Rattle.std.specs.Prelude.{if◌then◌else◌};
ghost use Rattle.counts.specs.Slots.{slot_b};
ghost use Rattle.chain_record.specs.Record.{slot_pack, slot_state, look_of};

use crate::{Chain, Seen};
use counts::{LAST_SLOT, SLOTS};
use drive_record::State;
use pack_read::Pack;

// What stands in a slot, 1 to 7; 0 and what is past 7 have `none`. The record is large, so it is lent.
fn in_slot<T: Copy>(all: &[T; SLOTS], slot: u8, none: T) -> T
    ensures { result ≡ (if slot_b slot then slice_index_or all.now (slot - 1) none else none) }
{
    if (slot < 1) | (slot > LAST_SLOT) {
        return none;
    }
    all[(slot - 1) as usize]
}

// The pack in a slot.
#[tactic(auto, unfolding(crate::specs::Record::slot_pack))]
pub fn pack_in(packs: [Pack; SLOTS], slot: u8) -> Pack
    ensures { result ≡ slot_pack packs slot }
{
    in_slot(&packs, slot, Pack::none())
}

#[tactic(auto, unfolding(crate::specs::Record::slot_state))]
pub fn state_in(states: [State; SLOTS], slot: u8) -> State
    ensures { result ≡ slot_state states slot }
{
    in_slot(&states, slot, State::blank())
}

// The selected slot's parts alone are taken out of the record.
#[tactic(auto, unfolding(crate::specs::Record::look_of, crate::specs::Record::slot_pack, crate::specs::Record::slot_state))]
pub fn look(c: Chain) -> Seen
    ensures { result ≡ look_of c }
{
    let select = c.lines.select;
    let p = in_slot(&c.packs, select, Pack::none());
    let state = in_slot(&c.states, select, State::blank());
    Seen {
        selected: pack_read::fitted(p),
        profile: p.profile,
        state,
    }
}
