// The record's fields by their names: those of a slot, and in slot 0 those of the cable.
use chain_record::Chain;
use counts::SLOTS;
use drive_record::State;
use pack_read::Pack;

// The number of a field, by its width.
#[derive(Drop)]
enum Number<'a> {
    Byte(&'a mut u8),
    Half(&'a mut u16),
    Whole(&'a mut u32),
}

impl Number<'_> {
    fn held(self) -> u32 {
        match self {
            Number::Byte(n) => u32::from(*n),
            Number::Half(n) => u32::from(*n),
            Number::Whole(n) => *n,
        }
    }

    // Of a number too large its low bits are put there.
    fn put(self, v: u32) {
        match self {
            Number::Byte(n) => *n = (v % 256) as u8,
            Number::Half(n) => *n = (v % 65_536) as u16,
            Number::Whole(n) => *n = v,
        }
    }
}

fn of_cable<'a>(c: &'a mut Chain, name: &str) -> Option<Number<'a>> {
    match name {
        "select" => Some(Number::Byte(&mut c.lines.select)),
        "heads" => Some(Number::Byte(&mut c.lines.heads.0)),
        "write" => Some(Number::Half(&mut c.lines.writegate)),
        "read" => Some(Number::Half(&mut c.lines.readgate)),
        "data" => Some(Number::Byte(&mut c.lines.command)),
        "request" => Some(Number::Byte(&mut c.lines.request)),
        "length" => Some(Number::Whole(&mut c.length.0)),
        _ => None,
    }
}

fn of_slot<'a>(s: &'a mut State, p: &'a mut Pack, name: &str) -> Option<Number<'a>> {
    match name {
        "cylinder" => Some(Number::Half(&mut s.body.arm.cylinder.0)),
        "offset" => Some(Number::Byte(&mut s.body.arm.offset)),
        "lost" => Some(Number::Byte(&mut s.body.arm.lost)),
        "busy" => Some(Number::Whole(&mut s.body.timers.busy.0)),
        "switching" => Some(Number::Whole(&mut s.body.timers.head.0)),
        "latched" => Some(Number::Half(&mut s.body.latched.0)),
        "sector" => Some(Number::Half(&mut s.body.sector.0)),
        "head" => Some(Number::Byte(&mut s.body.head.0)),
        "motor" => Some(Number::Byte(&mut s.body.motor)),
        "reading" => Some(Number::Byte(&mut s.body.reading)),
        "writing" => Some(Number::Byte(&mut s.body.writing)),
        "standing" => Some(Number::Whole(&mut s.body.standing)),
        "waiting" => Some(Number::Whole(&mut s.transfer.waiting.0)),
        "bits" => Some(Number::Whole(&mut s.transfer.bits)),
        "response" => Some(Number::Whole(&mut s.transfer.response)),
        "way" => Some(Number::Byte(&mut s.transfer.way)),
        "count" => Some(Number::Half(&mut s.transfer.count)),
        "acknowledge" => Some(Number::Byte(&mut s.transfer.acknowledge)),
        "fitted" => Some(Number::Whole(&mut p.fitted)),
        "place" => Some(Number::Whole(&mut p.place.0)),
        "slot" => Some(Number::Byte(&mut p.profile.slot)),
        "general" => Some(Number::Half(&mut p.profile.general)),
        "protected" => Some(Number::Half(&mut p.profile.protected)),
        _ => None,
    }
}

// What a field holds, if there is one of that name.
pub fn field(c: &Chain, slot: u32, name: &str) -> Option<u32> {
    let slot = slot as usize;
    if slot == 0 {
        let mut copy = *c;
        return Some(of_cable(&mut copy, name)?.held());
    }
    if slot > SLOTS {
        return None;
    }
    // Stays: tried c.states.get_mut(i)? and &mut c.states[i]: the lent field got no proof, so the slot is copied, here and below.
    let mut state = c.states[slot - 1];
    let mut pack = c.packs[slot - 1];
    Some(of_slot(&mut state, &mut pack, name)?.held())
}

// Puts another number in a field; without one of that name nothing changes.
pub fn set_field(c: &mut Chain, slot: u32, name: &str, v: u32) {
    let slot = slot as usize;
    if slot == 0 {
        if let Some(number) = of_cable(c, name) {
            number.put(v);
        }
        return;
    }
    if slot > SLOTS {
        return;
    }
    let mut state = c.states[slot - 1];
    let mut pack = c.packs[slot - 1];
    if let Some(number) = of_slot(&mut state, &mut pack, name) {
        number.put(v);
    }
    c.states[slot - 1] = state;
    c.packs[slot - 1] = pack;
}
