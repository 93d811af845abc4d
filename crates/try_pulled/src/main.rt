// Lays a pack on a card stage by stage and pulls the card behind every single write, over what it may have held before.
// A line says what reading says from that write of the stage on: the answer's number and place. Behind those of a card that
// is taken stand the slots of its packs, and whether its bytes are the finished pack's.
#![tactic(auto)]

use counts::{Cylinder, Heads, Position, SectorSize};
use pack_lay::stages;
use pack_lay::stages::Stage;
use pack_profile::{Profile, Shape};
use pack_read::read;
use std::io;

// Room for two packs of the smallest drive, and for one of a longer track.
const CARD: usize = 2 * bus_smallest::PACK;

const MEDIUM: usize = CARD - pack_trailer::LENGTH;

// What a medium holds that was written on.
const DRAWING: u8 = 170;

// A laying's stages in their order.
const STAGES: [Stage; 4] = [Stage::Spoil, Stage::Medium, Stage::Fields, Stage::Distance];

// What reading says of a card, and whether its bytes are the finished pack's.
#[derive(Clone, Copy, PartialEq)]
struct Seen {
    number: u8,
    place: u32,
    finished: bool,
}

// The places that a stage writes.
struct Stretch {
    name: &'static str,
    start: usize,
    end: usize,
}

fn places(s: Stage) -> Stretch {
    let (name, start, length) = match s {
        Stage::Spoil => ("spoil", MEDIUM + pack_trailer::FORM_PLACE, 1),
        Stage::Medium => ("medium", 0, MEDIUM),
        Stage::Fields => ("fields", MEDIUM, pack_trailer::DISTANCE_PLACE),
        Stage::Distance => ("distance", MEDIUM + pack_trailer::DISTANCE_PLACE, 4),
    };
    Stretch {
        name,
        start,
        end: start + length,
    }
}

// A drive of one head, with so many tracks of so many bytes.
fn drive(slot: u8, cylinders: u16, track: u16) -> Profile {
    let shape = Shape {
        cylinders: Cylinder(cylinders),
        heads: Heads(1),
        track: Position(track),
        sector: SectorSize(512),
    };
    Profile {
        shape,
        ..bus_smallest::drive(slot)
    }
}

// The pack that is laid: one track, which fills the card.
fn whole() -> Profile {
    drive(1, 1, MEDIUM as u16)
}

fn laid(p: Profile) -> [u8; CARD] {
    let mut card = [0; CARD];
    let _ = pack_lay::lay(p, &mut card);
    card
}

// A card that the pack is laid on, and the finished pack's bytes.
#[derive(Drop)]
struct Trial {
    card: [u8; CARD],
    done: [u8; CARD],
}

impl Trial {
    fn new(card: [u8; CARD]) -> Trial {
        Trial {
            card,
            done: laid(whole()),
        }
    }

    fn look(&self) -> Seen {
        let found = read::read(&self.card);
        Seen {
            number: read::number(found),
            place: read::place(found),
            finished: found.is_ok() && self.card == self.done,
        }
    }

    fn show(&self, rt: &impl Print, name: &str, write: usize, seen: Seen) -> io::Result<()> {
        let Seen {
            number,
            place,
            finished,
        } = seen;
        print!(rt; "{name} {write} {number} {place}")?;
        if let Ok(packs) = read::read(&self.card) {
            try_script::say_packs(rt, &packs)?;
            rt.print(if finished {
                " finished"
            } else {
                " not finished"
            })?;
        }
        println!(rt)
    }

    // What reading says now, printed where it is not what it said before.
    fn told(
        &self,
        rt: &impl Print,
        name: &str,
        write: usize,
        last: Option<Seen>,
    ) -> io::Result<Option<Seen>> {
        let seen = self.look();
        if last != Some(seen) {
            self.show(rt, name, write, seen)?;
        }
        Ok(Some(seen))
    }

    // A stage as the library lays it, write by write on the card, in the order of its places. The first write is always told.
    fn pull(&mut self, rt: &impl Print, s: Stage) -> io::Result<()> {
        let mut next = self.card;
        let _ = stages::lay_stage(whole(), s, &mut next);
        let Stretch { name, start, end } = places(s);
        let mut seen = None;
        // Stays: no plainer: each turn tells its place and looks at the whole card, which an iterator over its bytes would hold.
        for place in start..end.min(CARD) {
            self.card[place] = next[place];
            seen = self.told(rt, name, place - start + 1, seen)?;
        }
        if self.card != next {
            println!(rt; "{name} wrote past its stretch")?;
        }
        Ok(())
    }

    // Every stage in its order, on a card as it was.
    fn pull_all(&mut self, rt: &impl Print) -> io::Result<()> {
        self.told(rt, "before", 0, None)?;
        for s in STAGES {
            self.pull(rt, s)?;
        }
        Ok(())
    }
}

fn pull_all(rt: &impl Print, heading: &str, card: [u8; CARD]) -> io::Result<()> {
    println!(rt; "{heading}")?;
    Trial::new(card).pull_all(rt)
}

// A card with a drawing on a pack of that drive.
fn drawn(p: Profile) -> [u8; CARD] {
    let mut card = laid(p);
    // Stays: tried card[..MEDIUM].fill(DRAWING): that the part has MEDIUM bytes stayed open (slice_bounds-fill-end).
    for byte in card.iter_mut().take(MEDIUM) {
        *byte = DRAWING;
    }
    card
}

fn garbage() -> [u8; CARD] {
    let mut card = [0; CARD];
    for (i, byte) in card.iter_mut().enumerate() {
        *byte = (i % 251) as u8;
    }
    card
}

// Two packs of the smallest drive.
fn two() -> [u8; CARD] {
    let mut card = laid(bus_smallest::drive(2));
    let _ = pack_lay::lay(bus_smallest::drive(3), &mut card[bus_smallest::PACK..]);
    card
}

// What each stage answers that is refused, and whether the part is as it was.
fn refuse_all(rt: &impl Print, heading: &str, part: &mut [u8], p: Profile) -> io::Result<()> {
    rt.print(heading)?;
    for s in STAGES {
        let number = pack_lay::number(stages::lay_stage(p, s, part));
        let untouched = u8::from(part.iter().all(|byte| *byte == DRAWING));
        print!(rt; " {number} {untouched}")?;
    }
    println!(rt)
}

fn main(rt: HostRuntime) -> io::Result<()> {
    pull_all(&rt, "a zeroed card", [0; CARD])?;
    pull_all(&rt, "garbage", garbage())?;
    let same = drawn(drive(3, 1, MEDIUM as u16));
    let other = drawn(drive(3, 2, (MEDIUM / 2) as u16));
    pull_all(&rt, "an older pack of the same shape", same)?;
    let heading = "an older pack of another shape and the same length";
    pull_all(&rt, heading, other)?;
    pull_all(&rt, "two older packs", two())?;
    println!(rt; "an older pack of the same shape, its form not spoiled")?;
    Trial::new(same).pull(&rt, Stage::Medium)?;
    refuse_all(&rt, "too little room", &mut [DRAWING; CARD - 1], whole())?;
    let no_slot = drive(0, 1, MEDIUM as u16);
    refuse_all(&rt, "no such slot", &mut [DRAWING; CARD], no_slot)
}
