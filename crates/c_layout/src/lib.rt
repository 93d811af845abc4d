// A record whose every field holds a mark of its own, by which a program in C sees that its mirror of the record is right.
#![tactic(auto)]

ghost use Rattle.std.specs.Prelude.{◌≡◌};
ghost use Rattle.c_layout.specs.Marks.{marked_profile, marked_pack, marked_body, marked_state, marked_lines, marked_packs, marked_states, marked_chain};

use chain_record::Chain;
use counts::{Cylinder, Head, Heads, Micros, PerCylinder, Place, Position, SLOTS, SectorSize};
use drive_record::{Arm, Body, Latched, State, Timers};
use handshake::Transfer;
use lines::Lines;
use pack_profile::{Profile, Shape, Times};
use pack_read::Pack;
use std::array;

fn profile() -> Profile
    ensures { result ≡ marked_profile }
{
    let shape = Shape {
        cylinders: Cylinder(4097),
        heads: Heads(4104),
        track: Position(4098),
        sector: SectorSize(4099),
    };
    let times = Times {
        settle: Micros(16_777_217),
        step: PerCylinder(16_777_218),
        switch: Micros(16_777_219),
        recalibrate: Micros(16_777_220),
        start: Micros(16_777_221),
        diagnostic: Micros(16_777_222),
        offset: Micros(16_777_223),
    };
    Profile {
        slot: 18,
        vendor: 19,
        general: 4100,
        gap: 20,
        sync: 21,
        protected: 4105,
        shape,
        times,
    }
}

fn pack_of(place: u32) -> Pack
    ensures { result ≡ marked_pack place }
{
    Pack {
        fitted: 16_777_229,
        place: Place(place),
        profile: profile(),
    }
}

fn body(busy: u32) -> Body
    ensures { result ≡ marked_body busy }
{
    let timers = Timers {
        busy: Micros(busy),
        head: Micros(16_777_224),
    };
    let arm = Arm {
        cylinder: Cylinder(4101),
        offset: 24,
        lost: 25,
    };
    Body {
        timers,
        arm,
        latched: Latched(4102),
        sector: SectorSize(4103),
        head: Head(26),
        motor: 27,
        reading: 28,
        writing: 29,
        standing: 16_777_230,
    }
}

fn state_of(busy: u32) -> State
    ensures { result ≡ marked_state busy }
{
    let transfer = Transfer {
        waiting: Micros(16_777_225),
        bits: 16_777_226,
        response: 16_777_227,
        count: 4108,
        way: 30,
        acknowledge: 32,
    };
    State {
        body: body(busy),
        transfer,
    }
}

fn lines() -> Lines
    ensures { result ≡ marked_lines }
{
    Lines {
        select: 33,
        heads: Head(34),
        writegate: 4106,
        readgate: 4107,
        command: 37,
        request: 38,
    }
}

fn all_packs() -> [Pack; SLOTS]
    ensures { result ≡ marked_packs }
{
    array::from_fn(|i| pack_of(33_554_433 + i as u32))
}

fn all_states() -> [State; SLOTS]
    ensures { result ≡ marked_states }
{
    array::from_fn(|i| state_of(50_331_649 + i as u32))
}

#[tactic(auto, unfolding(crate::specs::Marks::marked_chain))]
pub fn marked() -> Chain
    ensures { result ≡ marked_chain }
{
    let packs = all_packs();
    let states = all_states();
    let lines = lines();
    Chain {
        packs,
        states,
        lines,
        length: Place(16_777_228),
    }
}
