// What a command does to a drive, by its act.
#![tactic(auto)]

ghost use Rattle.std.specs.Prelude.{◌≡◌};
ghost use Rattle.word_acts.specs.Acts.{distance_of, seek_time, motor_for, busy_for, seek_of, homed_of, recalibrate_of, left_latched, cleared_of, stop_of, start_of, offset_of, sector_of, acted_of};

use counts::{Cylinder, Distance, Micros, SectorSize};
use drive_record::{Arm, Body, Latched, Timers};
use pack_profile::Times;

// An offset is given by the arm's code.
// Stays: acted promises its answer for every code (offset_of), and an enum of three would leave the others out.
#[derive(Clone, Copy)]
pub enum Act {
    Seek(Cylinder),
    Recalibrate,
    Clear,
    Stop,
    Start,
    Offset(u8),
    Diagnose,
    Sector(SectorSize),
}

// Cylinder 0, offset 0, position found.
const HOME: Arm = Arm {
    cylinder: Cylinder(0),
    offset: 0,
    lost: 0,
};

// The displacement without its sign.
fn distance(from: Cylinder, to: Cylinder) -> Distance
    ensures { result ≡ distance_of from to }
{
    Distance(from.0.abs_diff(to.0))
}

// A distance becomes a time here alone, and no distance no time; a timer holds no more than 32 bits.
#[tactic(auto, unfolding(crate::specs::Acts::seek_time))]
fn seek_time(t: Times, distance: Distance) -> Micros
    ensures { result ≡ seek_time t distance }
{
    if distance.0 == 0 {
        return Micros(0);
    }
    let whole = t.settle.0 as u64 + t.step.0 as u64 * distance.0 as u64;
    Micros(whole.min(u32::MAX as u64) as u32)
}

// A starting motor is up when its busy timer is 0.
fn motor_for(motor: u8, t: Micros) -> u8
    ensures { result ≡ motor_for motor t }
{
    if motor != Body::STARTING || t.0 != 0 {
        return motor;
    }
    Body::UP
}

// The one place where busy is set.
#[tactic(auto, unfolding(crate::specs::Acts::busy_for))]
fn busy_for(b: Body, t: Micros) -> Body
    ensures { result ≡ busy_for t b }
{
    let timers = Timers {
        busy: t,
        ..b.timers
    };
    Body {
        timers,
        motor: motor_for(b.motor, t),
        ..b
    }
}

fn seek(t: Times, b: Body, to: Cylinder) -> Body
    ensures { result ≡ seek_of t to b }
{
    let from = b.arm.cylinder;
    let arm = Arm {
        cylinder: to,
        offset: 0,
        ..b.arm
    };
    busy_for(Body { arm, ..b }, seek_time(t, distance(from, to)))
}

fn homed(b: Body) -> Body
    ensures { result ≡ homed_of b }
{
    Body { arm: HOME, ..b }
}

fn recalibrate(t: Times, b: Body) -> Body
    ensures { result ≡ recalibrate_of t b }
{
    busy_for(homed(b), t.recalibrate)
}

// Of the latched bits, what control 0 leaves: bit 1 while a write fault stands.
#[tactic(auto, unfolding(crate::specs::Acts::left_latched))]
fn left_latched(b: Body) -> Latched
    ensures { result ≡ left_latched b }
{
    if b.standing == 1 {
        return Latched(b.latched.0 & Latched::WRITE);
    }
    Latched(0)
}

// Control 0.
fn clear(b: Body) -> Body
    ensures { result ≡ cleared_of b }
{
    Body {
        latched: left_latched(b),
        ..b
    }
}

fn stop(b: Body) -> Body
    ensures { result ≡ stop_of b }
{
    Body {
        motor: Body::STOPPED,
        ..b
    }
}

#[tactic(auto, unfolding(crate::specs::Acts::start_of))]
fn start(t: Times, b: Body) -> Body
    ensures { result ≡ start_of t b }
{
    if b.motor != Body::STOPPED {
        return b;
    }
    let e = Body {
        motor: Body::STARTING,
        ..homed(b)
    };
    busy_for(e, t.start)
}

fn offset(t: Times, b: Body, code: u8) -> Body
    ensures { result ≡ offset_of t code b }
{
    let arm = Arm {
        offset: code,
        ..b.arm
    };
    busy_for(Body { arm, ..b }, t.offset)
}

fn sector(b: Body, size: SectorSize) -> Body
    ensures { result ≡ sector_of size b }
{
    Body { sector: size, ..b }
}

#[tactic(auto, unfolding(crate::specs::Acts::acted_of))]
pub fn acted(t: Times, b: Body, act: Act) -> Body
    ensures { result ≡ acted_of t b act }
{
    match act {
        Act::Seek(to) => seek(t, b, to),
        Act::Recalibrate => recalibrate(t, b),
        Act::Clear => clear(b),
        Act::Stop => stop(b),
        Act::Start => start(t, b),
        Act::Offset(code) => offset(t, b, code),
        Act::Diagnose => busy_for(b, t.diagnostic),
        Act::Sector(size) => sector(b, size),
    }
}
