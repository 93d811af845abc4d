// When a drive's fields keep their limits.
ghost use Rattle.std.specs.Prelude.{◌≡◌};
ghost use Rattle.drive_record.specs.Limits.{arm_b, timers_b, latched_b, motor_b, standing_b, limits_b};

use crate::{Arm, Body, Latched, Timers};
use pack_profile::Profile;

fn arm_ok(p: Profile, a: Arm) -> bool
    ensures { result ≡ arm_b p a }
{
    (a.cylinder.0 < p.shape.cylinders.0) & (a.offset <= 2) & (a.lost <= 1)
}

fn timers_ok(t: Timers) -> bool
    ensures { result ≡ timers_b t }
{
    (t.busy.0 <= Body::LONGEST_BUSY) & (t.head.0 <= Body::LONGEST_SWITCH)
}

// No latched bit but 8, 7, 6, 5, 4, 3, 1, 0.
fn latched_ok(l: Latched) -> bool
    ensures { result ≡ latched_b l }
{
    (l.0 < 512) & (l.0 / 4 % 2 == 0)
}

// A starting motor has busy time left.
fn motor_ok(motor: u8, busy: u32) -> bool
    ensures { result ≡ motor_b motor busy }
{
    (motor <= Body::UP) & ((motor != Body::STARTING) | (busy != 0))
}

// A write fault that stands has its bit latched.
fn standing_ok(standing: u32, l: Latched) -> bool
    ensures { result ≡ standing_b standing l }
{
    (standing <= 1) & ((standing != 1) | (l.0 / 2 % 2 == 1))
}

#[tactic(auto, unfolding(crate::specs::Limits::limits_b))]
pub fn kept(p: Profile, b: Body) -> bool
    ensures { result ≡ limits_b p b }
{
    arm_ok(p, b.arm)
        & timers_ok(b.timers)
        & latched_ok(b.latched)
        & pack_profile::valid::sector_ok(pack_profile::general::soft(p.general), b.sector.0)
        & (b.head.0 <= Body::LAST_HEAD)
        & motor_ok(b.motor, b.timers.busy.0)
        & (b.reading <= 1)
        & (b.writing <= 1)
        & standing_ok(b.standing, b.latched)
}
