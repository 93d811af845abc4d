// What a drive tells of itself: attention, ready, command complete, and the status word.
ghost use Rattle.std.specs.Prelude.{◌≡◌};
ghost use Rattle.drive_record.specs.Status.{attention_b, ready_b, calm_b, complete_b, protected_bit, stopped_bit, status_of};

use crate::{Body, State};
use pack_profile::Profile;

pub fn attention(b: Body) -> bool
    ensures { result ≡ attention_b b }
{
    b.latched.0 != 0
}

pub fn ready(b: Body) -> bool
    ensures { result ≡ ready_b b }
{
    b.motor == Body::UP
}

// Neither timer runs.
pub fn calm(b: Body) -> bool
    ensures { result ≡ calm_b b }
{
    (b.timers.busy.0 == 0) & (b.timers.head.0 == 0)
}

// Command complete.
#[tactic(auto, unfolding(crate::specs::Status::complete_b))]
pub fn complete(s: State) -> bool
    ensures { result ≡ complete_b s }
{
    let b = s.body;
    let t = s.transfer;
    !handshake::is_open(t) & calm(b)
}

// Live bit 13 or 12.
#[tactic(auto, unfolding(crate::specs::Status::protected_bit))]
fn protected_bit(p: Profile) -> u16
    ensures { result ≡ protected_bit p }
{
    if p.protected != 1 {
        return 0;
    }
    if pack_profile::general::removable(p.general) {
        return Body::PROTECTED_REMOVABLE;
    }
    Body::PROTECTED_FIXED
}

// Live bit 9.
#[tactic(auto, unfolding(crate::specs::Status::stopped_bit))]
fn stopped_bit(b: Body) -> u16
    ensures { result ≡ stopped_bit b }
{
    if ready(b) {
        return 0;
    }
    Body::MOTOR_STOPPED
}

#[tactic(auto, unfolding(crate::specs::Status::status_of))]
pub fn status(p: Profile, b: Body) -> u16
    ensures { result ≡ status_of p b }
{
    b.latched.0 | protected_bit(p) | stopped_bit(b)
}
