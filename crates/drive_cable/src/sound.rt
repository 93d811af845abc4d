// When one drive's record is one that the rules could leave, clause by clause.
ghost use Rattle.std.specs.Prelude.{◌≡◌};
ghost use Rattle.drive_cable.specs.SoundDrive.{writing_b, reading_b, selected_b, unselected_b, drive_sound_b};

use drive_record::{State, limits, status};
use lines::Lines;
use pack_profile::Profile;

// A writing drive's gate is high and no rule of the write gate would stop it.
// Stays: no plainer. sound and drive_gates::usable take p and s singly, so a struct of both, here and below, would be taken apart for usable.
#[tactic(auto, unfolding(crate::specs::SoundDrive::writing_b))]
fn writing_ok(p: Profile, s: State, l: Lines) -> bool
    ensures { result ≡ writing_b p l s }
{
    let b = s.body;
    (b.writing == 0)
        | ((l.writegate == 1)
            & (l.readgate == 0)
            & !status::attention(b)
            & (b.arm.offset == 0)
            & drive_gates::usable(p, s)
            & (p.protected == 0))
}

#[tactic(auto, unfolding(crate::specs::SoundDrive::reading_b))]
fn reading_ok(p: Profile, s: State, l: Lines) -> bool
    ensures { result ≡ reading_b p l s }
{
    (s.body.reading == 0) | ((l.readgate == 1) & (l.writegate == 0) & drive_gates::usable(p, s))
}

#[tactic(auto, unfolding(crate::specs::SoundDrive::selected_b))]
fn selected_ok(p: Profile, s: State, l: Lines) -> bool
    ensures { result ≡ selected_b p l s }
{
    let t = s.transfer;
    (s.body.head == l.heads)
        & handshake::could_leave(t, l.request)
        & writing_ok(p, s, l)
        & reading_ok(p, s, l)
}

// Unselected: no transfer, and neither reading nor writing.
#[tactic(auto, unfolding(crate::specs::SoundDrive::unselected_b))]
fn unselected_ok(s: State) -> bool
    ensures { result ≡ unselected_b s }
{
    let t = s.transfer;
    handshake::is_idle(t) & (s.body.writing == 0) & (s.body.reading == 0)
}

// The record of a drive with a valid profile, selected or not.
#[tactic(auto, unfolding(crate::specs::SoundDrive::drive_sound_b))]
pub fn sound(p: Profile, s: State, l: Lines, selected: bool) -> bool
    ensures { result ≡ drive_sound_b p l selected s }
{
    let b = s.body;
    if !limits::kept(p, b) {
        return false;
    }
    if selected {
        return selected_ok(p, s, l);
    }
    unselected_ok(s)
}
