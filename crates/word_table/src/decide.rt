// What a whole word comes to, in the order of document 01.
ghost use Rattle.std.specs.Prelude.{◌≡◌};
ghost use Rattle.pack_profile.specs.Profile.{gaps_of};
ghost use Rattle.word_table.specs.Word.{sixteen_of, code_of, modifier_of, bits11to0, odd_b};
ghost use Rattle.word_table.specs.Effect.{option_b, size_b, operand_b, act_of, blocked_b, effect_of};

use crate::table::{Asks, Command, Needs};
use crate::{Effect, WordFault, table};
use counts::{Cylinder, SectorSize};
use drive_record::{Body, status};
use pack_profile::Profile;
use word_acts::Act;

// Whether the seventeen bits hold an odd number of ones.
#[tactic(auto, unfolding(crate::specs::Word::odd_b))]
fn odd(n: u32) -> bool
    ensures { result ≡ odd_b n }
{
    (n % 131_072).count_ones() % 2 == 1
}

// The sixteen bits in front of the parity.
fn word(n: u32) -> u16
    ensures { result ≡ sixteen_of n }
{
    (n / 2 % 65_536) as u16
}

fn code(w: u16) -> u8
    ensures { result ≡ code_of w }
{
    (w / 4096) as u8
}

fn modifier(w: u16) -> u8
    ensures { result ≡ modifier_of w }
{
    (w / 256 % 16) as u8
}

fn number(w: u16) -> u16
    ensures { result ≡ bits11to0 w }
{
    w % 4096
}

#[tactic(auto, unfolding(crate::specs::Effect::option_b))]
fn option_met(p: Profile, needs: Needs) -> bool
    ensures { result ≡ option_b p needs }
{
    match needs {
        Needs::Free => true,
        Needs::Motor => pack_profile::general::has_motor_option(p.general),
        Needs::Offsets => pack_profile::general::has_offset_option(p.general),
        Needs::Hard => !pack_profile::general::soft(p.general),
    }
}

// What the gaps of a sector fill: its header and its data have a sync field each.
fn gaps(p: Profile) -> u16
    ensures { result ≡ gaps_of p }
{
    p.gap as u16 + 2 * p.sync as u16
}

// The sector sizes that may be set: a drive can't format one that its gaps fill.
#[tactic(auto, unfolding(crate::specs::Effect::size_b))]
fn size_ok(p: Profile, size: u16) -> bool
    ensures { result ≡ size_b p size }
{
    pack_profile::valid::hard_size(size) && gaps(p) < size
}

#[tactic(auto, unfolding(crate::specs::Effect::operand_b))]
fn operand_ok(p: Profile, command: Command, w: u16) -> bool
    ensures { result ≡ operand_b p command w }
{
    match command {
        Command::Seek => number(w) < p.shape.cylinders.0,
        Command::Sector => size_ok(p, number(w)),
        _ => w % 256 == 0,
    }
}

#[tactic(auto, unfolding(crate::specs::Effect::act_of))]
fn acting(command: Command, w: u16) -> Effect
    ensures { result ≡ act_of command w }
{
    match command {
        Command::Seek => Effect::Does(Act::Seek(Cylinder(number(w)))),
        Command::Recalibrate => Effect::Does(Act::Recalibrate),
        Command::Status => Effect::Status,
        Command::Configuration => Effect::Configuration(modifier(w)),
        Command::Clear => Effect::Does(Act::Clear),
        Command::Stop => Effect::Does(Act::Stop),
        Command::Start => Effect::Does(Act::Start),
        Command::Restore => Effect::Does(Act::Offset(0)),
        Command::Plus => Effect::Does(Act::Offset(1)),
        Command::Minus => Effect::Does(Act::Offset(2)),
        Command::Diagnose => Effect::Does(Act::Diagnose),
        Command::Sector => Effect::Does(Act::Sector(SectorSize(number(w)))),
    }
}

// Seek, recalibrate or offset when not ready; seek or offset with the position lost.
#[tactic(auto, unfolding(crate::specs::Effect::blocked_b))]
fn blocked(b: Body, asks: Asks) -> bool
    ensures { result ≡ blocked_b b asks }
{
    match asks {
        Asks::Nothing => false,
        Asks::Ready => !status::ready(b),
        Asks::Position => !status::ready(b) || b.arm.lost != 0,
    }
}

// What a word with its parity comes to on a drive, in the order of document 01.
#[tactic(auto, unfolding(crate::specs::Effect::order_of, crate::specs::Effect::effect_of))]
pub fn effect(p: Profile, b: Body, n: u32) -> Result<Effect, WordFault>
    ensures { result ≡ effect_of p b n }
{
    if !odd(n) {
        return Err(WordFault::Parity);
    }
    let w = word(n);
    let row = table::found(code(w), modifier(w)).ok_or(WordFault::Invalid)?;
    if !option_met(p, row.needs) || !operand_ok(p, row.command, w) {
        return Err(WordFault::Invalid);
    }
    if blocked(b, row.asks) {
        return Err(WordFault::Blocked);
    }
    Ok(acting(row.command, w))
}
