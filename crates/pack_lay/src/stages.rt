// The stages of laying a pack: a card that is pulled between two of them holds no pack that looks finished.
ghost use Rattle.std.specs.Prelude.{Ok, ◌≡◌, length};
ghost use Rattle.pack_lay.specs.Lay.{laid_answer};
ghost use Rattle.pack_lay.specs.Order.{stage_writes, written, staged_bytes};

use pack_profile::Profile;
use pack_read::{Pack, Refusal};

// In their order: the form of a pack that ended here zeroed, the medium zeroed, the trailer's fields, its distance.
// Stays: the docs, Order.stage_writes and the edits name lay_stage with a Stage, so no closure stands for a step.
#[derive(Clone, Copy)]
pub enum Stage {
    Spoil,
    Medium,
    Fields,
    Distance,
}

// Whether a pack may be laid into so much room.
#[tactic(auto, unfolding(crate::specs::Lay::laid_answer))]
fn allowed(p: Profile, room: usize) -> Result<(), Refusal>
    ensures { result ≡ laid_answer p room }
{
    if !pack_profile::valid::valid(p) {
        return Err(Refusal::Field);
    }
    let distance = pack_profile::medium(p.shape) + pack_trailer::LENGTH;
    if Pack::LONGEST < distance {
        return Err(Refusal::Large);
    }
    if room < distance {
        return Err(Refusal::Room);
    }
    Ok(())
}

// What a stage writes of a pack that may be laid.
fn write(p: Profile, s: Stage, buffer: &mut [u8])
    requires { laid_answer p (length buffer.old) ≡ Ok tt }
    ensures { buffer.new ≡ written (stage_writes s p) buffer.old }
{
    let medium = pack_profile::medium(p.shape);
    let behind = medium + pack_trailer::DISTANCE_PLACE;
    let distance = medium + pack_trailer::LENGTH;
    let t = pack_trailer::trailer(p, distance as u32);
    match s {
        Stage::Spoil => {
            buffer[medium + pack_trailer::FORM_PLACE] = 0;
        }
        Stage::Medium => buffer[..medium].fill(0),
        Stage::Fields => {
            buffer[medium..behind].copy_from_slice(&t[..pack_trailer::DISTANCE_PLACE]);
        }
        Stage::Distance => {
            buffer[behind..distance].copy_from_slice(&t[pack_trailer::DISTANCE_PLACE..]);
        }
    }
}

// One stage of laying a pack at the start of a lent part; refused as laying is.
#[tactic(auto, unfolding(crate::specs::Order::staged_bytes))]
pub fn lay_stage(p: Profile, s: Stage, buffer: &mut [u8]) -> Result<(), Refusal>
    ensures { (result ≡ laid_answer p (length buffer.old)) × (buffer.new ≡ staged_bytes s p buffer.old) }
{
    allowed(p, buffer.len())?;
    write(p, s, buffer);
    Ok(())
}
