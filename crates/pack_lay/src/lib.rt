// Laying a pack at the start of a lent part.
#![tactic(auto)]

pub mod stages;

ghost use Rattle.std.specs.Prelude.{◌≡◌, length};
ghost use Rattle.pack_lay.specs.Lay.{laid_number, laid_answer, laid_bytes};
ghost use Rattle.pack_lay.specs.Order.{staged_bytes, Turn};

use pack_profile::Profile;
use pack_read::Refusal;
use stages::Stage;

// Document 01's number of an answer; 0 where the pack was laid.
// Stays: no plainer: Result and u8 are std's, so a From may stand in no crate here, and a type around it is taken off at once.
pub fn number(a: Result<(), Refusal>) -> u8
    ensures { result ≡ laid_number a }
{
    match a {
        Ok(()) => 0,
        Err(why) => why.into(),
    }
}

// A stage in its turn: a laying out of order leaves the same bytes, and fails here.
// Stays: lay_stage is public and named with these three; in_turn and write hand them on.
fn in_turn(p: Profile, s: Stage, buffer: &mut [u8]) -> Result<(), Refusal>
    requires { Turn s p buffer.old }
    ensures { (result ≡ laid_answer p (length buffer.old)) × (buffer.new ≡ staged_bytes s p buffer.old) }
{
    stages::lay_stage(p, s, buffer)
}

// A zeroed medium and the trailer, stage by stage; a refusal leaves the part as it was.
pub fn lay(p: Profile, buffer: &mut [u8]) -> Result<(), Refusal>
    ensures { (result ≡ laid_answer p (length buffer.old)) × (buffer.new ≡ laid_bytes p buffer.old) }
{
    in_turn(p, Stage::Spoil, buffer)?;
    in_turn(p, Stage::Medium, buffer)?;
    in_turn(p, Stage::Fields, buffer)?;
    in_turn(p, Stage::Distance, buffer)
}
