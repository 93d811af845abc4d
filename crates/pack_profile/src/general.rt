// What the bits of the general word say.
ghost use Rattle.std.specs.Prelude.{◌≡◌};
ghost use Rattle.pack_profile.specs.General.{offset_option, motor_option, removable as removableB, soft as softB, general_ok};

use crate::Times;

pub fn has_offset_option(general: u16) -> bool
    ensures { result ≡ offset_option general }
{
    general / 8192 % 2 == 1
}

pub fn has_motor_option(general: u16) -> bool
    ensures { result ≡ motor_option general }
{
    general / 32 % 2 == 1
}

pub fn removable(general: u16) -> bool
    ensures { result ≡ removableB general }
{
    general / 128 % 2 == 1
}

pub fn soft(general: u16) -> bool
    ensures { result ≡ softB general }
{
    general / 4 % 2 == 1
}

// Whether the word may stand beside the head switch time.
pub(crate) fn general_ok(w: u16, switch: u32) -> bool
    ensures { result ≡ general_ok w switch }
{
    (w < 32_768)
        & (w / 4096 % 2 == 0)
        & (w / 1024 % 2 + w / 512 % 2 + w / 256 % 2 == 1)
        & (w / 128 % 2 + w / 64 % 2 == 1)
        & ((w / 16 % 2 == 1) == (Times::AT_ONCE < switch))
        & (w / 4 % 2 + w / 2 % 2 + w / 1 % 2 == 1)
}
