// The chain record: up to seven drives on one control cable, and the selected one.
#![tactic(auto)]

pub mod slots;

use counts::{Place, SLOTS};
use drive_record::State;
use lines::Lines;
use pack_profile::Profile;
use pack_read::Pack;

// What the packs say, what the drives are doing, the lines, and the file's length. An empty slot is not looked at.
#[repr(C)]
#[derive(Clone, Copy)]
pub struct Chain {
    // Stays: the C interface. The record that C lends has packs and states as two arrays (include/esdi.h).
    pub packs: [Pack; SLOTS],
    pub states: [State; SLOTS],
    pub lines: Lines,
    pub length: Place,
}

// The selected drive, if a fitted one is.
// Stays: chain_lines, chain_select and chain_others promise their answers for any drive not selected too, and an Option would leave it out.
#[derive(Clone, Copy)]
pub struct Seen {
    pub selected: bool,
    pub profile: Profile,
    pub state: State,
}
