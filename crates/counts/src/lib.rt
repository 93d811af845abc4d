// The counts that document 01 keeps apart. One becomes another only where a rule says so.

#![tactic(auto)]

pub mod read;

// The slots of a chain, 1 to 7.
pub const LAST_SLOT: u8 = 7;

pub const SLOTS: usize = LAST_SLOT as usize;

// A cylinder's number, or how many cylinders.
#[repr(C)]
#[derive(Clone, Copy, Default, PartialEq, Eq)]
pub struct Cylinder(pub u16);

// How many cylinders lie between one and another.
#[repr(C)]
#[derive(Clone, Copy)]
pub struct Distance(pub u16);

// A head's number.
#[repr(C)]
#[derive(Clone, Copy, Default, PartialEq, Eq)]
pub struct Head(pub u8);

// How many heads.
#[repr(C)]
#[derive(Clone, Copy, Default)]
pub struct Heads(pub u16);

// A byte's position in a track, or how many bytes a track has.
#[repr(C)]
#[derive(Clone, Copy, Default)]
pub struct Position(pub u16);

// How many bytes a sector has.
#[repr(C)]
#[derive(Clone, Copy, Default, PartialEq, Eq)]
pub struct SectorSize(pub u16);

// A byte's place in a file.
#[repr(C)]
#[derive(Clone, Copy, Default, PartialEq, Eq)]
pub struct Place(pub u32);

#[repr(C)]
#[derive(Clone, Copy, Default, PartialEq, Eq)]
pub struct Micros(pub u32);

// Microseconds a cylinder.
#[repr(C)]
#[derive(Clone, Copy, Default)]
pub struct PerCylinder(pub u32);
