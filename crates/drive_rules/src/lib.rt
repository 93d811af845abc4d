// The drive rules for time, for select and for the head lines, at one drive.
#![tactic(auto)]

pub mod heads;
pub mod left;
pub mod time;
