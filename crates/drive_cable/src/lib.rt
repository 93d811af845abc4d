// One drive on the cable: the request edges it meets, what it shows on its lines, and when its record is one that the rules could leave.
#![tactic(auto)]

pub mod request;
pub mod shows;
pub mod sound;
