// What an event decides on a whole chain, and what the selected drive shows.
#![tactic(auto)]

pub mod decide;
pub mod shown;
