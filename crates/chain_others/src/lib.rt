// What kinds 6, 7 and 8 decide at the drives that meet them.
#![tactic(auto)]

pub mod cell;
pub mod condition;
pub mod passing;
