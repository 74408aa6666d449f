// The lines of a listing, without and with times of day.
#![tactic(auto)]

pub mod clock;
pub mod lines;
pub mod times_of_day;
