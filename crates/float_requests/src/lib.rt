// Requests whose elements and longitude come as doubles.
#![tactic(auto)]

pub mod instrument;
pub mod survey;
