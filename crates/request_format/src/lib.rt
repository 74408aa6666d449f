// A request's numbers: their table, their bytes, and the request that bytes hold.
#![tactic(auto)]

pub mod bytes;
pub mod fields;
pub mod input;
