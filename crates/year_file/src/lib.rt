// A file of sheets with its damaged parts taken out and noted.
#![tactic(auto)]

pub mod kept;
pub mod lengths;
pub mod mending;
