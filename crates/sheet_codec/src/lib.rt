// A sheet's bytes read and written.
#![tactic(auto)]

pub mod decoder;
pub mod encoder;
