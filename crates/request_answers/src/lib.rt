// A request's bytes to its sheet, to the shadow at one second, to the horizon at one second, or to the contact between
// two seconds.
#![tactic(auto)]

pub mod one_contact;
pub mod one_horizon;
pub mod one_second;
mod rooms;
pub mod sheets;
