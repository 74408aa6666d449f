// The types that sheets, requests and answers share: refusals and phases.
#![tactic(auto)]

pub mod phases;
pub mod refusals;
