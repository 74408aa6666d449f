// The states of all seconds of a window from the few that are computed.
#![tactic(auto)]

pub mod bisection;
pub mod guesses;
pub mod partial;
pub mod seeds;
