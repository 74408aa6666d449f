// The covered share of the Sun's disc: of two radii and a distance, and at a second of a request.
#![tactic(auto)]

pub mod area;
pub mod second;
