// Besselian elements from tables of Sun and Moon.
#![tactic(auto)]

pub mod besselian;
pub mod rows;
pub mod squares;
pub mod tables;
