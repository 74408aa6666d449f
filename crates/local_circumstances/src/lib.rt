// What is said of a station at each second, and the entries of its sheet.
#![tactic(auto)]

pub mod entries;
