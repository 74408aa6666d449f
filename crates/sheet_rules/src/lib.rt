// The rules of a sheet: the order of its entries, their fields, and both together.
#![tactic(auto)]

pub mod fields;
pub mod order;
pub mod rules;
