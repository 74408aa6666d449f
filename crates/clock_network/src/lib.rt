// A network of clocks: its stations, its strata, and what it is refused for.
#![tactic(auto)]

pub mod checks;
pub mod stations;
pub mod strata;
