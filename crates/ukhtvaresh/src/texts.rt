// What a person types, and what a person reads.
pub mod times;
pub mod typed;
