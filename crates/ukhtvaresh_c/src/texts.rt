// What a person types, and what a person reads.
mod times;
mod typed;
