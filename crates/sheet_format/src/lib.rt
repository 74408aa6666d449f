// The kinds of entries, and an entry's record in bytes.
#![tactic(auto)]

pub mod kinds;
pub mod records;
