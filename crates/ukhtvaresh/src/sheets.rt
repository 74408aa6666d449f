// A stored sheet as text; how long the sheet is that some bytes begin with; a file of sheets without its damaged parts.
pub mod extent;
pub mod listing;
pub mod mend;
