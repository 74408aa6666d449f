// A stored sheet as text; how long the sheet is that some bytes begin with; a file of sheets without its damaged parts.
mod extent;
mod listing;
mod mend;
