// One record of a sheet, as document 01 has it, and what it gives. The numbers of its bytes are the crate
// `big_endian`. The kinds of records and the entries are the crate `kinds`, the rules of order and of fields the crate
// `rules`, a sheet of records the crate `sheets`.
pub mod bytes;
