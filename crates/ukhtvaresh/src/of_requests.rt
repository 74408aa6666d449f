// A request: its sheet with a share, one second, a contact, its mirror; a star's sheet; elements and a longitude as
// doubles.
pub mod horizons;
pub mod mirror;
pub mod one_contact;
pub mod positions;
pub mod second;
pub mod shares;
pub mod stars;
