// A request: its sheet with a share, one second, a contact, its mirror; a star's sheet; elements and a longitude as
// doubles.
mod horizons;
mod mirror;
mod one_contact;
mod positions;
mod second;
mod shares;
mod stars;
