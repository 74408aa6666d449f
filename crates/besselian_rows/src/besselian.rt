// Besselian elements at one hour from the places of Sun and Moon: definitions and how far they lie from the exact
// values, all in specs/. Nothing here runs.

// A row of the tables: apparent places of the Sun and the Moon from the Earth's centre, 10^-8 of its equatorial radius,
// right-handed, the third to the north pole. Any numbers; accepted is what document 02 says.
#[derive(Clone, Copy)]
pub struct Row {
    pub sunx: i64,
    pub suny: i64,
    pub sunz: i64,
    pub moonx: i64,
    pub moony: i64,
    pub moonz: i64,
}

// The radii of Sun and Moon, 10^-8 of the Earth's equatorial radius. Document 02 has 10,904,847,000 and 27,227,400
// twice.
#[derive(Clone, Copy)]
pub struct Radii {
    // the Sun's: 10,890,000,000 to 10,930,000,000
    pub sun: u64,
    // the Moon's for the penumbra: 27,200,000 to 27,300,000
    pub penumbra: u64,
    // the Moon's for the central cone: 27,200,000 to 27,300,000
    pub central: u64,
}

// The elements of one row.
#[derive(Clone, Copy)]
pub struct Besselian {
    // the Moon from the Earth's centre, across the axis: to the east and to the north, 10^-8 radius
    pub x: i64,
    pub y: i64,
    // the axis' direction: sine and cosine of its declination, 10^-8
    pub sind: i64,
    pub cosd: i64,
    // tangents of the half-angles of penumbra and central cone, 10^-8
    pub tanf1: i64,
    pub tanf2: i64,
    // radii of penumbra and central cone in the fundamental plane, 10^-8 radius; l2 below zero is total
    pub l1: i64,
    pub l2: i64,
}
