// What a survey instrument exports: the 22 elements as doubles, and a marked longitude, in whole units; in a module of
// its own the other way.
pub mod writing;

ghost use Rattle.std.specs.Prelude.{◌≡◌, map, ◌≤◌, length};
ghost use Rattle.binary64.specs.Doubles.{held};
ghost use Rattle.float_requests.specs.Instrument.{fields, doubles_of, first_not_finite, finite_checked, scales, units_in, elements_in};
ghost use Rattle.float_requests.specs.HeldElements.{held_elements};

use binary64::{DEGREE, Longitude, RADIUS};
use sheet_types::refusals::Refusal;

// The elements of an eclipse as doubles, in document 01's order, coefficients per hour. Their ranges are those of
// their whole units.
#[derive(Clone, Copy)]
pub struct ElementDoubles {
    // x, Earth radii: ±2; ±1; ±0.001; ±0.0001
    pub x0: f64,
    pub x1: f64,
    pub x2: f64,
    pub x3: f64,
    // y, the same
    pub y0: f64,
    pub y1: f64,
    pub y2: f64,
    pub y3: f64,
    // d, degrees: ±25; ±0.02; ±0.0001
    pub d0: f64,
    pub d1: f64,
    pub d2: f64,
    // l1, Earth radii: 0.5 to 0.6; ±0.001; ±0.0001
    pub l10: f64,
    pub l11: f64,
    pub l12: f64,
    // l2, Earth radii: ±0.05; ±0.001; ±0.0001; below zero where the eclipse is total
    pub l20: f64,
    pub l21: f64,
    pub l22: f64,
    // mu, degrees: 0 to 359.999999; 14.9 to 15.1; ±0.0001
    pub mu0: f64,
    pub mu1: f64,
    pub mu2: f64,
    // tangents: 0.004 to 0.005
    pub tanf1: f64,
    pub tanf2: f64,
}

// Units to one of each double, the elements and then a longitude in degrees.
const SCALES: [u64; 23] = [
    RADIUS, RADIUS, RADIUS, RADIUS, RADIUS, RADIUS, RADIUS, RADIUS, DEGREE, DEGREE, DEGREE, RADIUS,
    RADIUS, RADIUS, RADIUS, RADIUS, RADIUS, DEGREE, DEGREE, DEGREE, RADIUS, RADIUS, DEGREE,
];

// The 22 doubles as a list.
impl From<ElementDoubles> for [f64; 22] {
    ghost from_gives = { λ d xs. xs ≡ fields d };

    fn from(d: ElementDoubles) -> [f64; 22] {
        [
            d.x0, d.x1, d.x2, d.x3, d.y0, d.y1, d.y2, d.y3, d.d0, d.d1, d.d2, d.l10, d.l11, d.l12,
            d.l20, d.l21, d.l22, d.mu0, d.mu1, d.mu2, d.tanf1, d.tanf2,
        ]
    }
}

// The 22 doubles of a list. No `From`: a slice has to hold 22 of them, and `from` has no `requires`.
pub fn from_doubles(xs: &[f64]) -> ElementDoubles
    requires { 22 ≤ length xs.now }
    ensures { result ≡ doubles_of xs.now }
{
    ElementDoubles {
        x0: xs[0],
        x1: xs[1],
        x2: xs[2],
        x3: xs[3],
        y0: xs[4],
        y1: xs[5],
        y2: xs[6],
        y3: xs[7],
        d0: xs[8],
        d1: xs[9],
        d2: xs[10],
        l10: xs[11],
        l11: xs[12],
        l12: xs[13],
        l20: xs[14],
        l21: xs[15],
        l22: xs[16],
        mu0: xs[17],
        mu1: xs[18],
        mu2: xs[19],
        tanf1: xs[20],
        tanf2: xs[21],
    }
}

// Refusal 12 with the place of the first double that is not finite.
fn first_not_finite(xs: &[f64]) -> Result<(), Refusal>
    ensures { result ≡ first_not_finite 0 xs.now }
{
    for (i, &x) in xs.iter().enumerate() {
        if !binary64::is_finite(x) {
            return Err(Refusal {
                number: 12,
                place: i,
            });
        }
    }
    Ok(())
}

// Refusal 12 with the first double that is not finite: 0 to 21 for the elements, 22 for the longitude.
pub fn check_finite(d: ElementDoubles, longitude: Longitude) -> Result<(), Refusal>
    ensures { result ≡ finite_checked d longitude }
{
    let xs = <[f64; 22]>::from(d);
    first_not_finite(&xs)?;
    let x = binary64::double_in(longitude);
    let known = binary64::is_finite(x);
    if !known {
        return Err(Refusal {
            number: 12,
            place: 22,
        });
    }
    Ok(())
}

// Each of the 22 in whole units; the number used in place of one that is too large is out of every range too.
fn units_in(xs: &[f64]) -> [i64; 22]
    requires { length xs.now ≡ 22 }
    ensures { result ≡ map held (units_in scales xs.now) }
{
    let scales = SCALES;
    // No `zip`: a store through `iter_mut` says nothing of the other places, and both lists are read at the same one.
    let mut units = [0i64; 22];
    for i in 0..22 {
        units[i] = binary64::unit_of(binary64::read(xs[i], scales[i]));
    }
    units
}

// The elements in whole units.
pub fn elements_in(d: ElementDoubles) -> elements::Elements
    ensures { result ≡ held_elements (elements_in d) }
{
    let xs = <[f64; 22]>::from(d);
    let units = units_in(&xs);
    elements::from_numbers(&units)
}
