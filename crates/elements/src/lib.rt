// The Besselian elements of an eclipse: 22 whole numbers as an axis and two cones, their ranges, and a value at a
// second. In module `stars` those of a star's occultation.
#![tactic(auto)]

pub mod stars;

ghost use Rattle.std.specs.Prelude.{◌≡◌, ◌+◌, ◌*◌, ◌≤◌, nat_abs, length};
ghost use Rattle.rounding.specs.Value.{Value};
ghost use Rattle.elements.specs.Polynomial.{stepBy, quadratic_by, cubic_by, quadratic_at, cubic_at};
ghost use Rattle.elements.specs.Elements.{fields, cubic_from, quadratic_from, elements_of, elements_checked};
ghost use Rattle.elements.specs.Sizes.{CubicSizes, QuadraticSizes};

use sheet_types::refusals::Refusal;

// c0 + c1 t + c2 t^2 + c3 t^3 with t in hours: a length, 10^-8 of the Earth's equatorial radius.
#[repr(C)]
#[derive(Clone, Copy)]
pub struct Cubic {
    // ±200,000,000
    pub c0: i64,
    // ±100,000,000
    pub c1: i64,
    // ±100,000
    pub c2: i64,
    // ±10,000
    pub c3: i64,
}

// c0 + c1 t + c2 t^2 with t in hours: a length, or an angle in 10^-6 degree. Whose it is says the ranges.
#[repr(C)]
#[derive(Clone, Copy)]
pub struct Quadratic {
    pub c0: i64,
    pub c1: i64,
    pub c2: i64,
}

// The axis of a shadow.
#[repr(C)]
#[derive(Clone, Copy)]
pub struct Axis {
    // Where it meets the fundamental plane, to the east.
    pub x: Cubic,
    // The same to the north.
    pub y: Cubic,
    // Its declination: ±25,000,000; ±20,000; ±100. Of a star: ±30,000,000; 0; 0.
    pub d: Quadratic,
    // Its hour angle at Greenwich: 0 to 359,999,999; 14,900,000 to 15,100,000; ±100.
    pub mu: Quadratic,
}

// A cone about the axis.
#[repr(C)]
#[derive(Clone, Copy)]
pub struct Cone {
    // Its radius in the fundamental plane. Penumbra: 50,000,000 to 60,000,000; ±100,000; ±10,000.
    // Central: ±5,000,000; ±100,000; ±10,000; below zero where the eclipse is total.
    pub l: Quadratic,
    // The tangent of its half-angle, 10^-8: 400,000 to 500,000.
    pub tanf: i64,
}

#[repr(C)]
#[derive(Clone, Copy)]
pub struct Elements {
    pub axis: Axis,
    // l1 and tan f1
    pub penumbra: Cone,
    // l2 and tan f2
    pub central: Cone,
}

// The elements of a star's occultation: the shadow is a cylinder, and the star does not move.
#[repr(C)]
#[derive(Clone, Copy)]
pub struct Star {
    // Where the axis meets the fundamental plane, to the east.
    pub x: Cubic,
    // The same to the north.
    pub y: Cubic,
    // The star's declination, ±30,000,000.
    pub d: i64,
    // Its hour angle at Greenwich: 0 to 359,999,999; 14,900,000 to 15,100,000; ±100.
    pub mu: Quadratic,
    // The Moon's radius, 27,200,000 to 27,300,000.
    pub radius: i64,
}

// What the Moon hides.
#[derive(Clone, Copy)]
pub enum Body {
    Sun(Elements),
    Star(Star),
}

// Ranges of the 22 numbers, in document 01's order: x, y, d, l1, l2, mu, tan f1, tan f2.
const LOWS: [i64; 22] = [
    -200_000_000,
    -100_000_000,
    -100_000,
    -10_000,
    -200_000_000,
    -100_000_000,
    -100_000,
    -10_000,
    -25_000_000,
    -20_000,
    -100,
    50_000_000,
    -100_000,
    -10_000,
    -5_000_000,
    -100_000,
    -10_000,
    0,
    14_900_000,
    -100,
    400_000,
    400_000,
];

const HIGHS: [i64; 22] = [
    200_000_000,
    100_000_000,
    100_000,
    10_000,
    200_000_000,
    100_000_000,
    100_000,
    10_000,
    25_000_000,
    20_000,
    100,
    60_000_000,
    100_000,
    10_000,
    5_000_000,
    100_000,
    10_000,
    359_999_999,
    15_100_000,
    100,
    500_000,
    500_000,
];

// The elements as a list, in document 01's order.
fn listed(e: Elements) -> [i64; 22]
    ensures { result ≡ fields e }
{
    let axis = e.axis;
    let x = axis.x;
    let y = axis.y;
    let d = axis.d;
    let mu = axis.mu;
    let penumbra = e.penumbra;
    let l1 = penumbra.l;
    let central = e.central;
    let l2 = central.l;
    [
        x.c0,
        x.c1,
        x.c2,
        x.c3,
        y.c0,
        y.c1,
        y.c2,
        y.c3,
        d.c0,
        d.c1,
        d.c2,
        l1.c0,
        l1.c1,
        l1.c2,
        l2.c0,
        l2.c1,
        l2.c2,
        mu.c0,
        mu.c1,
        mu.c2,
        penumbra.tanf,
        central.tanf,
    ]
}

// The four coefficients from place `at` on of such a list.
fn cubic_from(n: &[i64], at: usize) -> Cubic
    requires { at + 4 ≤ length n.now }
    ensures { result ≡ cubic_from n.now at }
{
    let c0 = n[at];
    let c1 = n[at + 1];
    let c2 = n[at + 2];
    let c3 = n[at + 3];
    Cubic { c0, c1, c2, c3 }
}

// The three.
fn quadratic_from(n: &[i64], at: usize) -> Quadratic
    requires { at + 3 ≤ length n.now }
    ensures { result ≡ quadratic_from n.now at }
{
    let c0 = n[at];
    let c1 = n[at + 1];
    let c2 = n[at + 2];
    Quadratic { c0, c1, c2 }
}

// The elements from such a list, whatever follows its 22 numbers: what `listed` undoes, and what undoes it.
pub fn from_numbers(n: &[i64]) -> Elements
    requires { 22 ≤ length n.now }
    ensures { result ≡ elements_of n.now }
{
    let x = cubic_from(n, 0);
    let y = cubic_from(n, 4);
    let d = quadratic_from(n, 8);
    let l1 = quadratic_from(n, 11);
    let l2 = quadratic_from(n, 14);
    let mu = quadratic_from(n, 17);
    let tanf1 = n[20];
    let tanf2 = n[21];
    let axis = Axis { x, y, d, mu };
    let penumbra = Cone { l: l1, tanf: tanf1 };
    let central = Cone { l: l2, tanf: tanf2 };
    Elements {
        axis,
        penumbra,
        central,
    }
}

// Refusal 2 with the first element that is out of its range, 0 to 21.
pub fn check(e: Elements) -> Result<(), Refusal>
    ensures { result ≡ elements_checked e }
{
    let values = listed(e);
    let lows = LOWS;
    let highs = HIGHS;
    sheet_types::refusals::of_ranges(2, &values, &lows, &highs)
}

// One step of a value at t of N parts of an hour: p times t over an hour to the nearest, and the next lower
// coefficient.
fn step<const N: u32>(p: i64, a: i64, t: i64) -> i64
    requires { (1 ≤ N) × (N ≤ 360000) × (nat_abs p ≤ 200000000) × (nat_abs a ≤ 400000000) × (nat_abs t ≤ 3 * N) }
    ensures { Value (stepBy N t p a) (3 * nat_abs p + nat_abs a) result }
{
    rounding::near(p * t, i64::from(N)) + a
}

// The value at t of N parts of an hour of d, l or mu: from the highest coefficient, each step to the nearest unit.
pub fn quadratic_by<const N: u32>(q: Quadratic, t: i64) -> i64
    requires { (1 ≤ N) × (N ≤ 360000) × (QuadraticSizes 360000000 20000000 10000 q) × (nat_abs t ≤ 3 * N) }
    ensures { Value (quadratic_by N q t) 500000000 result }
{
    let a = step::<N>(q.c2, q.c1, t);
    step::<N>(a, q.c0, t)
}

// The same of x or y.
pub fn cubic_by<const N: u32>(c: Cubic, t: i64) -> i64
    requires { (1 ≤ N) × (N ≤ 360000) × (CubicSizes c) × (nat_abs t ≤ 3 * N) }
    ensures { Value (cubic_by N c t) 501170000 result }
{
    let a = step::<N>(c.c3, c.c2, t);
    let b = step::<N>(a, c.c1, t);
    step::<N>(b, c.c0, t)
}

// The value at t seconds of d, l or mu.
pub fn quadratic_at(q: Quadratic, t: i64) -> i64
    requires { (QuadraticSizes 360000000 20000000 10000 q) × (nat_abs t ≤ 10800) }
    ensures { Value (quadratic_at q t) 500000000 result }
{
    quadratic_by::<3600>(q, t)
}

// The same of x or y.
pub fn cubic_at(c: Cubic, t: i64) -> i64
    requires { (CubicSizes c) × (nat_abs t ≤ 10800) }
    ensures { Value (cubic_at c t) 501170000 result }
{
    cubic_by::<3600>(c, t)
}
