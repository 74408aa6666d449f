// The elements of a star's occultation: twelve numbers and the Moon's radius; the axis that they make.
ghost use Rattle.std.specs.Prelude.{◌≡◌, ◌≤◌, length};
ghost use Rattle.sheet_types.specs.Refusals.{of_limits};
ghost use Rattle.elements.specs.Stars.{star_fields, star_of, star_range_of, radius_range_of, star_checked, constant, star_axis, axis_of, body_checked};

use super::{Axis, Body, Quadratic, Star};
use sheet_types::refusals::Refusal;

// Ranges of the twelve numbers: x, y, d0, mu.
const LOWS: [i64; 12] = [
    -200_000_000,
    -100_000_000,
    -100_000,
    -10_000,
    -200_000_000,
    -100_000_000,
    -100_000,
    -10_000,
    -30_000_000,
    0,
    14_900_000,
    -100,
];

const HIGHS: [i64; 12] = [
    200_000_000,
    100_000_000,
    100_000,
    10_000,
    200_000_000,
    100_000_000,
    100_000,
    10_000,
    30_000_000,
    359_999_999,
    15_100_000,
    100,
];

// The twelve elements as a list.
fn listed(s: Star) -> [i64; 12]
    ensures { result ≡ star_fields s }
{
    let x = s.x;
    let y = s.y;
    let mu = s.mu;
    [
        x.c0, x.c1, x.c2, x.c3, y.c0, y.c1, y.c2, y.c3, s.d, mu.c0, mu.c1, mu.c2,
    ]
}

// The star of such a list and the radius, whatever follows these 13 numbers.
pub fn from_numbers(n: &[i64]) -> Star
    requires { 13 ≤ length n.now }
    ensures { result ≡ star_of n.now }
{
    let x = super::cubic_from(n, 0);
    let y = super::cubic_from(n, 4);
    let d = n[8];
    let mu = super::quadratic_from(n, 9);
    let radius = n[12];
    Star {
        x,
        y,
        d,
        mu,
        radius,
    }
}

// Refusal 2 with the first element that is out of its range, 0 to 11.
fn check_elements(s: Star) -> Result<(), Refusal>
    ensures { result ≡ of_limits 2 (star_range_of s) }
{
    let values = listed(s);
    let lows = LOWS;
    let highs = HIGHS;
    sheet_types::refusals::of_ranges(2, &values, &lows, &highs)
}

// Refusal 13 with place 0 for a radius that is out of its range.
fn check_radius(radius: i64) -> Result<(), Refusal>
    ensures { result ≡ of_limits 13 (radius_range_of radius) }
{
    let values = [radius];
    let lows = [27_200_000i64];
    let highs = [27_300_000i64];
    sheet_types::refusals::of_ranges(13, &values, &lows, &highs)
}

// Refusal 2 with the first element that is out of its range, 0 to 11; then 13 with place 0 for the radius.
fn check(s: Star) -> Result<(), Refusal>
    ensures { result ≡ star_checked s }
{
    check_elements(s)?;
    check_radius(s.radius)
}

// What does not change: no other coefficient.
fn constant(c0: i64) -> Quadratic
    ensures { result ≡ constant c0 }
{
    Quadratic { c0, c1: 0, c2: 0 }
}

// The axis: its declination is the star's at every second.
pub fn axis(s: Star) -> Axis
    ensures { result ≡ star_axis s }
{
    let x = s.x;
    let y = s.y;
    let mu = s.mu;
    let d = constant(s.d);
    Axis { x, y, d, mu }
}

// The axis of the shadow, whatever the Moon hides.
pub fn axis_of(body: Body) -> Axis
    ensures { result ≡ axis_of body }
{
    match body {
        Body::Sun(e) => {
            let a = e.axis;
            a
        }
        Body::Star(s) => axis(s),
    }
}

// Refusal 2 with the first element that is out of its range, and a star's 13.
pub fn check_body(body: Body) -> Result<(), Refusal>
    ensures { result ≡ body_checked body }
{
    match body {
        Body::Sun(e) => super::check(e),
        Body::Star(s) => check(s),
    }
}
