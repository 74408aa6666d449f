// Sine and cosine, from a filled table S (`sine_table`). Angles are in units of 10^-6 degree, sines and cosines in
// units of 10^-8.
//
// `Sines table` stays a `requires` of each function: docs/RULES.md names these functions, and a type in place of the
// slice would ask more of their callers.
#![tactic(auto)]

pub mod turns;

ghost use Rattle.std.specs.Prelude.{◌≡◌, ◌≤◌, pos, nat_abs};
ghost use Rattle.sine_table.specs.Table.{Sines};
ghost use Rattle.sine.specs.FirstQuadrant.{first_quadrant};
ghost use Rattle.sine.specs.Sine.{IsReduced, IsSine, IsCosine};

// The sine of an angle from 0 to 90 degrees: k tenths and b millionths over. s is S[k] and c is S[900-k].
fn first_quadrant(table: &[u32], a: u64) -> i64
    requires { (Sines table.now) × (a ≤ 90_000_000) }
    ensures { result ≡ first_quadrant a }
{
    let tenths = a / 100_000;
    let b = a % 100_000;
    let k = tenths as usize;
    let arc = b * 17_453_293;
    let r = rounding::near_unsigned(arc, 10_000_000);
    let square = r * r;
    let w = rounding::near_unsigned(square, 200_000_000);
    let s = u64::from(sine_table::entry(table, k));
    let c = u64::from(sine_table::entry(table, 900 - k));
    let gain = c * r;
    let loss = s * w;
    let step = rounding::near_unsigned(gain - loss, 100_000_000);
    let sum = s + step;
    sum.min(100_000_000) as i64
}

// An angle of either sign, reduced to 0 up to 360 degrees.
pub fn reduced(a: i64) -> u64
    requires { nat_abs a ≤ 10_000_000_000 }
    ensures { IsReduced a result }
{
    a.rem_euclid(360_000_000) as u64
}

// s of the page `Quadrants`: the sine of an angle from 0 to 90 degrees. One function for it and `c` would be no
// plainer: it would take which of the two is meant, and the page's rows name both.
fn s(table: &[u32], a: u64) -> i64
    requires { (Sines table.now) × (a ≤ 90_000_000) }
    ensures { IsSine (pos a) result }
{
    first_quadrant(table, a)
}

// c of that page: the cosine, which is the sine of 90 degrees less the angle.
fn c(table: &[u32], a: u64) -> i64
    requires { (Sines table.now) × (a ≤ 90_000_000) }
    ensures { IsCosine (pos a) result }
{
    first_quadrant(table, 90_000_000 - a)
}

// The sine of an angle from 0 to 360 degrees: s, c, -s, -c.
pub fn sine(table: &[u32], a: u64) -> i64
    requires { (Sines table.now) × (a ≤ 360_000_000) }
    ensures { IsSine (pos a) result }
{
    if a <= 90_000_000 {
        s(table, a)
    } else if a <= 180_000_000 {
        c(table, a - 90_000_000)
    } else if a <= 270_000_000 {
        -s(table, a - 180_000_000)
    } else {
        -c(table, a - 270_000_000)
    }
}

// The cosine of an angle from 0 to 360 degrees: c, -s, -c, s. One function for both would be no plainer: it would take
// the order and the signs of the quadrants, which stand here to be read.
pub fn cosine(table: &[u32], a: u64) -> i64
    requires { (Sines table.now) × (a ≤ 360_000_000) }
    ensures { IsCosine (pos a) result }
{
    if a <= 90_000_000 {
        c(table, a)
    } else if a <= 180_000_000 {
        -s(table, a - 90_000_000)
    } else if a <= 270_000_000 {
        -c(table, a - 180_000_000)
    } else {
        s(table, a - 270_000_000)
    }
}
