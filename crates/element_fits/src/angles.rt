// Angles from sines and cosines, by halving over the sine rule with a lent table S. Angles are in units of 10^-6
// degree, sines and cosines in units of 10^-8.
ghost use Rattle.std.specs.Prelude.{◌≡◌, ◌≤◌, ◌<◌, pos, nat_abs};
ghost use Rattle.rounding.specs.Value.{Value};
ghost use Rattle.sine_table.specs.Table.{Sines};
ghost use Rattle.sine.specs.Sine.{sine};
ghost use Rattle.element_fits.specs.Angles.{arc, arcsine, acute, argument};

// `Sines table.now` stays a clause of each function: `sine::sine` and its callers, public ones too, take table S as a
// slice, and those clauses stay.

// The sine of an angle from 0 to 45 degrees, which is not negative.
fn natural_sine(table: &[u32], a: u64) -> u64
    requires { (Sines table.now) × (a ≤ 45_000_000) }
    ensures { pos result ≡ sine (pos a) }
{
    sine::sine(table, a) as u64
}

// The largest angle from 0 to 45 degrees whose sine is at most s. The sine rises there, so it is found by halving: the
// sine of low is at most s, and that of high and of all above it is more.
fn arc(table: &[u32], s: u64) -> u64
    requires { Sines table.now }
    ensures value { result ≡ arc s }
    ensures small { result ≤ 45_000_000 }
{
    let mut low: u64 = 0;
    let mut high: u64 = 45_000_001;
    // A bisection counts no index, and `partition_point` is of slices: this has no list of angles to search.
    while low + 1 < high {
        let a = (low + high) / 2;
        let found = natural_sine(table, a);
        if s < found {
            high = a;
        } else {
            low = a;
        }
    }
    low
}

// The angle from -45 to 45 degrees whose sine is s: the largest in size whose sine is at most s in size.
pub fn arcsine(table: &[u32], s: i64) -> i64
    requires { (Sines table.now) × (nat_abs s ≤ 100_000_000) }
    ensures { Value (arcsine s) 45_000_000 result }
{
    let size = rounding::abs(s) as u64;
    let angle = arc(table, size) as i64;
    if s < 0 { -angle } else { angle }
}

// The angle from 0 to 90 degrees whose cosine is p and whose sine is q: by the lesser of the two, which is the sine
// of at most 45 degrees.
fn acute(table: &[u32], p: u64, q: u64) -> u64
    requires { Sines table.now }
    ensures value { result ≡ acute p q }
    ensures small { result ≤ 90_000_000 }
{
    if q <= p {
        arc(table, q)
    } else {
        90_000_000 - arc(table, p)
    }
}

// The angle from 0 up to 360 degrees whose cosine is x and whose sine is y.
pub fn argument(table: &[u32], x: i64, y: i64) -> u64
    requires { (Sines table.now) × (nat_abs x ≤ 100_000_000) × (nat_abs y ≤ 100_000_000) }
    ensures value { result ≡ argument x y }
    ensures below { result < 360_000_000 }
{
    let p = rounding::abs(x) as u64;
    let q = rounding::abs(y) as u64;
    let a = acute(table, p, q);
    if y < 0 {
        if x < 0 {
            180_000_000 + a
        } else {
            (360_000_000 - a) % 360_000_000
        }
    } else if x < 0 {
        180_000_000 - a
    } else {
        a
    }
}
