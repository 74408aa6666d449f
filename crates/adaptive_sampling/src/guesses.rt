// Where a stretch between two computed seconds is cut. A guess: wherever it is cut, the same states and the same
// closest second are found. The better the guess, the fewer seconds are computed. So each promise is only that the
// cut lies within the stretch. All functions are internal and have a `requires`.
ghost use Rattle.std.specs.Prelude.{◌≡◌, ◌≤◌, ◌<◌, nat_abs};
ghost use Rattle.exclusion_test.specs.Samples.{SampleSizes};

use shadow::Sample;

// The smaller of two.
fn at_most(x: u64, most: u64) -> u64
    ensures { result ≤ most }
{
    x.min(most)
}

// The size of x.
fn size(x: i64) -> u64
    requires { nat_abs x ≤ 9223372036854775807 }
    ensures { result ≡ nat_abs x }
{
    rounding::abs(x) as u64
}

// The chord from one shadow to another.
#[derive(Clone, Copy)]
pub struct Chord {
    // the square of its length
    pub square: u64,
    // its product with the position of the first: negative where it leads nearer to the axis
    pub along: i64,
}

// The chord from c to o.
fn chord_of(c: Sample, o: Sample) -> Chord
    requires { (SampleSizes c) × (SampleSizes o) }
    ensures { (result.square ≤ 8000000000000000000) × (nat_abs result.along ≤ 4000000000000000000) }
{
    let p = o.u - c.u;
    let q = o.v - c.v;
    let along = c.u * p + c.v * q;
    let square = size(p * p + q * q);
    Chord { square, along }
}

// M less the square of a radius.
fn excess(m: i64, radius: i64) -> i64
    requires { (nat_abs m ≤ 1000000000000000000) × (nat_abs radius ≤ 600000000) }
    ensures { nat_abs result ≤ 1360000000000000000 }
{
    m - radius * radius
}

// t, where it lies within a stretch of h seconds; else the second next to that end.
fn inner(t: u64, h: usize) -> usize
    requires { (2 ≤ h) × (h ≤ 21600) }
    ensures { (1 ≤ result) × (result < h) }
{
    if t < 1 {
        return 1;
    }
    if h as u64 <= t {
        return h - 1;
    }
    t as usize
}

// t, where it lies within a stretch of h seconds; else the middle, or the second next to the start.
fn inner_or_middle(t: u64, h: usize) -> usize
    requires { (2 ≤ h) × (h ≤ 21600) }
    ensures { (1 ≤ result) × (result < h) }
{
    if t < 1 {
        return 1;
    }
    if h as u64 <= t {
        return h / 2;
    }
    t as usize
}

// (a - c)² + b² + 2 b (a + c), which is (a + b + c)² - 4 a c.
fn under(a: u64, b: u64, c: u64) -> u64
    requires { (a ≤ 1000000000) × (b ≤ 1000000000) × (c ≤ 1000000000) }
{
    let sum = a + c;
    let whole = sum * sum;
    let less = at_most(4 * (a * c), whole);
    whole - less + b * (b + 2 * sum)
}

// How many of h seconds after an end that is outside a circle the chord enters it. M less the square of the radius is
// `outer` at that end and -`inside` at the other, and a quadratic between them with `bend` before the square.
fn entry(outer: u64, inside: u64, bend: u64, h: usize) -> usize
    requires { (outer ≤ 9223372036854775807) × (inside ≤ 9223372036854775807) × (bend ≤ 9223372036854775807) × (2 ≤ h) × (h ≤ 21600) }
    ensures { (1 ≤ result) × (result < h) }
{
    let scale = (outer / 4 + inside / 4 + bend / 4) / 250_000_000 + 1;
    let a = at_most(outer / scale, 1_000_000_000);
    let b = at_most(inside / scale, 1_000_000_000);
    let c = at_most(bend / scale, 1_000_000_000);
    let sum = a + b + c;
    let found = rounding::root(under(a, b, c));
    let s = at_most(found, 4_000_000_000);
    let t = at_most(2_000_000 * a / (sum + s + 1), 2_000_000);
    inner(t * h as u64 / 1_000_000, h)
}

// The second next to the end whose distance from the circle is less.
fn beside(first: u64, second: u64, h: usize) -> usize
    requires { 2 ≤ h }
    ensures { (1 ≤ result) × (result < h) }
{
    if first < second {
        return 1;
    }
    h - 1
}

// Where the chord from a to b, h seconds apart, crosses a circle whose radius is k at a and n at b.
fn crossing(a: Sample, b: Sample, k: i64, n: i64, h: usize) -> usize
    requires { (SampleSizes a) × (SampleSizes b) × (nat_abs k ≤ 600000000) × (nat_abs n ≤ 600000000) × (2 ≤ h) × (h ≤ 21600) }
    ensures { (1 ≤ result) × (result < h) }
{
    let d = chord_of(a, b);
    let first = excess(a.m, k);
    let second = excess(b.m, n);
    let x = size(first);
    let y = size(second);
    if first < 0 {
        if second < 0 {
            return beside(x, y, h);
        }
        let t = entry(y, x, d.square, h);
        return h - t;
    }
    if second < 0 {
        return entry(x, y, d.square, h);
    }
    beside(x, y, h)
}

// How many of h seconds after its start a chord is closest, up to all of them.
fn foot_of(d: Chord, h: usize) -> usize
    requires { (d.square ≤ 8000000000000000000) × (nat_abs d.along ≤ 4000000000000000000) × (1 ≤ h) × (h ≤ 21600) }
    ensures { result ≤ h }
{
    if d.along < 0 {
        let before = size(d.along);
        let rate = d.square / h as u64 + 1;
        let ahead = at_most(before / rate, h as u64);
        return ahead as usize;
    }
    0
}

// How many of h seconds after c the chord from c to o is closest, up to all of them.
pub fn foot(c: Sample, o: Sample, h: usize) -> usize
    requires { (SampleSizes c) × (SampleSizes o) × (1 ≤ h) × (h ≤ 21600) }
    ensures { result ≤ h }
{
    let d = chord_of(c, o);
    foot_of(d, h)
}

// How many of h seconds after c, the nearer end, the stretch to o is cut: where the distance is so much more than the
// least, `near`, that seconds can be passed over; where the chord is closest; or twice as far as the distance grows in
// a second.
fn approach(near: u64, c: Sample, o: Sample, h: usize) -> usize
    requires { (near ≤ 1000000001) × (SampleSizes c) × (SampleSizes o) × (2 ≤ h) × (h ≤ 21600) }
    ensures { (1 ≤ result) × (result < h) }
{
    let d = chord_of(c, o);
    let m = size(c.m);
    let found = rounding::root(m);
    let k = at_most(found, 1_000_000_000);
    let s = h as u64;
    if k <= near + 59 {
        let speed = d.square / s / s + 1;
        let z = rounding::root(124 * k / speed);
        let t = at_most(z, 1_000_000);
        return inner_or_middle(t + 1, h);
    }
    let t = foot_of(d, h);
    if 0 < t {
        return inner_or_middle(t as u64, h);
    }
    let along = size(d.along);
    inner_or_middle(2 * (along / s / (k + 1)) + 1, h)
}

// Where the stretch of h seconds from a to b is cut; p and q are the states there, of both phases.
pub fn cut(near: u64, p: u8, q: u8, a: Sample, b: Sample, h: usize) -> usize
    requires { (near ≤ 1000000001) × (SampleSizes a) × (SampleSizes b) × (2 ≤ h) × (h ≤ 21600) }
    ensures { (1 ≤ result) × (result < h) }
{
    if p % 4 != q % 4 {
        return crossing(a, b, a.first, b.first, h);
    }
    if p != q {
        return crossing(a, b, a.second, b.second, h);
    }
    if b.m < a.m {
        let t = approach(near, b, a, h);
        return h - t;
    }
    approach(near, a, b, h)
}
