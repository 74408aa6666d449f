// The gap between two computed seconds: whether they show the states of all seconds between them, and that none of
// those is the closest. A margin is how far an end is from a circle, less the guard and what roundings may do; the
// margins at both ends must span what the path can bend between them. `clear` is internal and has a `requires`, as do
// the functions that it calls.
#![tactic(auto)]

ghost use Rattle.std.specs.Prelude.{◌≡◌, true, ◌≤◌, pos, nat_abs, ◌≤ℤ◌};
ghost use Rattle.chord_bounds.specs.Margins.{slack, OneSign};
ghost use Rattle.exclusion_test.specs.Samples.{SampleSizes};
ghost use Rattle.exclusion_test.specs.Passed.{Bend, Half, Part, Distance, Spanning, In, Shows, ShowsSizes, PassedFrom, Passed};

use shadow::Sample;

// How far a second may be off the chord of two others by roundings, with the radius, in units.
fn slack() -> i64
    ensures { result ≡ pos slack }
{
    59
}

// The bend of seconds h apart: at least 7/16 h².
fn bend(h: usize) -> i64
    requires { h ≤ 21600 }
    ensures { Bend h result }
{
    let s = h as i64;
    7 * (s * s) / 16 + 1
}

// How often n goes into p, up to 10^9.
fn part(p: i64, n: i64) -> i64
    requires { (nat_abs p ≤ 3000000000000000000) × (nat_abs n ≤ 2000000000) × (pos 0 ≤ℤ p) × (pos 1 ≤ℤ n) }
    ensures { Part p n result }
{
    (p / n).min(1_000_000_000)
}

// The root of m, rounded down.
fn distance(m: i64) -> i64
    requires { (nat_abs m ≤ 1000000000000000000) × (pos 0 ≤ℤ m) }
    ensures { Distance m result }
{
    rounding::root(m as u64) as i64
}

// The half of r, rounded up.
fn half(r: i64) -> i64
    requires { (nat_abs r ≤ 4500000000) × (pos 1 ≤ℤ r) }
    ensures { Half r result }
{
    (r + 1) / 2
}

// Whether the margins a and b at two ends leave something between them everywhere, under a bend of q.
fn spans(a: i64, b: i64, q: i64) -> bool
    requires { (nat_abs a ≤ 2100000000) × (nat_abs b ≤ 2100000000) × (nat_abs q ≤ 204120001) }
    ensures { result ≡ true → Spanning a b q }
{
    if a < 1 {
        return false;
    }
    if b < 1 {
        return false;
    }
    let r = q - a - b;
    if r < 1 {
        return true;
    }
    let s = half(r);
    s * s < a * b
}

// Whether two numbers are of one sign; 0 is of both.
fn one_sign(k: i64, n: i64) -> bool
    requires { (nat_abs k ≤ 600000000) × (nat_abs n ≤ 600000000) }
    ensures { result ≡ true → OneSign k n }
{
    if k < 0 {
        if 0 < n {
            return false;
        }
        return true;
    }
    if n < 0 {
        return false;
    }
    true
}

// Whether both ends, of squares m and o, are inside their radii r and s by margins that span; g is the guard and the
// slack.
fn inside(r: i64, m: i64, s: i64, o: i64, g: i64, q: i64) -> bool
    requires { (nat_abs r ≤ 600000000) × (nat_abs m ≤ 1000000000000000000) × (nat_abs s ≤ 600000000) × (nat_abs o ≤ 1000000000000000000) × (nat_abs g ≤ 1059) × (nat_abs q ≤ 204120001) }
    ensures { result ≡ true → In r m s o g q }
{
    if r < 1 {
        return false;
    }
    if s < 1 {
        return false;
    }
    let a = r * r - m;
    if a < 0 {
        return false;
    }
    let b = s * s - o;
    if b < 0 {
        return false;
    }
    let k = part(a, 2 * r);
    let n = part(b, 2 * s);
    spans(k - g, n - g, q)
}

// Whether the state of a phase is shown for all between: k and l are how far out the ends are, r and s their L, m and
// o their M.
fn shows(k: i64, l: i64, r: i64, m: i64, s: i64, o: i64, g: i64, q: i64) -> bool
    requires { ShowsSizes k l r m s o g q }
    ensures { result ≡ true → Shows k l r m s o g q }
{
    let a = rounding::abs(r);
    let b = rounding::abs(s);
    let out = spans(k - a - g, l - b - g, q);
    if out {
        return true;
    }
    let same = one_sign(r, s);
    if !same {
        return false;
    }
    inside(a, m, b, o, g, q)
}

// Whether c and o, h apart, of which c is the nearer, show that neither the closest second nor a change of state lies
// between them.
fn passes(guard: i64, near: u64, c: Sample, o: Sample, h: usize) -> bool
    requires { (nat_abs guard ≤ 1000) × (near ≤ 1000000001) × (SampleSizes c) × (SampleSizes o) × (h ≤ 21600) }
    ensures { result ≡ true → PassedFrom guard near h c o }
{
    let m = c.m;
    if m < 0 {
        return false;
    }
    let dot = c.u * o.u + c.v * o.v;
    if dot < 0 {
        return false;
    }
    let k = distance(m);
    let l = part(dot, k + 1);
    let q = bend(h);
    let e = slack();
    let n = near as i64;
    let late = spans(k - n - e, l - n - e, q);
    if !late {
        return false;
    }
    let g = guard + e;
    let first = shows(k, l, c.first, m, o.first, o.m, g, q);
    if !first {
        return false;
    }
    shows(k, l, c.second, m, o.second, o.m, g, q)
}

// Whether two computed seconds, h apart, show that neither the closest second nor a change of state lies between
// them. The promise only limits the result: it is `true` only where they show it, and may be `false` anywhere. The
// rules leave this open. Document 01 says what a sheet holds, and not which seconds are computed for it. After
// `false` `adaptive_sampling::bisection::fill` computes seconds between the two, and promises by an equation the same
// states and the same closest second. So a needless `false` costs time and changes no byte.
pub fn clear(guard: i64, near: u64, a: Sample, b: Sample, h: usize) -> bool
    requires { (nat_abs guard ≤ 1000) × (near ≤ 1000000001) × (SampleSizes a) × (SampleSizes b) × (h ≤ 21600) }
    ensures { result ≡ true → Passed guard near h a b }
{
    let m = a.m;
    let n = b.m;
    if n < m {
        return passes(guard, near, b, a, h);
    }
    passes(guard, near, a, b, h)
}
