// How much of the Sun is gone: the covered share of its disc, by 1,000 strips across the line of centres.
ghost use Rattle.std.specs.Prelude.{◌≡◌, ◌≤◌, pos, nat_abs, ◌≤ℤ◌};
ghost use Rattle.rounding.specs.Root.{root};
ghost use Rattle.rounding.specs.Value.{Value};
ghost use Rattle.obscuration.specs.Share.{offset, chord, share_of, share, Sizes};

// The root of n. A step of Newton's comes from anywhere to the root or above it, and every further one down to it;
// from a start near the root two or three do.
fn root_from(start: u64, n: u64) -> u64
    requires { (1000000 ≤ start) × (start ≤ 40000000) × (n ≤ 1600000000000000) }
    ensures { result ≡ root n }
{
    let mut y = (start + n / start) / 2;
    // Newton's steps, as many as it takes: no index is counted.
    while n < y * y {
        y = (y + n / y) / 2;
    }
    y
}

// The half-chord of a disc at x from its centre, 0 off the disc; found from one beside it.
fn chord(radius: i64, x: i64, beside: u64) -> u64
    requires { (nat_abs radius ≤ 40000000) × (nat_abs x ≤ 1100000000) × (beside ≤ 40000000) }
    ensures { (result ≡ chord radius x) × (result ≤ 40000000) }
{
    let square = radius * radius - x * x;
    if square < 0 {
        return 0;
    }
    let n = square as u64;
    if beside < 1_000_000 {
        return root_from(1_000_000, n);
    }
    root_from(beside, n)
}

// Where strip i lies from the Sun's centre, the Moon's side positive.
fn offset(r: i64, i: u64) -> i64
    requires { (nat_abs r ≤ 40000000) × (pos 0 ≤ℤ r) × (i ≤ 999) }
    ensures { Value (offset r i) 40000000 result }
{
    let k = 2 * i + 1;
    -r + k as i64 * r / 1000
}

// The share of a Sun of radius r that a Moon of radius n covers, their centres m apart: millionths.
fn share_of(r: i64, n: i64, m: i64) -> u32
    requires { (nat_abs r ≤ 40000000) × (nat_abs n ≤ 40000000) × (nat_abs m ≤ 1000000000) × (pos 1000 ≤ℤ r) }
    ensures { result ≡ share_of r n m }
{
    let mut covered: u64 = 0;
    let mut whole: u64 = 0;
    let mut sun: u64 = 0;
    let mut moon: u64 = 0;
    for i in 0..1000 {
        let o = offset(r, i);
        sun = chord(r, o, sun);
        moon = chord(n, o - m, moon);
        covered += sun.min(moon);
        whole += sun;
    }
    (1_000_000 * covered / whole) as u32
}

// The covered share of the Sun's disc in millionths, of L1, of L2 with its sign, and of M.
pub fn share(l1: i64, l2: i64, m: i64) -> u32
    requires { Sizes l1 l2 m }
    ensures { result ≡ share l1 l2 m }
{
    let r = (l1 + l2) / 2;
    let n = (l1 - l2) / 2;
    let distance = rounding::root(m as u64);
    share_of(r, n, distance as i64)
}
