// Rounding to the nearest, square roots and sizes, over 64-bit whole numbers; in a module of its own the rounds of the
// root.
#![tactic(auto)]

pub mod roots;

ghost use Rattle.std.specs.Prelude.{◌≡◌, ◌≤◌, ◌<◌, pos, nat_abs, ◌≤ℤ◌, length};
ghost use Rattle.rounding.specs.Units.{one};
ghost use Rattle.rounding.specs.Near.{near};
ghost use Rattle.rounding.specs.Root.{root};
ghost use Rattle.rounding.specs.Limits.{first_out_of_range, rows};

// The whole number nearest to n / k, halves going away from zero: half of k is added to the size, and division rounds
// toward zero. Half of an odd k is rounded down, and n / k is then never a half. With a literal k it compiles to one
// multiplication.
pub fn near(n: i64, k: i64) -> i64
    requires { (nat_abs n ≤ 4000000000000000000) × (nat_abs k ≤ 10000000000000000) × (pos 1 ≤ℤ k) }
    ensures { result ≡ near n k }
{
    let half = k / 2;
    if n < 0 {
        (n - half) / k
    } else {
        (n + half) / k
    }
}

// The same where nothing is negative. It is no instance of a generic `near`: its one division takes a larger k, and its
// numbers are of another type.
pub fn near_unsigned(n: u64, k: u64) -> u64
    requires { (n ≤ 4000000000000000000) × (k ≤ 1000000000000000000) × (0 < k) }
    ensures { pos result ≡ near (pos n) (pos k) }
{
    let a = 2 * n + k;
    let b = 2 * k;
    a / b
}

// near over 10^8: a product of two numbers in units, in units again. A const parameter for k would move k, and the
// limit of n that goes with it, to every caller.
pub fn near_unit(n: i64) -> i64
    requires { nat_abs n ≤ 1000000000000000000 }
    ensures { result ≡ near n one }
{
    near(n, 100_000_000)
}

// The largest whole number whose square is at most n.
pub fn root(n: u64) -> u64
    ensures { result ≡ root n }
{
    roots::root_and_rounds(n).root
}

// The size of x: its distance from 0.
pub fn abs(x: i64) -> i64
    requires { nat_abs x ≤ 9223372036854775807 }
    ensures { result ≡ pos (nat_abs x) }
{
    x.abs()
}

// The first of the values that is below its low or above its high.
pub fn first_out_of_range(values: &[i64], lows: &[i64], highs: &[i64]) -> Option<usize>
    requires { (length lows.now ≡ length values.now) × (length highs.now ≡ length values.now) }
    ensures { result ≡ first_out_of_range 0 (rows values.now lows.now highs.now) }
{
    for (i, &x) in values.iter().enumerate() {
        if x < lows[i] || highs[i] < x {
            return Some(i);
        }
    }
    None
}
