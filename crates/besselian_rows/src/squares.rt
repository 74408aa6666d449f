// Squares too large for 64 bits, compared: each is high·10^12 + mid·10^6 + low, and the parts need no order.
ghost use Rattle.std.specs.Prelude.{◌≡◌, ◌≤◌, pos, nat_abs};
ghost use Rattle.std.specs.Int.Signed.{le_z, quot_z, rem_z};
ghost use Rattle.rounding.specs.Value.{Value};
ghost use Rattle.besselian_rows.specs.Wide.{number, not_negative, IsFloor, IsSquare, IsSum, Small};

// high·10^12 + mid·10^6 + low, each part of either sign.
#[derive(Clone, Copy)]
pub struct Wide {
    pub high: i64,
    pub mid: i64,
    pub low: i64,
}

fn upper(n: i64) -> i64
    requires { nat_abs n ≤ 2406500000000 }
    ensures { Value (quot_z n (pos 1000000)) 2406500 result }
{
    n / 1_000_000
}

fn lower(n: i64) -> i64
    requires { nat_abs n ≤ 2406500000000 }
    ensures { Value (rem_z n (pos 1000000)) 999999 result }
{
    n % 1_000_000
}

// n².
pub fn square(n: i64) -> Wide
    requires { nat_abs n ≤ 2406500000000 }
    ensures { IsSquare n result }
{
    let h = upper(n);
    let l = lower(n);
    Wide {
        high: h * h,
        mid: 2 * h * l,
        low: l * l,
    }
}

// x² + y² + z².
pub fn sum_of_squares(x: i64, y: i64, z: i64) -> Wide
    requires { (nat_abs x ≤ 2406500000000) × (nat_abs y ≤ 2406500000000) × (nat_abs z ≤ 2406500000000) }
    ensures { IsSum x y z result }
{
    let a = square(x);
    let b = square(y);
    let c = square(z);
    Wide {
        high: a.high + b.high + c.high,
        mid: a.mid + b.mid + c.mid,
        low: a.low + b.low + c.low,
    }
}

// The whole number at or below n / 10^6.
fn floor_million(n: i64) -> i64
    requires { nat_abs n ≤ 1000000000000000000 }
    ensures { IsFloor n result }
{
    let q = n / 1_000_000;
    if n % 1_000_000 < 0 { q - 1 } else { q }
}

// Whether high·10^12 + mid·10^6 + low is at least 0: carried up, its high part is.
fn not_negative(high: i64, mid: i64, low: i64) -> bool
    requires { (nat_abs high ≤ 200000000000000000) × (nat_abs mid ≤ 200000000000000000) × (nat_abs low ≤ 200000000000000000) }
    ensures { result ≡ not_negative high mid low }
{
    let a = floor_million(low);
    let b = floor_million(mid + a);
    0 <= high + b
}

// Whether a is at most b.
pub fn at_most(a: Wide, b: Wide) -> bool
    requires { Small 100000000000000000 a × Small 100000000000000000 b }
    ensures { result ≡ le_z (number a) (number b) }
{
    not_negative(b.high - a.high, b.mid - a.mid, b.low - a.low)
}
