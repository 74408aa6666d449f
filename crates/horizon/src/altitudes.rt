// The altitude from its sine.
ghost use Rattle.std.specs.Prelude.{◌≡◌, ◌≤◌, nat_abs};
ghost use Rattle.sine_table.specs.Table.{S, Sines};
ghost use Rattle.horizon.specs.Altitude.{kept, largest_under, altitude};

// A sine kept within ±10^8, which its rounding may pass.
pub fn kept(a: i64) -> i64
    requires { nat_abs a ≤ 1000000000 }
    ensures { result ≡ kept a }
{
    a.clamp(-100_000_000, 100_000_000)
}

// The largest k in 0..900 whose sine is at most a. The table rises from 0, so it is as many as there are such sines
// after the first.
fn largest_under(table: &[u32], a: u64) -> u64
    requires { Sines table.now }
    ensures { result ≡ largest_under S a 900 }
{
    table[1..901].partition_point(|sine| u64::from(*sine) <= a) as u64
}

// The altitude whose sine is a, in tenths of a degree, rounded down.
pub fn altitude(table: &[u32], a: i64) -> i64
    requires { (Sines table.now) × (nat_abs a ≤ 100000000) }
    ensures { result ≡ altitude S a }
{
    if a < 0 {
        let under = largest_under(table, (-1 - a) as u64);
        return -1 - under as i64;
    }
    let under = largest_under(table, a as u64);
    under as i64
}
