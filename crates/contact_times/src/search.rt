// The search for a contact: two hundredths of a second between which it lies, by halving.
ghost use Rattle.std.specs.Prelude.{◌≡◌, ◌≤◌, ◌<◌, pos, nat_abs, ◌+ℤ◌, ◌≤ℤ◌};
ghost use Rattle.sine_table.specs.Table.{Sines};
ghost use Rattle.contact_times.specs.Brackets.{side_of, side_at, last_below, narrowed, bracket_of};
ghost use Rattle.contact_times.specs.Sizes.{CrossingSizes};

use crate::hundredths::Crossing;

// From the state that a contact leaves to the one that it comes to: 0 the first, 1 unsure, 2 the other. Numbers and no
// enum: `side_of` and `last_below` of the page `Brackets` are of numbers, and the search asks which are below a bound.
fn side_of(start: u8, s: u8) -> u8
    ensures { result ≡ side_of start s }
{
    if s == start {
        return 0;
    }
    if s == 2 { 1 } else { 2 }
}

// That of the k-th hundredth after `first`.
fn side_at(table: &[u32], c: Crossing, first: i64, start: u8, k: usize) -> u8
    requires { (Sines table.now) × (CrossingSizes c) × (nat_abs first ≤ 1080000) × (k ≤ 2160000) × (nat_abs (first +ℤ pos k) ≤ 1080000) }
    ensures { result ≡ side_at c first start k }
{
    let t = first + k as i64;
    let s = crate::hundredths::state_at(table, c, t);
    side_of(start, s)
}

// A hundredth below the bound, next to one that is not, by halving.
fn last_below(
    table: &[u32],
    c: Crossing,
    first: i64,
    start: u8,
    bound: u8,
    from: usize,
    to: usize,
) -> usize
    requires { (Sines table.now) × (CrossingSizes c) × (nat_abs first ≤ 1080000) × (to ≤ 2160000) × (nat_abs (first +ℤ pos to) ≤ 1080000) × (from < to) }
    ensures { (result ≡ last_below c first start bound from to) × (result < to) }
{
    // Not `partition_point`: no slice holds the sides, and they need not rise.
    let mut low = from;
    let mut high = to;
    while low + 1 < high {
        let k = (low + high) / 2;
        let s = side_at(table, c, first, start, k);
        if s < bound {
            low = k;
        } else {
            high = k;
        }
    }
    low
}

// The two hundredths between which the contact lies, among the n after `first`.
fn narrow(table: &[u32], c: Crossing, first: i64, start: u8, n: usize) -> Option<(i64, i64)>
    requires { (Sines table.now) × (CrossingSizes c) × (nat_abs first ≤ 1080000) × (n ≤ 2160000) × (nat_abs (first +ℤ pos n) ≤ 1080000) × (0 < n) }
    ensures { result ≡ narrowed c first start n }
{
    let low = last_below(table, c, first, start, 1, 0, n);
    let high = last_below(table, c, first, start, 2, low, n);
    let a = first + low as i64;
    let b = first + (high + 1) as i64;
    Some((a, b))
}

// The two hundredths between which the contact between two seconds lies, one outside and one inside, or none where the
// two seconds are not one outside and one inside.
pub fn contact_bracket(table: &[u32], c: Crossing, from: i64, to: i64) -> Option<(i64, i64)>
    requires { (Sines table.now) × (CrossingSizes c) × (nat_abs from ≤ 10800) × (nat_abs to ≤ 10800) × (from ≤ℤ to) }
    ensures { result ≡ bracket_of c from to }
{
    let first = from * 100;
    let last = to * 100;
    let start = crate::hundredths::state_at(table, c, first);
    let end = crate::hundredths::state_at(table, c, last);
    if start + end == 1 {
        let n = (last - first) as usize;
        return narrow(table, c, first, start, n);
    }
    None
}
