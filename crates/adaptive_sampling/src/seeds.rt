// The seconds of a window that are computed first, and from them a second that is nearly the closest, by a guess: the
// nearer it is to the least, the more seconds can be skipped. Only that it is a second of the window, with its M, is
// promised. All functions are internal and have a `requires`.
ghost use Rattle.std.specs.Prelude.{◌≡◌, ◌+◌, ◌≤◌, ◌<◌};
ghost use Rattle.rounding.specs.Value.{Value};
ghost use Rattle.sine_table.specs.Table.{Sines};
ghost use Rattle.elements.specs.Stars.{axis_of};
ghost use Rattle.station.specs.Place.{place_of};
ghost use Rattle.shadow.specs.Shadow.{IsOffset};
ghost use Rattle.requests.specs.Windows.{nth_second, second_count};
ghost use Rattle.requests.specs.RequestLaws.{InLimits};
ghost use Rattle.exclusion_test.specs.Samples.{IsAt, square_at};
ghost use Rattle.adaptive_sampling.specs.Spread.{stop, Spread, Sized};
ghost use Rattle.adaptive_sampling.specs.Reach.{Seen};

use requests::Occultation;
use shadow::{Offset, Sample};
use station::Place;

// A second of the window, counted from its first, and its M.
#[derive(Clone, Copy)]
pub struct Low {
    pub second: usize,
    pub m: i64,
}

// The shadow at second k of the window.
pub fn sample_of(table: &[u32], o: Occultation, place: Place, k: usize) -> Sample
    requires { (Sines table.now) × (InLimits o) × (place ≡ place_of o.station) × (k < second_count o.window) }
    ensures { IsAt o k result }
{
    let w = o.window;
    let body = o.body;
    let t = requests::windows::nth_second(w, k);
    shadow::bodies::sample_at(table, body, place, t)
}

// The axis from the station at second k of the window.
fn offset_of(table: &[u32], o: Occultation, place: Place, k: usize) -> Offset
    requires { (Sines table.now) × (InLimits o) × (place ≡ place_of o.station) × (k < second_count o.window) }
    ensures { IsOffset (axis_of o.body) (place_of o.station) (nth_second o.window k) result }
{
    let w = o.window;
    let body = o.body;
    let axis = elements::stars::axis_of(body);
    let t = requests::windows::nth_second(w, k);
    shadow::offset_at(table, axis, place, t)
}

// M at second k of the window.
fn square_of(table: &[u32], o: Occultation, place: Place, k: usize) -> i64
    requires { (Sines table.now) × (InLimits o) × (place ≡ place_of o.station) × (k < second_count o.window) }
    ensures { Value (square_at o k) 1000000000000000000 result }
{
    let s = offset_of(table, o, place, k);
    s.m
}

// The k-th of the seconds that cut a window of n into four stretches.
pub fn stop(n: usize, k: usize) -> usize
    requires { (1 ≤ n) × (n ≤ 21601) × (k ≤ 4) }
    ensures { result ≡ stop n k }
{
    k * (n - 1) / 4
}

// The shadows at those five seconds; a is the first.
pub fn spread(table: &[u32], o: Occultation, place: Place, n: usize, a: Sample) -> [Sample; 5]
    requires { (Sines table.now) × (InLimits o) × (place ≡ place_of o.station) × (n ≡ second_count o.window) × (IsAt o 0 a) }
    ensures { Spread o n result }
{
    let mut shadows = [a; 5];
    for k in 1..5 {
        let i = stop(n, k);
        shadows[k] = sample_of(table, o, place, i);
    }
    shadows
}

// Which of them is closest.
fn closest(shadows: [Sample; 5]) -> usize
    ensures { result < 5 }
{
    let mut found = 0;
    for k in 1..5 {
        if shadows[k].m < shadows[found].m {
            found = k;
        }
    }
    found
}

// The second of a window of n where the chord to one of its neighbours is closest, from the k-th of them.
fn start(n: usize, shadows: [Sample; 5], k: usize) -> usize
    requires { (11 < n) × (n ≤ 21601) × (k < 5) × (Sized shadows) }
    ensures { result < n }
{
    let i = stop(n, k);
    let c = shadows[k];
    if k < 4 {
        let after = k + 1;
        let j = stop(n, after);
        let o = shadows[after];
        let t = crate::guesses::foot(c, o, j - i);
        if 0 < t {
            return i + t;
        }
    }
    if 0 < k {
        let before = k - 1;
        let j = stop(n, before);
        let o = shadows[before];
        let t = crate::guesses::foot(c, o, i - j);
        return i - t;
    }
    i
}

// The second where the straight line through seconds k and k + 8 is closest, within a window of n.
fn foot(table: &[u32], o: Occultation, place: Place, n: usize, k: usize) -> usize
    requires { (Sines table.now) × (InLimits o) × (place ≡ place_of o.station) × (n ≡ second_count o.window) × (k + 8 < n) }
    ensures { result < n }
{
    let a = offset_of(table, o, place, k);
    let b = offset_of(table, o, place, k + 8);
    let p = b.u - a.u;
    let q = b.v - a.v;
    let square = p * p + q * q;
    let rate = square as u64 / 8 + 1;
    let along = a.u * p + a.v * q;
    if along < 0 {
        let before = -along;
        let ahead = before as u64 / rate;
        let room = n - 1 - k;
        if ahead < room as u64 {
            return k + ahead as usize;
        }
        return n - 1;
    }
    let back = along as u64 / rate;
    if back < k as u64 {
        return k - back as usize;
    }
    0
}

// A second of a window of n that is nearly the closest, with its M: the closest of five seconds and of the second to
// which a step along a chord and one along the path's tangent lead from there. The promise only limits the result: it
// is a second of the window (`Seen`). The rules leave this open. Document 01 says what a sheet holds, and not which
// seconds are computed for it. `crate::bisection::fill` passes over seconds that are farther away than this one, and
// promises the closest of all by an equation. So another second costs time and changes no byte.
pub fn nearly_closest(
    table: &[u32],
    o: Occultation,
    place: Place,
    n: usize,
    shadows: [Sample; 5],
) -> Low
    requires { (Sines table.now) × (InLimits o) × (place ≡ place_of o.station) × (n ≡ second_count o.window) × (11 < n) × (Spread o n shadows) }
    ensures { Seen o n result }
{
    let k = closest(shadows);
    let from = start(n, shadows, k);
    let mut i = from;
    if n - 9 < i {
        i = n - 9;
    }
    let second = foot(table, o, place, n, i);
    let m = square_of(table, o, place, second);
    let c = shadows[k];
    if c.m < m {
        let best = stop(n, k);
        return Low {
            second: best,
            m: c.m,
        };
    }
    Low { second, m }
}
