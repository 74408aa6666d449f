// The states of a window's seconds, from the few that need computing: between two computed seconds the station's path
// is so nearly straight that its chord shows the states of all between. Where it does not, a second between them is
// computed, where the chord suggests a change (`crate::guesses`), and both parts are looked at. `fill` is internal
// and has a `requires`, as do the functions that it calls.
ghost use Rattle.std.specs.Prelude.{◌≡◌, ◌+◌, ◌-◌, ◌≤◌, ◌<◌, length};
ghost use Rattle.sine_table.specs.Table.{Sines};
ghost use Rattle.station.specs.Place.{place_of};
ghost use Rattle.requests.specs.Windows.{second_count};
ghost use Rattle.requests.specs.RequestLaws.{InLimits};
ghost use Rattle.exclusion_test.specs.Samples.{IsAt, SampleSizes};
ghost use Rattle.adaptive_sampling.specs.Spread.{Spread};
ghost use Rattle.adaptive_sampling.specs.Kept.{Kept};
ghost use Rattle.adaptive_sampling.specs.Found.{Found};

use crate::partial::Tally;
use requests::Occultation;
use shadow::Sample;
use station::Place;

// What is known of all seconds.
#[derive(Clone, Copy)]
pub struct Known {
    // how many bytes their runs take
    pub count: usize,
    // the closest of them, counted from the window's first
    pub best: usize,
}

// The seconds after i up to j, each computed; b is the shadow at j.
fn each_second(
    table: &[u32],
    o: Occultation,
    place: Place,
    runs: &mut [u8],
    start: Tally,
    i: usize,
    j: usize,
    b: Sample,
) -> Tally
    requires sines { (Sines table.now) × (InLimits o) × (place ≡ place_of o.station) × (i < j) × (j < second_count o.window) × (IsAt o j b) }
    requires window_in_bounds { (second_count o.window ≤ length runs.old) × (Kept o i runs.old start) }
    ensures kept { Kept o j runs.new result }
    ensures runs_len_unchanged { length runs.new ≡ length runs.old }
{
    let mut t = start;
    for k in i + 1..j {
        let s = crate::seeds::sample_of(table, o, place, k);
        t = crate::partial::keep(o.guard, runs, t, 1, k, s);
    }
    crate::partial::keep(o.guard, runs, t, 1, j, b)
}

// Whether a phase is unsure at both ends of a stretch, by their states.
fn unsure(p: u8, q: u8) -> bool {
    p % 4 == 2 && q % 4 == 2 || p / 4 == 2 && q / 4 == 2
}

// How many seconds between the shadows a and b, of the states p and q, are computed one by one: four and fewer. Where a
// phase is unsure at both, or both are nearly as close as the distance `near`, few between could be skipped, and
// thirty-two are.
fn leaf(near: u64, p: u8, q: u8, a: Sample, b: Sample) -> usize
    requires { near ≤ 1000000001 }
    ensures { 4 ≤ result }
{
    if unsure(p, q) {
        return 32;
    }
    let w = near as i64 + 59;
    let limit = w * w;
    if limit < a.m {
        return 4;
    }
    if limit < b.m {
        return 4;
    }
    32
}

// Where the stretch from a at i to b at j is cut, in a few rounds by guesses, then in the middle. `low` is nearly the
// closest second, and the first guess.
fn cut_at(
    near: u64,
    low: usize,
    rounds: usize,
    p: u8,
    q: u8,
    i: usize,
    a: Sample,
    j: usize,
    b: Sample,
) -> usize
    requires { (near ≤ 1000000001) × (SampleSizes a) × (SampleSizes b) × (i + 4 < j) × (j ≤ 21600) }
    ensures { (i < result) × (result < j) }
{
    if i < low {
        if low < j {
            return low;
        }
    }
    let h = j - i;
    if rounds == 0 {
        return i + h / 2;
    }
    i + crate::guesses::cut(near, p, q, a, b, h)
}

// The seconds after i up to j, from the shadows a at i and b at j. `low` is nearly the closest second; `rounds` halves
// from one call to the next, and guesses are made until it is 0.
fn between(
    table: &[u32],
    o: Occultation,
    place: Place,
    low: usize,
    rounds: usize,
    runs: &mut [u8],
    t: Tally,
    i: usize,
    a: Sample,
    j: usize,
    b: Sample,
) -> Tally
    requires sines { (Sines table.now) × (InLimits o) × (place ≡ place_of o.station) × (i < j) × (j < second_count o.window) × (IsAt o i a) × (IsAt o j b) }
    requires window_in_bounds { (second_count o.window ≤ length runs.old) × (Kept o i runs.old t) }
    ensures kept { Kept o j runs.new result }
    ensures runs_len_unchanged { length runs.new ≡ length runs.old }
{
    let h = j - i;
    if h == 1 {
        return each_second(table, o, place, runs, t, i, j, b);
    }
    let near = t.near;
    let shown = exclusion_test::clear(o.guard, near, a, b, h);
    if shown {
        return crate::partial::keep(o.guard, runs, t, h, j, b);
    }
    let p = crate::partial::pair_of(o.guard, a);
    let q = crate::partial::pair_of(o.guard, b);
    let few = leaf(near, p, q, a, b);
    if h <= few {
        return each_second(table, o, place, runs, t, i, j, b);
    }
    let m = cut_at(near, low, rounds, p, q, i, a, j, b);
    let s = crate::seeds::sample_of(table, o, place, m);
    let lower = crate::partial::nearer(t, s.m);
    let half = between(table, o, place, low, rounds / 2, runs, lower, i, a, m, s);
    between(table, o, place, low, rounds / 2, runs, half, m, s, j, b)
}

// The seconds of a window of n under twelve, after second 0: each is computed.
fn few_seconds(
    table: &[u32],
    o: Occultation,
    place: Place,
    runs: &mut [u8],
    t: Tally,
    n: usize,
) -> Tally
    requires sines { (Sines table.now) × (InLimits o) × (place ≡ place_of o.station) × (n ≡ second_count o.window) }
    requires window_in_bounds { (second_count o.window ≤ length runs.old) × (Kept o 0 runs.old t) }
    ensures kept { Kept o (n - 1) runs.new result }
    ensures runs_len_unchanged { length runs.new ≡ length runs.old }
{
    if n == 1 {
        return t;
    }
    let j = n - 1;
    let b = crate::seeds::sample_of(table, o, place, j);
    each_second(table, o, place, runs, t, 0, j, b)
}

// The seconds of a window of n after second 0, stretch by stretch between the shadows that are there.
fn stretches(
    table: &[u32],
    o: Occultation,
    place: Place,
    low: usize,
    runs: &mut [u8],
    start: Tally,
    shadows: [Sample; 5],
    n: usize,
) -> Tally
    requires sines { (Sines table.now) × (InLimits o) × (place ≡ place_of o.station) × (n ≡ second_count o.window) × (11 < n) × (Spread o n shadows) }
    requires window_in_bounds { (second_count o.window ≤ length runs.old) × (Kept o 0 runs.old start) }
    ensures kept { Kept o (n - 1) runs.new result }
    ensures runs_len_unchanged { length runs.new ≡ length runs.old }
{
    let mut t = start;
    for k in 0..4 {
        let next = k + 1;
        let i = crate::seeds::stop(n, k);
        let j = crate::seeds::stop(n, next);
        let a = shadows[k];
        let b = shadows[next];
        t = between(table, o, place, low, 128, runs, t, i, a, j, b);
    }
    t
}

// All seconds of the window, the last run not stored yet.
fn all_seconds(table: &[u32], o: Occultation, place: Place, runs: &mut [u8]) -> Tally
    requires { (Sines table.now) × (InLimits o) × (place ≡ place_of o.station) × (second_count o.window ≤ length runs.old) }
    ensures kept { Kept o (second_count o.window - 1) runs.new result }
    ensures runs_len_unchanged { length runs.new ≡ length runs.old }
{
    let w = o.window;
    let n = requests::windows::second_count(w);
    let a = crate::seeds::sample_of(table, o, place, 0);
    let t = crate::partial::first(o, a);
    if n < 12 {
        return few_seconds(table, o, place, runs, t, n);
    }
    let shadows = crate::seeds::spread(table, o, place, n, a);
    let least = crate::seeds::nearly_closest(table, o, place, n, shadows);
    let lower = crate::partial::nearer(t, least.m);
    stretches(table, o, place, least.second, runs, lower, shadows, n)
}

// The states of all seconds of the window as runs, at the start of the buffer, and the closest second.
pub fn fill(table: &[u32], o: Occultation, place: Place, runs: &mut [u8]) -> Known
    requires { (Sines table.now) × (InLimits o) × (place ≡ place_of o.station) × (second_count o.window ≤ length runs.old) }
    ensures found { Found o runs.new result }
    ensures runs_len_unchanged { length runs.new ≡ length runs.old }
{
    let t = all_seconds(table, o, place, runs);
    let filled = t.filled;
    let count = run_length::write(runs, filled);
    Known {
        count,
        best: t.best,
    }
}
