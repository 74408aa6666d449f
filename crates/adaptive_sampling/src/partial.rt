// What is known of a window's seconds so far: their states as runs, the closest of them, and a distance that some
// second reaches. One computed second, or several that it shows, come to it. These functions are internal and have a
// `requires`.
ghost use Rattle.std.specs.Prelude.{◌≡◌, List, ℕ, ◌+◌, ◌≤◌, pos, nat_abs, length, ◌≤ℤ◌};
ghost use Rattle.requests.specs.RequestLaws.{InLimits};
ghost use Rattle.run_length.specs.Runs.{Ends};
ghost use Rattle.exclusion_test.specs.Samples.{IsAt, SampleSizes};
ghost use Rattle.adaptive_sampling.specs.Kept.{IsPair, Closer, Stored, Approached, Kept};

use requests::Occultation;
use run_length::Filled;
use shadow::Sample;

// What is known of the seconds so far.
#[derive(Clone, Copy)]
pub struct Tally {
    // their states, as runs
    pub filled: Filled,
    // the closest of them, counted from the window's first
    pub best: usize,
    // its M
    pub least: i64,
    // a distance that some second of the window reaches: a second that is farther away is not the closest
    pub near: u64,
}

// The states of both phases under a guard, as they stand in a run.
pub fn pair_of(guard: i64, s: Sample) -> u8
    requires { (nat_abs guard ≤ 1000) × (SampleSizes s) }
    ensures { IsPair guard s result }
{
    let m = s.m;
    let k = rounding::abs(s.first);
    let n = rounding::abs(s.second);
    let first = shadow::state(guard, k, m);
    let second = shadow::state(guard, n, m);
    run_length::pair(first, second)
}

// The closer of the closest so far and second j, whose M is m, the earlier of equals; and the runs as they are now.
fn closer(t: Tally, f: Filled, j: usize, m: i64) -> Tally
    requires { (nat_abs t.least ≤ 1000000000000000000) × (nat_abs m ≤ 1000000000000000000) }
    ensures { (result.filled ≡ f) × (Closer t j m result) × (result.near ≡ t.near) }
{
    let best = t.best;
    let least = t.least;
    let near = t.near;
    if m < least {
        return Tally {
            filled: f,
            best: j,
            least: m,
            near,
        };
    }
    Tally {
        filled: f,
        best,
        least,
        near,
    }
}

// The h seconds up to second j get the states that s shows at j.
pub fn keep(guard: i64, runs: &mut [u8], t: Tally, h: usize, j: usize, s: Sample) -> Tally
    requires guard_bound { (nat_abs guard ≤ 1000) × (SampleSizes s) × (nat_abs t.least ≤ 1000000000000000000) }
    requires le_h { (1 ≤ h) × (t.filled.count + t.filled.seconds + h ≤ length runs.old) × (Ends runs.old t.filled) }
    ensures { Stored guard s h j runs.old t runs.new result }
{
    let pair = pair_of(guard, s);
    let before = t.filled;
    let after = run_length::push_many(runs, before, pair, h);
    closer(t, after, j, s.m)
}

// The same seconds, and a distance that a second whose M is m reaches, where that is less.
pub fn nearer(t: Tally, m: i64) -> Tally
    requires { (t.near ≤ 1000000001) × (nat_abs m ≤ 1000000000000000000) × (pos 0 ≤ℤ m) × (nat_abs t.least ≤ 1000000000000000000) }
    ensures { Approached t m result }
{
    let n = t.near as i64;
    if n * n < m {
        return t;
    }
    let filled = t.filled;
    let best = t.best;
    let least = t.least;
    let near = rounding::root(m as u64) + 1;
    if t.near < near {
        return t;
    }
    Tally {
        filled,
        best,
        least,
        near,
    }
}

// Second 0, whose shadow is a: the first of the runs, and the closest so far.
pub fn first(o: Occultation, a: Sample) -> Tally
    requires { (InLimits o) × (IsAt o 0 a) }
    ensures { (runs : List ℕ) → Kept o 0 runs result }
{
    let pair = pair_of(o.guard, a);
    let filled = Filled {
        count: 0,
        pair,
        seconds: 1,
    };
    Tally {
        filled,
        best: 0,
        least: a.m,
        near: 1_000_000_000,
    }
}
