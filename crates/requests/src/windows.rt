// A window of seconds: its range, and its seconds counted from 0. Some of these functions are internal and have a
// `requires`.
ghost use Rattle.std.specs.Prelude.{◌≡◌, ◌<◌};
ghost use Rattle.requests.specs.Windows.{in_span, window_holds, second_count, nth_second};
ghost use Rattle.requests.specs.WindowLaws.{WindowHolds};

// First and last second of the window, from the reference instant: -10,800 ≤ first ≤ last ≤ 10,800.
#[derive(Clone, Copy)]
pub struct Window {
    pub first: i64,
    pub last: i64,
}

// Whether a window may have that second.
pub fn in_span(t: i64) -> bool
    ensures { result ≡ in_span t }
{
    (-10_800 <= t) & (t <= 10_800)
}

// Whether it is within its range.
pub fn window_holds(w: Window) -> bool
    ensures { result ≡ window_holds w }
{
    (-10_800 <= w.first) & ((w.first <= w.last) & (w.last <= 10_800))
}

// How many seconds the window has, first and last among them.
pub fn second_count(w: Window) -> usize
    requires { WindowHolds w }
    ensures { result ≡ second_count w }
{
    (w.last - w.first) as usize + 1
}

// The k-th second of the window, counted from 0.
pub fn nth_second(w: Window, k: usize) -> i64
    requires { (WindowHolds w) × (k < second_count w) }
    ensures { result ≡ nth_second w k }
{
    w.first + k as i64
}
