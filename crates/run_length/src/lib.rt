// The states of the seconds of a window, stored as runs: never more than one byte a second, for two phases. All
// functions are internal.
#![tactic(auto)]

ghost use Rattle.std.specs.Prelude.{◌≡◌, ◌+◌, ◌≤◌, ◌<◌, length, take, drop};
ghost use Rattle.run_length.specs.Runs.{state_in, seconds_of, Whole, RunAt, Ends, Written, Pushed};

// A run as one phase sees it. Its state is a number, as it is kept in two bits of a byte of the caller's buffer.
#[derive(Clone, Copy)]
pub struct Run {
    pub state: u8, // 0 outside, 1 inside, any other unsure
    pub seconds: usize, // at least 1
    pub after: usize, // the place after it in the bytes
}

// The runs so far: those that are stored, and the last, which is not stored yet since it may get longer. The count
// stands beside the caller's bytes because the library has no heap.
#[derive(Clone, Copy)]
pub struct Filled {
    pub count: usize, // how many bytes the stored ones take
    pub pair: u8, // the states of the last
    pub seconds: usize, // how long the last is, 1 to 3839
}

// The states of two phases, in the lower bits of a run's first byte.
pub fn pair(first: u8, second: u8) -> u8
    requires { (first ≤ 2) × (second ≤ 2) }
    ensures { (state_in 0 result ≡ first) × (state_in 1 result ≡ second) × (result < 16) }
{
    first + second * 4
}

// The state that a first byte holds, of the first phase (0) or the second.
fn state_in(first: u8, phase: usize) -> u8
    ensures { result ≡ state_in phase first }
{
    if phase == 0 { first % 4 } else { first / 4 % 4 }
}

// The seconds of a run of two bytes, by the upper bits of the first and by the second.
fn seconds_of(high: u8, low: u8) -> usize
    requires { 0 < high }
    ensures { result ≡ seconds_of high low }
{
    (usize::from(high) - 1) * 256 + usize::from(low)
}

// Puts a run of n seconds at a place, in two bytes; the place after it.
fn put(runs: &mut [u8], at: usize, pair: u8, n: usize) -> usize
    requires { (pair < 16) × (2 ≤ n) × (n ≤ 3839) × (at + 2 ≤ length runs.old) × (Whole (take at runs.old)) }
    ensures { Written runs.old at pair n runs.new result }
{
    let high = n / 256 + 1;
    let low = n % 256;
    let next = at + 1;
    runs[at] = pair + high as u8 * 16;
    runs[next] = low as u8;
    next + 1
}

// Stores the last run after the others: in one byte if it is one second, else in two. The place after it.
pub fn write(runs: &mut [u8], f: Filled) -> usize
    requires { (f.count + f.seconds ≤ length runs.old) × (Ends runs.old f) }
    ensures { Written runs.old f.count f.pair f.seconds runs.new result }
{
    let at = f.count;
    if f.seconds == 1 {
        runs[at] = f.pair;
        return at + 1;
    }
    put(runs, at, f.pair, f.seconds)
}

// n seconds more: the last run gets longer, or it is stored and another follows it.
pub fn push(runs: &mut [u8], f: Filled, pair: u8, n: usize) -> Filled
    requires { (pair < 16) × (1 ≤ n) × (n ≤ 3839) × (f.count + f.seconds ≤ length runs.old) × (Ends runs.old f) }
    ensures { Pushed runs.old f pair n runs.new result }
{
    let count = f.count;
    if f.pair == pair {
        let seconds = f.seconds + n;
        if seconds <= 3839 {
            return Filled {
                count,
                pair,
                seconds,
            };
        }
    }
    let next = write(runs, f);
    Filled {
        count: next,
        pair,
        seconds: n,
    }
}

// n seconds more, however many: as many runs as they need.
pub fn push_many(runs: &mut [u8], f: Filled, pair: u8, n: usize) -> Filled
    requires { (pair < 16) × (1 ≤ n) × (f.count + f.seconds + n ≤ length runs.old) × (Ends runs.old f) }
    ensures { Pushed runs.old f pair n runs.new result }
{
    let mut r = f;
    let mut left = n;
    // a for loop over the full runs would be no plainer: how many there are, and what is left, would be two divisions
    while 3839 < left {
        r = push(runs, r, pair, 3839);
        left -= 3839;
    }
    push(runs, r, pair, left)
}

// The run at place i, as the first phase (0) or the second sees it.
pub fn run_at(runs: &[u8], i: usize, phase: usize) -> Run
    requires { (i < length runs.now) × Whole (drop i runs.now) }
    ensures { RunAt phase runs.now i result }
{
    let first = runs[i];
    let state = state_in(first, phase);
    let high = first / 16;
    let next = i + 1;
    if high == 0 {
        return Run {
            state,
            seconds: 1,
            after: next,
        };
    }
    let seconds = seconds_of(high, runs[next]);
    let after = next + 1;
    Run {
        state,
        seconds,
        after,
    }
}
