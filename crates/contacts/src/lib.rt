// Entries of one phase, from the states of the seconds of a window, which are stored as runs (`run_length`). A state
// is 0 outside, 1 inside, any other unsure. Seconds are counted from the window's first, which is 0. What the entries
// are, and what holds of them, is in `specs/`. `step` is internal: it names no shadow and no byte of a sheet.
#![tactic(auto)]

pub mod entries;

ghost use Rattle.std.specs.Prelude.{◌≡◌, [], ◌∷◌, ◌+◌, ◌-◌, ◌≤◌, ◌<◌, length};
ghost use Rattle.run_length.specs.Runs.{decoded};
ghost use Rattle.contacts.specs.Entries.{between, side};
ghost use Rattle.contacts.specs.Step.{At, Stepped};

use crate::entries::Entry;

#[derive(Clone, Copy)]
pub struct Cursor {
    pub at: usize, // the second to look at next, 0 (at the start) to the window's length
    pub run: usize, // the place of its run in the bytes
    pub was: u8, // the state of the second before it, a number as in the runs; at the start, any
}

// The side of a sure second, 0 outside or 1 inside; of any other byte, 1.
fn side_of(state: u8) -> u8
    ensures { (result ≤ 1) × (side result ≡ side state) }
{
    if state == 0 { 0 } else { 1 }
}

// The entry between two sure seconds of sides `was` and `is`, which have an unsure one between them where the sides
// are the same.
fn entry_between(was: u8, is: u8, from: usize, to: usize) -> Entry
    requires { (was ≤ 1) × (is ≤ 1) × (was ≡ is → from + 1 < to) }
    ensures { between (side was) (side is) from to ≡ result ∷ [] }
{
    if was == is {
        return Entry::Graze { from, to };
    }
    if was == 0 {
        return Entry::Enter { from, to };
    }
    Entry::Leave { from, to }
}

// The second before another, or the window's first, which has none before it.
fn second_before(second: usize) -> usize
    ensures { result ≡ second - 1 }
{
    if second == 0 { 0 } else { second - 1 }
}

// The next entry at a cursor, with the cursor after it, of the first phase (0) or the second; `seconds` is how many the
// window has. The first cursor is at 0, 0; any other is one that a step gave.
pub fn step(runs: &[u8], phase: usize, seconds: usize, c: Cursor) -> Option<(Entry, Cursor)>
    requires { (length (decoded phase runs.now) ≡ seconds) × At phase runs.now c }
    ensures { Stepped phase runs.now c.at result }
{
    let mut second = c.at;
    let mut run = c.run;
    let mut was = side_of(c.was);
    // Over the seconds, to the window's last. A stride takes seconds of equal state, a run of the bytes, at once.
    let to = 'seconds: loop {
        if second == seconds {
            return None;
        }
        let stride = run_length::run_at(runs, run, phase);
        if 1 < stride.state {
            // An unsure spell, which may begin with the window: the first sure second ends the search at once.
            let mut ahead = second + stride.seconds;
            run = stride.after;
            // Not a `for`: each step is a stride, as long as its run.
            while ahead < seconds {
                let next = run_length::run_at(runs, run, phase);
                if next.state <= 1 {
                    break 'seconds ahead;
                }
                ahead += next.seconds;
                run = next.after;
            }
            let from = second_before(second);
            let to = seconds - 1;
            return Some((
                Entry::Open { from, to },
                Cursor {
                    at: seconds,
                    run,
                    was: 2,
                },
            ));
        }
        // A sure second whose side is not that of the second before it.
        if 0 < second && stride.state != was {
            break 'seconds second;
        }
        was = stride.state;
        second += stride.seconds;
        run = stride.after;
    };
    // `to` is sure, and the rest of its stride adds nothing.
    let last = run_length::run_at(runs, run, phase);
    let end = to + last.seconds;
    let after = Cursor {
        at: end,
        run: last.after,
        was: last.state,
    };
    // The spell began with the window, and no sure second is before it.
    if second == 0 {
        return Some((Entry::Open { from: 0, to }, after));
    }
    let from = second - 1;
    let found = entry_between(was, last.state, from, to);
    Some((found, after))
}
