// From a second of a sheet to its time in a scale, in thousandths of a second from 0h of the instant's day.
ghost use Rattle.std.specs.Prelude.{◌≡◌, ◌≤◌, nat_abs};
ghost use Rattle.rounding.specs.Value.{Value};
ghost use Rattle.sheet_format.specs.StoredSeconds.{second_of};
ghost use Rattle.listing_lines.specs.Clock.{own, in_scale, time_in, shows, known};

use super::TimeScale;
use calendar::{Instant, Scale};

// 10 I + 1000τ: the thousandths of a stored second in the instant's scale.
fn own(i: Instant, stored: u32) -> i64
    ensures { Value (own i (second_of stored)) 4295064494990 result }
{
    let hundredths = i.hundredths;
    let day = (hundredths % 8_640_000) as i64;
    let second = sheet_format::kinds::seconds::second_of(stored);
    10 * day + 1000 * second
}

// The same in a scale; `offset` is TAI less UTC in seconds.
fn in_scale(typed: Scale, shown: TimeScale, deltat: i64, offset: i64, n: i64) -> i64
    requires { (nat_abs deltat ≤ 20000) × (nat_abs offset ≤ 99) × (nat_abs n ≤ 4295064494990) }
    ensures { Value (in_scale typed shown deltat offset n) 4295064826174 result }
{
    match typed {
        Scale::Ephemeris => match shown {
            TimeScale::ET => n,
            TimeScale::UT => n - 10 * deltat,
            TimeScale::UTC => n - 32_184 - 1000 * offset,
        },
        Scale::Universal => match shown {
            TimeScale::ET => n + 10 * deltat,
            TimeScale::UT => n,
            TimeScale::UTC => n + 10 * deltat - 32_184 - 1000 * offset,
        },
    }
}

pub fn time_in(shown: TimeScale, i: Instant, deltat: i64, stored: u32) -> i64
    requires { nat_abs deltat ≤ 20000 }
    ensures { Value (time_in shown i deltat (second_of stored)) 4295064826174 result }
{
    let n = own(i, stored);
    let typed = i.scale;
    let seconds = i.offset;
    let offset = (seconds % 100) as i64;
    in_scale(typed, shown, deltat, offset, n)
}

// Whether the time is known in a scale.
pub fn shows(typed: Scale, shown: TimeScale, deltat: i64, offset: u64) -> bool
    requires { nat_abs deltat ≤ 20000 }
    ensures { result ≡ shows typed shown deltat offset }
{
    let size = rounding::abs(deltat);
    match typed {
        Scale::Ephemeris => match shown {
            TimeScale::ET => true,
            TimeScale::UT => 1 <= size,
            TimeScale::UTC => 1 <= offset,
        },
        Scale::Universal => match shown {
            TimeScale::ET => 1 <= size,
            TimeScale::UT => true,
            TimeScale::UTC => (1 <= size) & (1 <= offset),
        },
    }
}

// A ΔT that a request can have, or 0.
pub fn known(deltat: i64) -> i64
    ensures { Value (known deltat) 20000 result }
{
    if deltat < -20_000 {
        return 0;
    }
    if 20_000 < deltat {
        return 0;
    }
    deltat
}
