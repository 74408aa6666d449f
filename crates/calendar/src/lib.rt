// The reference instant of a request: the date and time of τ = 0. How one is typed is `instant_text`, how seconds are
// printed by it `clock`; as six numbers it is in `numbers`.
#![tactic(auto)]

pub mod numbers;

ghost use Rattle.std.specs.Prelude.{◌≡◌};
ghost use Rattle.calendar.specs.Calendar.{is_leap, days_in, is_day};

// Ephemeris or universal time.
#[derive(Clone, Copy)]
pub enum Scale {
    Ephemeris,
    Universal,
}

// The date and time of τ = 0 in a scale, and what UTC needs beside them.
#[derive(Clone, Copy)]
pub struct Instant {
    pub year: u64, // 1583 to 9999, of the Gregorian calendar
    pub month: u64, // 1 to 12
    pub day: u64, // 1 to the month's last
    pub hundredths: u64, // of a second from 0h, 0 to 8,639,999
    pub scale: Scale,
    pub offset: u64, // TAI less UTC in seconds, 10 to 99; 0 where it was not typed
}

// ---- the Gregorian calendar

fn is_leap(year: u64) -> bool
    ensures { result ≡ is_leap year }
{
    (year % 4 == 0) & ((year % 100 != 0) | (year % 400 == 0))
}

fn days_in(year: u64, month: u64) -> u64
    ensures { result ≡ days_in year month }
{
    if month == 2 {
        if is_leap(year) {
            return 29;
        }
        return 28;
    }
    if (month == 4) | (month == 6) | (month == 9) | (month == 11) {
        return 30;
    }
    31
}

// Whether it is a day of the calendar, from the year 1583 on.
pub fn is_day(year: u64, month: u64, day: u64) -> bool
    ensures { result ≡ is_day year month day }
{
    let last = days_in(year, month);
    (1583 <= year) & (1 <= month) & (month <= 12) & (1 <= day) & (day <= last)
}
