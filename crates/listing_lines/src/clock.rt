// Seconds of a sheet as times of day, in ephemeris time, universal time and UTC, and the line of an entry with them
// (docs/CLOCK.md). A `put_` function stores a text at a place of a buffer, as far as the buffer reaches, and gives
// the place after it (`decimals`).
mod scales;

ghost use Rattle.std.specs.Prelude.{◌≡◌, ◌++◌, ◌≤◌, pos, nat_abs, ◌+ℤ◌};
ghost use Rattle.rounding.specs.Near.{floor_z};
ghost use Rattle.sheet_format.specs.StoredSeconds.{second_of};
ghost use Rattle.decimal_text.specs.Texts.{letters, Put};
ghost use Rattle.listing_lines.specs.Lines.{text_of};
ghost use Rattle.listing_lines.specs.Times.{time_text};
ghost use Rattle.listing_lines.specs.Clock.{time_in, known, typed_name, name_of, date_text, instant_text, times_in, scale_text, scales_text, shown_for, behind, timed_text, tenths_text, altitude_text, timed_line};

use calendar::{Instant, Scale};
use sheet_format::kinds::{Entry, Kind};

// The scales in which times are printed.
#[derive(Clone, Copy)]
pub enum TimeScale {
    ET,
    UT,
    UTC,
}

// Stored seconds that are shown as times.
#[derive(Clone, Copy)]
pub enum Seconds {
    // to the nearest tenth
    Moment(u32),
    // from and to, outward
    Contact(u32, u32),
}

// What is printed of an altitude: nothing; or tenths of a degree above or below the horizon. Three answers to one
// question: an Option of two would ask twice.
#[derive(Clone, Copy)]
pub enum Altitude {
    Nothing,
    Above(u64),
    Below(u64),
}

// What follows an entry's text: nothing, the line of the instant, or times. Three answers to one question, as of an
// altitude.
#[derive(Clone, Copy)]
pub enum Shown {
    Nothing,
    InstantLine,
    Times(Seconds),
}

fn put_typed_name(out: &mut [u8], at: usize, scale: Scale) -> usize
    ensures { Put out.old at (typed_name scale) out.new result }
{
    match scale {
        Scale::Ephemeris => decimal_text::put_text(out, at, b"ET"),
        Scale::Universal => decimal_text::put_text(out, at, b"UT"),
    }
}

fn put_name(out: &mut [u8], at: usize, shown: TimeScale) -> usize
    ensures { Put out.old at (name_of shown) out.new result }
{
    match shown {
        TimeScale::ET => decimal_text::put_text(out, at, b"ET"),
        TimeScale::UT => decimal_text::put_text(out, at, b"UT"),
        TimeScale::UTC => decimal_text::put_text(out, at, b"UTC"),
    }
}

// `YYYY-MM-DD`
fn put_date(out: &mut [u8], at: usize, i: Instant) -> usize
    ensures { Put out.old at (date_text i) out.new result }
{
    let year = i.year;
    let month = i.month;
    let day = i.day;
    let century = crate::times_of_day::put_two(out, at, year / 100);
    let years = crate::times_of_day::put_two(out, century, year);
    let dash = decimal_text::put_byte(out, years, b'-');
    let months = crate::times_of_day::put_two(out, dash, month);
    let second = decimal_text::put_byte(out, months, b'-');
    crate::times_of_day::put_two(out, second, day)
}

// The instant as its line has it.
pub fn put_instant(out: &mut [u8], at: usize, i: Instant) -> usize
    ensures { Put out.old at (instant_text i) out.new result }
{
    let hundredths = i.hundredths;
    let scale = i.scale;
    let n = hundredths % 8_640_000;
    let date = put_date(out, at, i);
    let blank = decimal_text::put_byte(out, date, b' ');
    let seconds = crate::times_of_day::put_seconds(out, blank, n / 100);
    let point = decimal_text::put_byte(out, seconds, b'.');
    let decimals = crate::times_of_day::put_two(out, point, n);
    let last = decimal_text::put_byte(out, decimals, b' ');
    put_typed_name(out, last, scale)
}

// The time of a stored second, at the floor of its thousandths plus `more` over 100, after a blank.
fn put_second(
    out: &mut [u8],
    at: usize,
    shown: TimeScale,
    i: Instant,
    deltat: i64,
    stored: u32,
    more: i64,
) -> usize
    requires { (nat_abs deltat ≤ 20000) × (nat_abs more ≤ 99) }
    ensures { Put out.old at (letters " " ++ time_text (floor_z (time_in shown i deltat (second_of stored) +ℤ more) (pos 100))) out.new result }
{
    let n = scales::time_in(shown, i, deltat, stored);
    let blank = decimal_text::put_byte(out, at, b' ');
    crate::times_of_day::put_time(out, blank, n + more)
}

// The times of an entry in a scale: the earlier of a contact rounded down, the later up.
fn put_times(
    out: &mut [u8],
    at: usize,
    shown: TimeScale,
    i: Instant,
    deltat: i64,
    seconds: Seconds,
) -> usize
    requires { nat_abs deltat ≤ 20000 }
    ensures { Put out.old at (times_in shown i deltat seconds) out.new result }
{
    match seconds {
        Seconds::Moment(second) => put_second(out, at, shown, i, deltat, second, 50),
        Seconds::Contact(from, to) => {
            let next = put_second(out, at, shown, i, deltat, from, 0);
            put_second(out, next, shown, i, deltat, to, 99)
        }
    }
}

// The scale and the times in it, where it is shown.
fn put_scale(
    out: &mut [u8],
    at: usize,
    shown: TimeScale,
    i: Instant,
    deltat: i64,
    seconds: Seconds,
) -> usize
    requires { nat_abs deltat ≤ 20000 }
    ensures { Put out.old at (scale_text shown i deltat seconds) out.new result }
{
    let typed = i.scale;
    let offset = i.offset;
    if scales::shows(typed, shown, deltat, offset % 100) {
        let blank = decimal_text::put_byte(out, at, b' ');
        let name = put_name(out, blank, shown);
        return put_times(out, name, shown, i, deltat, seconds);
    }
    at
}

// All scales.
fn put_scales(out: &mut [u8], at: usize, i: Instant, deltat: i64, seconds: Seconds) -> usize
    requires { nat_abs deltat ≤ 20000 }
    ensures { Put out.old at (scales_text i deltat seconds) out.new result }
{
    let universal = put_scale(out, at, TimeScale::ET, i, deltat, seconds);
    let coordinated = put_scale(out, universal, TimeScale::UT, i, deltat, seconds);
    put_scale(out, coordinated, TimeScale::UTC, i, deltat, seconds)
}

// ---- the line of an entry

// The line of the instant, after that of the head.
fn put_instant_line(out: &mut [u8], at: usize, i: Instant) -> usize
    ensures { Put out.old at (letters "\ninstant " ++ instant_text i) out.new result }
{
    let next = decimal_text::put_text(out, at, b"\ninstant ");
    put_instant(out, next, i)
}

// What is shown of a kind with its first two fields. A new kind is an arm here and a row of `shown_for`.
pub fn shown_for(kind: Kind, a: u32, b: u32) -> Shown
    ensures { result ≡ shown_for kind a b }
{
    match kind {
        Kind::Head => Shown::InstantLine,
        Kind::Enter(_) => Shown::Times(Seconds::Contact(a, b)),
        Kind::Leave(_) => Shown::Times(Seconds::Contact(a, b)),
        Kind::Graze(_) => Shown::Times(Seconds::Contact(a, b)),
        Kind::Open(_) => Shown::Times(Seconds::Contact(a, b)),
        Kind::Closest => Shown::Times(Seconds::Moment(a)),
        Kind::Share => Shown::Nothing,
        Kind::End => Shown::Nothing,
    }
}

// What follows an entry's text.
fn put_behind(out: &mut [u8], at: usize, i: Instant, deltat: i64, entry: Entry) -> usize
    requires { nat_abs deltat ≤ 20000 }
    ensures { Put out.old at (behind i deltat entry) out.new result }
{
    let kind = entry.kind;
    let a = entry.a;
    let b = entry.b;
    let shown = shown_for(kind, a, b);
    match shown {
        Shown::Nothing => at,
        Shown::InstantLine => put_instant_line(out, at, i),
        Shown::Times(seconds) => put_scales(out, at, i, deltat, seconds),
    }
}

// An entry's text with an instant.
fn put_timed(out: &mut [u8], at: usize, entry: Entry, i: Instant, deltat: i64) -> usize
    ensures { Put out.old at (text_of entry ++ behind i (known deltat) entry) out.new result }
{
    let d = scales::known(deltat);
    let text = crate::lines::put_entry_text(out, at, entry);
    put_behind(out, text, i, d, entry)
}

// An entry's text, with its times where the reference is an instant.
fn put_times_of(
    out: &mut [u8],
    at: usize,
    entry: Entry,
    reference: Option<Instant>,
    deltat: i64,
) -> usize
    ensures { Put out.old at (timed_text reference deltat entry) out.new result }
{
    match reference {
        None => crate::lines::put_entry_text(out, at, entry),
        Some(i) => put_timed(out, at, entry, i, deltat),
    }
}

// ---- the altitude

// n tenths of a degree.
fn put_tenths(out: &mut [u8], at: usize, n: u64) -> usize
    ensures { Put out.old at (tenths_text n) out.new result }
{
    let point = decimal_text::put_number(out, at, n / 10);
    let tenth = decimal_text::put_byte(out, point, b'.');
    crate::times_of_day::put_digit(out, tenth, n)
}

// An altitude, where there is one.
fn put_altitude(out: &mut [u8], at: usize, altitude: Altitude) -> usize
    ensures { Put out.old at (altitude_text altitude) out.new result }
{
    match altitude {
        Altitude::Nothing => at,
        Altitude::Above(n) => {
            let next = decimal_text::put_text(out, at, b" alt ");
            put_tenths(out, next, n)
        }
        Altitude::Below(n) => {
            let next = decimal_text::put_text(out, at, b" alt -");
            let end = put_tenths(out, next, n);
            decimal_text::put_text(out, end, b" below the horizon")
        }
    }
}

// The line of an entry with its times and the altitude; `deltat` is the station's, in hundredths of a second. Any
// instant, any ΔT, any altitude.
pub fn put_entry(
    out: &mut [u8],
    at: usize,
    entry: Entry,
    reference: Option<Instant>,
    deltat: i64,
    altitude: Altitude,
) -> usize
    ensures { Put out.old at (timed_line reference deltat altitude entry) out.new result }
{
    let times = put_times_of(out, at, entry, reference, deltat);
    let seen = put_altitude(out, times, altitude);
    let kind = entry.kind;
    crate::lines::put_end(out, seen, kind)
}
