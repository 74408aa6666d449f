// Prints test vectors of the rules, one rule at a time, for comparison with what independent code gives.
//
// Standard input holds records: a letter, the number of the bytes that follow in two bytes, and these bytes. Numbers
// are big-endian, signed and of eight bytes. What is printed for a record depends on its letter:
//
//   #  text                  a heading: the text, as a line
//   a  angle                 the angle, its sine and cosine by quadrants, and both by turns; 10^-6 degree, 10^-8
//   p  latitude, height      the two, then R and P, or `refused`; 10^-6 degree, metres, 10^-8
//   s  a request             u, v, L1, L2, both states, direction, magnitude at its first second, or the refusal
//   o  L1, L2, M             the three, then the covered share of the Sun, millionths
//   c  states, a byte each   the states, then the window's entries: e enter, l leave, g graze, o open, two seconds
//   f  a fit, 12 numbers     `accepted`, or the refusal: coefficients, tabulated values, tolerance
//   d  the bits of a double  its units as degrees, as hours and as a length; `large`, or `none` if not finite
//
// Any other record is `malformed`. States are 0 outside, 1 inside, 2 unsure.
#![tactic(auto)]

ghost use Rattle.std.specs.Prelude.{◌≡◌, true, ◌+◌, ◌*◌, ◌≤◌, ◌≤ℤ◌, length, IfOk};
ghost use Rattle.run_length.specs.Runs.{decoded, Whole};
ghost use Rattle.station.specs.Sizes.{StationSizes};

use binary64::{Longitude, NotUnits};
use contacts::Cursor;
use contacts::entries::Entry;
use sheet_types::refusals::Refusal;
use station::Station;
use std::io;

fn print_text(rt: &impl Print, text: &[u8]) -> io::Result<()> {
    rt.write_all(text)
}

// A pattern, filled with the numbers in their order.
fn print(rt: &impl Print, pattern: &[u8], numbers: &[i64]) -> io::Result<()> {
    let mut line = [0u8; 256];
    let end = decimal_text::put_filled(&mut line, 0, pattern, numbers);
    let length = decimal_text::clipped(&line, end);
    print_text(rt, &line[..length])
}

fn print_refusal(rt: &impl Print, refusal: Refusal) -> io::Result<()> {
    let mut line = [0u8; 64];
    let end = listing_lines::lines::put_refused(&mut line, 0, refusal);
    let length = decimal_text::clipped(&line, end);
    print_text(rt, &line[..length])
}

fn print_malformed(rt: &impl Print) -> io::Result<()> {
    print_text(rt, b"malformed\n")
}

// The number whose 64 bits are those of x.
fn signed(x: u64) -> i64 {
    if x < 9_223_372_036_854_775_808 {
        x as i64
    } else {
        !((u64::MAX - x) as i64)
    }
}

// Number k of a record.
fn number_at(bytes: &[u8], k: usize) -> i64
    requires { k * 8 + 8 ≤ length bytes.now }
{
    signed(big_endian::eight_at(bytes, k * 8))
}

// The number nearest to x from `low` to `high`.
fn clamped(low: i64, x: i64, high: i64) -> i64
    requires { low ≤ℤ high }
    ensures { (low ≤ℤ result) × (result ≤ℤ high) }
{
    if x < low {
        return low;
    }
    if high < x {
        return high;
    }
    x
}

fn print_sine(rt: &impl Print, bytes: &[u8]) -> io::Result<()> {
    if bytes.len() != 8 {
        return print_malformed(rt);
    }
    let angle = clamped(-10_000_000_000, number_at(bytes, 0), 10_000_000_000);
    let mut table = [0u32; 901];
    sine_table::fill(&mut table);
    let a = sine::reduced(angle);
    let s = sine::sine(&table, a);
    let c = sine::cosine(&table, a);
    let turned_s = sine::turns::sine(&table, a);
    let turned_c = sine::turns::cosine(&table, a);
    let numbers = [angle, s, c, turned_s, turned_c];
    print(rt, b"# # # # #\n", &numbers)
}

fn print_place(rt: &impl Print, s: Station) -> io::Result<()>
    requires { StationSizes s }
{
    let latitude = s.latitude;
    let height = s.height;
    let mut table = [0u32; 901];
    sine_table::fill(&mut table);
    let place = station::geocentric(&table, s);
    let r = place.r;
    let p = place.p;
    let numbers = [latitude, height, r, p];
    print(rt, b"# # # #\n", &numbers)
}

fn print_station(rt: &impl Print, bytes: &[u8]) -> io::Result<()> {
    if bytes.len() != 16 {
        return print_malformed(rt);
    }
    let latitude = number_at(bytes, 0);
    let height = number_at(bytes, 1);
    let station = Station {
        number: 1,
        latitude: latitude,
        longitude: 0,
        height: height,
        deltat: 0,
    };
    let checked = station::check(station);
    match checked {
        Ok(()) => print_place(rt, station),
        Err(_) => {
            let numbers = [latitude, height];
            print(rt, b"# # refused\n", &numbers)
        }
    }
}

fn print_second(rt: &impl Print, second: shadow::Second) -> io::Result<()> {
    let shadow = second.shadow;
    let penumbra = second.penumbra as i64;
    let central = second.central as i64;
    let direction = second.direction as i64;
    let magnitude = second.magnitude as i64;
    let u = shadow.u;
    let v = shadow.v;
    let l1 = shadow.l1;
    let l2 = shadow.l2;
    let numbers = [u, v, l1, l2, penumbra, central, direction, magnitude];
    print(rt, b"# # # # # # # #\n", &numbers)
}

fn print_answer(rt: &impl Print, answer: Result<shadow::Second, Refusal>) -> io::Result<()> {
    match answer {
        Ok(second) => print_second(rt, second),
        Err(refusal) => print_refusal(rt, refusal),
    }
}

// The first second of a request's window.
fn print_request(rt: &impl Print, bytes: &[u8]) -> io::Result<()> {
    let asked = request_format::input::request(bytes);
    match asked {
        Ok(q) => {
            let w = q.window;
            let o = requests::of_eclipse(q);
            let mut sines = [0u32; 901];
            print_answer(rt, seconds::second(o, w.first, &mut sines))
        }
        Err(refusal) => print_refusal(rt, refusal),
    }
}

fn print_share(rt: &impl Print, bytes: &[u8]) -> io::Result<()> {
    if bytes.len() != 24 {
        return print_malformed(rt);
    }
    let l1 = clamped(48_860_000, number_at(bytes, 0), 61_140_000);
    let l2 = clamped(-6_140_000, number_at(bytes, 1), 6_140_000);
    let m = clamped(0, number_at(bytes, 2), 1_000_000_000_000_000_000);
    let share = obscuration::area::share(l1, l2, m) as i64;
    let numbers = [l1, l2, m, share];
    print(rt, b"# # # #\n", &numbers)
}

fn print_fit(rt: &impl Print, bytes: &[u8]) -> io::Result<()> {
    if bytes.len() != 96 {
        return print_malformed(rt);
    }
    let coefficients = [
        number_at(bytes, 0),
        number_at(bytes, 1),
        number_at(bytes, 2),
        number_at(bytes, 3),
    ];
    let tabulated = [
        number_at(bytes, 4),
        number_at(bytes, 5),
        number_at(bytes, 6),
        number_at(bytes, 7),
        number_at(bytes, 8),
        number_at(bytes, 9),
        number_at(bytes, 10),
    ];
    let answer = fits::fit(&coefficients, &tabulated, number_at(bytes, 11));
    match answer {
        Ok(()) => print_text(rt, b"accepted\n"),
        Err(refusal) => print_refusal(rt, refusal),
    }
}

// The double of 64 bits. `from_bits` takes no NaN's.
fn double_of(bits: u64) -> f64 {
    if bits % 9_223_372_036_854_775_808 / 4_503_599_627_370_496 != 2047 {
        return f64::from_bits(bits);
    }
    if bits % 4_503_599_627_370_496 == 0 {
        return f64::from_bits(bits);
    }
    let zero = 0.0;
    zero / zero
}

fn print_reading(rt: &impl Print, reading: Result<i64, NotUnits>, end: &[u8]) -> io::Result<()> {
    match reading {
        Ok(unit) => {
            let numbers = [unit];
            print(rt, b"#", &numbers)?
        }
        Err(NotUnits::TooLarge) => print_text(rt, b"large")?,
        Err(NotUnits::NotFinite) => print_text(rt, b"none")?,
    }
    print_text(rt, end)
}

fn print_double(rt: &impl Print, bytes: &[u8]) -> io::Result<()> {
    if bytes.len() != 8 {
        return print_malformed(rt);
    }
    let x = double_of(big_endian::eight_at(bytes, 0));
    print_reading(rt, binary64::read_longitude(Longitude::Degrees(x)), b" ")?;
    print_reading(rt, binary64::read_longitude(Longitude::Hours(x)), b" ")?;
    print_reading(rt, binary64::read(x, binary64::RADIUS), b"\n")
}

fn print_state(rt: &impl Print, state: u8) -> io::Result<()> {
    let numbers = [state as i64];
    print(rt, b"#", &numbers)
}

// Prints the states of a window; whether they are that. As bytes they are runs of one second.
fn print_states(rt: &impl Print, bytes: &[u8]) -> io::Result<bool>
    ensures { IfOk result (λ are. are ≡ true → Whole bytes.now × (length (decoded 0 bytes.now) ≡ length bytes.now)) }
{
    for state in bytes {
        if 2 < *state {
            return Ok(false);
        }
        print_state(rt, *state)?;
    }
    Ok(true)
}

fn print_span(rt: &impl Print, word: &[u8], from: usize, to: usize) -> io::Result<()> {
    let mut text = [0u8; 64];
    let start = decimal_text::put_text(&mut text, 0, word);
    let middle = decimal_text::put_number(&mut text, start, from as u64);
    let next = decimal_text::put_byte(&mut text, middle, b'-');
    let end = decimal_text::put_number(&mut text, next, to as u64);
    let length = decimal_text::clipped(&text, end);
    print_text(rt, &text[..length])
}

fn print_entry(rt: &impl Print, entry: Entry) -> io::Result<()> {
    match entry {
        Entry::Enter { from, to } => print_span(rt, b" e", from, to),
        Entry::Leave { from, to } => print_span(rt, b" l", from, to),
        Entry::Graze { from, to } => print_span(rt, b" g", from, to),
        Entry::Open { from, to } => print_span(rt, b" o", from, to),
    }
}

fn print_entries(rt: &impl Print, states: &[u8]) -> io::Result<()>
    requires { Whole states.now × (length (decoded 0 states.now) ≡ length states.now) }
{
    let seconds = states.len();
    let mut cursor = Cursor {
        at: 0,
        run: 0,
        was: 0,
    };
    // Not a `for`: `contacts::step` gives an entry with the cursor after it.
    loop {
        let Some((found, after)) = contacts::step(states, 0, seconds, cursor) else {
            return Ok(());
        };
        print_entry(rt, found)?;
        cursor = after;
    }
}

fn print_window(rt: &impl Print, bytes: &[u8]) -> io::Result<()> {
    if print_states(rt, bytes)? {
        print_entries(rt, bytes)?;
        print_text(rt, b"\n")
    } else {
        print_malformed(rt)
    }
}

fn print_heading(rt: &impl Print, text: &[u8]) -> io::Result<()> {
    print_text(rt, text)?;
    print_text(rt, b"\n")
}

// What a record gives.
fn print_record(rt: &impl Print, letter: u8, bytes: &[u8]) -> io::Result<()> {
    match letter {
        b'#' => print_heading(rt, bytes),
        b'a' => print_sine(rt, bytes),
        b'p' => print_station(rt, bytes),
        b's' => print_request(rt, bytes),
        b'o' => print_share(rt, bytes),
        b'c' => print_window(rt, bytes),
        b'f' => print_fit(rt, bytes),
        b'd' => print_double(rt, bytes),
        _ => print_malformed(rt),
    }
}

// What each record gives, up to one that is cut off.
fn print_records(rt: &impl Print, input: &[u8]) -> io::Result<()> {
    let mut rest = input;
    while let Some(record) = program_io::first_record(rest) {
        print_record(rt, record.letter, record.bytes)?;
        rest = record.rest;
    }
    Ok(())
}

// Room for all records.
fn input_room() -> [u8; 262_144] {
    [0u8; 262_144]
}

fn main(rt: HostRuntime) -> io::Result<()> {
    let mut input = input_room();
    let length = program_io::read_input(&mut rt.stdin(), &mut input)?;
    print_records(&rt, &input[..length])
}
