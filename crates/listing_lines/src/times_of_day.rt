// Times of day as text (docs/CLOCK.md, "The form"). A `put_` function stores a text at a place of a buffer, as far as
// the buffer reaches, and gives the place after it (`decimals`).
ghost use Rattle.std.specs.Prelude.{[], ◌∷◌, ◌++◌, ◌+◌, ◌%◌, ◌≤◌, pos, nat_abs};
ghost use Rattle.rounding.specs.Near.{floor_z};
ghost use Rattle.decimal_text.specs.Decimals.{digit, signed};
ghost use Rattle.decimal_text.specs.Texts.{letters, Put};
ghost use Rattle.listing_lines.specs.Times.{two, seconds_text, of_day_text, day_text, time_text};

// The last digit of a number.
pub fn put_digit(out: &mut [u8], at: usize, n: u64) -> usize
    ensures { Put out.old at (digit (n % 10) ∷ []) out.new result }
{
    let last = n % 10;
    let byte = 48 + last as u8;
    decimal_text::put_byte(out, at, byte)
}

// The last two digits of a number.
pub fn put_two(out: &mut [u8], at: usize, n: u64) -> usize
    ensures { Put out.old at (two n) out.new result }
{
    let next = put_digit(out, at, n / 10);
    put_digit(out, next, n)
}

// `HH:MM:SS` of n seconds.
pub fn put_seconds(out: &mut [u8], at: usize, n: u64) -> usize
    ensures { Put out.old at (seconds_text n) out.new result }
{
    let hours = put_two(out, at, n / 3600);
    let colon = decimal_text::put_byte(out, hours, b':');
    let minutes = put_two(out, colon, n / 60 % 60);
    let second = decimal_text::put_byte(out, minutes, b':');
    put_two(out, second, n % 60)
}

// `HH:MM:SS.T` of n tenths.
fn put_of_day(out: &mut [u8], at: usize, n: u64) -> usize
    ensures { Put out.old at (of_day_text n) out.new result }
{
    let seconds = put_seconds(out, at, n / 10);
    let point = decimal_text::put_byte(out, seconds, b'.');
    put_digit(out, point, n)
}

// A number of days with its sign.
fn put_days(out: &mut [u8], at: usize, day: i64) -> usize
    ensures { Put out.old at (signed day ++ letters "d") out.new result }
{
    let end = decimal_text::put_signed(out, at, day);
    decimal_text::put_byte(out, end, b'd')
}

// The day of a time, where it is another than the instant's.
fn put_day(out: &mut [u8], at: usize, day: i64) -> usize
    ensures { Put out.old at (day_text day) out.new result }
{
    if day < 0 {
        return put_days(out, at, day);
    }
    if 0 < day {
        let next = decimal_text::put_byte(out, at, b'+');
        return put_days(out, next, day);
    }
    at
}

// n thousandths at the floor of their tenths. Division is of naturals: 100,000 days are added before it, and taken off
// after it. It has a `requires`, so it is none of the public promises.
pub fn put_time(out: &mut [u8], at: usize, n: i64) -> usize
    requires { nat_abs n ≤ 8600000000000 }
    ensures { Put out.old at (time_text (floor_z n (pos 100))) out.new result }
{
    let tenths = (n + 8_640_000_000_000) as u64 / 100;
    let day = (tenths / 864_000) as i64 - 100_000;
    let next = put_of_day(out, at, tenths % 864_000);
    put_day(out, next, day)
}
