// The instant that a person types with a request: the date and time of τ = 0, in ephemeris or universal time, and
// TAI less UTC then (docs/CLOCK.md). The words of one are read here, a text's in `texts`.
mod forms;
pub mod texts;

ghost use Rattle.std.specs.Prelude.{◌≡◌};
ghost use Rattle.request_text.specs.Lines.{word_in, after_word};
ghost use Rattle.request_text.specs.Instants.{year_of, is_date, time_form, is_time, hundredths_of, instant_at, in_scale, instant_of, seconds_in};

use calendar::{Instant, Scale};
use tokens::Class;

// Why a line that names the instant or TAI-UTC is refused.
#[derive(Clone, Copy)]
pub enum Wrong {
    // the instant is no date and time
    Malformed,
    // one was given before
    Twice,
    // TAI-UTC is no whole number of seconds from 10 to 99
    NotSeconds,
    // one was given before
    OffsetTwice,
    // the text has no instant, or one before 1972
    NeedsInstant,
}

// ---- date, time and scale

fn year_of(word: &[u8]) -> u64
    ensures { result ≡ year_of word.now }
{
    100 * forms::two_at(word, 0) + forms::two_at(word, 2)
}

fn is_date(word: &[u8]) -> bool
    ensures { result ≡ is_date word.now }
{
    let form = forms::has_form(word, b"0000-00-00");
    let year = year_of(word);
    let month = forms::two_at(word, 5);
    let day = forms::two_at(word, 8);
    form & calendar::is_day(year, month, day)
}

fn time_form(word: &[u8]) -> bool
    ensures { result ≡ time_form word.now }
{
    let plain = forms::has_form(word, b"00:00:00");
    let tenths = forms::has_form(word, b"00:00:00.0");
    plain | tenths | forms::has_form(word, b"00:00:00.00")
}

fn is_time(word: &[u8]) -> bool
    ensures { result ≡ is_time word.now }
{
    let form = time_form(word);
    let hours = forms::two_at(word, 0);
    let minutes = forms::two_at(word, 3);
    let seconds = forms::two_at(word, 6);
    form & (hours <= 23) & (minutes <= 59) & (seconds <= 59)
}

// Hundredths of a second from 0h.
fn hundredths_of(word: &[u8]) -> u64
    ensures { result ≡ hundredths_of word.now }
{
    let hours = forms::two_at(word, 0);
    let minutes = forms::two_at(word, 3);
    let seconds = forms::two_at(word, 6);
    let decimals = forms::two_at(word, 9);
    100 * (3600 * hours + 60 * minutes + seconds) + decimals
}

// ---- the words

// The first word after blanks.
fn word_in(s: &[u8]) -> &[u8]
    ensures { result.now ≡ word_in s.now }
{
    let gap = tokens::run(s, Class::Blank);
    let rest = &s[gap..];
    let length = tokens::run(rest, Class::Word);
    &rest[..length]
}

// What stands after it.
fn after_word(s: &[u8]) -> &[u8]
    ensures { result.now ≡ after_word s.now }
{
    let gap = tokens::run(s, Class::Blank);
    let rest = &s[gap..];
    let length = tokens::run(rest, Class::Word);
    &rest[length..]
}

fn instant_at(date: &[u8], time: &[u8], scale: Scale) -> Instant
    ensures { result ≡ instant_at date.now time.now scale }
{
    let year = year_of(date);
    let month = forms::two_at(date, 5);
    let day = forms::two_at(date, 8);
    let hundredths = hundredths_of(time);
    Instant {
        year,
        month,
        day,
        hundredths,
        scale,
        offset: 0,
    }
}

// An instant by the word of its scale.
fn in_scale(date: &[u8], time: &[u8], word: &[u8]) -> Option<Instant>
    ensures { result ≡ in_scale date.now time.now word.now }
{
    if forms::has_form(word, b"ET") {
        return Some(instant_at(date, time, Scale::Ephemeris));
    }
    if forms::has_form(word, b"UT") {
        return Some(instant_at(date, time, Scale::Universal));
    }
    None
}

// The instant that words are: `2017-08-21 18:00:00 ET`, and blanks alone behind.
pub fn read(s: &[u8]) -> Option<Instant>
    ensures { result ≡ instant_of s.now }
{
    let date = word_in(s);
    let timed = after_word(s);
    let time = word_in(timed);
    let scaled = after_word(timed);
    let bare = tokens::all(after_word(scaled), Class::Blank);
    let right = is_date(date) & is_time(time) & bare;
    if !right {
        return None;
    }
    in_scale(date, time, word_in(scaled))
}

// The whole seconds from 10 to 99 that words are, `37` and blanks alone behind; 0 for any others.
pub fn seconds_in(s: &[u8]) -> u64
    ensures { result ≡ seconds_in s.now }
{
    let word = word_in(s);
    let bare = tokens::all(after_word(s), Class::Blank);
    let form = forms::has_form(word, b"00");
    let seconds = forms::two_at(word, 0);
    let right = bare & form & (10 <= seconds);
    if !right {
        return 0;
    }
    seconds
}
