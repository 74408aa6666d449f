// The instant of a typed text and TAI less UTC: the lines that name them, and the first fault.
ghost use Rattle.std.specs.Prelude.{◌≡◌, true};
ghost use Rattle.request_text.specs.Lines.{names_instant, names_offset};
ghost use Rattle.request_text.specs.Instants.{instant_of, seconds_in};
ghost use Rattle.request_text.specs.Told.{after_name, taken, told_after, instant_in, offset_taken, offset_after, offset_in, used_with, with_offset, told_in};

use super::Wrong;
use crate::lines;
use calendar::Instant;

// What line i gives after what was given before.
fn taken(
    i: usize,
    read: Option<Instant>,
    old: Option<Instant>,
) -> Result<Option<Instant>, (usize, Wrong)>
    ensures { result ≡ taken i read old }
{
    let x = read.ok_or((i, Wrong::Malformed))?;
    if old.is_some() {
        return Err((i, Wrong::Twice));
    }
    Ok(Some(x))
}

// The words after the name, of a line that names the instant.
fn read_after(line: &[u8]) -> Option<Instant>
    requires { names_instant line.now ≡ true }
    ensures { result ≡ instant_of (after_name line.now) }
{
    let said = crate::said(line);
    super::read(&said[7..])
}

// What is told of the instant after line i.
fn told_after(
    i: usize,
    line: &[u8],
    told: Result<Option<Instant>, (usize, Wrong)>,
) -> Result<Option<Instant>, (usize, Wrong)>
    ensures { result ≡ told_after i line.now told }
{
    let old = told?;
    if crate::beside::names_instant(line) {
        let read = read_after(line);
        return taken(i, read, old);
    }
    Ok(old)
}

// What a text says of the instant. The loop of `offset_in` is alike; a function for both would take the step as a
// closure, and be longer than the two of them.
fn instant_in(text: &[u8]) -> Result<Option<Instant>, (usize, Wrong)>
    ensures { result ≡ instant_in text.now }
{
    let mut told = Ok(None);
    for (i, line) in lines::of(text).enumerate() {
        told = told_after(i + 1, line, told);
    }
    told
}

// ---- TAI less UTC

// What line i gives after what was given before.
fn offset_taken(
    i: usize,
    seconds: u64,
    old: Result<Option<(usize, u64)>, (usize, Wrong)>,
) -> Result<Option<(usize, u64)>, (usize, Wrong)>
    ensures { result ≡ offset_taken i seconds old }
{
    let given = old?;
    if seconds == 0 {
        return Err((i, Wrong::NotSeconds));
    }
    if given.is_some() {
        return Err((i, Wrong::OffsetTwice));
    }
    Ok(Some((i, seconds)))
}

// The words after the name, of a line that names TAI-UTC.
fn seconds_after(line: &[u8]) -> u64
    requires { names_offset line.now ≡ true }
    ensures { result ≡ seconds_in (after_name line.now) }
{
    let said = crate::said(line);
    super::seconds_in(&said[7..])
}

// What is told of TAI-UTC after line i.
fn offset_after(
    i: usize,
    line: &[u8],
    old: Result<Option<(usize, u64)>, (usize, Wrong)>,
) -> Result<Option<(usize, u64)>, (usize, Wrong)>
    ensures { result ≡ offset_after i line.now old }
{
    if crate::beside::names_offset(line) {
        let seconds = seconds_after(line);
        return offset_taken(i, seconds, old);
    }
    old
}

// What a text says of TAI-UTC.
fn offset_in(text: &[u8]) -> Result<Option<(usize, u64)>, (usize, Wrong)>
    ensures { result ≡ offset_in text.now }
{
    let mut told = Ok(None);
    for (i, line) in lines::of(text).enumerate() {
        told = offset_after(i + 1, line, told);
    }
    told
}

// ---- both

// An instant with the seconds that line i gives.
fn used_with(
    i: usize,
    seconds: u64,
    reference: Option<Instant>,
) -> Result<Option<Instant>, (usize, Wrong)>
    ensures { result ≡ used_with i seconds reference }
{
    let x = reference.ok_or((i, Wrong::NeedsInstant))?;
    let year = x.year;
    if year < 1972 {
        return Err((i, Wrong::NeedsInstant));
    }
    let month = x.month;
    let day = x.day;
    let hundredths = x.hundredths;
    let scale = x.scale;
    Ok(Some(Instant {
        year,
        month,
        day,
        hundredths,
        scale,
        offset: seconds,
    }))
}

// What is told of both.
fn with_offset(
    told: Result<Option<Instant>, (usize, Wrong)>,
    offset: Result<Option<(usize, u64)>, (usize, Wrong)>,
) -> Result<Option<Instant>, (usize, Wrong)>
    ensures { result ≡ with_offset told offset }
{
    match offset {
        Ok(None) => told,
        Ok(Some((line, seconds))) => used_with(line, seconds, told?),
        Err((line, wrong)) => match told {
            Err((other, _)) if other <= line => told,
            _ => Err((line, wrong)),
        },
    }
}

// What a text says of the instant and of TAI-UTC.
pub fn told_in(text: &[u8]) -> Result<Option<Instant>, (usize, Wrong)>
    ensures { result ≡ told_in text.now }
{
    let told = instant_in(text);
    let offset = offset_in(text);
    with_offset(told, offset)
}
