// A request as a person types it, one `name value` a line and perhaps its instant: a text to the request's bytes and
// the instant, or the first fault as a line of text.
mod encoding;
mod messages;
pub mod stored;

ghost use Rattle.std.specs.Prelude.{◌≡◌, ◌+◌, ◌≤◌, length};
ghost use Rattle.request_text.specs.Meaning.{meaning_of, answer_of, bytesAfter, message_after};
ghost use Rattle.decimal_text.specs.Texts.{Put};
ghost use Rattle.request_text.specs.Outcomes.{first_of, outcome_of, line_of, reason_text};

use crate::Fault;
use crate::instants::Wrong;
use calendar::Instant;
use request_format::fields::LENGTH;

// No message is longer: its word is a part of the text.
pub const MESSAGE: usize = 65_623;

// Why a text is no request.
#[derive(Clone, Copy)]
pub enum Reason {
    // it has more than 65,536 bytes
    TooLong,
    // a line, counted from 1, with an invalid number or without one
    Number(usize, Fault),
    // a line, counted from 1, with an invalid instant
    Instant(usize, Wrong),
}

// The outcome for a request of `size` bytes: the first invalid line decides.
fn first_of(
    size: usize,
    typed: Result<(), (usize, Fault)>,
    told: Result<Option<Instant>, (usize, Wrong)>,
) -> Result<(usize, Option<Instant>), Reason>
    ensures { result ≡ first_of size typed told }
{
    match (typed, told) {
        (Ok(()), Ok(reference)) => Ok((size, reference)),
        (Err((number, fault)), Ok(_)) => Err(Reason::Number(number, fault)),
        (Err((number, fault)), Err((line, _))) if number <= line => {
            Err(Reason::Number(number, fault))
        }
        (_, Err((line, wrong))) => Err(Reason::Instant(line, wrong)),
    }
}

// The bytes of the request that a text is, at the start of `out`; or the reason why it is none, and `out` unchanged.
pub fn ask(text: &[u8], out: &mut [u8; LENGTH]) -> Result<(usize, Option<Instant>), Reason>
    ensures outcome { result ≡ outcome_of text.now }
    ensures bytes { out.new ≡ bytesAfter (meaning_of text.now) out.old }
{
    if 65536 < text.len() {
        return Err(Reason::TooLong);
    }
    let shape = crate::shapes::shape_of(text);
    let mut made = *out;
    let typed = encoding::encode(shape, text, &mut made);
    let told = crate::instants::texts::told_in(text);
    let size = request_format::bytes::length_of(shape);
    let request = first_of(size, typed, told)?;
    *out = made;
    Ok(request)
}

// The line that a reason names; 0 for a text that is too long.
pub fn line_of(reason: Reason) -> usize
    ensures { result ≡ line_of reason }
{
    match reason {
        Reason::TooLong => 0,
        Reason::Number(line, _) => line,
        Reason::Instant(line, _) => line,
    }
}

// The message that says why a text is no request.
pub fn put_reason(out: &mut [u8], at: usize, text: &[u8], reason: Reason) -> usize
    ensures text { Put out.old at (reason_text text.now reason) out.new result }
    ensures size { length (reason_text text.now reason) ≤ 87 + length text.now }
{
    match reason {
        Reason::TooLong => {
            decimal_text::put_text(out, at, b"the text has more than 65,536 bytes\n")
        }
        Reason::Number(line, fault) => {
            let shape = crate::shapes::shape_of(text);
            crate::faults::put_message(out, at, shape, text, line, fault)
        }
        Reason::Instant(line, wrong) => messages::put_instant(out, at, line, wrong),
    }
}

// The bytes of the request that a text is, at the start of `out`, with its instant; or the message of its first fault,
// at the start of `message`.
pub fn read(
    text: &[u8],
    out: &mut [u8; LENGTH],
    message: &mut [u8; MESSAGE],
) -> Result<(usize, Option<Instant>), usize>
    ensures answer { result ≡ answer_of (meaning_of text.now) }
    ensures bytes { out.new ≡ bytesAfter (meaning_of text.now) out.old }
    ensures message { message.new ≡ message_after (meaning_of text.now) message.old }
{
    let outcome = ask(text, out);
    // no `map_err`: what its closure stores in the lent buffer is not known after it
    match outcome {
        Ok(request) => Ok(request),
        Err(reason) => {
            let end = put_reason(message, 0, text, reason);
            Err(end)
        }
    }
}
