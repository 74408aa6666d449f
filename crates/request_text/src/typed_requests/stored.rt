// A typed text stored in a caller's buffers: the request's bytes and the numbers of its instant, or a message.
ghost use Rattle.std.specs.Prelude.{◌≡◌, ◌++◌, ◌≤◌, length, drop, Err};
ghost use Rattle.request_text.specs.Meaning.{meaning_of};
ghost use Rattle.request_text.specs.Outcomes.{outcome_of, line_of, reason_text};
ghost use Rattle.request_text.specs.Stored.{scale_number, instant_numbers, stored_as, request_after, instant_after, fault_after};
ghost use Rattle.request_text.specs.laws.StoredLaws.{kept_as, bytes_kept, numbers_kept, explained_as};

use crate::typed_requests::Reason;
use calendar::{Instant, Scale};
use request_format::fields::LENGTH;

// Why no request was stored.
#[derive(Clone, Copy)]
pub enum NotStored {
    // the message of a line, counted from 1; 0 where the text is too long
    Fault(usize),
    // nothing: a buffer has to be that long
    Short(usize),
}

// A number, since the exports for C store it in a buffer of numbers.
fn scale_number(scale: Scale) -> u64
    ensures { result ≡ scale_number scale }
{
    match scale {
        Scale::Ephemeris => 1,
        Scale::Universal => 2,
    }
}

// The six numbers of an instant.
fn numbers_of(reference: Option<Instant>) -> [u64; 6]
    ensures { result ≡ instant_numbers reference }
{
    match reference {
        None => [0, 0, 0, 0, 0, 0],
        Some(i) => {
            let typed = i.scale;
            let scale = scale_number(typed);
            let year = i.year;
            let month = i.month;
            let day = i.day;
            let hundredths = i.hundredths;
            let offset = i.offset;
            [scale, year, month, day, hundredths, offset]
        }
    }
}

// Those numbers at the start of a buffer.
fn put_numbers(instant: &mut [u64], reference: Option<Instant>)
    requires { 6 ≤ length instant.old }
    ensures { instant.new ≡ instant_numbers reference ++ drop 6 instant.old }
{
    instant[..6].copy_from_slice(&numbers_of(reference));
}

// The bytes of a request and its instant, where both buffers are long enough.
fn keep(
    bytes: &[u8],
    reference: Option<Instant>,
    request: &mut [u8],
    instant: &mut [u64],
) -> Result<usize, NotStored>
    ensures answer { result ≡ kept_as (length bytes.now) (length request.old) (length instant.old) }
    ensures request { request.new ≡ bytes_kept bytes.now (length instant.old) request.old }
    ensures instant { instant.new ≡ numbers_kept reference (length bytes.now) (length request.old) instant.old }
{
    let size = bytes.len();
    if request.len() < size {
        return Err(NotStored::Short(size));
    }
    if instant.len() < 6 {
        return Err(NotStored::Short(6));
    }
    decimal_text::put_text(request, 0, bytes);
    put_numbers(instant, reference);
    Ok(size)
}

// The message of a reason, where the buffer is long enough.
fn explain(text: &[u8], reason: Reason, message: &mut [u8]) -> Result<usize, NotStored>
    requires { Err reason ≡ outcome_of text.now }
    ensures answer { result ≡ explained_as (line_of reason) (reason_text text.now reason) (length message.old) }
    ensures message { message.new ≡ fault_after (meaning_of text.now) message.old }
{
    let mut none = [0u8; 0];
    let need = crate::typed_requests::put_reason(&mut none, 0, text, reason);
    if message.len() < need {
        return Err(NotStored::Short(need));
    }
    crate::typed_requests::put_reason(message, 0, text, reason);
    let line = crate::typed_requests::line_of(reason);
    Err(NotStored::Fault(line))
}

// The request that a text is in two buffers, its bytes in one and the numbers of its instant in the other; or the
// message of its first fault in the third.
pub fn store(
    text: &[u8],
    request: &mut [u8],
    instant: &mut [u64],
    message: &mut [u8],
) -> Result<usize, NotStored>
    ensures answer { result ≡ stored_as (length request.old) (length instant.old) (length message.old) (meaning_of text.now) }
    ensures request { request.new ≡ request_after (length instant.old) (meaning_of text.now) request.old }
    ensures instant { instant.new ≡ instant_after (length request.old) (meaning_of text.now) instant.old }
    ensures message { message.new ≡ fault_after (meaning_of text.now) message.old }
{
    let mut bytes = [0u8; LENGTH];
    let outcome = crate::typed_requests::ask(text, &mut bytes);
    match outcome {
        Ok((size, reference)) => keep(&bytes[..size], reference, request, instant),
        Err(reason) => explain(text, reason, message),
    }
}
