// Requests that follow each other, eclipses' and stars': how many bytes the next one has, and the answer to one of
// them.
#![tactic(auto)]

ghost use Rattle.std.specs.Prelude.{◌≡◌, ◌≤◌};
ghost use Rattle.decimal_text.specs.Texts.{Put, Counts};
ghost use Rattle.request_answers.specs.Sheet.{Begins};
ghost use Rattle.streams.specs.Streams.{size_from, is_star, answer_for, room_for, table_for, sheet_for, told_line, stop_line, is_shape, refusal_told, told_for, stops_for};

use request_format::fields::{LENGTH, STAR_LENGTH};
use sheet_types::refusals::Refusal;

// What goes out for a request, and whether another may follow.
#[derive(Clone, Copy)]
pub struct Answered {
    // bytes of the sheet's buffer, to standard output
    pub output: usize,
    // bytes of the line's buffer, to standard error; more than the buffer has where the buffer is shorter than the text
    pub error: usize,
    // the bytes were no request's, so where the next one begins is not known
    pub stops: bool,
}

// How many bytes the request has that begins with this one; 1 where none does.
pub fn size_from(first: u8) -> usize
    ensures size { result ≡ size_from first }
    ensures most { (1 ≤ result) × (result ≤ 115) }
{
    if first == 0x02 {
        return LENGTH;
    }
    if first == 0x05 {
        return STAR_LENGTH;
    }
    1
}

fn is_star(request: &[u8]) -> bool
    ensures { result ≡ is_star request.now }
{
    if request.len() == 0 {
        return false;
    }
    request[0] == 0x05
}

// The sheet of a request, by its first byte.
fn answer(request: &[u8], sines: &mut [u32], room: &mut [u8]) -> Result<usize, Refusal>
    ensures answer { result ≡ answer_for request.now sines.old room.old }
    ensures sheet { room.new ≡ room_for request.now sines.old room.old }
    ensures sines { sines.new ≡ table_for request.now sines.old }
{
    if is_star(request) {
        return request_answers::sheets::star_sheet(request, sines, room);
    }
    request_answers::sheets::sheet(request, sines, room)
}

fn is_shape(refusal: Refusal) -> bool
    ensures { result ≡ is_shape refusal }
{
    refusal.number == 10
}

// Which request was refused, and why.
fn put_line(out: &mut [u8], count: u64, refusal: Refusal) -> usize
    ensures { Put out.old 0 (told_line count refusal) out.new result }
{
    let word = decimal_text::put_text(out, 0, b"request ");
    let counted = decimal_text::put_number(out, word, count);
    let next = decimal_text::put_text(out, counted, b": ");
    listing_lines::lines::put_refused(out, next, refusal)
}

// Where the stream stops.
fn put_stop(out: &mut [u8], start: usize, at: u64) -> usize
    ensures { Put out.old start (stop_line at) out.new result }
{
    let word = decimal_text::put_text(out, start, b"stopped at byte ");
    let number = decimal_text::put_number(out, word, at);
    decimal_text::put_text(out, number, b"\n")
}

fn put_refusal(out: &mut [u8], count: u64, at: u64, refusal: Refusal) -> usize
    ensures { Put out.old 0 (refusal_told count at refusal) out.new result }
{
    let end = put_line(out, count, refusal);
    if is_shape(refusal) {
        return put_stop(out, end, at);
    }
    end
}

// Request `count` of a stream, which begins at byte `at`: its sheet at the start of the buffer, with `sines` for
// table S; or the report of its refusal from the start of `line` on, as far as that reaches. It takes any bytes and
// any buffers.
pub fn step(
    request: &[u8],
    count: u64,
    at: u64,
    sines: &mut [u32],
    room: &mut [u8],
    line: &mut [u8],
) -> Answered
    ensures output { Begins result.output room.new (sheet_for request.now sines.old room.old) }
    ensures error { Put line.old 0 (told_for count at request.now sines.old room.old) line.new result.error }
    ensures stops { result.stops ≡ stops_for request.now sines.old room.old }
    ensures sheet { room.new ≡ room_for request.now sines.old room.old }
    ensures sines { sines.new ≡ table_for request.now sines.old }
    ensures counts { Counts result.output room.new }
{
    let answer = answer(request, sines, room);
    match answer {
        Ok(written) => Answered {
            output: written,
            error: 0,
            stops: false,
        },
        Err(refusal) => {
            let end = put_refusal(line, count, at, refusal);
            let stops = is_shape(refusal);
            Answered {
                output: 0,
                error: end,
                stops,
            }
        }
    }
}
