// The answer to a request's bytes as text: the listing of its sheet, or the line of its refusal.
#![tactic(auto)]

pub mod timed;

ghost use Rattle.std.specs.Prelude.{◌≡◌};
ghost use Rattle.request_answers.specs.Second.{wish};
ghost use Rattle.request_answers.specs.Sheet.{buffer_by, sines_by, buffer_for, sines_for, star_buffer, star_sines};
ghost use Rattle.request_answers.specs.laws.SheetLaws.{Fits};
ghost use Rattle.decimal_text.specs.Texts.{Put, Copies};
ghost use Rattle.answers.specs.Answers.{sky_of, delta_by, timed_by, timed_shaped, answer_text, printed_for, timed_text, star_timed_text};

use calendar::Instant;
use request_format::fields::Shape;
use requests::Occultation;
use sheet_types::refusals::Refusal;

// What an observer is told of: the occultation that bytes of that shape ask for.
fn sky_of(shape: Shape, request: &[u8]) -> Option<Occultation>
    ensures { result ≡ sky_of (wish shape request.now) }
{
    let asked = request_answers::one_second::wish(shape, request);
    match asked {
        Ok(o) => Some(o),
        Err(_) => None,
    }
}

// The text of an answer whose sheet stands at the buffer's start, with times where the reference is an instant, and
// with altitudes and notes where there is an occultation.
fn put_text(
    answer: Result<usize, Refusal>,
    room: &[u8],
    out: &mut [u8],
    reference: Option<Instant>,
    deltat: i64,
    sky: Option<Occultation>,
) -> usize
    requires { Fits answer room.now }
    ensures { Put out.old 0 (timed_by reference deltat sky answer room.now) out.new result }
{
    match answer {
        Ok(written) => listings::put_timed_listing(
            out,
            0,
            &room[..written],
            reference,
            deltat,
            sky,
        ),
        Err(refusal) => listing_lines::lines::put_refused(out, 0, refusal),
    }
}

// The sheet of a request of that shape in its buffer, with `sines` for table S, and the text of the answer from the
// start of `out` on, as far as that goes; the place after it.
pub fn put_answer(
    shape: Shape,
    request: &[u8],
    sines: &mut [u32],
    room: &mut [u8],
    out: &mut [u8],
) -> usize
    ensures text { Put out.old 0 (answer_text shape request.now sines.old room.old) out.new result }
    ensures sheet { room.new ≡ buffer_by (wish shape request.now) sines.old room.old }
    ensures sines { sines.new ≡ sines_by (wish shape request.now) sines.old }
{
    let answer = request_answers::sheets::of_shape(shape, request, sines, room);
    put_text(answer, room, out, None, 0, None)
}

// "Program `sheet` lends 65,536 bytes for the sheet." The other programs provide as many.
pub fn sheet_room() -> [u8; 65536]
    ensures { Copies 0 65536 result }
{
    [0; 65536]
}

// The buffer for table S that a program provides.
pub fn sines_room() -> [u32; 901]
    ensures { Copies 0 901 result }
{
    [0; 901]
}

// What a program prints for a request of that shape, from the start of `out` on, as far as that goes; the place after
// it.
pub fn put_printed(shape: Shape, request: &[u8], out: &mut [u8]) -> usize
    ensures { Put out.old 0 (printed_for shape request.now) out.new result }
{
    let mut sines = sines_room();
    let mut room = sheet_room();
    put_answer(shape, request, &mut sines, &mut room, out)
}

// The ΔT of the station of a request of that shape, in hundredths of a second; 0 where the bytes are misshaped.
fn deltat_of(shape: Shape, request: &[u8]) -> i64
    ensures { result ≡ delta_by shape request.now }
{
    match shape {
        Shape::Eclipse => request_format::input::deltat(request),
        Shape::Star => request_format::input::stars::deltat(request),
    }
}

// The answer to a request of that shape with times by the reference and the ΔT of the request's station, altitudes and
// notes.
fn put_timed(
    shape: Shape,
    request: &[u8],
    reference: Option<Instant>,
    sines: &mut [u32],
    room: &mut [u8],
    out: &mut [u8],
) -> usize
    ensures text { Put out.old 0 (timed_shaped shape reference request.now sines.old room.old) out.new result }
    ensures sheet { room.new ≡ buffer_by (wish shape request.now) sines.old room.old }
    ensures sines { sines.new ≡ sines_by (wish shape request.now) sines.old }
{
    let deltat = deltat_of(shape, request);
    let sky = sky_of(shape, request);
    let answer = request_answers::sheets::of_shape(shape, request, sines, room);
    put_text(answer, room, out, reference, deltat, sky)
}

// The answer to an eclipse's bytes.
pub fn put_timed_answer(
    request: &[u8],
    reference: Option<Instant>,
    sines: &mut [u32],
    room: &mut [u8],
    out: &mut [u8],
) -> usize
    ensures text { Put out.old 0 (timed_text reference request.now sines.old room.old) out.new result }
    ensures sheet { room.new ≡ buffer_for request.now sines.old room.old }
    ensures sines { sines.new ≡ sines_for request.now sines.old }
{
    put_timed(Shape::Eclipse, request, reference, sines, room, out)
}

// The same of a star request.
pub fn put_timed_star_answer(
    request: &[u8],
    reference: Option<Instant>,
    sines: &mut [u32],
    room: &mut [u8],
    out: &mut [u8],
) -> usize
    ensures text { Put out.old 0 (star_timed_text reference request.now sines.old room.old) out.new result }
    ensures sheet { room.new ≡ star_buffer request.now sines.old room.old }
    ensures sines { sines.new ≡ star_sines request.now sines.old }
{
    put_timed(Shape::Star, request, reference, sines, room, out)
}
