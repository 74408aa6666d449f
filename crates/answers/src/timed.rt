// The listing of a request with clock times, altitudes and notes in a caller's buffer.
ghost use Rattle.std.specs.Prelude.{◌≡◌, length};
ghost use Rattle.request_answers.specs.laws.SheetLaws.{Fits};
ghost use Rattle.listings.specs.Answers.{answered, room_with};
ghost use Rattle.answers.specs.Timed.{told_by, given, instant_given, told_for, sheet_for, table_for};
ghost use Rattle.answers.specs.laws.TimedLaws.{Laid, Shaped, Timed};

use calendar::Instant;
use request_format::fields::{STAR_LENGTH, Shape};
use requests::Occultation;
use sheet_types::refusals::Refusal;

// The text of an answer whose sheet is at the start of `room`, where `out` is long enough for it.
fn lay(
    answer: Result<usize, Refusal>,
    room: &[u8],
    out: &mut [u8],
    reference: Option<Instant>,
    deltat: i64,
    sky: Option<Occultation>,
) -> Result<usize, Refusal>
    requires { Fits answer room.now }
    ensures { Laid (told_by reference deltat sky answer room.now) out.old result out.new }
{
    match answer {
        Err(refusal) => Err(refusal),
        Ok(_) => {
            let mut none = [0u8; 0];
            let need = crate::put_text(answer, room, &mut none, reference, deltat, sky);
            if out.len() < need {
                return Err(Refusal {
                    number: 4,
                    place: need,
                });
            }
            crate::put_text(answer, room, out, reference, deltat, sky);
            Ok(need)
        }
    }
}

// The sheet of a request of that shape in `room`, with `sines` for table S, and its text in `out`.
fn of_shape(
    shape: Shape,
    request: &[u8],
    reference: Option<Instant>,
    sines: &mut [u32],
    room: &mut [u8],
    out: &mut [u8],
) -> Result<usize, Refusal>
    ensures { Shaped shape reference request.now sines.old room.old out.old result out.new room.new sines.new }
{
    let deltat = crate::deltat_of(shape, request);
    let sky = crate::sky_of(shape, request);
    let answer = request_answers::sheets::of_shape(shape, request, sines, room);
    lay(answer, room, out, reference, deltat, sky)
}

// Of a request's bytes, a star's by their number.
fn of_request(
    request: &[u8],
    reference: Option<Instant>,
    sines: &mut [u32],
    room: &mut [u8],
    out: &mut [u8],
) -> Result<usize, Refusal>
    ensures { Timed (given reference) request.now sines.old room.old out.old result out.new room.new sines.new }
{
    if request.len() == STAR_LENGTH {
        return of_shape(Shape::Star, request, reference, sines, room, out);
    }
    of_shape(Shape::Eclipse, request, reference, sines, room, out)
}

// What program `times` prints of a request's bytes and the six numbers of an instant, at the start of `out`, and how long
// it is; or a refusal. The sheet is in `room`; `sines` is for table S.
pub fn times(
    request: &[u8],
    instant: &[u64],
    sines: &mut [u32],
    room: &mut [u8],
    out: &mut [u8],
) -> Result<usize, Refusal>
    ensures answer { result ≡ answered (length out.old) (told_for (instant_given instant.now) request.now sines.old room.old) }
    ensures text { out.new ≡ room_with (told_for (instant_given instant.now) request.now sines.old room.old) out.old }
    ensures sheet { room.new ≡ sheet_for (instant_given instant.now) request.now sines.old room.old }
    ensures sines { sines.new ≡ table_for (instant_given instant.now) request.now sines.old }
{
    if instant.len() != 6 {
        return Err(Refusal {
            number: 10,
            place: 0,
        });
    }
    let numbered = calendar::numbers::reference_of(
        instant[0], instant[1], instant[2], instant[3], instant[4], instant[5],
    );
    match numbered {
        Err(place) => Err(Refusal { number: 23, place }),
        Ok(reference) => of_request(request, reference, sines, room, out),
    }
}
