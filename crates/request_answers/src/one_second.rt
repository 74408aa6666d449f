// One second of a request, an eclipse's or a star's, and its numbers.
ghost use Rattle.std.specs.Prelude.{◌≡◌, ◌≤◌, length, Ok};
ghost use Rattle.request_format.specs.declared.fields.Shape.TheVariants.{Eclipse, Star};
ghost use Rattle.request_answers.specs.Second.{wish, second_asked, sines_asked, number_count, second_given, numbers_after, GivenMeans};

use request_format::fields::Shape;
use requests::Occultation;
use sheet_types::refusals::Refusal;

// What bytes of that shape ask for, or refusal 10.
pub fn wish(shape: Shape, request: &[u8]) -> Result<Occultation, Refusal>
    ensures { result ≡ wish shape request.now }
{
    match shape {
        Shape::Eclipse => request_format::input::of_eclipse(request_format::input::request(
            request,
        )),
        Shape::Star => request_format::input::stars::asked(request),
    }
}

// The second of the bytes, or refusal 10, 1, 2, a star's 13, 3, or 4 for the buffer for table S.
pub fn asked(
    shape: Shape,
    request: &[u8],
    second: i64,
    sines: &mut [u32],
) -> Result<shadow::Second, Refusal>
    ensures value { result ≡ second_asked (wish shape request.now) second sines.old }
    ensures sines_after { sines.new ≡ sines_asked (wish shape request.now) second sines.old }
{
    let o = wish(shape, request)?;
    seconds::second(o, second, sines)
}

// How many numbers a second has.
fn number_count(shape: Shape) -> usize
    ensures { result ≡ number_count shape }
{
    match shape {
        Shape::Eclipse => 8,
        Shape::Star => 5,
    }
}

// The eight numbers of an eclipse's second at the start of the buffer.
fn put_eclipse(room: &mut [i64], second: shadow::Second)
    requires { 8 ≤ length room.old }
    ensures { room.new ≡ numbers_after Eclipse (Ok second) room.old }
{
    let s = second.shadow;
    room[..8].copy_from_slice(&[
        s.u,
        s.v,
        s.l1,
        s.l2,
        second.penumbra as i64,
        second.central as i64,
        second.magnitude as i64,
        second.direction as i64,
    ]);
}

// The five of a star's.
fn put_star(room: &mut [i64], second: shadow::Second)
    requires { 5 ≤ length room.old }
    ensures { room.new ≡ numbers_after Star (Ok second) room.old }
{
    let s = second.shadow;
    room[..5].copy_from_slice(&[
        s.u,
        s.v,
        s.l1,
        second.penumbra as i64,
        second.direction as i64,
    ]);
}

// The numbers of a second at the start of the buffer.
fn put_numbers(shape: Shape, room: &mut [i64], second: shadow::Second)
    requires { number_count shape ≤ length room.old }
    ensures { room.new ≡ numbers_after shape (Ok second) room.old }
{
    match shape {
        Shape::Eclipse => put_eclipse(room, second),
        Shape::Star => put_star(room, second),
    }
}

// One second of a request of that shape, which may lie outside its window, and its numbers at the start of the
// buffer; or the refusal, last 4 where the buffer holds fewer numbers than that, and the buffer as it was. `sines` is
// the buffer for table S.
#[tactic(auto, unfolding(crate::specs::Second::second_given))]
pub fn second(
    shape: Shape,
    request: &[u8],
    second: i64,
    sines: &mut [u32],
    shadow: &mut [i64],
) -> Result<shadow::Second, Refusal>
    ensures given { result ≡ second_given shape request.now second sines.old shadow.old }
    ensures numbers { shadow.new ≡ numbers_after shape (second_given shape request.now second sines.old shadow.old) shadow.old }
    ensures sines { sines.new ≡ sines_asked (wish shape request.now) second sines.old }
    ensures means { GivenMeans shape request.now second (second_given shape request.now second sines.old shadow.old) shadow.new }
{
    let found = asked(shape, request, second, sines)?;
    crate::rooms::check(shadow.len(), number_count(shape))?;
    put_numbers(shape, shadow, found);
    Ok(found)
}
