// The sheet of a request's bytes, an eclipse's or a star's.
ghost use Rattle.std.specs.Prelude.{◌≡◌};
ghost use Rattle.requests.specs.Requests.{of_eclipse, of_star};
ghost use Rattle.requests.specs.Shares.{with_share};
ghost use Rattle.circumstances.specs.Demand3.{Claimed};
ghost use Rattle.request_format.specs.Input.{request_of, star_request_of};
ghost use Rattle.request_answers.specs.Second.{wish, wished};
ghost use Rattle.request_answers.specs.Sheet.{answer_by, buffer_by, sines_by, answer_to, buffer_for, sines_for, shared_answer, shared_buffer, shared_sines, star_answer, star_buffer, star_sines};
ghost use Rattle.request_answers.specs.laws.SheetLaws.{Made};

use request_format::fields::Shape;
use requests::Occultation;
use sheet_types::refusals::Refusal;

// The sheet of what is asked for.
fn sheet_for(
    asked: Result<Occultation, Refusal>,
    sines: &mut [u32],
    buf: &mut [u8],
) -> Result<usize, Refusal>
    ensures { Made asked sines.old buf.old result buf.new sines.new }
{
    circumstances::sheet(asked?, sines, buf)
}

// The contact sheet of a request of that shape, in the caller's buffer; `sines` is the buffer for table S. Any bytes and
// any buffers.
pub fn of_shape(
    shape: Shape,
    request: &[u8],
    sines: &mut [u32],
    buf: &mut [u8],
) -> Result<usize, Refusal>
    ensures answer { result ≡ answer_by (wish shape request.now) sines.old buf.old }
    ensures buffer { buf.new ≡ buffer_by (wish shape request.now) sines.old buf.old }
    ensures sines { sines.new ≡ sines_by (wish shape request.now) sines.old }
    ensures demand3 { Claimed (wished shape request.now) result buf.new }
{
    let asked = crate::one_second::wish(shape, request);
    sheet_for(asked, sines, buf)
}

// The contact sheet of the program's input, in the caller's buffer; `sines` is the buffer for table S. It takes any
// bytes and any buffers.
pub fn sheet(request: &[u8], sines: &mut [u32], buf: &mut [u8]) -> Result<usize, Refusal>
    ensures answer { result ≡ answer_to request.now sines.old buf.old }
    ensures buffer { buf.new ≡ buffer_for request.now sines.old buf.old }
    ensures sines { sines.new ≡ sines_for request.now sines.old }
    ensures demand3 { Claimed (of_eclipse (request_of request.now)) result buf.new }
{
    of_shape(Shape::Eclipse, request, sines, buf)
}

// The sheet of the same request with the covered share after the closest second.
pub fn sheet_and_share(request: &[u8], sines: &mut [u32], buf: &mut [u8]) -> Result<usize, Refusal>
    ensures answer { result ≡ shared_answer request.now sines.old buf.old }
    ensures buffer { buf.new ≡ shared_buffer request.now sines.old buf.old }
    ensures sines { sines.new ≡ shared_sines request.now sines.old }
    ensures demand3 { Claimed (of_eclipse (with_share (request_of request.now))) result buf.new }
{
    let asked = request_format::input::of_eclipse(request_format::input::with_share(
        request_format::input::request(request),
    ));
    sheet_for(asked, sines, buf)
}

// The contact sheet of a star, in the caller's buffer; `sines` is the buffer for table S. It takes any bytes and any
// buffers.
pub fn star_sheet(request: &[u8], sines: &mut [u32], buf: &mut [u8]) -> Result<usize, Refusal>
    ensures answer { result ≡ star_answer request.now sines.old buf.old }
    ensures buffer { buf.new ≡ star_buffer request.now sines.old buf.old }
    ensures sines { sines.new ≡ star_sines request.now sines.old }
    ensures demand3 { Claimed (of_star (star_request_of request.now)) result buf.new }
{
    of_shape(Shape::Star, request, sines, buf)
}
