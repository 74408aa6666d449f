// A survey handed over as numbers.
ghost use Rattle.std.specs.Prelude.{◌≡◌, length};
ghost use Rattle.requests.specs.Requests.{of_eclipse};
ghost use Rattle.circumstances.specs.Demand3.{Claimed};
ghost use Rattle.float_requests.specs.Survey.{request_of};
ghost use Rattle.float_requests.specs.Handed.{marked, survey_of, handed_of, answer_to, buffer_for, sines_for, not_of_shape};

use super::Survey;
use binary64::Longitude;
use requests::windows::Window;
use sheet_types::refusals::Refusal;

// The longitude in degrees for 0, in hours of time for 1.
fn marked(hours: u64, x: f64) -> Longitude
    ensures { result ≡ marked hours x }
{
    if hours == 0 {
        Longitude::Degrees(x)
    } else {
        Longitude::Hours(x)
    }
}

fn not_of_shape() -> Result<Survey, Refusal>
    ensures { result ≡ not_of_shape }
{
    Err(Refusal {
        number: 10,
        place: 0,
    })
}

// The survey of 22 doubles, a longitude and its mark, 0 or 1, and the rest: number, latitude, height, ΔT, first, last,
// guard.
fn survey_of(elements: &[f64], longitude: f64, hours: u64, rest: &[i64]) -> Survey
    requires { (length elements.now ≡ 22) × (length rest.now ≡ 7) }
    ensures { result ≡ survey_of elements.now longitude hours rest.now }
{
    let elements = crate::instrument::from_doubles(elements);
    let longitude = marked(hours, longitude);
    let number = rest[0];
    let latitude = rest[1];
    let height = rest[2];
    let deltat = rest[3];
    let first = rest[4];
    let last = rest[5];
    let guard = rest[6];
    let window = Window { first, last };
    Survey {
        elements,
        longitude,
        number,
        latitude,
        height,
        deltat,
        window,
        guard,
    }
}

// The same, where the numbers are of that shape.
fn survey(elements: &[f64], longitude: f64, hours: u64, rest: &[i64]) -> Result<Survey, Refusal>
    ensures { result ≡ handed_of elements.now longitude hours rest.now }
{
    if elements.len() != 22 {
        return not_of_shape();
    }
    if rest.len() != 7 {
        return not_of_shape();
    }
    if 1 < hours {
        return not_of_shape();
    }
    let s = survey_of(elements, longitude, hours, rest);
    Ok(s)
}

// The contact sheet of such a survey, in the caller's buffer; `sines` is the buffer for table S.
pub fn sheet(
    elements: &[f64],
    longitude: f64,
    hours: u64,
    rest: &[i64],
    sines: &mut [u32],
    buf: &mut [u8],
) -> Result<usize, Refusal>
    ensures answer { result ≡ answer_to (handed_of elements.now longitude hours rest.now) sines.old buf.old }
    ensures buffer { buf.new ≡ buffer_for (handed_of elements.now longitude hours rest.now) sines.old buf.old }
    ensures sines { sines.new ≡ sines_for (handed_of elements.now longitude hours rest.now) sines.old }
    ensures demand3 { Claimed (of_eclipse (request_of (survey_of elements.now longitude hours rest.now))) result buf.new }
{
    let s = survey(elements, longitude, hours, rest)?;
    super::sheet(s, sines, buf)
}
