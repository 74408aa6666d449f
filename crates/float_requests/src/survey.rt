// A survey to its contact sheet: what the instrument exports, and the rest of a request in whole numbers.
pub mod handed;

ghost use Rattle.std.specs.Prelude.{◌≡◌, eqb};
ghost use Rattle.sheet_types.specs.laws.RefusalLaws.{number_in};
ghost use Rattle.requests.specs.Requests.{of_eclipse};
ghost use Rattle.circumstances.specs.Demand3.{Claimed};
ghost use Rattle.float_requests.specs.Survey.{request_of, survey_checked, survey_answer, survey_buffer, survey_sines};
ghost use Rattle.float_requests.specs.laws.HeldRequest.{held_request};

use crate::instrument::ElementDoubles;
use binary64::Longitude;
use requests::windows::Window;
use requests::{Occultation, Request};
use sheet_types::refusals::Refusal;

// What a sheet is asked for, as it was surveyed.
#[derive(Clone, Copy)]
pub struct Survey {
    pub elements: ElementDoubles,
    pub longitude: Longitude,
    // the rest of the station: number, 1 to 999
    pub number: i64,
    // geodetic latitude, 10^-6 degree, ±90,000,000
    pub latitude: i64,
    // height, metres, -500 to 9,000
    pub height: i64,
    // ΔT, hundredths of a second, -10,000 to 20,000
    pub deltat: i64,
    pub window: Window,
    // 10^-8 of the Earth's equatorial radius, 16 to 1,000
    pub guard: i64,
}

// The survey in whole units; the number used in place of a unit that is too large is out of every range too.
fn request_of(s: Survey) -> Request
    ensures { result ≡ held_request (request_of s) }
{
    let d = s.elements;
    let l = s.longitude;
    let elements = crate::instrument::elements_in(d);
    let longitude = binary64::unit_of(binary64::read_longitude(l));
    let station = station::Station {
        number: s.number,
        latitude: s.latitude,
        longitude,
        height: s.height,
        deltat: s.deltat,
    };
    let window = s.window;
    Request {
        elements,
        station,
        window,
        guard: s.guard,
        share: false,
    }
}

// Whether it is refusal 1. Only that one is passed on, so `check` has no `?`.
fn is_one(c: Result<(), Refusal>) -> bool
    ensures { result ≡ eqb (number_in c) 1 }
{
    match c {
        Ok(()) => false,
        Err(refusal) => refusal.number == 1,
    }
}

// Refusal 1 of the request, for the window or the guard, or 12 for a double that is not finite: 2 and 3 come after it,
// with the sheet.
fn check(s: Survey, o: Occultation) -> Result<(), Refusal>
    requires { o ≡ of_eclipse (held_request (request_of s)) }
    ensures { result ≡ survey_checked s }
{
    let c = requests::check(o);
    let first = is_one(c);
    if first {
        return c;
    }
    let d = s.elements;
    let l = s.longitude;
    crate::instrument::check_finite(d, l)
}

// The contact sheet of a survey, in the caller's buffer; `sines` is the buffer for table S.
pub fn sheet(s: Survey, sines: &mut [u32], buf: &mut [u8]) -> Result<usize, Refusal>
    ensures answer { result ≡ survey_answer s sines.old buf.old }
    ensures buffer { buf.new ≡ survey_buffer s sines.old buf.old }
    ensures sines { sines.new ≡ survey_sines s sines.old }
    ensures demand3 { Claimed (of_eclipse (request_of s)) result buf.new }
{
    let o = requests::of_eclipse(request_of(s));
    check(s, o)?;
    circumstances::sheet(o, sines, buf)
}
