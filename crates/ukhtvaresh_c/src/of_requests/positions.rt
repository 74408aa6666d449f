// Positions as doubles, for C and Rust: a survey's sheet, and whole units as doubles.
ghost use Rattle.std.specs.Prelude.{◌≡◌, length};
ghost use Rattle.circumstances.specs.Demand3.{Claimed};
ghost use Rattle.float_requests.specs.Handed.{survey_of, handed_of, answer_to, buffer_for, sines_for};
ghost use Rattle.float_requests.specs.Survey.{request_of};
ghost use Rattle.requests.specs.Requests.{of_eclipse};
ghost use Rattle.ukhtvaresh.specs.Positions.{doubles_reply};
ghost use Rattle.ukhtvaresh.specs.Replies.{sheet_reply};
ghost use Rattle.float_requests.specs.Writing as Writing;

// The contact sheet of elements and a longitude in doubles, in the caller's buffer; value: its length. `hours` is 0
// for a longitude in degrees, 1 for one in hours of time; `rest` is number, latitude, height, ΔT, first, last, guard
// in whole numbers; `sines` is the buffer for table S.
#[unsafe(no_mangle)]
pub extern "C" fn ukhtvaresh_sheet_of_doubles(
    elements: &[f64],
    longitude: f64,
    hours: u64,
    rest: &[i64],
    sines: &mut [u32],
    sheet: &mut [u8],
    value: &mut u64,
) -> u64
    ensures number { result ≡ (sheet_reply (answer_to (handed_of elements.now longitude hours rest.now) sines.old sheet.old)).number }
    ensures value { value.new ≡ (sheet_reply (answer_to (handed_of elements.now longitude hours rest.now) sines.old sheet.old)).value }
    ensures buffer { sheet.new ≡ buffer_for (handed_of elements.now longitude hours rest.now) sines.old sheet.old }
    ensures sines { sines.new ≡ sines_for (handed_of elements.now longitude hours rest.now) sines.old }
    ensures demand3 { Claimed (of_eclipse (request_of (survey_of elements.now longitude hours rest.now))) (answer_to (handed_of elements.now longitude hours rest.now) sines.old sheet.old) sheet.new }
{
    ukhtvaresh::of_requests::positions::ukhtvaresh_sheet_of_doubles(
        elements, longitude, hours, rest, sines, sheet, value,
    )
}

// The 22 elements and a longitude in whole units as doubles, the longitude in degrees; value: 23.
#[unsafe(no_mangle)]
pub extern "C" fn ukhtvaresh_doubles(units: &[i64], doubles: &mut [f64], value: &mut u64) -> u64
    ensures number { result ≡ (doubles_reply (Writing.answer_to units.now (length doubles.old))).number }
    ensures value { value.new ≡ (doubles_reply (Writing.answer_to units.now (length doubles.old))).value }
    ensures room { doubles.new ≡ Writing.room_after (Writing.answer_to units.now (length doubles.old)) units.now doubles.old }
    ensures back { Writing.Claimed (Writing.answer_to units.now (length doubles.old)) units.now doubles.new }
{
    ukhtvaresh::of_requests::positions::ukhtvaresh_doubles(units, doubles, value)
}
