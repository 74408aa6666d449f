// Stars behind the Moon, for C and Rust.
ghost use Rattle.std.specs.Prelude.{◌≡◌};
ghost use Rattle.circumstances.specs.Demand3.{Claimed};
ghost use Rattle.request_answers.specs.Sheet.{star_answer, star_buffer, star_sines};
ghost use Rattle.request_format.specs.Input.{star_request_of};
ghost use Rattle.requests.specs.Requests.{of_star};
ghost use Rattle.ukhtvaresh.specs.Replies.{sheet_reply};

// The contact sheet of a star request of 79 bytes, in the caller's buffer; value: its length. `sines` is the buffer
// for table S.
#[unsafe(no_mangle)]
pub extern "C" fn ukhtvaresh_star(
    request: &[u8],
    sines: &mut [u32],
    sheet: &mut [u8],
    value: &mut u64,
) -> u64
    ensures number { result ≡ (sheet_reply (star_answer request.now sines.old sheet.old)).number }
    ensures value { value.new ≡ (sheet_reply (star_answer request.now sines.old sheet.old)).value }
    ensures buffer { sheet.new ≡ star_buffer request.now sines.old sheet.old }
    ensures sines { sines.new ≡ star_sines request.now sines.old }
    ensures demand3 { Claimed (of_star (star_request_of request.now)) (star_answer request.now sines.old sheet.old) sheet.new }
{
    ukhtvaresh::of_requests::stars::ukhtvaresh_star(request, sines, sheet, value)
}
