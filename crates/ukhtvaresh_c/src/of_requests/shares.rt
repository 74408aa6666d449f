// How much of the Sun is gone, for C and Rust: in a sheet, and at one second.
ghost use Rattle.std.specs.Prelude.{◌≡◌};
ghost use Rattle.circumstances.specs.Demand3.{Claimed};
ghost use Rattle.obscuration.specs.Answer.{AnswerMeans};
ghost use Rattle.request_answers.specs.Second.{wish, sines_asked};
ghost use Rattle.request_answers.specs.Shares.{share_asked};
ghost use Rattle.request_answers.specs.Sheet.{shared_answer, shared_buffer, shared_sines};
ghost use Rattle.request_format.specs.Input.{request_of, input_of};
ghost use Rattle.request_format.specs.declared.fields.Shape.TheVariants.{Eclipse};
ghost use Rattle.requests.specs.Requests.{of_eclipse};
ghost use Rattle.requests.specs.Shares.{with_share};
ghost use Rattle.ukhtvaresh.specs.Replies.{sheet_reply};
ghost use Rattle.ukhtvaresh.specs.Shares.{share_reply};

// The contact sheet of a request of 115 bytes with the covered share after the closest second; value: its length.
// `sines` is the buffer for table S.
#[unsafe(no_mangle)]
pub extern "C" fn ukhtvaresh_sheet_and_share(
    request: &[u8],
    sines: &mut [u32],
    sheet: &mut [u8],
    value: &mut u64,
) -> u64
    ensures number { result ≡ (sheet_reply (shared_answer request.now sines.old sheet.old)).number }
    ensures value { value.new ≡ (sheet_reply (shared_answer request.now sines.old sheet.old)).value }
    ensures buffer { sheet.new ≡ shared_buffer request.now sines.old sheet.old }
    ensures sines { sines.new ≡ shared_sines request.now sines.old }
    ensures demand3 { Claimed (of_eclipse (with_share (request_of request.now))) (shared_answer request.now sines.old sheet.old) sheet.new }
{
    ukhtvaresh::of_requests::shares::ukhtvaresh_sheet_and_share(request, sines, sheet, value)
}

// The covered share of the Sun's disc at one second of a request of 115 bytes, which may lie outside its window;
// value: the share in millionths. `sines` is the buffer for table S.
#[unsafe(no_mangle)]
pub extern "C" fn ukhtvaresh_share(
    request: &[u8],
    second: i64,
    sines: &mut [u32],
    value: &mut u64,
) -> u64
    ensures number { result ≡ (share_reply (share_asked (input_of request.now) second sines.old)).number }
    ensures value { value.new ≡ (share_reply (share_asked (input_of request.now) second sines.old)).value }
    ensures sines { sines.new ≡ sines_asked (wish Eclipse request.now) second sines.old }
    ensures means { AnswerMeans (request_of request.now) second (share_asked (input_of request.now) second sines.old) }
{
    ukhtvaresh::of_requests::shares::ukhtvaresh_share(request, second, sines, value)
}
