// The static library for C, Rust and Python: each function of the library `ukhtvaresh` under its own name, with its own
// contract. Nothing is decided here.
#![tactic(auto)]

mod of_requests;
mod sheets;
mod stations;
mod tables;
mod texts;

ghost use Rattle.std.specs.Prelude.{◌≡◌};
ghost use Rattle.circumstances.specs.Demand3.{Claimed};
ghost use Rattle.request_answers.specs.Sheet.{answer_to, buffer_for, sines_for};
ghost use Rattle.request_format.specs.Input.{request_of};
ghost use Rattle.requests.specs.Requests.{of_eclipse};
ghost use Rattle.rounding.specs.Rounds.{Reported};
ghost use Rattle.sheet_codec.specs.Handed.{list_whole, buffer_after_list};
ghost use Rattle.sheet_codec.specs.Sheets.{read_whole, room_after};
ghost use Rattle.ukhtvaresh.specs.Replies.{sheet_reply, read_given, read_reply, write_given, write_reply};

// The contact sheet of a request of 115 bytes, in the caller's buffer; value: its length. `sines` is the buffer for
// table S.
#[unsafe(no_mangle)]
pub extern "C" fn ukhtvaresh_sheet(
    request: &[u8],
    sines: &mut [u32],
    sheet: &mut [u8],
    value: &mut u64,
) -> u64
    ensures number { result ≡ (sheet_reply (answer_to request.now sines.old sheet.old)).number }
    ensures value { value.new ≡ (sheet_reply (answer_to request.now sines.old sheet.old)).value }
    ensures buffer { sheet.new ≡ buffer_for request.now sines.old sheet.old }
    ensures sines { sines.new ≡ sines_for request.now sines.old }
    ensures demand3 { Claimed (of_eclipse (request_of request.now)) (answer_to request.now sines.old sheet.old) sheet.new }
{
    ukhtvaresh::ukhtvaresh_sheet(request, sines, sheet, value)
}

// Reads a sheet: its entries, five numbers each, into the caller's buffer; value: how many entries.
#[unsafe(no_mangle)]
pub extern "C" fn ukhtvaresh_read(sheet: &[u8], entries: &mut [u32], value: &mut u64) -> u64
    ensures number { result ≡ (read_reply (read_given sheet.now entries.old)).number }
    ensures value { value.new ≡ (read_reply (read_given sheet.now entries.old)).value }
    ensures room { entries.new ≡ room_after (read_whole sheet.now) entries.old }
{
    ukhtvaresh::ukhtvaresh_read(sheet, entries, value)
}

// Writes entries, five numbers each, as a sheet in the caller's buffer; value: its length.
#[unsafe(no_mangle)]
pub extern "C" fn ukhtvaresh_write(entries: &[u32], sheet: &mut [u8], value: &mut u64) -> u64
    ensures number { result ≡ (write_reply (write_given entries.now sheet.old)).number }
    ensures value { value.new ≡ (write_reply (write_given entries.now sheet.old)).value }
    ensures buffer { sheet.new ≡ buffer_after_list (list_whole entries.now) sheet.old }
{
    ukhtvaresh::ukhtvaresh_write(entries, sheet, value)
}

// The largest whole number whose square is at most n; rounds: in how many it is found. It refuses nothing, so its
// answer is the root.
#[unsafe(no_mangle)]
pub extern "C" fn ukhtvaresh_root(n: u64, rounds: &mut u64) -> u64
    ensures { Reported n result rounds.new }
{
    ukhtvaresh::ukhtvaresh_root(n, rounds)
}
