// The listing of a request with clock times, for C and Rust.
ghost use Rattle.std.specs.Prelude.{◌≡◌};
ghost use Rattle.answers.specs.Timed.{instant_given, told_for, sheet_for, table_for};
ghost use Rattle.listings.specs.Answers.{room_with};
ghost use Rattle.ukhtvaresh.specs.Listing.{listing_reply};
ghost use Rattle.ukhtvaresh.specs.Times.{times_given};

// What program `times` prints of a request, a star's if it has 79 bytes, and of an instant's six numbers: the listing of
// the sheet with clock times, altitudes and notes at the start of `text`; value: its length. The sheet is in `sheet`;
// `sines` is for table S.
#[unsafe(no_mangle)]
pub extern "C" fn ukhtvaresh_times(
    request: &[u8],
    instant: &[u64],
    sines: &mut [u32],
    sheet: &mut [u8],
    text: &mut [u8],
    value: &mut u64,
) -> u64
    ensures number { result ≡ (listing_reply (times_given request.now instant.now sines.old sheet.old text.old)).number }
    ensures value { value.new ≡ (listing_reply (times_given request.now instant.now sines.old sheet.old text.old)).value }
    ensures text { text.new ≡ room_with (told_for (instant_given instant.now) request.now sines.old sheet.old) text.old }
    ensures sheet { sheet.new ≡ sheet_for (instant_given instant.now) request.now sines.old sheet.old }
    ensures sines { sines.new ≡ table_for (instant_given instant.now) request.now sines.old }
{
    ukhtvaresh::texts::times::ukhtvaresh_times(request, instant, sines, sheet, text, value)
}
