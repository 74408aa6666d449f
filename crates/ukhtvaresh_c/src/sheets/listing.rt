// The listing of a sheet, for C and Rust.
ghost use Rattle.std.specs.Prelude.{◌≡◌};
ghost use Rattle.listings.specs.Answers.{room_with};
ghost use Rattle.listings.specs.Listings.{told};
ghost use Rattle.ukhtvaresh.specs.Listing.{listing_given, listing_reply};

// The listing of a sheet, as text in the caller's buffer; value: its length.
#[unsafe(no_mangle)]
pub extern "C" fn ukhtvaresh_listing(sheet: &[u8], text: &mut [u8], value: &mut u64) -> u64
    ensures number { result ≡ (listing_reply (listing_given sheet.now text.old)).number }
    ensures value { value.new ≡ (listing_reply (listing_given sheet.now text.old)).value }
    ensures room { text.new ≡ room_with (told sheet.now) text.old }
{
    ukhtvaresh::sheets::listing::ukhtvaresh_listing(sheet, text, value)
}
