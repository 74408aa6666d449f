// How long the sheet at the start of some bytes is, for C and Rust.
ghost use Rattle.std.specs.Prelude.{◌≡◌};
ghost use Rattle.ukhtvaresh.specs.Replies.{write_reply, extent_given};

// How many bytes the sheet has that the bytes begin with, whatever follows it; or the reader's refusal. A year file is
// read by this, sheet after sheet.
#[unsafe(no_mangle)]
pub extern "C" fn ukhtvaresh_extent(bytes: &[u8], value: &mut u64) -> u64
    ensures number { result ≡ (write_reply (extent_given bytes.now)).number }
    ensures value { value.new ≡ (write_reply (extent_given bytes.now)).value }
{
    ukhtvaresh::sheets::extent::ukhtvaresh_extent(bytes, value)
}
