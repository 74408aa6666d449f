// The mirror of a request, for C and Rust.
ghost use Rattle.std.specs.Prelude.{◌≡◌};
ghost use Rattle.mirrors.specs.Bytes.{mirror_answer, mirror_buffer};
ghost use Rattle.ukhtvaresh.specs.Replies.{sheet_reply};

// The mirror of a request of 115 bytes, in the caller's buffer: the y and d coefficients and the latitude with the
// other sign; value: 115.
#[unsafe(no_mangle)]
pub extern "C" fn ukhtvaresh_mirror(request: &[u8], mirrored: &mut [u8], value: &mut u64) -> u64
    ensures number { result ≡ (sheet_reply (mirror_answer request.now mirrored.old)).number }
    ensures value { value.new ≡ (sheet_reply (mirror_answer request.now mirrored.old)).value }
    ensures room { mirrored.new ≡ mirror_buffer request.now mirrored.old }
{
    ukhtvaresh::of_requests::mirror::ukhtvaresh_mirror(request, mirrored, value)
}
