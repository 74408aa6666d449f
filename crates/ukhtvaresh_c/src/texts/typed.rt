// A typed request to its bytes, for C and Rust.
ghost use Rattle.std.specs.Prelude.{◌≡◌, length};
ghost use Rattle.request_text.specs.Meaning.{meaning_of};
ghost use Rattle.request_text.specs.Stored.{request_after, instant_after, fault_after};
ghost use Rattle.ukhtvaresh.specs.Typed.{typed_given, typed_reply};

// The request that a text is: its bytes at the start of `request`, the six numbers of its instant at the start of
// `instant`; value: how many bytes. 20 with the first invalid line, and its message at the start of `message`.
#[unsafe(no_mangle)]
pub extern "C" fn ukhtvaresh_typed(
    text: &[u8],
    request: &mut [u8],
    instant: &mut [u64],
    message: &mut [u8],
    value: &mut u64,
) -> u64
    ensures number { result ≡ (typed_reply (typed_given text.now request.old instant.old message.old)).number }
    ensures value { value.new ≡ (typed_reply (typed_given text.now request.old instant.old message.old)).value }
    ensures request { request.new ≡ request_after (length instant.old) (meaning_of text.now) request.old }
    ensures instant { instant.new ≡ instant_after (length request.old) (meaning_of text.now) instant.old }
    ensures message { message.new ≡ fault_after (meaning_of text.now) message.old }
{
    ukhtvaresh::texts::typed::ukhtvaresh_typed(text, request, instant, message, value)
}
