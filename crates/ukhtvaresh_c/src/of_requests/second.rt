// One second of a request, an eclipse's or a star's, for C and Rust.
ghost use Rattle.std.specs.Prelude.{◌≡◌};
ghost use Rattle.request_answers.specs.Second.{wish, sines_asked, second_given, numbers_after, GivenMeans};
ghost use Rattle.request_format.specs.declared.fields.Shape.TheVariants.{Eclipse, Star};
ghost use Rattle.ukhtvaresh.specs.Seconds.{second_reply};

// The shadow at one second of a request of 115 bytes, which may lie outside its window: u, v, L1, L2, the states of
// penumbra and central cone (0 outside, 1 inside, 2 unsure), magnitude, direction; value: 8. `sines` is the buffer
// for table S.
#[unsafe(no_mangle)]
pub extern "C" fn ukhtvaresh_second(
    request: &[u8],
    second: i64,
    sines: &mut [u32],
    shadow: &mut [i64],
    value: &mut u64,
) -> u64
    ensures number { result ≡ (second_reply 8 (second_given Eclipse request.now second sines.old shadow.old)).number }
    ensures value { value.new ≡ (second_reply 8 (second_given Eclipse request.now second sines.old shadow.old)).value }
    ensures buffer { shadow.new ≡ numbers_after Eclipse (second_given Eclipse request.now second sines.old shadow.old) shadow.old }
    ensures sines { sines.new ≡ sines_asked (wish Eclipse request.now) second sines.old }
    ensures means { GivenMeans Eclipse request.now second (second_given Eclipse request.now second sines.old shadow.old) shadow.new }
{
    ukhtvaresh::of_requests::second::ukhtvaresh_second(request, second, sines, shadow, value)
}

// The shadow at one second of a star request of 79 bytes, which may lie outside its window: u, v, L, the state (0
// outside, 1 inside, 2 unsure), direction; value: 5. `sines` is the buffer for table S.
#[unsafe(no_mangle)]
pub extern "C" fn ukhtvaresh_star_second(
    request: &[u8],
    second: i64,
    sines: &mut [u32],
    shadow: &mut [i64],
    value: &mut u64,
) -> u64
    ensures number { result ≡ (second_reply 5 (second_given Star request.now second sines.old shadow.old)).number }
    ensures value { value.new ≡ (second_reply 5 (second_given Star request.now second sines.old shadow.old)).value }
    ensures buffer { shadow.new ≡ numbers_after Star (second_given Star request.now second sines.old shadow.old) shadow.old }
    ensures sines { sines.new ≡ sines_asked (wish Star request.now) second sines.old }
    ensures means { GivenMeans Star request.now second (second_given Star request.now second sines.old shadow.old) shadow.new }
{
    ukhtvaresh::of_requests::second::ukhtvaresh_star_second(request, second, sines, shadow, value)
}
