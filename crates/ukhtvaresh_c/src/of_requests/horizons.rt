// The horizon at one second of a request, of an eclipse or of a star, for C and Rust.
ghost use Rattle.std.specs.Prelude.{◌≡◌};
ghost use Rattle.request_answers.specs.Horizons.{horizon_given, horizon_after};
ghost use Rattle.request_answers.specs.Second.{wish, sines_asked};
ghost use Rattle.request_format.specs.declared.fields.Shape.TheVariants.{Eclipse, Star};
ghost use Rattle.ukhtvaresh.specs.Horizons.{horizon_reply};

// Where the Sun's centre stands at one second of a request of 115 bytes, which may lie outside its window: altitude,
// azimuth, and the direction of the zenith from it, in tenths of a degree; value: 3. `sines` is the buffer for table S.
#[unsafe(no_mangle)]
pub extern "C" fn ukhtvaresh_horizon(
    request: &[u8],
    second: i64,
    sines: &mut [u32],
    horizon: &mut [i64],
    value: &mut u64,
) -> u64
    ensures number { result ≡ (horizon_reply (horizon_given Eclipse request.now second sines.old horizon.old)).number }
    ensures value { value.new ≡ (horizon_reply (horizon_given Eclipse request.now second sines.old horizon.old)).value }
    ensures buffer { horizon.new ≡ horizon_after (horizon_given Eclipse request.now second sines.old horizon.old) horizon.old }
    ensures sines { sines.new ≡ sines_asked (wish Eclipse request.now) second sines.old }
{
    ukhtvaresh::of_requests::horizons::ukhtvaresh_horizon(request, second, sines, horizon, value)
}

// The same of the star of a star request of 79 bytes.
#[unsafe(no_mangle)]
pub extern "C" fn ukhtvaresh_star_horizon(
    request: &[u8],
    second: i64,
    sines: &mut [u32],
    horizon: &mut [i64],
    value: &mut u64,
) -> u64
    ensures number { result ≡ (horizon_reply (horizon_given Star request.now second sines.old horizon.old)).number }
    ensures value { value.new ≡ (horizon_reply (horizon_given Star request.now second sines.old horizon.old)).value }
    ensures buffer { horizon.new ≡ horizon_after (horizon_given Star request.now second sines.old horizon.old) horizon.old }
    ensures sines { sines.new ≡ sines_asked (wish Star request.now) second sines.old }
{
    ukhtvaresh::of_requests::horizons::ukhtvaresh_star_horizon(
        request, second, sines, horizon, value,
    )
}
