// The horizon at one second of a request, of an eclipse or of a star, as three numbers.
ghost use Rattle.std.specs.Prelude.{◌≡◌, ◌≤◌, length, Ok};
ghost use Rattle.request_answers.specs.Second.{wish, sines_asked};
ghost use Rattle.request_answers.specs.Horizons.{horizon_given, horizon_after};

use horizon::Horizon;
use request_format::fields::Shape;
use sheet_types::refusals::Refusal;

// Altitude, azimuth and zenith at the start of the buffer.
fn put_horizon(room: &mut [i64], h: Horizon)
    requires { 3 ≤ length room.old }
    ensures { room.new ≡ horizon_after (Ok h) room.old }
{
    room[..3].copy_from_slice(&[h.altitude, h.azimuth as i64, h.zenith as i64]);
}

// The horizon at one second of a request of that shape, which may lie outside its window, and its three numbers at the
// start of the buffer; or the refusal, and the buffer as it was: 10, 1, 2, a star's 13, 3, 4 for the buffer of table S,
// or 4 for a buffer of fewer than three numbers. `sines` is the buffer for table S.
#[tactic(auto, unfolding(crate::specs::Horizons::horizon_given))]
pub fn horizon(
    shape: Shape,
    request: &[u8],
    second: i64,
    sines: &mut [u32],
    room: &mut [i64],
) -> Result<Horizon, Refusal>
    ensures given { result ≡ horizon_given shape request.now second sines.old room.old }
    ensures numbers { room.new ≡ horizon_after (horizon_given shape request.now second sines.old room.old) room.old }
    ensures sines { sines.new ≡ sines_asked (wish shape request.now) second sines.old }
{
    let o = crate::one_second::wish(shape, request)?;
    let found = horizon::horizon_at(o, second, sines)?;
    crate::rooms::check(room.len(), 3)?;
    put_horizon(room, found);
    Ok(found)
}
