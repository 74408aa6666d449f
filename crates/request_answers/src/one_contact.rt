// The contact between two seconds of a request, of an eclipse or of a star, as two hundredths of a second.
ghost use Rattle.std.specs.Prelude.{◌≡◌, ◌≤◌, length, Ok};
ghost use Rattle.request_answers.specs.Second.{wish};
ghost use Rattle.request_answers.specs.Contacts.{contact_sines_asked, contact_given, contact_after};

use request_format::fields::Shape;
use sheet_types::refusals::Refusal;

// The two hundredths at the start of the buffer.
fn put_contact(room: &mut [i64], earlier: i64, later: i64)
    requires { 2 ≤ length room.old }
    ensures { room.new ≡ contact_after (Ok (earlier, later)) room.old }
{
    room[..2].copy_from_slice(&[earlier, later]);
}

// The contact of a phase between two seconds of a request of that shape, which may lie outside its window, as two
// hundredths of a second at the start of the buffer; or the refusal, and the buffer as it was: 10, 1, 2, a star's 13, 3,
// 22 for the phase, 4 for the buffer of table S, 22 for the two seconds, or 4 for a buffer of fewer than two numbers.
// `sines` is the buffer for table S.
#[tactic(auto, unfolding(crate::specs::Contacts::contact_given))]
pub fn contact(
    shape: Shape,
    request: &[u8],
    phase: i64,
    from: i64,
    to: i64,
    sines: &mut [u32],
    room: &mut [i64],
) -> Result<(i64, i64), Refusal>
    ensures given { result ≡ contact_given shape request.now phase from to sines.old room.old }
    ensures numbers { room.new ≡ contact_after (contact_given shape request.now phase from to sines.old room.old) room.old }
    ensures sines { sines.new ≡ contact_sines_asked (wish shape request.now) phase from to sines.old }
{
    let o = crate::one_second::wish(shape, request)?;
    let (earlier, later) = contact_times::contact_at(o, phase, from, to, sines)?;
    crate::rooms::check(room.len(), 2)?;
    put_contact(room, earlier, later);
    Ok((earlier, later))
}
