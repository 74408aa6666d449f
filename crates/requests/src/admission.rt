// The buffer for table S: an occultation within its limits fills it, and 4 is given where it is shorter.
ghost use Rattle.std.specs.Prelude.{◌≡◌};
ghost use Rattle.requests.specs.Admission.{room_checked, admitted, sines_after};

use super::Occultation;
use sheet_types::refusals::Refusal;

// Table S in the caller's buffer, or refusal 4 with place 901 where the buffer is shorter.
pub fn fill_sines(sines: &mut [u32]) -> Result<(), Refusal>
    ensures answer { result ≡ room_checked sines.old }
    ensures sines { sines.new ≡ sines_after (room_checked sines.old) sines.old }
{
    if sines.len() < 901 {
        return Err(Refusal {
            number: 4,
            place: 901,
        });
    }
    sine_table::fill(sines);
    Ok(())
}

// Whether only the sheet's 4 can still refuse it, or the first of its refusals before that; the buffer is filled in
// the first case alone.
pub fn admit(o: Occultation, sines: &mut [u32]) -> Result<(), Refusal>
    ensures answer { result ≡ admitted o sines.old }
    ensures sines { sines.new ≡ sines_after (admitted o sines.old) sines.old }
{
    super::check(o)?;
    fill_sines(sines)
}
