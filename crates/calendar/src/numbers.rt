// The reference instant as six numbers, as a caller of the library has it.
ghost use Rattle.std.specs.Prelude.{◌≡◌};
ghost use Rattle.calendar.specs.Numbers.{is_offset, scale_of, reference_of};

use crate::{Instant, Scale};

fn is_offset(year: u64, offset: u64) -> bool
    ensures { result ≡ is_offset year offset }
{
    (offset == 0) | ((10 <= offset) & (offset <= 99) & (1972 <= year))
}

// Ephemeris time for 1, universal for 2. `TryFrom` would be no plainer: the caller has refused all other numbers.
fn scale_of(scale: u64) -> Scale
    ensures { result ≡ scale_of scale }
{
    if scale == 1 {
        return Scale::Ephemeris;
    }
    Scale::Universal
}

// The instant that the six numbers are, or the place of the first wrong one. With no scale, 0, there is no instant,
// and the other numbers are not read. They are no struct because the C interface gives them one by one
// (`ukhtvaresh_times`).
pub fn reference_of(
    scale: u64,
    year: u64,
    month: u64,
    day: u64,
    hundredths: u64,
    offset: u64,
) -> Result<Option<Instant>, usize>
    ensures { result ≡ reference_of scale year month day hundredths offset }
{
    if scale == 0 {
        return Ok(None);
    }
    if 2 < scale {
        return Err(0);
    }
    if !crate::is_day(year, month, day) {
        return Err(1);
    }
    if 9999 < year {
        return Err(1);
    }
    if 8639999 < hundredths {
        return Err(4);
    }
    if !is_offset(year, offset) {
        return Err(5);
    }
    let scale = scale_of(scale);
    Ok(Some(Instant {
        year,
        month,
        day,
        hundredths,
        scale,
        offset,
    }))
}
