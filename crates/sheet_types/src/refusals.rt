// Why something is refused, in the numbers of documents 01 and 02.
ghost use Rattle.std.specs.Prelude.{◌≡◌, length};
ghost use Rattle.rounding.specs.Limits.{first_out_of_range, rows};
ghost use Rattle.sheet_types.specs.Refusals.{of_limits};

// A row of document 01's table of refusals, or one that document 02 adds. A number and no enum: the definitions
// (`refusal`) state it by the papers' number, and C is given that number.
#[derive(Clone, Copy)]
pub struct Refusal {
    // its number there
    pub number: u32,
    // its place, by that row: a field, a byte, a length
    pub place: usize,
}

// Numbers against their ranges, refused under that number with the first that is out of range.
fn of_limits(number: u32, limits: Option<usize>) -> Result<(), Refusal>
    ensures { result ≡ of_limits number limits }
{
    match limits {
        None => Ok(()),
        Some(place) => Err(Refusal { number, place }),
    }
}

// Values against their ranges, refused under that number with the first that is below its low or above its high.
pub fn of_ranges(number: u32, values: &[i64], lows: &[i64], highs: &[i64]) -> Result<(), Refusal>
    requires { (length lows.now ≡ length values.now) × (length highs.now ≡ length values.now) }
    ensures { result ≡ of_limits number (first_out_of_range 0 (rows values.now lows.now highs.now)) }
{
    let limits = rounding::first_out_of_range(values, lows, highs);
    of_limits(number, limits)
}
