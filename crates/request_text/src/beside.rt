// A line of a typed request: one that names the instant or TAI-UTC is read beside the numbers (`instants`) and gives
// none.
ghost use Rattle.std.specs.Prelude.{◌≡◌};
ghost use Rattle.request_text.specs.Lines.{names_instant, names_offset, names_clock, number_in};

use crate::Fault;
use request_format::fields::Shape;

// Whether a line names the instant.
pub fn names_instant(line: &[u8]) -> bool
    ensures { result ≡ names_instant line.now }
{
    super::is_named(super::said(line), b"instant")
}

// Whether a line names TAI-UTC.
pub fn names_offset(line: &[u8]) -> bool
    ensures { result ≡ names_offset line.now }
{
    super::is_named(super::said(line), b"tai-utc")
}

// Whether a line names either.
fn names_clock(line: &[u8]) -> bool
    ensures { result ≡ names_clock line.now }
{
    let instant = names_instant(line);
    instant | names_offset(line)
}

// The number that a line gives, or its fault.
pub fn number_in(shape: Shape, line: &[u8]) -> Result<Option<(usize, i64)>, Fault>
    ensures { result ≡ number_in shape line.now }
{
    if names_clock(line) {
        return Ok(None);
    }
    super::meaning(shape, line)
}
