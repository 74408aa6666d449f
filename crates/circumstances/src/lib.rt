// From an occultation, of the Sun or of a star, to its contact sheet.
#![tactic(auto)]

pub mod writing;

ghost use Rattle.std.specs.Prelude.{◌≡◌};
ghost use Rattle.sine_table.specs.Table.{Sines};
ghost use Rattle.station.specs.Place.{place_of};
ghost use Rattle.requests.specs.RequestLaws.{InLimits};
ghost use Rattle.seconds.specs.Seconds.{closestOf};
ghost use Rattle.seconds.specs.AllStates.{AllStates};
ghost use Rattle.circumstances.specs.Sheet.{answer_within, buffer_within, sheet_answer, sheet_buffer, sheet_sines};
ghost use Rattle.circumstances.specs.Demand3.{Claimed};

use requests::Occultation;
use sheet_types::refusals::Refusal;
use station::Place;

// The sheet within its limits, from the states of its seconds: its length is known before the first byte.
fn sheet_from(
    table: &[u32],
    o: Occultation,
    place: Place,
    closest: usize,
    runs: &[u8],
    buf: &mut [u8],
) -> Result<usize, Refusal>
    requires sines { (Sines table.now) × (InLimits o) × (place ≡ place_of o.station) × (closest ≡ closestOf o) }
    requires all_states { AllStates o runs.now }
    ensures value { result ≡ answer_within o buf.old }
    ensures buf_after { buf.new ≡ buffer_within o buf.old }
{
    let need = crate::writing::lengths::sheet_length(o, runs);
    if buf.len() < need {
        return Err(Refusal {
            number: 4,
            place: need,
        });
    }
    let length = crate::writing::write_sheet(table, o, place, closest, runs, buf);
    Ok(length)
}

// The sheet of an occultation within its limits, from a filled sine table.
fn sheet_within(table: &[u32], o: Occultation, buf: &mut [u8]) -> Result<usize, Refusal>
    requires { (Sines table.now) × (InLimits o) }
    ensures value { result ≡ answer_within o buf.old }
    ensures buf_after { buf.new ≡ buffer_within o buf.old }
{
    let s = o.station;
    let place = station::geocentric(table, s);
    let mut runs = [0u8; 21601];
    let known = adaptive_sampling::bisection::fill(table, o, place, &mut runs);
    let closest = known.best;
    let count = known.count;
    sheet_from(table, o, place, closest, &runs[..count], buf)
}

// The contact sheet, in the caller's buffer; `sines` is the buffer for table S.
pub fn sheet(o: Occultation, sines: &mut [u32], buf: &mut [u8]) -> Result<usize, Refusal>
    ensures answer { result ≡ sheet_answer o sines.old buf.old }
    ensures buffer { buf.new ≡ sheet_buffer o sines.old buf.old }
    ensures sines { sines.new ≡ sheet_sines o sines.old }
    ensures demand3 { Claimed o result buf.new }
{
    requests::admission::admit(o, sines)?;
    sheet_within(sines, o, buf)
}
