// The listing of a sheet as text, as document 01 has it: a line an entry; and with clock times, altitudes and notes
// (`sky`). What a reader answers, as text, is in `extents`.
#![tactic(auto)]

pub mod extents;
pub mod sky;

ghost use Rattle.std.specs.Prelude.{◌≡◌, length};
ghost use Rattle.sheet_codec.specs.Sheets.{read_sheet};
ghost use Rattle.decimal_text.specs.Texts.{Put};
ghost use Rattle.listings.specs.Answers.{answered, room_with};
ghost use Rattle.listings.specs.Listings.{listing_of, told, timed, printed};
ghost use Rattle.listings.specs.laws.ListingLaws.{IsSheet, Laid};

use crate::sky::View;
use calendar::Instant;
use requests::Occultation;
use sheet_types::refusals::Refusal;

// The place after the lines of a sheet, and whether the body is below the horizon at every contact.
#[derive(Clone, Copy)]
struct Lines {
    end: usize,
    view: View,
}

// The lines of the sheet that `sheet` begins with, with times where the reference is an instant and altitudes where
// there is an occultation, from `start` on, as far as the buffer reaches.
fn put_lines(
    sheet: &[u8],
    out: &mut [u8],
    start: usize,
    reference: Option<Instant>,
    deltat: i64,
    sky: Option<Occultation>,
) -> Lines
    requires { IsSheet (read_sheet sheet.now) }
    ensures { Laid reference deltat sky (read_sheet sheet.now) out.old start out.new result.end result.view }
{
    let mut from = 0;
    let mut at = start;
    let mut view = View::Nothing;
    // Not a `for`: a step is as long as the record that was read, and the loop is left from within.
    loop {
        // The sheet was read before, so each record is there, and no refusal is to be passed on.
        let Ok((entry, next)) = sheet_format::records::bytes::record_at(sheet, from) else {
            return Lines { end: at, view };
        };
        let altitude = sky::altitude_for(sky, entry);
        view = sky::view_after(view, entry, altitude);
        at = listing_lines::clock::put_entry(out, at, entry, reference, deltat, altitude);
        let kind = entry.kind;
        if sheet_format::kinds::is_end(kind) {
            return Lines { end: at, view };
        }
        from = next;
    }
}

// The lines of the sheet that `sheet` begins with, where the buffer holds them.
fn lay(sheet: &[u8], out: &mut [u8]) -> Result<usize, Refusal>
    requires { IsSheet (read_sheet sheet.now) }
    ensures value { result ≡ answered (length out.old) (listing_of (read_sheet sheet.now)) }
    ensures out_after { out.new ≡ room_with (listing_of (read_sheet sheet.now)) out.old }
{
    let mut none = [0u8; 0];
    let measured = put_lines(sheet, &mut none, 0, None, 0, None);
    let need = measured.end;
    if out.len() < need {
        return Err(Refusal {
            number: 4,
            place: need,
        });
    }
    put_lines(sheet, out, 0, None, 0, None);
    Ok(need)
}

// The listing of the sheet that `sheet` is, at the buffer's start, and how long it is; or the refusal, and the buffer
// as it was.
pub fn listing(sheet: &[u8], out: &mut [u8]) -> Result<usize, Refusal>
    ensures value { result ≡ answered (length out.old) (told sheet.now) }
    ensures out_after { out.new ≡ room_with (told sheet.now) out.old }
{
    sheet_codec::decoder::extent_of_sheet(sheet)?;
    lay(sheet, out)
}

// What is printed of some bytes: the listing of the sheet that they are, with times where the reference is an
// instant, altitudes and notes where there is an occultation; or the line of their refusal. It stands at a place of
// the buffer, as far as the buffer reaches; and the place after it. `deltat` is the station's ΔT in hundredths of a
// second.
pub fn put_timed_listing(
    out: &mut [u8],
    at: usize,
    sheet: &[u8],
    reference: Option<Instant>,
    deltat: i64,
    sky: Option<Occultation>,
) -> usize
    ensures { Put out.old at (printed (timed reference deltat sky sheet.now)) out.new result }
{
    let found = sheet_codec::decoder::extent_of_sheet(sheet);
    match found {
        Err(refusal) => listing_lines::lines::put_refused(out, at, refusal),
        Ok(_) => {
            let lines = put_lines(sheet, out, at, reference, deltat, sky);
            let end = lines.end;
            let view = lines.view;
            sky::put_notes(out, end, sky, view)
        }
    }
}

// What program `listing` prints of some bytes: the same with no times.
pub fn put_listing(out: &mut [u8], at: usize, sheet: &[u8]) -> usize
    ensures { Put out.old at (printed (told sheet.now)) out.new result }
{
    put_timed_listing(out, at, sheet, None, 0, None)
}
