// A list of entries handed over: the sheet it makes by the rules of document 01, and its writing.
ghost use Rattle.std.specs.Prelude.{◌≡◌, ◌*◌, ◌≤◌, length};
ghost use Rattle.sheet_codec.specs.Sheets.{extent_of};
ghost use Rattle.sheet_codec.specs.Handed.{handed_at, list_sheet, list_whole, write_into, buffer_after_list};
ghost use Rattle.sheet_codec.specs.laws.Passes.{refused_of, BufferFor, emitted};

use sheet_format::kinds::Entry;
use sheet_rules::rules::{FieldRule, OrderRule};
use sheet_types::refusals::Refusal;

// A record's refusal, passed on.
fn refused(given: Result<(Entry, usize), Refusal>) -> Result<(usize, usize), Refusal>
    ensures { result ≡ refused_of given }
{
    match given {
        Ok((_, next)) => Err(Refusal {
            number: 6,
            place: next,
        }),
        Err(refusal) => Err(refusal),
    }
}

// The n-th entry of a list, whose record stands at `at`, and the place after it; or 5 or 6.
fn handed_at(l: &[u32], n: usize, at: usize) -> Result<(Entry, usize), Refusal>
    requires { (n * 5 ≤ length l.now) × (at ≤ n * 17) }
    ensures { result ≡ handed_at l.now n at }
{
    let j = n * 5;
    let left = l.len() - j;
    if left < 5 {
        return Err(Refusal {
            number: 6,
            place: at,
        });
    }
    let code = l[j];
    let Some(kind) = sheet_format::kinds::kind_for(code) else {
        return Err(Refusal {
            number: 5,
            place: at,
        });
    };
    let a = l[j + 1];
    let b = l[j + 2];
    let c = l[j + 3];
    let d = l[j + 4];
    let next = at + sheet_format::kinds::size_of(kind);
    let entry = Entry { kind, a, b, c, d };
    Ok((entry, next))
}

// How many entries, head and end among them, and how many bytes the sheet has that the list begins with; or its
// refusal, of 5 to 8.
pub fn extent_of_leading_entries(l: &[u32]) -> Result<(usize, usize), Refusal>
    ensures { result ≡ extent_of (list_sheet l.now) }
{
    let mut p = sheet_rules::rules::begun();
    let mut place = 0;
    let mut n = 0;
    // Not a `for`: a step is as long as the record that was read, and the loop is left from within.
    loop {
        // Each answer is taken apart by `let .. else`, as in `decoder`.
        let given = handed_at(l, n, place);
        let Ok((entry, next)) = given else {
            return refused(given);
        };
        let OrderRule::Kept = sheet_rules::rules::order_of(p, entry) else {
            return Err(Refusal { number: 8, place });
        };
        let plain = sheet_format::kinds::is_plain(entry);
        let FieldRule::Kept = sheet_rules::rules::fields_of(p, plain, entry) else {
            return Err(Refusal { number: 7, place });
        };
        let kind = entry.kind;
        if sheet_format::kinds::is_end(kind) {
            let handed = n + 1;
            return Ok((handed, next));
        }
        p = sheet_rules::rules::after(p, entry);
        place = next;
        n += 1;
    }
}

// The same for a sheet that is all of the list: 9 where numbers follow it.
pub fn extent_of_entries(l: &[u32]) -> Result<(usize, usize), Refusal>
    ensures { result ≡ extent_of (list_whole l.now) }
{
    let (entries, length) = extent_of_leading_entries(l)?;
    let held = (l.len() + 4) / 5;
    if entries < held {
        return Err(Refusal {
            number: 9,
            place: length,
        });
    }
    Ok((entries, length))
}

// The sheet of the entries that the list begins with, into a buffer that holds it.
fn write_records(l: &[u32], buf: &mut [u8])
    requires { BufferFor (list_sheet l.now) (length buf.old) }
    ensures { buf.new ≡ emitted (list_sheet l.now) buf.old }
{
    let mut at = 0;
    let mut n = 0;
    // Not a `for`: a step is as long as the record that was read, and the loop is left from within.
    loop {
        let Ok((entry, _)) = handed_at(l, n, at) else {
            return;
        };
        at = sheet_format::records::bytes::put(buf, at, entry);
        let kind = entry.kind;
        if sheet_format::kinds::is_end(kind) {
            return;
        }
        n += 1;
    }
}

// Writes the sheet of a list of entries at the buffer's start, and says how many entries and bytes it has; or the
// refusal, and the buffer as it was. It is 4 where the buffer is too short.
pub fn write(l: &[u32], buf: &mut [u8]) -> Result<(usize, usize), Refusal>
    ensures value { result ≡ write_into (length buf.old) (list_whole l.now) }
    ensures buf_after { buf.new ≡ buffer_after_list (list_whole l.now) buf.old }
{
    let (entries, length) = extent_of_entries(l)?;
    if buf.len() < length {
        return Err(Refusal {
            number: 4,
            place: length,
        });
    }
    write_records(l, buf);
    Ok((entries, length))
}
