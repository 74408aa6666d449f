// Sheets: records one after the other, by the rules of document 01; read from bytes here, written from entries in
// `encoder`. An entry handed over, or given to a reader's caller, is five numbers: the kind, then the kind's
// fields in their order, 0 for what it does not use.
ghost use Rattle.std.specs.Prelude.{◌≡◌, [], ◌∷◌, ◌+◌, ◌*◌, ◌≤◌, length};
ghost use Rattle.std.proofs.lemmas.List.Edits.{sets};
ghost use Rattle.sheet_codec.specs.Sheets.{extent_of, read_sheet, read_whole, read_into, room_after};
ghost use Rattle.sheet_codec.specs.laws.Passes.{RoomFor, filled};

use sheet_format::kinds::Entry;
use sheet_rules::rules::{FieldRule, OrderRule};
use sheet_types::refusals::Refusal;

// How many entries, head and end among them, and how many bytes the sheet has that `s` begins with, whatever stands
// after it; or its refusal, of 5 to 8.
pub fn extent_of_leading_sheet(s: &[u8]) -> Result<(usize, usize), Refusal>
    ensures { result ≡ extent_of (read_sheet s.now) }
{
    let mut p = sheet_rules::rules::begun();
    let mut at = 0;
    let mut n = 0;
    // Not a `for`: a step is as long as the record that was read, and the loop is left from within.
    loop {
        // Each answer is taken apart by `let .. else`, the form that DECISIONS has for "in it 5, 6, 8, 7. Each is
        // given then".
        let Some(code) = sheet_format::records::bytes::byte_at(s, at) else {
            return Err(Refusal {
                number: 6,
                place: s.len(),
            });
        };
        let Some(kind) = sheet_format::kinds::kind_for(code) else {
            return Err(Refusal {
                number: 5,
                place: at,
            });
        };
        let Some(entry) = sheet_format::records::bytes::body_at(s, at, kind) else {
            return Err(Refusal {
                number: 6,
                place: at,
            });
        };
        let OrderRule::Kept = sheet_rules::rules::order_of(p, entry) else {
            return Err(Refusal {
                number: 8,
                place: at,
            });
        };
        // An entry that is read is plain.
        let FieldRule::Kept = sheet_rules::rules::fields_of(p, true, entry) else {
            return Err(Refusal {
                number: 7,
                place: at,
            });
        };
        let next = at + sheet_format::kinds::size_for(code, kind);
        if sheet_format::kinds::is_end(kind) {
            let count = n + 1;
            return Ok((count, next));
        }
        p = sheet_rules::rules::after(p, entry);
        at = next;
        n += 1;
    }
}

// The same for a sheet that is all of `s`: 9 where bytes follow it.
pub fn extent_of_sheet(s: &[u8]) -> Result<(usize, usize), Refusal>
    ensures { result ≡ extent_of (read_whole s.now) }
{
    let (entries, end) = extent_of_leading_sheet(s)?;
    if end < s.len() {
        return Err(Refusal {
            number: 9,
            place: end,
        });
    }
    Ok((entries, end))
}

// The five numbers of an entry at `at`.
fn put_numbers(room: &mut [u32], at: usize, code: u32, entry: Entry)
    requires { at + 5 ≤ length room.old }
    ensures { room.new ≡ sets room.old at (code ∷ entry.a ∷ entry.b ∷ entry.c ∷ entry.d ∷ []) }
{
    room[at] = code;
    room[at + 1] = entry.a;
    room[at + 2] = entry.b;
    room[at + 3] = entry.c;
    room[at + 4] = entry.d;
}

// The entries of the sheet that `s` begins with, into a buffer that holds them. It reads what `extent_of_leading_sheet`
// has read and asks no rule again: one loop for both would have to be told by a closure which rules to ask.
fn read_entries(s: &[u8], room: &mut [u32])
    requires { RoomFor (read_sheet s.now) (length room.old) }
    ensures { room.new ≡ filled (read_sheet s.now) room.old }
{
    let mut at = 0;
    let mut n = 0;
    // Not a `for`: a step is as long as the record that was read, and the loop is left from within.
    loop {
        let Some(code) = sheet_format::records::bytes::byte_at(s, at) else {
            return;
        };
        let Some(kind) = sheet_format::kinds::kind_for(code) else {
            return;
        };
        let Some(entry) = sheet_format::records::bytes::body_at(s, at, kind) else {
            return;
        };
        let place = n * 5;
        put_numbers(room, place, code, entry);
        if sheet_format::kinds::is_end(kind) {
            return;
        }
        at += sheet_format::kinds::size_for(code, kind);
        n += 1;
    }
}

// Reads a sheet: its entries, five numbers each, into the buffer, and how many they are and the sheet's bytes; or the
// refusal, and the buffer as it was. It is 4 where the buffer is too short.
pub fn read(s: &[u8], room: &mut [u32]) -> Result<(usize, usize), Refusal>
    ensures value { result ≡ read_into (length room.old) (read_whole s.now) }
    ensures room_after { room.new ≡ room_after (read_whole s.now) room.old }
{
    let (entries, length) = extent_of_sheet(s)?;
    if room.len() / 5 < entries {
        return Err(Refusal {
            number: 4,
            place: entries,
        });
    }
    read_entries(s, room);
    Ok((entries, length))
}
