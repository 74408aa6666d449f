// The record of an entry: read from bytes, and put into them.
ghost use Rattle.std.specs.Prelude.{◌≡◌, ◌+◌, ◌≤◌, ◌<◌, length, ltb, true, cond};
ghost use Rattle.std.proofs.lemmas.List.Edits.{sets};
ghost use Rattle.sheet_format.specs.Kinds.{bytes_in, size_of};
ghost use Rattle.big_endian.specs.Numbers.{two_at};
ghost use Rattle.sheet_format.specs.Numbers.{number};
ghost use Rattle.sheet_format.specs.RecordEntries.{bytes};
ghost use Rattle.sheet_format.specs.laws.Bodies.{field_a, field_b, field_c, field_d};
ghost use Rattle.sheet_format.specs.Records.{byte_at, bodyAt, record_at};

use crate::kinds::{Entry, Kind, Width};
use sheet_types::refusals::Refusal;

// ---- reading

// The byte at `at`, if the input reaches so far.
pub fn byte_at(s: &[u8], at: usize) -> Option<u32>
    ensures { result ≡ byte_at s.now at }
{
    if at < s.len() {
        let byte = big_endian::wide(s[at]);
        return Some(byte);
    }
    None
}

// The number of two bytes at `at` if it is there, else 0.
fn two_if(s: &[u8], at: usize, there: bool) -> u32
    requires { there ≡ true → at + 2 ≤ length s.now }
    ensures { (result ≡ cond there (two_at s.now at) 0) × (result < 65536) }
{
    if there { big_endian::two_at(s, at) } else { 0 }
}

// The fields of a kind from the four numbers of two bytes that follow its byte, x, y, z and w; `early` is x and y as
// one, `wide` y and z.
fn field_a(kind: Kind, x: u32, early: u32) -> u32
    ensures { result ≡ field_a kind x early }
{
    match kind {
        Kind::Head => x,
        Kind::Enter(_) => x,
        Kind::Leave(_) => x,
        Kind::Graze(_) => x,
        Kind::Open(_) => x,
        Kind::Closest => x,
        Kind::Share => early,
        Kind::End => 0,
    }
}

fn field_b(kind: Kind, y: u32, wide: u32) -> u32
    ensures { result ≡ field_b kind y wide }
{
    match kind {
        Kind::Head => y,
        Kind::Enter(_) => y,
        Kind::Leave(_) => y,
        Kind::Graze(_) => y,
        Kind::Open(_) => y,
        Kind::Closest => wide,
        Kind::Share => 0,
        Kind::End => 0,
    }
}

fn field_c(kind: Kind, z: u32) -> u32
    ensures { result ≡ field_c kind z }
{
    match kind {
        Kind::Head => z,
        Kind::Enter(_) => z,
        Kind::Leave(_) => z,
        Kind::Graze(_) => 0,
        Kind::Open(_) => 0,
        Kind::Closest => 0,
        Kind::Share => 0,
        Kind::End => 0,
    }
}

fn field_d(kind: Kind, w: u32) -> u32
    ensures { result ≡ field_d kind w }
{
    match kind {
        Kind::Head => w,
        Kind::Enter(_) => 0,
        Kind::Leave(_) => 0,
        Kind::Graze(_) => 0,
        Kind::Open(_) => 0,
        Kind::Closest => 0,
        Kind::Share => 0,
        Kind::End => 0,
    }
}

// Whether so many bytes are too few for a record of that kind. None has more than 9.
fn is_cut(left: usize, kind: Kind) -> bool
    ensures { result ≡ ltb left (size_of kind) }
{
    if 9 <= left {
        return false;
    }
    left < crate::kinds::size_of(kind)
}

// The entry of that kind whose record is at `at`, if the input does not end inside it. What is read depends on how
// much is left, and only its meaning on the kind: so kinds in no pattern cost no branch. It is for crates that go
// along a sheet, and has a `requires`, so it is none of the public promises.
pub fn body_at(s: &[u8], at: usize, kind: Kind) -> Option<Entry>
    requires { at < length s.now }
    ensures { result ≡ bodyAt kind s.now at }
{
    let left = s.len() - at;
    if is_cut(left, kind) {
        return None;
    }
    let at_a = at + 1;
    let at_b = at_a + 2;
    let at_c = at_b + 2;
    let at_d = at_c + 2;
    let x = two_if(s, at_a, 5 <= left);
    let y = two_if(s, at_b, 5 <= left);
    let z = two_if(s, at_c, 7 <= left);
    let w = two_if(s, at_d, 9 <= left);
    let a = field_a(kind, x, x * 65536 + y);
    let b = field_b(kind, y, y * 65536 + z);
    let c = field_c(kind, z);
    let d = field_d(kind, w);
    Some(Entry { kind, a, b, c, d })
}

// The record at `at`: its entry and the place after it; or 5 or 6.
pub fn record_at(s: &[u8], at: usize) -> Result<(Entry, usize), Refusal>
    ensures { result ≡ record_at s.now at }
{
    let Some(code) = byte_at(s, at) else {
        return Err(Refusal {
            number: 6,
            place: s.len(),
        });
    };
    let Some(kind) = crate::kinds::kind_for(code) else {
        return Err(Refusal {
            number: 5,
            place: at,
        });
    };
    let Some(entry) = body_at(s, at, kind) else {
        return Err(Refusal {
            number: 6,
            place: at,
        });
    };
    let next = at + crate::kinds::size_of(kind);
    Ok((entry, next))
}

// ---- writing

// A number of that width at `at`; the place after it.
fn put_number(buf: &mut [u8], at: usize, width: Width, v: u32) -> usize
    requires { at + bytes_in width ≤ length buf.old }
    ensures { (result ≡ at + bytes_in width) × (buf.new ≡ sets buf.old at (number width v)) }
{
    match width {
        Width::Absent => at,
        Width::Two => {
            big_endian::put_two(buf, at, v);
            at + 2
        }
        Width::Four => {
            big_endian::put_four(buf, at, v);
            at + 4
        }
    }
}

// An entry's record at `at`, where it fits; the place after it. It is for crates that write a sheet of their own, and
// has a `requires`, so it is none of the public promises.
pub fn put(buf: &mut [u8], at: usize, entry: Entry) -> usize
    requires { at + size_of entry.kind ≤ length buf.old }
    ensures { (result ≡ at + size_of entry.kind) × (buf.new ≡ sets buf.old at (bytes entry)) }
{
    let kind = entry.kind;
    let w = crate::kinds::widths_of(kind);
    let wa = w.a;
    let wb = w.b;
    let wc = w.c;
    let wd = w.d;
    let code = crate::kinds::code_of(kind);
    buf[at] = code as u8;
    let at_b = put_number(buf, at + 1, wa, entry.a);
    let at_c = put_number(buf, at_b, wb, entry.b);
    let at_d = put_number(buf, at_c, wc, entry.c);
    put_number(buf, at_d, wd, entry.d)
}
