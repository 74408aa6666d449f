// The line of an entry, and of a refusal. A `put_` function stores it at a place of a buffer, as far as the buffer
// reaches, and gives the place after it (`decimals`). Not `Display`: by `Put`, which each promises, a text may be cut
// at the end of the buffer and its length is still given.
ghost use Rattle.decimal_text.specs.Texts.{letters, Put};
ghost use Rattle.listing_lines.specs.Lines.{name_of, head_line, contact_line, unsure_line, closest_line, share_line, text_of, end_for, line_of, numbered, refusal_text, refusal_line};

use sheet_format::kinds::{Entry, Kind};
use sheet_types::phases::Phase;
use sheet_types::refusals::Refusal;

fn put_phase(out: &mut [u8], at: usize, phase: Phase) -> usize
    ensures { Put out.old at (letters (name_of phase)) out.new result }
{
    match phase {
        Phase::Penumbra => decimal_text::put_text(out, at, b"penumbra"),
        Phase::Central => decimal_text::put_text(out, at, b"central"),
        Phase::Star => decimal_text::put_text(out, at, b"star"),
    }
}

// "a head line"
fn put_head(out: &mut [u8], at: usize, station: u32, first: u32, last: u32) -> usize
    ensures { Put out.old at (head_line station first last) out.new result }
{
    let number = station as i64;
    let from = sheet_format::kinds::seconds::second_of(first);
    let to = sheet_format::kinds::seconds::second_of(last);
    let numbers = [number, from, to];
    decimal_text::put_filled(out, at, b"station # from # to #", &numbers)
}

// An enter or a leave: "each entry with from, to, direction".
fn put_contact(
    out: &mut [u8],
    at: usize,
    word: &[u8],
    phase: Phase,
    from: u32,
    to: u32,
    direction: u32,
) -> usize
    ensures { Put out.old at (contact_line word.now phase from to direction) out.new result }
{
    let name = decimal_text::put_text(out, at, word);
    let next = put_phase(out, name, phase);
    let start = sheet_format::kinds::seconds::second_of(from);
    let end = sheet_format::kinds::seconds::second_of(to);
    let angle = direction as i64;
    let numbers = [start, end, angle];
    decimal_text::put_filled(out, next, b" # # #", &numbers)
}

// A graze or an open: "with no direction".
fn put_unsure(out: &mut [u8], at: usize, word: &[u8], phase: Phase, from: u32, to: u32) -> usize
    ensures { Put out.old at (unsure_line word.now phase from to) out.new result }
{
    let name = decimal_text::put_text(out, at, word);
    let next = put_phase(out, name, phase);
    let start = sheet_format::kinds::seconds::second_of(from);
    let end = sheet_format::kinds::seconds::second_of(to);
    let numbers = [start, end];
    decimal_text::put_filled(out, next, b" # #", &numbers)
}

// "last the closest second with magnitude"
fn put_closest(out: &mut [u8], at: usize, second: u32, magnitude: u32) -> usize
    ensures { Put out.old at (closest_line second magnitude) out.new result }
{
    let when = sheet_format::kinds::seconds::second_of(second);
    let millionths = magnitude as i64;
    let numbers = [when, millionths];
    decimal_text::put_filled(out, at, b"closest # #", &numbers)
}

// The covered share in millionths.
fn put_share(out: &mut [u8], at: usize, share: u32) -> usize
    ensures { Put out.old at (share_line share) out.new result }
{
    let millionths = share as i64;
    let numbers = [millionths];
    decimal_text::put_filled(out, at, b"share #", &numbers)
}

// The text of an entry's line, without its end. A new kind is an arm here and a row of `text_for`.
pub fn put_entry_text(out: &mut [u8], at: usize, entry: Entry) -> usize
    ensures { Put out.old at (text_of entry) out.new result }
{
    let kind = entry.kind;
    let a = entry.a;
    let b = entry.b;
    let c = entry.c;
    match kind {
        Kind::Head => put_head(out, at, a, b, c),
        Kind::Enter(phase) => put_contact(out, at, b"enter ", phase, a, b, c),
        Kind::Leave(phase) => put_contact(out, at, b"leave ", phase, a, b, c),
        Kind::Graze(phase) => put_unsure(out, at, b"graze ", phase, a, b),
        Kind::Open(phase) => put_unsure(out, at, b"open ", phase, a, b),
        Kind::Closest => put_closest(out, at, a, b),
        Kind::Share => put_share(out, at, a),
        Kind::End => at,
    }
}

// The end of a kind's line; the end record has no line.
pub fn put_end(out: &mut [u8], at: usize, kind: Kind) -> usize
    ensures { Put out.old at (end_for kind) out.new result }
{
    if sheet_format::kinds::is_end(kind) {
        return at;
    }
    decimal_text::put_byte(out, at, b'\n')
}

// The line of an entry.
pub fn put_entry(out: &mut [u8], at: usize, entry: Entry) -> usize
    ensures { Put out.old at (line_of entry) out.new result }
{
    let end = put_entry_text(out, at, entry);
    let kind = entry.kind;
    put_end(out, end, kind)
}

// A word and two numbers.
pub fn put_numbered(out: &mut [u8], at: usize, word: &[u8], x: u64, y: u64) -> usize
    ensures { Put out.old at (numbered word.now x y) out.new result }
{
    let first = decimal_text::put_text(out, at, word);
    let middle = decimal_text::put_number(out, first, x);
    let second = decimal_text::put_byte(out, middle, b' ');
    decimal_text::put_number(out, second, y)
}

// "A refusal prints `refused`, number, place.", without the end of its line.
pub fn put_refusal(out: &mut [u8], at: usize, number: u64, place: u64) -> usize
    ensures { Put out.old at (refusal_text number place) out.new result }
{
    put_numbered(out, at, b"refused ", number, place)
}

// The same as a line of its own.
fn put_refusal_line(out: &mut [u8], at: usize, number: u64, place: u64) -> usize
    ensures { Put out.old at (refusal_line number place) out.new result }
{
    let end = put_refusal(out, at, number, place);
    decimal_text::put_byte(out, end, b'\n')
}

// The same of a refusal.
pub fn put_refused(out: &mut [u8], at: usize, refusal: Refusal) -> usize
    ensures { Put out.old at (refusal_line refusal.number refusal.place) out.new result }
{
    let number = refusal.number as u64;
    let place = refusal.place as u64;
    put_refusal_line(out, at, number, place)
}
