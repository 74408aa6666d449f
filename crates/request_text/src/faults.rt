// The message of a typed request that is refused: the line, and what is wrong with it. A `put_` function stores a
// text at a place of a buffer, as far as the buffer reaches, and gives the place after it (`decimals`).
ghost use Rattle.std.specs.Prelude.{◌≡◌, ◌++◌};
ghost use Rattle.decimal_text.specs.Texts.{letters, Put};
ghost use Rattle.request_text.specs.Messages.{line_of, word_of, name_at, fault_text, message_of};

use crate::{Fault, lines};
use request_format::fields::Shape;
use tokens::Class;

// The name of a field.
fn put_name(out: &mut [u8], at: usize, shape: Shape, field: usize) -> usize
    ensures { Put out.old at (name_at shape field) out.new result }
{
    let count = request_format::fields::count_of(shape);
    if count <= field {
        return at;
    }
    let row = request_format::fields::field_at(shape, field);
    let name = row.0;
    let letters = row.1;
    decimal_text::put_text(out, at, &name[..letters])
}

// The name of a field, and what is wrong with it.
fn put_of(out: &mut [u8], at: usize, shape: Shape, field: usize, wrong: &[u8]) -> usize
    ensures { Put out.old at (name_at shape field ++ wrong.now) out.new result }
{
    let next = put_name(out, at, shape, field);
    decimal_text::put_text(out, next, wrong)
}

// A line of the text, counted from 1; one that it does not have is empty.
fn line_of(text: &[u8], line: usize) -> &[u8]
    ensures { result.now ≡ line_of text.now line }
{
    lines::of(text)
        .nth(line.saturating_sub(1))
        .unwrap_or(&text[..0])
}

// A name that no field has: the first word of a line.
fn put_unknown(out: &mut [u8], at: usize, line: &[u8]) -> usize
    ensures { Put out.old at (letters "unknown name " ++ word_of line.now) out.new result }
{
    let next = decimal_text::put_text(out, at, b"unknown name ");
    let said = crate::said(line);
    let letters = tokens::run(said, Class::Word);
    decimal_text::put_text(out, next, &said[..letters])
}

// What is wrong with a line.
fn put_fault(out: &mut [u8], at: usize, shape: Shape, line: &[u8], fault: Fault) -> usize
    ensures { Put out.old at (fault_text shape fault line.now) out.new result }
{
    match fault {
        Fault::Unknown => put_unknown(out, at, line),
        Fault::NotNumber(field) => put_of(out, at, shape, field, b" is not a number"),
        Fault::NotWhole(field) => put_of(
            out,
            at,
            shape,
            field,
            b" has too many decimals for a whole number of units",
        ),
        Fault::Unfit(field) => put_of(out, at, shape, field, b" is too large for its bytes"),
        Fault::Twice(field) => put_of(out, at, shape, field, b" is given twice"),
        Fault::Missing(field) => put_of(out, at, shape, field, b" is missing"),
    }
}

// The message of a fault in a line of the text, which is read as a request of the shape.
pub fn put_message(
    out: &mut [u8],
    at: usize,
    shape: Shape,
    text: &[u8],
    line: usize,
    fault: Fault,
) -> usize
    ensures { Put out.old at (message_of shape text.now line fault) out.new result }
{
    let number = decimal_text::put_text(out, at, b"line ");
    let colon = decimal_text::put_number(out, number, line as u64);
    let wrong = decimal_text::put_text(out, colon, b": ");
    let end = put_fault(out, wrong, shape, line_of(text, line), fault);
    decimal_text::put_byte(out, end, b'\n')
}
