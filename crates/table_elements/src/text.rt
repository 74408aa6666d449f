// What is written of a table, and of a fault. A `put_` function stores it at a place of a buffer, as far as the
// buffer reaches, and gives the place after it (`decimals`).
ghost use Rattle.std.specs.Prelude.{◌≡◌, length};
ghost use Rattle.decimal_text.specs.Texts.{Put};
ghost use Rattle.table_elements.specs.Printed.{values_text, table_text, message_of, fault_line};

use crate::typed_rows::Fault;

// The values of seven rows, a line a row.
fn put_values(out: &mut [u8], at: usize, values: &[i64; 56]) -> usize
    ensures { Put out.old at (values_text values.now) out.new result }
{
    decimal_text::put_filled(
        out,
        at,
        b"# # # # # # # #\n# # # # # # # #\n# # # # # # # #\n# # # # # # # #\n# # # # # # # #\n# # # # # # # #\n# # # # # # # #\n",
        values,
    )
}

fn room() -> [i64; 56]
    ensures { 56 ≡ length result }
{
    [0; 56]
}

// The values of a table, or its refusal.
pub fn put_table(out: &mut [u8], at: usize, numbers: &[i64; 42]) -> usize
    ensures { Put out.old at (table_text numbers.now) out.new result }
{
    let mut values = room();
    let answer = besselian_rows::tables::elements(numbers, &mut values);
    match answer {
        Ok(()) => put_values(out, at, &values),
        Err(refusal) => listing_lines::lines::put_refused(out, at, refusal),
    }
}

// No `Display`: the clause has the text to the byte, as far as the fixed buffer reaches (`Put`).
fn put_message(out: &mut [u8], at: usize, fault: Fault) -> usize
    ensures { Put out.old at (message_of fault) out.new result }
{
    match fault {
        Fault::NotWhole => decimal_text::put_text(out, at, b": not a whole number\n"),
        Fault::TooLarge => decimal_text::put_text(
            out,
            at,
            b": a number is too large for 64 bits\n",
        ),
        Fault::More => decimal_text::put_text(out, at, b": more than six numbers\n"),
        Fault::Fewer => decimal_text::put_text(out, at, b": fewer than six numbers\n"),
        Fault::Unfinished => decimal_text::put_text(
            out,
            at,
            b": the last table has fewer than seven rows\n",
        ),
    }
}

// A fault, after the number of its line.
pub fn put_fault(out: &mut [u8], line: usize, fault: Fault) -> usize
    ensures { Put out.old 0 (fault_line line fault) out.new result }
{
    let first = decimal_text::put_text(out, 0, b"line ");
    let next = decimal_text::put_number(out, first, line as u64);
    put_message(out, next, fault)
}
