// Reads hourly rows of Sun and Moon from standard input, six whole numbers a line: the Sun's x, y, z and the Moon's
// x, y, z in 10^-8 of the Earth's equatorial radius. `#` starts a comment. After each seven rows it prints their
// values, a line a row: x, y, sin d, cos d, tan f1, tan f2, l1, l2; or `refused`, number and place. It reports the
// first invalid line on standard error and stops reading.
#![tactic(auto)]

mod text;
pub mod typed_rows;

ghost use Rattle.std.specs.Prelude.{◌≡◌, List, ℕ, ◌≤◌, length, take, OnOk, IfSome};
ghost use Rattle.std.specs.Io.KnownBytes.{Appends};
ghost use Rattle.decimal_text.specs.Texts.{Put, Counts};
ghost use Rattle.program_io.specs.Inputs.{Read};
ghost use Rattle.table_elements.specs.Printed.{printed};
ghost use Rattle.table_elements.specs.PrintedLaws.{whole_text, rows_after, whole, output_of, error_of};

use crate::typed_rows::Fault;
use std::io::{self, Read, Write};
use tokens::Class;

// How far a text was read, and how many bytes its tables take.
#[derive(Clone, Copy)]
pub enum Extent {
    Whole {
        output: usize,
    },
    // up to the first fault
    Faulty {
        output: usize,
        line: usize,
        fault: Fault,
    },
}

// How many bytes go to standard output, and to standard error.
#[derive(Clone, Copy)]
struct Streams {
    output: usize,
    error: usize,
}

// ---- what is written

fn table() -> [i64; 42]
    ensures { 42 ≡ length result }
{
    [0; 42]
}

// What a line adds: a table, where it is its seventh row. It takes the whole Result, as its clause does, and so does
// `rows_after`.
fn put_whole(
    out: &mut [u8],
    at: usize,
    said: Result<bool, Fault>,
    row: usize,
    numbers: &[i64; 42],
) -> usize
    ensures { Put out.old at (whole_text said row numbers.now) out.new result }
{
    match said {
        Ok(false) => at,
        Err(_) => at,
        Ok(true) => {
            if row == 6 {
                return text::put_table(out, at, numbers);
            }
            at
        }
    }
}

// The rows of this table after a line.
fn rows_after(said: Result<bool, Fault>, row: usize) -> usize
    requires { row ≤ 6 }
    ensures { result ≡ rows_after said row }
{
    match said {
        Ok(false) => row,
        Err(_) => row,
        Ok(true) => {
            if row == 6 {
                return 0;
            }
            row + 1
        }
    }
}

// The text of all tables, or of those before the first fault; and which that is.
fn put_tables(text: &[u8], out: &mut [u8]) -> Extent
    requires { length text.now ≤ 65536 }
    ensures put { Put out.old 0 (whole text.now).output out.new (output_of result) }
    ensures text_value { (whole text.now).error ≡ error_of result }
{
    let mut numbers = table();
    let mut output = 0;
    let mut row = 0;
    let mut line = 1;
    let mut from = 0;
    // `tokens::run` cuts a line off: a `split` would take a closure that says once more what the class `Line` is.
    while from <= text.len() {
        let length = tokens::run(&text[from..], Class::Line);
        let end = from + length;
        let said = crate::typed_rows::read_line(&text[from..end], &mut numbers, 6 * row);
        // No `?`: an `Extent` has the length of the output on a fault too.
        if let Err(fault) = said {
            return Extent::Faulty {
                output,
                line,
                fault,
            };
        }
        output = put_whole(out, output, said, row, &numbers);
        row = rows_after(said, row);
        line += 1;
        from = end + 1;
    }
    if row == 0 {
        return Extent::Whole { output };
    }
    let fault = Fault::Unfinished;
    Extent::Faulty {
        output,
        line,
        fault,
    }
}

// The text of the tables, and the first fault.
fn put_streams(text: &[u8], out: &mut [u8], message: &mut [u8]) -> Streams
    ensures put { Put out.old 0 (printed text.now).output out.new result.output }
    ensures put_2 { Put message.old 0 (printed text.now).error message.new result.error }
{
    if 65536 < text.len() {
        let error = decimal_text::put_text(message, 0, b"the text has more than 65,536 bytes\n");
        return Streams { output: 0, error };
    }
    let read = put_tables(text, out);
    match read {
        Extent::Whole { output } => Streams { output, error: 0 },
        Extent::Faulty {
            output,
            line,
            fault,
        } => {
            let error = text::put_fault(message, line, fault);
            Streams { output, error }
        }
    }
}

// What the program writes of its input, of which `size` bytes were read: of the lines' array to standard output, of the
// message's to standard error. The text's array has a byte more than is taken, so that a longer text is seen. An
// accepted row takes 33 bytes at least, and its line 78 at most.
fn respond(
    text: &[u8; 65537],
    size: usize,
    lines: &mut [u8; 160000],
    message: &mut [u8; 128],
) -> Streams
    requires { Counts size text.now }
    ensures output { (s : List ℕ) → Read s text.now size → take result.output lines.new ≡ take 160000 (printed s).output }
    ensures error { (s : List ℕ) → Read s text.now size → take result.error message.new ≡ take 128 (printed s).error }
    ensures counts { Counts result.output lines.new × Counts result.error message.new }
{
    let all: &[u8] = text;
    let streams = put_streams(&all[..size], lines, message);
    Streams {
        output: decimal_text::clipped(lines, streams.output),
        error: decimal_text::clipped(message, streams.error),
    }
}

// Fixed arrays, with how much of them is in use beside them, as programs here use no heap.
fn text_room() -> [u8; 65537] {
    [0; 65537]
}

fn lines_room() -> [u8; 160000] {
    [0; 160000]
}

// Reads the input and writes the text of it to both outputs.
fn run<R: Read, O: Write, E: Write>(
    reader: &mut R,
    stdout: &mut O,
    stderr: &mut E,
) -> io::Result<()>
    ensures output { OnOk result (IfSome (R.remaining reader.old) (λ s. Appends (O.contents stdout.old) (O.contents stdout.new) (take 160000 (printed s).output))) }
    ensures error { OnOk result (IfSome (R.remaining reader.old) (λ s. Appends (E.contents stderr.old) (E.contents stderr.new) (take 128 (printed s).error))) }
{
    let mut text = text_room();
    let length = program_io::read_input(reader, &mut text)?;
    let mut lines = lines_room();
    let mut message = [0u8; 128];
    let streams = respond(&text, length, &mut lines, &mut message);
    let written = streams.output;
    let reported = streams.error;
    stdout.write_all(&lines[..written])?;
    stderr.write_all(&message[..reported])
}

fn main(rt: HostRuntime) -> io::Result<()> {
    run(&mut rt.stdin(), &mut rt.stdout(), &mut rt.stderr())
}
