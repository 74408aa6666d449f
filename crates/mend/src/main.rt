// Reads a file of sheets from standard input, shorter than 196,608 bytes, and writes it mended to standard output;
// prints each dropped stretch to standard error. A longer file is refused whole: nothing is written, and standard
// error says so.
#![tactic(auto)]

ghost use Rattle.std.specs.Prelude.{◌≡◌, List, ℕ, ◌+◌, ◌≤◌, length, take, OnOk, IfSome};
ghost use Rattle.std.specs.Io.KnownBytes.{Appends};
ghost use Rattle.decimal_text.specs.Texts.{Put, Counts};
ghost use Rattle.decimal_text.specs.Rows.{each_part};
ghost use Rattle.program_io.specs.Inputs.{Read};
ghost use Rattle.mend.specs.Printed.{note_line, tooLong, output, error};

use std::io::{self, Read, Write};

// How many bytes of each buffer go out.
#[derive(Clone, Copy)]
struct Streams {
    // of the sheets' buffer, to standard output
    output: usize,
    // of the text's buffer, to standard error; more than the buffer has where the buffer is shorter than the text
    error: usize,
}

// The line of a note.
fn put_note(out: &mut [u8], at: usize, note: &[u8]) -> usize
    requires { 16 ≤ length note.now }
    ensures { Put out.old at (note_line note.now) out.new result }
{
    let start = big_endian::eight_at(note, 0);
    let length = big_endian::eight_at(note, 8);
    let word = decimal_text::put_text(out, at, b"dropped ");
    let first = decimal_text::put_number(out, word, start);
    let space = decimal_text::put_byte(out, first, b' ');
    let second = decimal_text::put_number(out, space, length);
    decimal_text::put_byte(out, second, b'\n')
}

// A line for each note.
fn put_notes(out: &mut [u8], notes: &[u8]) -> usize
    ensures { Put out.old 0 (each_part 16 note_line notes.now) out.new result }
{
    let count = notes.len() / 16;
    let mut at = 0;
    for k in 0..count {
        let from = k * 16;
        let end = from + 16;
        at = put_note(out, at, &notes[from..end]);
    }
    at
}

// That a file is too long for a buffer.
fn put_too_long(out: &mut [u8], room: usize) -> usize
    ensures { Put out.old 0 (tooLong room) out.new result }
{
    let bytes = room as u64;
    let word = decimal_text::put_text(out, 0, b"file of ");
    let number = decimal_text::put_number(out, word, bytes);
    decimal_text::put_text(out, number, b" bytes or more\n")
}

// The mended file at the start of the sheets' buffer, and the report from the start of the text's buffer on, as far
// as that reaches.
fn mended(file: &[u8], sheets: &mut [u8], notes: &mut [u8], text: &mut [u8]) -> Streams
    ensures output { take result.output sheets.new ≡ output (length sheets.old) (length notes.old) file.now }
    ensures error { Put text.old 0 (error (length sheets.old) (length notes.old) file.now) text.new result.error }
    ensures counts { Counts result.output sheets.new }
{
    if sheets.len() <= file.len() {
        let end = put_too_long(text, sheets.len());
        return Streams {
            output: 0,
            error: end,
        };
    }
    let answer = year_file::mending::mend(file, sheets, notes);
    match answer {
        Ok((kept, noted)) => {
            let end = put_notes(text, &notes[..noted]);
            Streams {
                output: kept,
                error: end,
            }
        }
        Err(refusal) => {
            let end = listing_lines::lines::put_refused(text, 0, refusal);
            Streams {
                output: 0,
                error: end,
            }
        }
    }
}

fn room() -> [u8; 196608]
    ensures { 196608 ≡ length result }
{
    [0; 196608]
}

// What the program writes of its input, of which `size` bytes were read: of the sheets' array to standard output, of
// the text's to standard error.
fn respond(
    input: &[u8; 196608],
    size: usize,
    sheets: &mut [u8; 196608],
    text: &mut [u8; 196608],
) -> Streams
    requires { Counts size input.now }
    ensures output { (s : List ℕ) → Read s input.now size → take result.output sheets.new ≡ output 196608 196608 s }
    ensures error { (s : List ℕ) → Read s input.now size → take result.error text.new ≡ take 196608 (error 196608 196608 s) }
    ensures counts { Counts result.output sheets.new × Counts result.error text.new }
{
    // a stretch and the sheet behind it have 18 bytes at least; a note has 16, and a line as many and the digits of
    // the stretch's length
    let mut notes = room();
    let all: &[u8] = input;
    let streams = mended(&all[..size], sheets, &mut notes, text);
    Streams {
        output: streams.output,
        error: decimal_text::clipped(text, streams.error),
    }
}

// Reads the input and writes the text of it to both outputs.
fn run<R: Read, O: Write, E: Write>(
    reader: &mut R,
    stdout: &mut O,
    stderr: &mut E,
) -> io::Result<()>
    ensures output { OnOk result (IfSome (R.remaining reader.old) (λ s. Appends (O.contents stdout.old) (O.contents stdout.new) (output 196608 196608 s))) }
    ensures error { OnOk result (IfSome (R.remaining reader.old) (λ s. Appends (E.contents stderr.old) (E.contents stderr.new) (take 196608 (error 196608 196608 s)))) }
{
    let mut input = room();
    let length = program_io::read_input(reader, &mut input)?;
    let mut sheets = room();
    let mut text = room();
    let streams = respond(&input, length, &mut sheets, &mut text);
    let written = streams.output;
    let reported = streams.error;
    stdout.write_all(&sheets[..written])?;
    stderr.write_all(&text[..reported])
}

fn main(rt: HostRuntime) -> io::Result<()> {
    run(&mut rt.stdin(), &mut rt.stdout(), &mut rt.stderr())
}
