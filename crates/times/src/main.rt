// Reads a typed request from standard input, as `request` does, and prints the listing of its sheet with altitudes
// and notes; where the text has an instant, with clock times (docs/CLOCK.md). A refusal is printed as `sheet` prints
// it; the first invalid line is reported on standard error.
#![tactic(auto)]

ghost use Rattle.std.specs.Prelude.{List, ℕ, take, OnOk, IfSome};
ghost use Rattle.std.specs.Io.KnownBytes.{Appends};
ghost use Rattle.decimal_text.specs.Texts.{Put, Counts, Copies};
ghost use Rattle.program_io.specs.Inputs.{Read};
ghost use Rattle.program_io.specs.Outputs.{Sent};
ghost use Rattle.request_text.specs.Meaning.{error_of};
ghost use Rattle.times.specs.Printed.{text_by, output_of};

use answers::{put_timed_answer, put_timed_star_answer};
use calendar::Instant;
use program_io::{ERROR, OUTPUT, Text};
use request_format::fields::{LENGTH, STAR_LENGTH};
use request_text::typed_requests::MESSAGE;
use std::io::{self, Read, Write};

// As many bytes for the sheet as program `sheet` has.
fn sheet_room() -> [u8; 65536]
    ensures { Copies 0 65536 result }
{
    [0; 65536]
}

// Table S.
fn sines_room() -> [u32; 901]
    ensures { Copies 0 901 result }
{
    [0; 901]
}

fn message_room() -> [u8; MESSAGE] {
    [0; MESSAGE]
}

// The answer to a request's bytes, a star's by their number. Times are shown where there is an instant.
fn put_text(
    request: &[u8],
    reference: Option<Instant>,
    sines: &mut [u32],
    room: &mut [u8],
    out: &mut [u8],
) -> usize
    ensures { Put out.old 0 (text_by reference request.now sines.old room.old) out.new result }
{
    if request.len() == STAR_LENGTH {
        return put_timed_star_answer(request, reference, sines, room, out);
    }
    put_timed_answer(request, reference, sines, room, out)
}

// What the program writes of its input, of which `length` bytes were read, and the output that it goes to: the listing
// or the refusal of a typed request, or what is wrong with the text. The text's array has a byte more than is taken, so
// that a longer text is seen. A listing has 151 bytes at most for 5 bytes of a sheet, and the lines of head, instant,
// closest and notes.
fn respond(text: &[u8; 65537], length: usize, out: &mut [u8; 2000000]) -> Text
    requires { Counts length text.now }
    ensures text { (s : List ℕ) → Read s text.now length → Sent result.descriptor (take result.length out.new) (take 2000000 (output_of s)) (take 2000000 (error_of s)) }
    ensures counts { Counts result.length out.new }
{
    let all: &[u8] = text;
    let mut sines = sines_room();
    let mut room = sheet_room();
    let mut bytes = [0u8; LENGTH];
    let mut message = message_room();
    let answer = request_text::typed_requests::read(&all[..length], &mut bytes, &mut message);
    match answer {
        Ok((size, reference)) => {
            let end = put_text(&bytes[..size], reference, &mut sines, &mut room, out);
            Text {
                descriptor: OUTPUT,
                length: decimal_text::clipped(out, end),
            }
        }
        Err(size) => {
            let told = decimal_text::put_text(out, 0, &message[..size]);
            Text {
                descriptor: ERROR,
                length: decimal_text::clipped(out, told),
            }
        }
    }
}

fn text_room() -> [u8; 65537] {
    [0; 65537]
}

fn lines_room() -> [u8; 2000000] {
    [0; 2000000]
}

// Reads the input and writes the text of it, to the output that it goes to.
fn run<R: Read, O: Write, E: Write>(
    reader: &mut R,
    stdout: &mut O,
    stderr: &mut E,
) -> io::Result<()>
    ensures output { OnOk result (IfSome (R.remaining reader.old) (λ s. Appends (O.contents stdout.old) (O.contents stdout.new) (take 2000000 (output_of s)))) }
    ensures error { OnOk result (IfSome (R.remaining reader.old) (λ s. Appends (E.contents stderr.old) (E.contents stderr.new) (take 2000000 (error_of s)))) }
{
    let mut input = text_room();
    let length = program_io::read_input(reader, &mut input)?;
    let mut lines = lines_room();
    let text = respond(&input, length, &mut lines);
    program_io::write_text(stdout, stderr, text, &lines)
}

fn main(rt: HostRuntime) -> io::Result<()> {
    run(&mut rt.stdin(), &mut rt.stdout(), &mut rt.stderr())
}
