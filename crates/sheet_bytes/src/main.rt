// Reads a request, 115 bytes, from standard input, and writes its contact sheet as it is stored to standard output.
// A refusal goes to standard error, and nothing goes to standard output.
#![tactic(auto)]

ghost use Rattle.std.specs.Prelude.{◌≡◌, List, ℕ, take, OnOk, IfSome};
ghost use Rattle.std.specs.Io.KnownBytes.{Appends};
ghost use Rattle.decimal_text.specs.Texts.{Counts};
ghost use Rattle.listing_lines.specs.Lines.{refusal_line};
ghost use Rattle.program_io.specs.Inputs.{Read};
ghost use Rattle.program_io.specs.Outputs.{Sent};
ghost use Rattle.sheet_bytes.specs.Streams.{output, error};

use program_io::{ERROR, OUTPUT, Text};
use sheet_types::refusals::Refusal;
use std::io::{self, Read, Write};

// The line of a refusal, at the array's start.
fn put_refusal(out: &mut [u8; 65536], number: u32, place: usize) -> usize
    ensures line { take result out.new ≡ refusal_line number place }
    ensures counts { Counts result out.new }
{
    listing_lines::lines::put_refused(out, 0, Refusal { number, place })
}

// The text of the program's input, of which `length` bytes were read, and the output that it goes to. The array has a
// byte more than a request, so that a longer input is seen.
fn respond(input: &[u8; 116], length: usize, out: &mut [u8; 65536]) -> Text
    requires { Counts length input.now }
    ensures text { (s : List ℕ) → Read s input.now length → Sent result.descriptor (take result.length out.new) (output s) (error s) }
    ensures counts { Counts result.length out.new }
{
    let mut sines = answers::sines_room();
    let mut room = answers::sheet_room();
    let all: &[u8] = input;
    let answer = request_answers::sheets::sheet(&all[..length], &mut sines, &mut room);
    match answer {
        Ok(written) => {
            let stored = decimal_text::put_text(out, 0, &room[..written]);
            Text {
                descriptor: OUTPUT,
                length: stored,
            }
        }
        Err(refusal) => {
            let line = put_refusal(out, refusal.number, refusal.place);
            Text {
                descriptor: ERROR,
                length: line,
            }
        }
    }
}

fn bytes_room() -> [u8; 65536] {
    [0; 65536]
}

// Reads the input and writes the text of it, to the output that it goes to.
fn run<R: Read, O: Write, E: Write>(
    reader: &mut R,
    stdout: &mut O,
    stderr: &mut E,
) -> io::Result<()>
    ensures output { OnOk result (IfSome (R.remaining reader.old) (λ s. Appends (O.contents stdout.old) (O.contents stdout.new) (output s))) }
    ensures error { OnOk result (IfSome (R.remaining reader.old) (λ s. Appends (E.contents stderr.old) (E.contents stderr.new) (error s))) }
{
    let mut input = [0u8; 116];
    let length = program_io::read_input(reader, &mut input)?;
    let mut bytes = bytes_room();
    let text = respond(&input, length, &mut bytes);
    program_io::write_text(stdout, stderr, text, &bytes)
}

fn main(rt: HostRuntime) -> io::Result<()> {
    run(&mut rt.stdin(), &mut rt.stdout(), &mut rt.stderr())
}
