// Reads a typed request from standard input, one `name value` a line, and writes its bytes to standard output: 115 of
// an eclipse, 79 of a star. Its instant, if it has one, is read too and is no part of them. It reports the first
// invalid line on standard error and then writes nothing.
#![tactic(auto)]

ghost use Rattle.std.specs.Prelude.{List, ℕ, take, OnOk, IfSome};
ghost use Rattle.std.specs.Io.KnownBytes.{Appends};
ghost use Rattle.decimal_text.specs.Texts.{Counts};
ghost use Rattle.program_io.specs.Inputs.{Read};
ghost use Rattle.program_io.specs.Outputs.{Sent};
ghost use Rattle.request_text.specs.Meaning.{error_of};
ghost use Rattle.request.specs.Streams.{output_of};

use program_io::{ERROR, OUTPUT, Text};
use request_format::fields::LENGTH;
use std::io::{self, Read, Write};

// What the program writes of its input, of which `length` bytes were read, and the output that it goes to: the bytes of
// a typed request, or why there are none. The text's array has a byte more than is taken, so that a longer text is
// seen. No message is longer than 65,623 bytes.
fn respond(text: &[u8; 65537], length: usize, out: &mut [u8; 65623]) -> Text
    requires { Counts length text.now }
    ensures text { (s : List ℕ) → Read s text.now length → Sent result.descriptor (take result.length out.new) (output_of s) (error_of s) }
    ensures counts { Counts result.length out.new }
{
    let all: &[u8] = text;
    let mut bytes = [0u8; LENGTH];
    let answer = request_text::typed_requests::read(&all[..length], &mut bytes, out);
    match answer {
        Ok((size, _)) => {
            let stored = decimal_text::put_text(out, 0, &bytes[..size]);
            Text {
                descriptor: OUTPUT,
                length: stored,
            }
        }
        Err(size) => Text {
            descriptor: ERROR,
            length: size,
        },
    }
}

fn text_room() -> [u8; 65537] {
    [0; 65537]
}

fn written_room() -> [u8; 65623] {
    [0; 65623]
}

// Reads the input and writes the text of it, to the output that it goes to.
fn run<R: Read, O: Write, E: Write>(
    reader: &mut R,
    stdout: &mut O,
    stderr: &mut E,
) -> io::Result<()>
    ensures output { OnOk result (IfSome (R.remaining reader.old) (λ s. Appends (O.contents stdout.old) (O.contents stdout.new) (output_of s))) }
    ensures error { OnOk result (IfSome (R.remaining reader.old) (λ s. Appends (E.contents stderr.old) (E.contents stderr.new) (error_of s))) }
{
    let mut input = text_room();
    let length = program_io::read_input(reader, &mut input)?;
    let mut bytes = written_room();
    let text = respond(&input, length, &mut bytes);
    program_io::write_text(stdout, stderr, text, &bytes)
}

fn main(rt: HostRuntime) -> io::Result<()> {
    run(&mut rt.stdin(), &mut rt.stdout(), &mut rt.stderr())
}
