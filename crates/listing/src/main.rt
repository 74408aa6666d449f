// Reads a stored sheet from standard input, shorter than 327,680 bytes, and prints its listing; or its refusal. Of a
// longer input nothing is printed, and standard error says so.
#![tactic(auto)]

ghost use Rattle.std.specs.Prelude.{List, ℕ, take, OnOk, IfSome};
ghost use Rattle.std.specs.Io.KnownBytes.{Appends};
ghost use Rattle.decimal_text.specs.Texts.{Counts};
ghost use Rattle.program_io.specs.Inputs.{Read};
ghost use Rattle.program_io.specs.Outputs.{Sent};
ghost use Rattle.listing.specs.Printed.{output, error};

use program_io::{ERROR, OUTPUT, Text};
use std::io::{self, Read, Write};

// The text of the program's input, of which `length` bytes were read, and the output that it goes to.
fn respond(input: &[u8; 327680], length: usize, out: &mut [u8; 2000000]) -> Text
    requires { Counts length input.now }
    ensures text { (s : List ℕ) → Read s input.now length → Sent result.descriptor (take result.length out.new) (take 2000000 (output s)) (error s) }
    ensures counts { Counts result.length out.new }
{
    let all: &[u8] = input;
    if 327680 <= length {
        let told = decimal_text::put_text(out, 0, b"sheet of 327680 bytes or more\n");
        return Text {
            descriptor: ERROR,
            length: told,
        };
    }
    let end = listings::put_listing(out, 0, &all[..length]);
    Text {
        descriptor: OUTPUT,
        length: decimal_text::clipped(out, end),
    }
}

fn sheet_room() -> [u8; 327680] {
    [0; 327680]
}

// 29 bytes of text at most for 5 bytes of a sheet, and the head and closest lines.
fn text_room() -> [u8; 2000000] {
    [0; 2000000]
}

// Reads the input and writes the text of it, to the output that it goes to.
fn run<R: Read, O: Write, E: Write>(
    reader: &mut R,
    stdout: &mut O,
    stderr: &mut E,
) -> io::Result<()>
    ensures output { OnOk result (IfSome (R.remaining reader.old) (λ s. Appends (O.contents stdout.old) (O.contents stdout.new) (take 2000000 (output s)))) }
    ensures error { OnOk result (IfSome (R.remaining reader.old) (λ s. Appends (E.contents stderr.old) (E.contents stderr.new) (error s))) }
{
    let mut input = sheet_room();
    let length = program_io::read_input(reader, &mut input)?;
    let mut bytes = text_room();
    let text = respond(&input, length, &mut bytes);
    program_io::write_text(stdout, stderr, text, &bytes)
}

fn main(rt: HostRuntime) -> io::Result<()> {
    run(&mut rt.stdin(), &mut rt.stdout(), &mut rt.stderr())
}
