// Reads a request, 115 bytes, from standard input, and prints the listing of its contact sheet; or its refusal.
#![tactic(auto)]

ghost use Rattle.std.specs.Prelude.{◌≡◌, List, ℕ, take, OnOk, IfSome};
ghost use Rattle.std.specs.Io.KnownBytes.{Appends};
ghost use Rattle.decimal_text.specs.Texts.{Counts};
ghost use Rattle.program_io.specs.Inputs.{Read};
ghost use Rattle.sheet.specs.Printed.{printed};

use request_format::fields::Shape;
use std::io::{self, Read, Write};

// The text of the program's input, of which `length` bytes were read: the array has a byte more than a request, so
// that a longer input is seen.
fn respond(input: &[u8; 116], length: usize, out: &mut [u8; 400000]) -> usize
    requires { Counts length input.now }
    ensures text { (s : List ℕ) → Read s input.now length → take result out.new ≡ take 400000 (printed s) }
    ensures counts { Counts result out.new }
{
    let all: &[u8] = input;
    let end = answers::put_printed(Shape::Eclipse, &all[..length], out);
    decimal_text::clipped(out, end)
}

fn text_room() -> [u8; 400000] {
    [0; 400000]
}

// Reads the input and writes the text of it.
fn run<R: Read, O: Write>(reader: &mut R, stdout: &mut O) -> io::Result<()>
    ensures { OnOk result (IfSome (R.remaining reader.old) (λ s. Appends (O.contents stdout.old) (O.contents stdout.new) (take 400000 (printed s)))) }
{
    let mut input = [0u8; 116];
    let length = program_io::read_input(reader, &mut input)?;
    let mut text = text_room();
    let end = respond(&input, length, &mut text);
    stdout.write_all(&text[..end])
}

fn main(rt: HostRuntime) -> io::Result<()> {
    run(&mut rt.stdin(), &mut rt.stdout())
}
