// What a program reads, and what it writes: bytes at the start of an array, for one of its two outputs; and the records
// of an input. What holds of them is in `specs/`.
#![tactic(auto)]

ghost use Rattle.std.specs.Prelude.{ℕ, List, take, IfOk, OnOk, OnErr, IfSome, MatchOption};
ghost use Rattle.std.specs.Io.KnownBytes.{Appends, Consumes};
ghost use Rattle.decimal_text.specs.Texts.{Counts};
ghost use Rattle.program_io.specs.Inputs.{NoneLost, Read};
ghost use Rattle.program_io.specs.Outputs.{Sent};
ghost use Rattle.program_io.specs.Records.{IsCut, Begins};

use std::io::{self, Read, Write};

// The descriptors of standard output and of standard error.
pub const OUTPUT: i32 = 1;

pub const ERROR: i32 = 2;

// The text of a program that writes to one of its outputs.
#[derive(Clone, Copy)]
pub struct Text {
    // which output it goes to: a number, since `Sent` says by it what each output gets
    pub descriptor: i32,
    // how many bytes at the array's start
    pub length: usize,
}

// Reads until the array is full or the input ends; how many bytes now stand at the array's start. Where it is known
// what the reader has left, these are its first bytes, and the reader has the others left. A failed read loses none: the
// array begins with the bytes that the reader has no more.
pub fn read_input<R: Read>(reader: &mut R, array: &mut [u8]) -> io::Result<usize>
    ensures counts { IfOk result (λ n. Counts n array.new) }
    ensures first { IfOk result (λ n. IfSome (R.remaining reader.old) (λ input. Read input array.new n)) }
    ensures rest { IfOk result (λ n. Consumes (R.remaining reader.old) (R.remaining reader.new) (take n array.new)) }
    ensures failed { OnErr result (NoneLost (R.remaining reader.old) (R.remaining reader.new) array.new) }
{
    let mut done = 0;
    // Not a `for`: each step is as long as what the reader gave, and the input may end before the array is full.
    while done < array.len() {
        let got = reader.read(&mut array[done..])?;
        if got == 0 {
            break;
        }
        done += got;
    }
    Ok(done)
}

// Writes a text to the output that it goes to, and nothing to the other.
pub fn write_text<O: Write, E: Write>(
    output: &mut O,
    error: &mut E,
    text: Text,
    bytes: &[u8],
) -> io::Result<()>
    requires { Counts text.length bytes.now }
    ensures output { OnOk result ((o e : List ℕ) → Sent text.descriptor (take text.length bytes.now) o e → Appends (O.contents output.old) (O.contents output.new) o) }
    ensures error { OnOk result ((o e : List ℕ) → Sent text.descriptor (take text.length bytes.now) o e → Appends (E.contents error.old) (E.contents error.new) e) }
{
    let end = text.length;
    if text.descriptor == ERROR {
        return error.write_all(&bytes[..end]);
    }
    output.write_all(&bytes[..end])
}

// A record at the start of an input: a letter, and the bytes whose number stands behind it in two bytes.
#[derive(Clone, Copy)]
pub struct Record<'a> {
    pub letter: u8,
    pub bytes: &'a [u8],
    // what follows the record
    pub rest: &'a [u8],
}

// The first record of an input; nothing where it is cut off.
pub fn first_record(input: &[u8]) -> Option<Record>
    ensures { MatchOption result (IsCut input.now) (λ r. Begins input.now r.letter r.bytes.now r.rest.now) }
{
    if input.len() < 3 {
        return None;
    }
    let size = big_endian::two_at(input, 1) as usize;
    let (bytes, rest) = input[3..].split_at_checked(size)?;
    Some(Record {
        letter: input[0],
        bytes,
        rest,
    })
}
