// Reads requests one after the other from standard input, eclipses of 115 bytes and stars of 79, any number of them,
// and writes their sheets as they are stored one after the other to standard output: a year file. A refused request is
// reported on standard error, and the stream goes on; after one of wrong shape, or one that the input's end cuts
// short, it stops. Where standard output cannot be written, it stops too, and standard error says at which request. It
// reads no byte past the request that it answers.
#![tactic(auto)]

ghost use Rattle.std.specs.Prelude.{◌≡◌, not, ◌+◌, length, take, IfOk, OnErr};
ghost use Rattle.std.specs.Io.KnownBytes.{Consumes};
ghost use Rattle.decimal_text.specs.Texts.{capped, Put, Counts};
ghost use Rattle.program_io.specs.Inputs.{NoneLost};
ghost use Rattle.request_answers.specs.Sheet.{Begins};
ghost use Rattle.streams.specs.Streams.{sheet_for, told_for, stops_for};
ghost use Rattle.stream.specs.Unwritten.{unwritten_line};

use std::io::{self, Read, Write};

// How many requests were answered, in how many bytes; whether to go on.
#[derive(Clone, Copy)]
struct Place {
    count: usize,
    bytes: usize,
    more: bool,
}

// What goes out for a request, and the place after it.
#[derive(Clone, Copy)]
struct Next {
    // bytes of the sheet's buffer, to standard output
    output: usize,
    // bytes of the line's array, to standard error
    error: usize,
    place: Place,
}

// The next request, at the start of its buffer; how many bytes it has, 0 at the input's end.
fn read_request<R: Read>(reader: &mut R, room: &mut [u8]) -> io::Result<usize>
    requires { length room.old ≡ 115 }
    ensures counts { IfOk result (λ n. Counts n room.new) }
    ensures rest { IfOk result (λ n. Consumes (R.remaining reader.old) (R.remaining reader.new) (take n room.new)) }
    ensures failed { OnErr result (NoneLost (R.remaining reader.old) (R.remaining reader.new) room.new) }
{
    let got = program_io::read_input(reader, &mut room[..1])?;
    if got == 0 {
        return Ok(0);
    }
    let size = streams::size_from(room[0]);
    let more = program_io::read_input(reader, &mut room[1..size])?;
    Ok(1 + more)
}

// The next request of a stream, of `size` bytes: its sheet at the start of `room`, or the report of its refusal at the
// start of `line`; and the place after it, which the next report names.
fn turn(
    place: Place,
    request: &[u8; 115],
    size: usize,
    sines: &mut [u32],
    room: &mut [u8],
    line: &mut [u8; 128],
) -> Next
    requires counts_2 { Counts size request.now }
    requires sines_len { (length sines.old ≡ 901) × (length room.old ≡ 65536) }
    ensures output { Begins result.output room.new (sheet_for (take size request.now) sines.old room.old) }
    ensures error { take result.error line.new ≡ take 128 (told_for (capped (place.count + 1)) place.bytes (take size request.now) sines.old room.old) }
    ensures count { result.place.count ≡ capped (place.count + 1) }
    ensures bytes { result.place.bytes ≡ capped (place.bytes + size) }
    ensures more { result.place.more ≡ not (stops_for (take size request.now) sines.old room.old) }
    ensures counts { Counts result.output room.new × Counts result.error line.new }
{
    let count = decimal_text::after(place.count, 1);
    let bytes = decimal_text::after(place.bytes, size);
    let all: &[u8] = request;
    let step = streams::step(
        &all[..size],
        count as u64,
        place.bytes as u64,
        sines,
        room,
        line,
    );
    let error = decimal_text::clipped(line, step.error);
    Next {
        output: step.output,
        error,
        place: Place {
            count,
            bytes,
            more: !step.stops,
        },
    }
}

// At which request, and at which byte, standard output could not be written.
fn put_unwritten(out: &mut [u8], count: usize, at: usize) -> usize
    ensures { Put out.old 0 (unwritten_line count at) out.new result }
{
    let word = decimal_text::put_text(out, 0, b"stopped at request ");
    let number = decimal_text::put_number(out, word, count as u64);
    let middle = decimal_text::put_text(out, number, b" (byte ");
    let byte = decimal_text::put_number(out, middle, at as u64);
    decimal_text::put_text(out, byte, b"): standard output could not be written\n")
}

fn unwritten(line: &mut [u8; 128], count: usize, at: usize) -> usize
    ensures text { take result line.new ≡ unwritten_line count at }
    ensures counts { Counts result line.new }
{
    put_unwritten(line, count, at)
}

// Answers one request.
fn answer_next<R: Read, O: Write, E: Write>(
    place: Place,
    reader: &mut R,
    output: &mut O,
    error: &mut E,
    sines: &mut [u32],
    room: &mut [u8],
) -> io::Result<Place>
    requires { (length sines.old ≡ 901) × (length room.old ≡ 65536) }
{
    let mut request = [0u8; 115];
    let size = read_request(reader, &mut request)?;
    if size == 0 {
        return Ok(Place {
            more: false,
            ..place
        });
    }
    let mut line = [0u8; 128];
    let next = turn(place, &request, size, sines, room, &mut line);
    let stored = next.output;
    let told = next.error;
    let written = output.write_all(&room[..stored]).is_ok();
    let reported = error.write_all(&line[..told]).is_ok();
    if !written {
        let end = unwritten(&mut line, next.place.count, place.bytes);
        error.write_all(&line[..end])?;
    }
    Ok(Place {
        more: written & reported & next.place.more,
        ..next.place
    })
}

// A proved loop has to end, and nothing says that the input does: it takes as many turns as no run uses up.
fn answer_all<R: Read, O: Write, E: Write>(
    reader: &mut R,
    output: &mut O,
    error: &mut E,
    sines: &mut [u32],
    room: &mut [u8],
) -> io::Result<()>
    requires { (length sines.old ≡ 901) × (length room.old ≡ 65536) }
{
    let mut place = Place {
        count: 0,
        bytes: 0,
        more: true,
    };
    for _ in 0..u64::MAX {
        if !place.more {
            break;
        }
        place = answer_next(place, reader, output, error, sines, room)?;
    }
    Ok(())
}

// As many bytes for a sheet as program `sheet_bytes` has.
fn sheet_room() -> [u8; 65536]
    ensures { 65536 ≡ length result }
{
    [0; 65536]
}

fn main(rt: HostRuntime) -> io::Result<()> {
    let mut sines = [0u32; 901];
    let mut room = sheet_room();
    answer_all(
        &mut rt.stdin(),
        &mut rt.stdout(),
        &mut rt.stderr(),
        &mut sines,
        &mut room,
    )
}
