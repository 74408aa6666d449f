// Prints test vectors of whole sheets, for comparison with what independent code gives: of the sheet that a request
// gets, of the reader, and of the writer.
//
// Standard input holds records: a letter, the number of the bytes that follow in two bytes, and these bytes. Numbers
// are big-endian. What is printed for a record depends on its letter:
//
//   #  text                                a heading: the text, as a line
//   q  a buffer's size, 2 bytes; a request the listing of the request's sheet, or the refusal
//   r  a stored sheet                      what the reader answers: the sheet that the bytes begin with, the sheet
//                                          that they are, and the same into three entries; then the entries,
//                                          and whether they are written back to the same bytes
//   w  entries, 4 bytes a number           what the writer answers with a buffer of 256 bytes and with one of 20, and
//                                          both buffers afterwards; they hold 170 before
//
// Any other record is `malformed`.
#![tactic(auto)]

ghost use Rattle.std.specs.Prelude.{◌≡◌, ◌+◌, ◌*◌, ◌/◌, ◌≤◌, length};
ghost use Rattle.decimal_text.specs.Texts.{Counts};

use request_format::fields::Shape;
use sheet_types::refusals::Refusal;
use std::io;

fn print_text(rt: &impl Print, text: &[u8]) -> io::Result<()> {
    rt.write_all(text)
}

fn print_malformed(rt: &impl Print) -> io::Result<()> {
    print_text(rt, b"malformed\n")
}

// A word, and what a reader or a writer answered.
fn print_answer(
    rt: &impl Print,
    word: &[u8],
    answer: Result<(usize, usize), Refusal>,
) -> io::Result<()> {
    let mut text = [0u8; 64];
    let end = listings::extents::put_answer(&mut text, 0, word, answer);
    let length = decimal_text::clipped(&text, end);
    print_text(rt, &text[..length])
}

// Room for a listing.
fn listing_room() -> [u8; 262_144] {
    [0u8; 262_144]
}

fn print_listing(rt: &impl Print, request: &[u8], room: &mut [u8]) -> io::Result<()> {
    let mut sines = [0u32; 901];
    let mut text = listing_room();
    let end = answers::put_answer(Shape::Eclipse, request, &mut sines, room, &mut text);
    let length = decimal_text::clipped(&text, end);
    print_text(rt, &text[..length])
}

// As many bytes for a sheet as program `sheet` has.
fn sheet_room() -> [u8; 65536] {
    [0; 65536]
}

fn print_request(rt: &impl Print, bytes: &[u8]) -> io::Result<()> {
    if bytes.len() < 2 {
        return print_malformed(rt);
    }
    let mut room = sheet_room();
    let size = decimal_text::clipped(&room, big_endian::two_at(bytes, 0) as usize);
    print_listing(rt, &bytes[2..], &mut room[..size])
}

// The count, or how many numbers there are where these are fewer. So `&numbers[..n]` can be taken.
fn clipped(numbers: &[u32], count: usize) -> usize
    ensures { Counts result numbers.now }
{
    if count < numbers.len() {
        return count;
    }
    numbers.len()
}

fn wide(x: u32) -> i64 {
    x as i64
}

// An entry of five numbers.
fn print_entry(rt: &impl Print, entry: &[u32]) -> io::Result<()>
    requires { 5 ≤ length entry.now }
{
    let kind = wide(entry[0]);
    let a = wide(entry[1]);
    let b = wide(entry[2]);
    let c = wide(entry[3]);
    let d = wide(entry[4]);
    let fields = [kind, a, b, c, d];
    let mut line = [0u8; 64];
    let end = decimal_text::put_filled(&mut line, 0, b" # # # # #\n", &fields);
    let length = decimal_text::clipped(&line, end);
    print_text(rt, &line[..length])
}

fn print_entries(rt: &impl Print, numbers: &[u32]) -> io::Result<()> {
    for entry in numbers.chunks_exact(5) {
        print_entry(rt, entry)?;
    }
    Ok(())
}

// Whether the bytes of an answer are a sheet's.
fn print_same(
    rt: &impl Print,
    answer: Result<(usize, usize), Refusal>,
    written: &[u8],
    sheet: &[u8],
) -> io::Result<()> {
    let Ok((_, length)) = answer else {
        return print_text(rt, b"\n");
    };
    let end = decimal_text::clipped(written, length);
    if &written[..end] == sheet {
        print_text(rt, b" same\n")
    } else {
        print_text(rt, b"\n")
    }
}

// Room for a sheet of up to 64 entries.
fn short_room() -> [u8; 4096] {
    [0; 4096]
}

// The entries, and what the writer makes of them.
fn print_written(rt: &impl Print, numbers: &[u32], sheet: &[u8]) -> io::Result<()> {
    print_entries(rt, numbers)?;
    let mut space = short_room();
    let answer = sheet_codec::encoder::write(numbers, &mut space);
    print_answer(rt, b" written ", answer)?;
    print_same(rt, answer, &space, sheet)
}

// What the reader answers with a buffer for three entries and most of a fourth.
fn print_short(rt: &impl Print, sheet: &[u8]) -> io::Result<()> {
    let mut three = [0u32; 19];
    let answer = sheet_codec::decoder::read(sheet, &mut three);
    print_answer(rt, b" short ", answer)?;
    print_text(rt, b"\n")
}

// Room for 64 entries.
fn entries_room() -> [u32; 320] {
    [0u32; 320]
}

fn print_read(rt: &impl Print, sheet: &[u8]) -> io::Result<()> {
    let mut room = entries_room();
    let begins = sheet_codec::decoder::extent_of_leading_sheet(sheet);
    let is = sheet_codec::decoder::read(sheet, &mut room);
    print_answer(rt, b"begins ", begins)?;
    print_answer(rt, b" is ", is)?;
    print_short(rt, sheet)?;
    let Ok((entries, _)) = is else {
        return Ok(());
    };
    if 64 < entries {
        return print_malformed(rt);
    }
    let numbers = clipped(&room, entries * 5);
    print_written(rt, &room[..numbers], sheet)
}

fn digit(x: u8) -> u8
    requires { x ≤ 15 }
{
    if x < 10 {
        return 48 + x;
    }
    87 + x
}

// A byte in hexadecimal after a space, two digits.
fn put_hex(out: &mut [u8], at: usize, x: u8) -> usize {
    let text = [b' ', digit(x / 16), digit(x % 16)];
    decimal_text::put_text(out, at, &text)
}

// Bytes in hexadecimal, as far as the line goes.
fn put_bytes(line: &mut [u8], bytes: &[u8]) -> usize {
    let mut at = 0;
    for byte in bytes {
        at = put_hex(line, at, *byte);
    }
    decimal_text::put_byte(line, at, b'\n')
}

fn print_bytes(rt: &impl Print, bytes: &[u8]) -> io::Result<()> {
    let mut line = [0u8; 1024];
    let end = put_bytes(&mut line, bytes);
    let length = decimal_text::clipped(&line, end);
    print_text(rt, &line[..length])
}

fn print_list(rt: &impl Print, list: &[u32]) -> io::Result<()> {
    let mut long = [170u8; 256];
    let mut short = [170u8; 20];
    let written = sheet_codec::encoder::write(list, &mut long);
    let cut = sheet_codec::encoder::write(list, &mut short);
    print_answer(rt, b"written ", written)?;
    print_answer(rt, b" short ", cut)?;
    print_text(rt, b"\n")?;
    print_bytes(rt, &long)?;
    print_bytes(rt, &short)
}

// Stores the numbers of some bytes at the start of the list, as far as it goes.
fn take(bytes: &[u8], list: &mut [u32]) {
    for (number, four) in list.iter_mut().zip(bytes.chunks_exact(4)) {
        *number = big_endian::four_at(four, 0);
    }
}

// Room for the numbers of 4,096 bytes.
fn list_room() -> [u32; 1024]
    ensures { 1024 ≡ length result }
{
    [0; 1024]
}

fn print_handed(rt: &impl Print, bytes: &[u8]) -> io::Result<()> {
    if 4096 < bytes.len() {
        return print_malformed(rt);
    }
    let mut list = list_room();
    take(bytes, &mut list);
    let count = clipped(&list, bytes.len() / 4);
    print_list(rt, &list[..count])
}

fn print_heading(rt: &impl Print, text: &[u8]) -> io::Result<()> {
    print_text(rt, text)?;
    print_text(rt, b"\n")
}

// What a record gives.
fn print_record(rt: &impl Print, letter: u8, bytes: &[u8]) -> io::Result<()> {
    match letter {
        b'#' => print_heading(rt, bytes),
        b'q' => print_request(rt, bytes),
        b'r' => print_read(rt, bytes),
        b'w' => print_handed(rt, bytes),
        _ => print_malformed(rt),
    }
}

// What each record gives, up to one that is cut off.
fn print_records(rt: &impl Print, input: &[u8]) -> io::Result<()> {
    let mut rest = input;
    while let Some(record) = program_io::first_record(rest) {
        print_record(rt, record.letter, record.bytes)?;
        rest = record.rest;
    }
    Ok(())
}

// Room for all records.
fn input_room() -> [u8; 262_144] {
    [0u8; 262_144]
}

fn main(rt: HostRuntime) -> io::Result<()> {
    let mut input = input_room();
    let length = program_io::read_input(&mut rt.stdin(), &mut input)?;
    print_records(&rt, &input[..length])
}
