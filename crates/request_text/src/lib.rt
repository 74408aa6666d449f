// A request that a person types: text with one `name value` a line, to the numbers of the request in whole units. What
// it asks about is in `shapes`, what a line gives a request in `beside`.
#![tactic(auto)]

pub mod beside;
pub mod faults;
pub mod instants;
pub mod lines;
pub mod shapes;
pub mod typed_requests;

ghost use Rattle.std.specs.Prelude.{◌≡◌, ◌≤◌, ◌<◌, pos, length, replicate};
ghost use Rattle.request_format.specs.declared.fields.Shape.TheVariants.{Eclipse, Star};
ghost use Rattle.request_format.specs.Fields.{countOf};
ghost use Rattle.request_text.specs.Names.{named, find_in, names};
ghost use Rattle.request_text.specs.Lines.{with_sign, fitted, value_of, of_value, of_name, said, meaning_of};
ghost use Rattle.request_text.specs.Typing.{InRoom, noted_of, marks_after, numbers_after, missing, typing_of, answer_of, numbers_from};
ghost use Rattle.request_text.specs.laws.TypingLaws.{Read};

use request_format::fields::{COUNT, STAR_COUNT, Shape, Width};
use tokens::{Class, NotUnits};

// Why a text is refused. A field is counted from 0, in the order of the request's numbers (`request_format`).
#[derive(Clone, Copy)]
pub enum Fault {
    // a name that no field has
    Unknown,
    // the value is no decimal number
    NotNumber(usize),
    // it is no whole number of units
    NotWhole(usize),
    // its bytes cannot hold it
    Unfit(usize),
    // the name was given before
    Twice(usize),
    // no line has the name
    Missing(usize),
}

// ---- names

// Whether what is said begins with the name, and a blank or nothing follows.
fn is_named(said: &[u8], name: &[u8]) -> bool
    ensures { result ≡ named name.now said.now }
{
    match said.strip_prefix(name) {
        Some([]) => true,
        Some([x, ..]) => tokens::is_in(Class::Blank, *x),
        None => false,
    }
}

// The first field whose name is said.
pub fn find(shape: Shape, said: &[u8]) -> Option<(usize, usize)>
    ensures { result ≡ find_in (names shape) 0 said.now }
{
    for k in 0..request_format::fields::count_of(shape) {
        let field = request_format::fields::field_at(shape, k);
        let name = field.0;
        let letters = field.1;
        if is_named(said, &name[..letters]) {
            return Some((k, letters));
        }
    }
    None
}

// ---- values

// n, below zero where `minus` is 1.
fn with_sign(minus: usize, n: usize) -> i64
    requires { n ≤ 4294967296 }
    ensures { result ≡ with_sign minus n }
{
    let value = n as i64;
    if minus == 1 {
        return -value;
    }
    value
}

// The field's number of n units, if its bytes hold it.
fn fit(field: usize, width: Width, minus: usize, n: usize) -> Result<Option<(usize, i64)>, Fault>
    requires { n ≤ 4294967296 }
    ensures { result ≡ fitted field width minus n }
{
    let value = with_sign(minus, n);
    let holds = request_format::fields::holds(width, value);
    if !holds {
        return Err(Fault::Unfit(field));
    }
    Ok(Some((field, value)))
}

// A word as the value of a field. Like `note` it is for crates that read more than a request, and has a `requires`, so
// it is none of the public promises.
pub fn value_of(shape: Shape, field: usize, word: &[u8]) -> Result<Option<(usize, i64)>, Fault>
    requires { field < countOf shape }
    ensures { result ≡ value_of shape field word.now }
{
    let row = request_format::fields::field_at(shape, field);
    let decimals = row.2;
    let width = row.3;
    let minus = tokens::start(word, Class::Minus);
    let found = tokens::units_in(word, decimals);
    match found {
        Ok(n) => fit(field, width, minus, n),
        Err(NotUnits::NotWhole) => Err(Fault::NotWhole(field)),
        Err(NotUnits::NotNumber) => Err(Fault::NotNumber(field)),
    }
}

// ---- lines

// What stands after a name and its blanks: the value, and blanks alone.
fn of_value(shape: Shape, field: usize, s: &[u8]) -> Result<Option<(usize, i64)>, Fault>
    requires { field < countOf shape }
    ensures { result ≡ of_value shape field s.now }
{
    let length = tokens::run(s, Class::Word);
    let bare = tokens::all(&s[length..], Class::Blank);
    if !bare {
        return Err(Fault::NotNumber(field));
    }
    value_of(shape, field, &s[..length])
}

// A line that says something.
fn of_name(shape: Shape, said: &[u8]) -> Result<Option<(usize, i64)>, Fault>
    ensures { result ≡ of_name shape said.now }
{
    let (field, length) = find(shape, said).ok_or(Fault::Unknown)?;
    let after = &said[length..];
    let gap = tokens::run(after, Class::Blank);
    of_value(shape, field, &after[gap..])
}

// A line without its comment and the blanks before what it says.
pub fn said(line: &[u8]) -> &[u8]
    ensures { result.now ≡ said line.now }
{
    let length = tokens::run(line, Class::Said);
    let content = &line[..length];
    let gap = tokens::run(content, Class::Blank);
    &content[gap..]
}

// What a line says.
pub fn meaning(shape: Shape, line: &[u8]) -> Result<Option<(usize, i64)>, Fault>
    ensures { result ≡ meaning_of shape line.now }
{
    let words = said(line);
    if words.len() == 0 {
        return Ok(None);
    }
    of_name(shape, words)
}

// ---- the text

// Takes a line, if its field was not given before. Marks and numbers are two slices, since the contract speaks of each.
pub fn note(
    line: Result<Option<(usize, i64)>, Fault>,
    marks: &mut [u8],
    numbers: &mut [i64],
) -> Result<(), Fault>
    requires { (length numbers.old ≡ length marks.old) × InRoom (length marks.old) line }
    ensures value { result ≡ noted_of line marks.old }
    ensures marks_after { marks.new ≡ marks_after line marks.old }
    ensures numbers_after { numbers.new ≡ numbers_after line marks.old numbers.old }
{
    let Some((field, value)) = line? else {
        return Ok(());
    };
    if marks[field] != 0 {
        return Err(Fault::Twice(field));
    }
    marks[field] = 1;
    numbers[field] = value;
    Ok(())
}

// Whether all these fields were given.
pub fn complete(marks: &[u8]) -> Result<(), Fault>
    ensures { result ≡ missing 0 marks.now }
{
    for (k, mark) in marks.iter().enumerate() {
        if *mark == 0 {
            return Err(Fault::Missing(k));
        }
    }
    Ok(())
}

// The numbers that a text gives, as far as it has no fault. The numbers before the guard must be typed; the guard is
// 16 where it is left out.
fn read(
    shape: Shape,
    text: &[u8],
    marks: &mut [u8],
    found: &mut [i64],
) -> Result<(), (usize, Fault)>
    requires { (marks.old ≡ replicate (countOf shape) 0) × (found.old ≡ replicate (countOf shape) (pos 0)) }
    ensures { Read shape text.now result found.new }
{
    let required = request_format::fields::count_of(shape) - 1;
    found[required] = 16;
    let mut line = 1;
    for words in lines::of(text) {
        let given = beside::number_in(shape, words);
        note(given, marks, found).map_err(|fault| (line, fault))?;
        line += 1;
    }
    complete(&marks[..required]).map_err(|fault| (line, fault))
}

// The numbers that a text gives of a shape; or its first fault, and the caller's numbers unchanged.
fn numbers_as<const N: usize>(
    shape: Shape,
    text: &[u8],
    out: &mut [i64; N],
) -> Result<(), (usize, Fault)>
    requires { N ≡ countOf shape }
    ensures value { result ≡ answer_of (typing_of shape text.now) }
    ensures out_after { out.new ≡ numbers_from (typing_of shape text.now) out.old }
{
    let mut marks = [0u8; N];
    let mut found = [0i64; N];
    read(shape, text, &mut marks, &mut found)?;
    *out = found;
    Ok(())
}

// The numbers that a text gives of an eclipse, in whole units and in the order of the fields; or its first fault with
// the line, counted from 1, and the caller's numbers unchanged. A missing name has the line after the last.
pub fn numbers(text: &[u8], out: &mut [i64; COUNT]) -> Result<(), (usize, Fault)>
    ensures value { result ≡ answer_of (typing_of Eclipse text.now) }
    ensures out_after { out.new ≡ numbers_from (typing_of Eclipse text.now) out.old }
{
    numbers_as(Shape::Eclipse, text, out)
}

// The same of a star.
pub fn star_numbers(text: &[u8], out: &mut [i64; STAR_COUNT]) -> Result<(), (usize, Fault)>
    ensures value { result ≡ answer_of (typing_of Star text.now) }
    ensures out_after { out.new ≡ numbers_from (typing_of Star text.now) out.old }
{
    numbers_as(Shape::Star, text, out)
}
