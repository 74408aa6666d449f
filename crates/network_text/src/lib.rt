// A network that a person types: the elements and the window as in a typed request (`request_text`), and a line a
// station, `station NUMBER LATITUDE LONGITUDE HEIGHT DELTA_T CLOCK`.
#![tactic(auto)]

pub mod stations;

ghost use Rattle.std.specs.Prelude.{◌≡◌, ◌<◌, pos, length, replicate};
ghost use Rattle.network_text.specs.Lines.{told_of};
ghost use Rattle.network_text.specs.Typing.{listed_by, marks_after, numbers_after, marks_before, typing_of, eclipse_in, answer_of, held_from, numbers_from};
ghost use Rattle.network_text.specs.laws.TypingLaws.{add_of, answer_by, taken_of, Read};

use clock_network::stations::{Held, Node};
use request_format::fields::{COUNT, Shape};
use request_text::lines;

// Why a text is refused.
#[derive(Clone, Copy)]
pub enum Fault {
    // as a typed request is
    Typed(request_text::Fault),
    // the clock is no station's number, or more stands after it
    Clock,
}

// What a line says.
#[derive(Clone, Copy)]
pub enum Said {
    // what it says in a typed request, of the elements and the window
    Request(Result<Option<(usize, i64)>, request_text::Fault>),
    // a station and the clock that it follows
    Station(Node),
}

// What a text gives, and its stations: the first 64, and how many there are.
#[derive(Clone, Copy)]
pub struct Reading {
    // whether it has no fault; or the line, counted from 1, and its fault: a missing name has the line after the last
    pub answer: Result<(), (usize, Fault)>,
    pub held: Held,
}

// The numbers of a request that no line of the list gives: those of a station, which has a line of its own.
const ASKED: [u8; COUNT] = [
    0, 0, 0, 0, 0, 0, 0, 0, 0, 0, 0, 0, 0, 0, 0, 0, 0, 0, 0, 0, 0, 0, 1, 1, 1, 1, 1, 0, 0, 0,
];

// ---- lines

// What a line says: its name decides which.
fn tell(line: &[u8]) -> Result<Said, Fault>
    ensures { result ≡ told_of line.now }
{
    let said = request_text::said(line);
    let Some((field, length)) = request_text::find(Shape::Eclipse, said) else {
        return Ok(Said::Request(request_text::meaning(Shape::Eclipse, line)));
    };
    if field == 22 {
        return stations::of_station(&said[length..]);
    }
    if (22 < field) & (field < 27) {
        return Err(Fault::Typed(request_text::Fault::Unknown));
    }
    Ok(Said::Request(request_text::meaning(Shape::Eclipse, line)))
}

// ---- the text

// One more station, stored where it fits.
fn add(h: Held, n: Node) -> Held
    requires { h.count < 18446744073709551615 }
    ensures { result ≡ add_of h n }
{
    let count = h.count;
    if count < 64 {
        let g = clock_network::stations::put(h, count, n);
        let nodes = g.nodes;
        return Held {
            nodes,
            count: count + 1,
        };
    }
    let nodes = h.nodes;
    Held {
        nodes,
        count: count + 1,
    }
}

// What a number that was noted at line i answers.
fn noted_at(i: usize, noted: Result<(), request_text::Fault>) -> Result<(), (usize, Fault)>
    ensures { result ≡ answer_by (listed_by noted) i }
{
    noted.map_err(|fault| (i, Fault::Typed(fault)))
}

// Takes line i: a number, if it was not given before, or a station.
fn take(line: &[u8], i: usize, h: Held, marks: &mut [u8], numbers: &mut [i64]) -> Reading
    requires { (length marks.old ≡ 30) × (length numbers.old ≡ 30) × (h.count < 18446744073709551615) }
    ensures value { result ≡ taken_of (told_of line.now) i marks.old h }
    ensures marks_after { marks.new ≡ marks_after (told_of line.now) marks.old }
    ensures numbers_after { numbers.new ≡ numbers_after (told_of line.now) marks.old numbers.old }
{
    match tell(line) {
        Ok(Said::Request(said)) => {
            let noted = request_text::note(said, marks, numbers);
            let answer = noted_at(i, noted);
            Reading { answer, held: h }
        }
        Ok(Said::Station(node)) => {
            let held = add(h, node);
            Reading {
                answer: Ok(()),
                held,
            }
        }
        Err(fault) => Reading {
            answer: Err((i, fault)),
            held: h,
        },
    }
}

// The numbers and stations that a text gives, as far as it has no fault. The guard is 16 where it is left out.
fn read(text: &[u8], marks: &mut [u8], found: &mut [i64]) -> Reading
    requires { (marks.old ≡ marks_before) × (found.old ≡ replicate 30 (pos 0)) }
    ensures { Read text.now result.answer result.held found.new }
{
    found[29] = 16;
    let mut held = clock_network::stations::empty(0);
    let mut line = 1;
    for words in lines::of(text) {
        let reading = take(words, line, held, marks, found);
        if reading.answer.is_err() {
            return reading;
        }
        held = reading.held;
        line += 1;
    }
    let all = request_text::complete(&marks[..29]);
    let answer = noted_at(line, all);
    Reading { answer, held }
}

// The elements, the window and the guard of a request's numbers: all but the station's five.
fn eclipse_in(n: &[i64]) -> [i64; 25]
    requires { length n.now ≡ 30 }
    ensures { result ≡ eclipse_in n.now }
{
    let mut out = [0i64; 25];
    out[..22].copy_from_slice(&n[..22]);
    out[22..].copy_from_slice(&n[27..]);
    out
}

// The 25 numbers of the eclipse that a text gives, in whole units: the 22 elements, first, last and guard; and the
// stations in list order; or its first fault, the caller's numbers unchanged, and no station.
pub fn network(text: &[u8], out: &mut [i64; 25]) -> Reading
    ensures answer_value { (result.answer ≡ answer_of (typing_of text.now)) × (result.held ≡ held_from (typing_of text.now)) }
    ensures out_after { out.new ≡ numbers_from (typing_of text.now) out.old }
{
    let mut marks = ASKED;
    let mut found = [0i64; COUNT];
    let reading = read(text, &mut marks, &mut found);
    if reading.answer.is_ok() {
        *out = eclipse_in(&found);
        return reading;
    }
    let held = clock_network::stations::empty(0);
    Reading {
        answer: reading.answer,
        held,
    }
}
