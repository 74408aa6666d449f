// Reads a typed network from standard input: the elements and the window as in a typed request, and a line a station.
// It prints each station with its steps and the station whose first enter comes first, with whether the Sun is above
// its horizon then; or `refused`, number and place. It reports the first invalid line on standard error and then
// prints nothing.
#![tactic(auto)]

ghost use Rattle.std.specs.Prelude.{◌≡◌, List, ◌++◌, ℕ, ◌≤◌, length, take, OnOk, IfSome};
ghost use Rattle.std.specs.Io.KnownBytes.{Appends};
ghost use Rattle.sine_table.specs.Table.{Sines};
ghost use Rattle.clock_network.specs.declared.stations.Node.{Node};
ghost use Rattle.clock_network.specs.Nodes.{Holds};
ghost use Rattle.clock_network.specs.CheckLaws.{AllWithin};
ghost use Rattle.networks.specs.Network.{tos_of};
ghost use Rattle.decimal_text.specs.Texts.{Put, Counts};
ghost use Rattle.program_io.specs.Inputs.{Read, zeros};
ghost use Rattle.program_io.specs.Outputs.{Sent};
ghost use Rattle.network.specs.Printed.{clock_text, fault_text, station_line, station_lines, sun_text, sun_at, to_line, first_line, named_text, answer_text, output, error};

use clock_network::checks::Eclipse;
use clock_network::stations::Held;
use listing_lines::clock::Altitude;
use network_text::Fault;
use program_io::{ERROR, OUTPUT, Text};
use request_format::fields::Shape;
use std::io::{self, Read, Write};

// ---- a fault

fn put_clock(out: &mut [u8], line: usize) -> usize
    ensures { Put out.old 0 (clock_text line) out.new result }
{
    let number = decimal_text::put_text(out, 0, b"line ");
    let wrong = decimal_text::put_number(out, number, line as u64);
    decimal_text::put_text(out, wrong, b": clock is not a station's number\n")
}

// What is wrong with a line of the text.
fn put_fault(out: &mut [u8], text: &[u8], line: usize, fault: Fault) -> usize
    ensures { Put out.old 0 (fault_text text.now line fault) out.new result }
{
    match fault {
        Fault::Typed(wrong) => request_text::faults::put_message(
            out,
            0,
            Shape::Eclipse,
            text,
            line,
            wrong,
        ),
        Fault::Clock => put_clock(out, line),
    }
}

// ---- the answer

fn put_station(out: &mut [u8], at: usize, number: i64, steps: u64) -> usize
    ensures { Put out.old at (station_line number steps) out.new result }
{
    let numbers = [number];
    let middle = decimal_text::put_filled(out, at, b"station # steps ", &numbers);
    let end = decimal_text::put_number(out, middle, steps);
    decimal_text::put_byte(out, end, b'\n')
}

// A line for each station of the list.
fn put_stations(out: &mut [u8], h: Held, steps: &[u64]) -> usize
    requires { (h.count ≤ 64) × (length h.nodes ≡ 64) × (length steps.now ≡ 64) }
    ensures { Put out.old 0 (station_lines (take h.count h.nodes) steps.now) out.new result }
{
    let n = h.count;
    let mut at = 0;
    for (k, node) in h.nodes[..n].iter().enumerate() {
        at = put_station(out, at, node.station.number, steps[k]);
    }
    at
}

// Whether the Sun is above the horizon, after a blank.
fn put_sun(out: &mut [u8], at: usize, altitude: Altitude) -> usize
    ensures { Put out.old at (sun_text altitude) out.new result }
{
    match altitude {
        Altitude::Nothing => at,
        Altitude::Above(_) => decimal_text::put_text(out, at, b" sun up"),
        Altitude::Below(_) => decimal_text::put_text(out, at, b" sun down"),
    }
}

// The Sun's altitude at a second of a station.
fn sun_at(e: Eclipse, s: station::Station, t: i64) -> Altitude
    ensures { result ≡ sun_at e s t }
{
    let q = clock_network::checks::request(e, s);
    let o = requests::of_eclipse(q);
    listings::sky::altitude_at(o, t)
}

// The second "to" of a station's first enter, as it is stored, and whether the Sun is up there then.
fn put_to(out: &mut [u8], at: usize, to: u32, e: Eclipse, s: station::Station) -> usize
    ensures { Put out.old at (to_line e s to) out.new result }
{
    let second = sheet_format::kinds::seconds::second_of(to);
    let altitude = sun_at(e, s, second);
    let numbers = [second];
    let said = decimal_text::put_filled(out, at, b" to #", &numbers);
    let sun = put_sun(out, said, altitude);
    decimal_text::put_byte(out, sun, b'\n')
}

// The station whose first enter comes first, and when: by the "to" of each station's first enter, as it is stored. This
// says nothing of the horizon; whether the Sun is up there is said behind it.
fn put_first(out: &mut [u8], at: usize, named: u64, tos: &[u32], e: Eclipse, h: Held) -> usize
    requires { (length tos.now ≤ 64) × (length h.nodes ≡ 64) }
    ensures { Put out.old at (first_line e (take (length tos.now) h.nodes) named tos.now) out.new result }
{
    let best = clock_network::strata::earliest(tos, 21_601);
    let word = decimal_text::put_text(out, at, b"first ");
    let end = decimal_text::put_number(out, word, named);
    if tos.len() <= best {
        return decimal_text::put_byte(out, end, b'\n');
    }
    let to = tos[best];
    let x = h.nodes[best];
    let s = x.station;
    put_to(out, end, to, e, s)
}

// The lines of a list that has an answer.
fn put_named(out: &mut [u8], named: u64, e: Eclipse, h: Held, table: &[u32], steps: &[u64]) -> usize
    requires { (Sines table.now) × (h.count ≤ 64) × (length h.nodes ≡ 64) × (AllWithin e (take h.count h.nodes)) × (length steps.now ≡ 64) }
    ensures { Put out.old 0 (named_text e named (tos_of e (take h.count h.nodes)) (take h.count h.nodes) steps.now) out.new result }
{
    let n = h.count;
    let tos = networks::sight::first_tos(table, e, h, n);
    let next = put_stations(out, h, steps);
    put_first(out, next, named, &tos[..n], e, h)
}

// What is printed of the eclipse's numbers and a list.
fn put_answer(out: &mut [u8], eclipse: &[i64; 25], h: Held) -> usize
    requires { length h.nodes ≡ 64 }
    ensures { (l : List Node) → Holds h l → Put out.old 0 (answer_text (zeros 901) (zeros 64) eclipse.now l) out.new result }
{
    let mut sines = [0u32; 901];
    let mut steps = [0u64; 64];
    let answer = networks::network(eclipse, h, &mut sines, &mut steps);
    match answer {
        Ok(named) => {
            let e = clock_network::checks::eclipse_from(eclipse);
            put_named(out, named, e, h, &sines, &steps)
        }
        Err(refusal) => listing_lines::lines::put_refused(out, 0, refusal),
    }
}

// The answer to a typed network, or what is wrong with it; and the output that it goes to. The other has nothing.
fn put_written(text: &[u8], out: &mut [u8]) -> Text
    ensures text { Put out.old 0 (output text.now ++ error text.now) out.new result.length }
    ensures sent { Sent result.descriptor (output text.now ++ error text.now) (output text.now) (error text.now) }
{
    if 65536 < text.len() {
        let long = decimal_text::put_text(out, 0, b"the text has more than 65,536 bytes\n");
        return Text {
            descriptor: ERROR,
            length: long,
        };
    }
    let mut eclipse = [0i64; 25];
    let reading = network_text::network(text, &mut eclipse);
    let typed = reading.answer;
    let held = reading.held;
    match typed {
        Ok(()) => {
            let printed = put_answer(out, &eclipse, held);
            Text {
                descriptor: OUTPUT,
                length: printed,
            }
        }
        Err((line, fault)) => {
            let told = put_fault(out, text, line, fault);
            Text {
                descriptor: ERROR,
                length: told,
            }
        }
    }
}

// What the program writes of its input, of which `length` bytes were read, and the output that it goes to. The text's
// array has a byte more than is taken, so that a longer text is seen. No message is longer than 65,623 bytes: its word
// is a part of the text. 64 lines of `station 999 steps 64` and one of `first 999 to -10800 sun down` are shorter.
fn respond(text: &[u8; 65537], length: usize, out: &mut [u8; 65623]) -> Text
    requires { Counts length text.now }
    ensures text { (s : List ℕ) → Read s text.now length → Sent result.descriptor (take result.length out.new) (take 65623 (output s)) (take 65623 (error s)) }
    ensures counts { Counts result.length out.new }
{
    let all: &[u8] = text;
    let written = put_written(&all[..length], out);
    Text {
        descriptor: written.descriptor,
        length: decimal_text::clipped(out, written.length),
    }
}

fn text_room() -> [u8; 65537] {
    [0; 65537]
}

fn written_room() -> [u8; 65623] {
    [0; 65623]
}

// Reads the input and writes the text of it, to the output that it goes to.
fn run<R: Read, O: Write, E: Write>(
    reader: &mut R,
    stdout: &mut O,
    stderr: &mut E,
) -> io::Result<()>
    ensures output { OnOk result (IfSome (R.remaining reader.old) (λ s. Appends (O.contents stdout.old) (O.contents stdout.new) (take 65623 (output s)))) }
    ensures error { OnOk result (IfSome (R.remaining reader.old) (λ s. Appends (E.contents stderr.old) (E.contents stderr.new) (take 65623 (error s)))) }
{
    let mut input = text_room();
    let length = program_io::read_input(reader, &mut input)?;
    let mut bytes = written_room();
    let text = respond(&input, length, &mut bytes);
    program_io::write_text(stdout, stderr, text, &bytes)
}

fn main(rt: HostRuntime) -> io::Result<()> {
    run(&mut rt.stdin(), &mut rt.stdout(), &mut rt.stderr())
}
