// A station's line: what stands after its name.
ghost use Rattle.std.specs.Prelude.{◌≡◌, ◌<◌};
ghost use Rattle.network_text.specs.Stations.{field_of, fault_of, word_of, node_of, station_of};

use super::{Fault, Said};
use clock_network::stations::Node;
use request_format::fields::Shape;
use station::Station;
use tokens::Class;

// The number of a typed request that word k is: the clock is a station's number.
fn field_of(k: usize) -> usize
    ensures { (result ≡ field_of k) × (result < 30) }
{
    if k < 5 { 22 + k } else { 22 }
}

// What is wrong with word k; for the clock the fault is not named.
fn fault_of(k: usize, fault: request_text::Fault) -> Fault
    ensures { result ≡ fault_of k fault }
{
    if k == 5 {
        return Fault::Clock;
    }
    Fault::Typed(fault)
}

// The value of word k.
fn word_of(k: usize, word: &[u8]) -> Result<i64, Fault>
    ensures { result ≡ word_of k word.now }
{
    let field = field_of(k);
    let line = request_text::value_of(Shape::Eclipse, field, word);
    let said = line.map_err(|fault| fault_of(k, fault))?;
    let (_, value) = said.ok_or(Fault::Clock)?;
    Ok(value)
}

// The station of its six numbers.
fn node_of(row: [i64; 6]) -> Node
    ensures { result ≡ node_of row }
{
    let number = row[0];
    let latitude = row[1];
    let longitude = row[2];
    let height = row[3];
    let deltat = row[4];
    let clock = row[5];
    Node {
        station: Station {
            number,
            latitude,
            longitude,
            height,
            deltat,
        },
        clock,
    }
}

// The station of six words, a word for each number; or the first fault.
pub fn of_station(s: &[u8]) -> Result<Said, Fault>
    ensures { result ≡ station_of s.now }
{
    let mut row = [0i64; 6];
    let mut at = 0;
    for k in 0..6 {
        let gap = tokens::run(&s[at..], Class::Blank);
        let from = at + gap;
        let size = tokens::run(&s[from..], Class::Word);
        let end = from + size;
        row[k] = word_of(k, &s[from..end])?;
        at = end;
    }
    let bare = tokens::all(&s[at..], Class::Blank);
    if !bare {
        return Err(Fault::Clock);
    }
    Ok(Said::Station(node_of(row)))
}
