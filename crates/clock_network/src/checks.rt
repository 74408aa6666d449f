// What a network's list is refused for before the buffer for table S: 19, 1, 2, 3, 14, 15, 16. The list is taken as a
// value (crate `nodes`).
ghost use Rattle.std.specs.Prelude.{◌≡◌, ◌≤◌, List, length, get_or, take};
ghost use Rattle.requests.specs.Requests as Requests;
ghost use Rattle.requests.specs.Requests.{of_eclipse};
ghost use Rattle.clock_network.specs.declared.stations.Node.{Node};
ghost use Rattle.clock_network.specs.Held.{blank_node};
ghost use Rattle.clock_network.specs.Nodes.{Holds};
ghost use Rattle.clock_network.specs.Checks.{eclipse_of, request_of, stations_checked, clocks_checked, checked};

use crate::stations::Held;
use sheet_types::refusals::Refusal;
use station::Station;

// What all stations of the list look at.
#[derive(Clone, Copy)]
pub struct Eclipse {
    pub elements: elements::Elements,
    pub window: requests::windows::Window,
    // as a request's
    pub guard: i64,
}

// The eclipse of 25 numbers: the 22 elements, the window's first and last second, the guard.
pub fn eclipse_from(n: &[i64]) -> Eclipse
    requires { length n.now ≡ 25 }
    ensures { result ≡ eclipse_of n.now }
{
    let elements = elements::from_numbers(n);
    let first = n[22];
    let last = n[23];
    let guard = n[24];
    let window = requests::windows::Window { first, last };
    Eclipse {
        elements,
        window,
        guard,
    }
}

// The request that a station would send alone.
pub fn request(e: Eclipse, s: Station) -> requests::Request
    ensures { result ≡ request_of e s }
{
    let elements = e.elements;
    let window = e.window;
    requests::Request {
        elements,
        station: s,
        window,
        guard: e.guard,
        share: false,
    }
}

// What the first station's request is refused for.
fn check_first(e: Eclipse, h: Held) -> Result<(), Refusal>
    requires { length h.nodes ≡ 64 }
    ensures { result ≡ Requests.checked (of_eclipse (request_of e (get_or h.nodes 0 blank_node).station)) }
{
    let first = h.nodes[0];
    let s = first.station;
    let q = request(e, s);
    let o = requests::of_eclipse(q);
    requests::check(o)
}

// The first station of the list with a number out of its range: 3 with ten times its place and the field.
fn check_stations(h: Held) -> Result<(), Refusal>
    requires { (h.count ≤ 64) × (length h.nodes ≡ 64) }
    ensures { result ≡ stations_checked 0 (take h.count h.nodes) }
{
    let n = h.count;
    for (i, x) in h.nodes[..n].iter().enumerate() {
        station::check(x.station).map_err(move |r| Refusal {
            number: r.number,
            place: 10 * i + r.place,
        })?;
    }
    Ok(())
}

// The first number already used: 14; the first clock neither 0 nor in the list: 15; the first chain that never reaches
// the antenna: 16.
fn check_clocks(numbers: &[i64], clocks: &[i64]) -> Result<(), Refusal>
    requires { (length clocks.now ≡ length numbers.now) × (length numbers.now ≤ 64) }
    ensures { result ≡ clocks_checked numbers.now clocks.now }
{
    let n = numbers.len();
    let repeat = crate::strata::first_repeat(numbers);
    if repeat < n {
        return Err(Refusal {
            number: 14,
            place: repeat,
        });
    }
    let stray = crate::strata::first_stray(numbers, clocks);
    if stray < n {
        return Err(Refusal {
            number: 15,
            place: stray,
        });
    }
    let lost = crate::strata::first_lost(numbers, clocks);
    if lost < n {
        return Err(Refusal {
            number: 16,
            place: lost,
        });
    }
    Ok(())
}

// All of them. 1 and 2 are those of the first station's request: they are the same for every station, and its 3 has
// place 0 in the list.
pub fn check(e: Eclipse, h: Held) -> Result<(), Refusal>
    requires { length h.nodes ≡ 64 }
    ensures { (l : List Node) → Holds h l → result ≡ checked e l }
{
    let n = h.count;
    let sized = (1 <= n) & (n <= 64);
    if !sized {
        return Err(Refusal {
            number: 19,
            place: 0,
        });
    }
    check_first(e, h)?;
    check_stations(h)?;
    let numbers = crate::stations::numbers(h);
    let clocks = crate::stations::clocks(h);
    check_clocks(&numbers[..n], &clocks[..n])
}
