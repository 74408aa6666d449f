// The request that bytes hold: an eclipse's here, a star's in module `stars`.
pub mod stars;

ghost use Rattle.std.specs.Prelude.{◌≡◌, ◌+◌, ◌≤◌, length};
ghost use Rattle.request_format.specs.Input.{station_from, window_from, request_from, input_of, sharing, eclipse_asked, delta_of};
ghost use Rattle.request_format.specs.laws.InputLaws.{Small};
ghost use Rattle.request_format.specs.declared.fields.Shape.TheVariants.{Eclipse};

use requests::{Occultation, Request};
use sheet_types::refusals::Refusal;

// ---- the request of its numbers

// The station whose five numbers stand from place `at` on.
fn station_from(n: &[i64], at: usize) -> station::Station
    requires { at + 5 ≤ length n.now }
    ensures { result ≡ station_from at n.now }
{
    let number = n[at];
    let latitude = n[at + 1];
    let longitude = n[at + 2];
    let height = n[at + 3];
    let deltat = n[at + 4];
    station::Station {
        number,
        latitude,
        longitude,
        height,
        deltat,
    }
}

// The window whose two numbers stand from place `at` on.
fn window_from(n: &[i64], at: usize) -> requests::windows::Window
    requires { at + 2 ≤ length n.now }
    ensures { result ≡ window_from at n.now }
{
    let first = n[at];
    let last = n[at + 1];
    requests::windows::Window { first, last }
}

// The request of its numbers, in document 01's order.
fn request_from(n: &[i64]) -> Request
    requires { Small Eclipse n.now }
    ensures { result ≡ request_from n.now }
{
    let elements = elements::from_numbers(n);
    let station = station_from(n, 22);
    let window = window_from(n, 27);
    let guard = n[29];
    Request {
        elements,
        station,
        window,
        guard,
        share: false,
    }
}

// The request that the bytes hold, or refusal 10. Any bytes.
pub fn request(input: &[u8]) -> Result<Request, Refusal>
    ensures { result ≡ input_of input.now }
{
    let mut numbers = [0i64; crate::fields::COUNT];
    let misshaped = Refusal {
        number: 10,
        place: 0,
    };
    crate::bytes::get(input, &mut numbers).ok_or(misshaped)?;
    Ok(request_from(&numbers))
}

// ---- what it asks for

// What the bytes of an eclipse ask for, or the refusal of their shape.
pub fn of_eclipse(input: Result<Request, Refusal>) -> Result<Occultation, Refusal>
    ensures { result ≡ eclipse_asked input }
{
    let q = input?;
    Ok(requests::of_eclipse(q))
}

// The same, with a share asked for.
pub fn with_share(asked: Result<Request, Refusal>) -> Result<Request, Refusal>
    ensures { result ≡ sharing asked }
{
    let mut wish = asked?;
    wish.share = true;
    Ok(wish)
}

// ---- the station's ΔT, for those who print times

// The ΔT of the bytes' station, in hundredths of a second; 0 where they are misshaped. Any bytes.
pub fn deltat(input: &[u8]) -> i64
    ensures { result ≡ delta_of input.now }
{
    let asked = request(input);
    match asked {
        Ok(q) => {
            let s = q.station;
            s.deltat
        }
        Err(_) => 0,
    }
}
