// The star request that bytes hold.
ghost use Rattle.std.specs.Prelude.{◌≡◌};
ghost use Rattle.request_format.specs.declared.fields.Shape.TheVariants.{Star};
ghost use Rattle.request_format.specs.Input.{star_from, star_asked, star_delta};
ghost use Rattle.request_format.specs.laws.InputLaws.{Small};

use requests::{Occultation, StarRequest};
use sheet_types::refusals::Refusal;

// The request of its numbers.
fn request_from(n: &[i64]) -> StarRequest
    requires { Small Star n.now }
    ensures { result ≡ star_from n.now }
{
    let star = elements::stars::from_numbers(n);
    let station = super::station_from(n, 13);
    let window = super::window_from(n, 18);
    let guard = n[20];
    StarRequest {
        star,
        station,
        window,
        guard,
    }
}

// What the bytes ask for, or refusal 10. Any bytes.
pub fn asked(input: &[u8]) -> Result<Occultation, Refusal>
    ensures { result ≡ star_asked input.now }
{
    let mut numbers = [0i64; crate::fields::STAR_COUNT];
    let misshaped = Refusal {
        number: 10,
        place: 0,
    };
    crate::bytes::get_star(input, &mut numbers).ok_or(misshaped)?;
    let q = request_from(&numbers);
    Ok(requests::of_star(q))
}

// The ΔT of the bytes' station, in hundredths of a second; 0 where they are misshaped. Any bytes.
pub fn deltat(input: &[u8]) -> i64
    ensures { result ≡ star_delta input.now }
{
    let wish = asked(input);
    match wish {
        Ok(o) => {
            let s = o.station;
            s.deltat
        }
        Err(_) => 0,
    }
}
