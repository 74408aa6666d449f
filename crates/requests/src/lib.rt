// A request: the elements of an eclipse, a station, a window of seconds, a guard, and whether a share is asked for; or
// a star's. Both ask for an occultation. Its limits, and the refusals 1, 2, 13 and 3.
#![tactic(auto)]

pub mod admission;
pub mod windows;

ghost use Rattle.std.specs.Prelude.{◌≡◌};
ghost use Rattle.requests.specs.Requests.{of_eclipse, of_star, guard_holds, checked};
ghost use Rattle.requests.specs.Shares.{sharing};

use crate::windows::Window;
use elements::Body;
use sheet_types::refusals::Refusal;

// What the sheet of an eclipse is asked for: any numbers.
#[derive(Clone, Copy)]
pub struct Request {
    pub elements: elements::Elements,
    pub station: station::Station,
    pub window: Window,
    // how near to a cone's edge nothing is said, 10^-8 of the Earth's equatorial radius, 16 to 1,000
    pub guard: i64,
    // whether the sheet has the covered share at the closest second
    pub share: bool,
}

// What the sheet of a star is asked for: any numbers. It has no share.
#[derive(Clone, Copy)]
pub struct StarRequest {
    pub star: elements::Star,
    pub station: station::Station,
    pub window: Window,
    // as an eclipse's
    pub guard: i64,
}

// What the Moon hides, where and when: of an eclipse or of a star.
#[derive(Clone, Copy)]
pub struct Occultation {
    pub body: Body,
    pub station: station::Station,
    pub window: Window,
    pub guard: i64,
    // asked for of the Sun alone
    pub share: bool,
}

// A function and no `From`: other crates' definitions and proofs name it, as they name `of_star`.
pub fn of_eclipse(q: Request) -> Occultation
    ensures { result ≡ of_eclipse q }
{
    let e = q.elements;
    let body = Body::Sun(e);
    let station = q.station;
    let window = q.window;
    Occultation {
        body,
        station,
        window,
        guard: q.guard,
        share: q.share,
    }
}

pub fn of_star(q: StarRequest) -> Occultation
    ensures { result ≡ of_star q }
{
    let s = q.star;
    let body = Body::Star(s);
    let station = q.station;
    let window = q.window;
    Occultation {
        body,
        station,
        window,
        guard: q.guard,
        share: false,
    }
}

// Whether the sheet has the covered share: a star's has none.
pub fn shares(o: Occultation) -> bool
    ensures { result ≡ sharing o }
{
    let body = o.body;
    match body {
        Body::Sun(_) => o.share,
        Body::Star(_) => false,
    }
}

fn guard_holds(g: i64) -> bool
    ensures { result ≡ guard_holds g }
{
    (16 <= g) & (g <= 1_000)
}

// Whether it is within its limits, or the first of its refusals 1, 2, 13, 3.
pub fn check(o: Occultation) -> Result<(), Refusal>
    ensures { result ≡ checked o }
{
    let w = o.window;
    let holds = crate::windows::window_holds(w);
    if !holds {
        return Err(Refusal {
            number: 1,
            place: 0,
        });
    }
    let g = o.guard;
    let guarded = guard_holds(g);
    if !guarded {
        return Err(Refusal {
            number: 1,
            place: 1,
        });
    }
    let body = o.body;
    elements::stars::check_body(body)?;
    let s = o.station;
    station::check(s)
}
