// The horizon at a second of an occultation: altitude and azimuth of the Sun or the star, and the direction of the
// zenith from it. No refraction, no dip.
#![tactic(auto)]

pub mod altitudes;

ghost use Rattle.std.specs.Prelude.{◌≡◌, ◌≤◌, nat_abs, ◌-ℤ◌, ◌*ℤ◌};
ghost use Rattle.rounding.specs.Units.{one};
ghost use Rattle.rounding.specs.Near.{near};
ghost use Rattle.rounding.specs.Value.{Value};
ghost use Rattle.sine_table.specs.Table.{S, Sines};
ghost use Rattle.shadow_geometry.specs.Direction.{direction};
ghost use Rattle.shadow.specs.Shadow.{OrientationSizes};
ghost use Rattle.requests.specs.RequestLaws.{InLimits};
ghost use Rattle.horizon.specs.Horizon.{altitude_sine, east, north, zenith_east, zenith_north, horizon_of, horizon_at, horizon_answer, horizon_sines};

use requests::Occultation;
use shadow::Orientation;
use sheet_types::refusals::Refusal;

// Where the Sun or the star stands.
#[derive(Clone, Copy)]
pub struct Horizon {
    // tenths of a degree, rounded down, -900 to 900
    pub altitude: i64,
    // tenths of a degree from north through east, 0 to 3599, or 65,535 where it stands in the zenith or the nadir
    pub azimuth: u16,
    // the direction of the zenith from its centre, likewise
    pub zenith: u16,
}

// The sine of the altitude, not yet kept within ±10^8.
fn altitude_sine(sine: i64, cosine: i64, o: Orientation) -> i64
    requires { (nat_abs sine ≤ 100000000) × (nat_abs cosine ≤ 100000000) × (OrientationSizes o) }
    ensures { Value (altitude_sine sine cosine o) 200000000 result }
{
    let hcosine = o.hcosine;
    let dsine = o.dsine;
    let dcosine = o.dcosine;
    let q = rounding::near_unit(cosine * hcosine);
    rounding::near_unit(sine * dsine + q * dcosine)
}

// The direction of the point that lies near(a·b) to the east and near(c·d - near(e·f)·g) to the north, over 10^8 each.
fn bearing(table: &[u32], a: i64, b: i64, c: i64, d: i64, e: i64, f: i64, g: i64) -> u16
    requires { (Sines table.now) × (nat_abs a ≤ 100000000) × (nat_abs b ≤ 100000000) × (nat_abs c ≤ 100000000) × (nat_abs d ≤ 100000000) × (nat_abs e ≤ 100000000) × (nat_abs f ≤ 100000000) × (nat_abs g ≤ 100000000) }
    ensures { result ≡ direction S (near (a *ℤ b) one) (near (c *ℤ d -ℤ near (e *ℤ f) one *ℤ g) one) }
{
    let q = rounding::near_unit(e * f);
    let east = rounding::near_unit(a * b);
    let north = rounding::near_unit(c * d - q * g);
    shadow::directions::direction(table, east, north)
}

// The azimuth.
fn azimuth(table: &[u32], sine: i64, cosine: i64, o: Orientation) -> u16
    requires { (Sines table.now) × (nat_abs sine ≤ 100000000) × (nat_abs cosine ≤ 100000000) × (OrientationSizes o) }
    ensures { result ≡ direction S (east o) (north sine cosine o) }
{
    let hsine = o.hsine;
    let hcosine = o.hcosine;
    let dsine = o.dsine;
    let dcosine = o.dcosine;
    let opposite = 0 - dcosine;
    bearing(
        table, opposite, hsine, cosine, dsine, sine, hcosine, dcosine,
    )
}

// The direction of the zenith.
fn zenith(table: &[u32], sine: i64, cosine: i64, o: Orientation) -> u16
    requires { (Sines table.now) × (nat_abs sine ≤ 100000000) × (nat_abs cosine ≤ 100000000) × (OrientationSizes o) }
    ensures { result ≡ direction S (zenith_east cosine o) (zenith_north sine cosine o) }
{
    let hsine = o.hsine;
    let hcosine = o.hcosine;
    let dsine = o.dsine;
    let dcosine = o.dcosine;
    bearing(table, cosine, hsine, sine, dcosine, cosine, hcosine, dsine)
}

// The three, of the sine and the cosine of the latitude and of the sines and cosines of H and d.
fn horizon_of(table: &[u32], sine: i64, cosine: i64, o: Orientation) -> Horizon
    requires { (Sines table.now) × (nat_abs sine ≤ 100000000) × (nat_abs cosine ≤ 100000000) × (OrientationSizes o) }
    ensures { result ≡ horizon_of sine cosine o }
{
    let a = altitudes::kept(altitude_sine(sine, cosine, o));
    let altitude = altitudes::altitude(table, a);
    let azimuth = azimuth(table, sine, cosine, o);
    let zenith = zenith(table, sine, cosine, o);
    Horizon {
        altitude,
        azimuth,
        zenith,
    }
}

// The horizon at a second of an occultation within its limits, from a filled sine table.
pub fn horizon_within(table: &[u32], o: Occultation, t: i64) -> Horizon
    requires { (Sines table.now) × (InLimits o) × (nat_abs t ≤ 10800) }
    ensures { result ≡ horizon_at o t }
{
    let s = o.station;
    let body = o.body;
    let axis = elements::stars::axis_of(body);
    let place = station::geocentric(table, s);
    let mu = axis.mu;
    let declination = axis.d;
    let longitude = place.longitude;
    let latitude = s.latitude;
    let h = elements::quadratic_at(mu, t) + longitude;
    let d = elements::quadratic_at(declination, t);
    let orientation = shadow::orientation_of(table, h, d);
    let angle = sine::reduced(latitude);
    let sine = sine::sine(table, angle);
    let cosine = sine::cosine(table, angle);
    horizon_of(table, sine, cosine, orientation)
}

// The horizon at second t of an occultation, which may lie outside its window; `sines` is the buffer for table S.
pub fn horizon_at(o: Occultation, t: i64, sines: &mut [u32]) -> Result<Horizon, Refusal>
    ensures answer { result ≡ horizon_answer o t sines.old }
    ensures sines { sines.new ≡ horizon_sines o t sines.old }
{
    // As `seconds::second` begins; a function for both would be no shorter than these two tests.
    let inside = requests::windows::in_span(t);
    if !inside {
        return Err(Refusal {
            number: 1,
            place: 0,
        });
    }
    requests::admission::admit(o, sines)?;
    let x = horizon_within(sines, o, t);
    Ok(x)
}
