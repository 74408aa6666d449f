// A timing station: its record, the ranges of its numbers, and its place on Krasovsky's spheroid.
#![tactic(auto)]

ghost use Rattle.std.specs.Prelude.{◌≡◌, ◌≤◌, ◌+◌, ◌*◌, nat_abs};
ghost use Rattle.rounding.specs.Value.{Value};
ghost use Rattle.sine_table.specs.Table.{Sines};
ghost use Rattle.station.specs.Station.{fields, station_checked};
ghost use Rattle.station.specs.Sizes.{StationSizes};
ghost use Rattle.station.specs.Place.{C, ephemeris_longitude, place_of};

use sheet_types::refusals::Refusal;

#[repr(C)]
#[derive(Clone, Copy)]
pub struct Station {
    // Number, 1 to 999.
    pub number: i64,
    // Geodetic latitude, 10^-6 degree, north positive, ±90,000,000.
    pub latitude: i64,
    // Longitude, 10^-6 degree, EAST positive, ±180,000,000.
    pub longitude: i64,
    // Height above the spheroid, metres, -500 to 9,000.
    pub height: i64,
    // ΔT, ephemeris time less universal time, hundredths of a second, -10,000 to 20,000.
    pub deltat: i64,
}

// Where the station stands in the Earth, and the constant part of its hour angle.
#[derive(Clone, Copy)]
pub struct Place {
    // R: distance from the Earth's axis, 10^-8 of the equatorial radius, ρ cos φ', ±101,000,000.
    pub r: i64,
    // P: distance from the plane of the equator, north positive, the same unit, ρ sin φ', ±101,000,000.
    pub p: i64,
    // Ephemeris longitude, what the hour angle has more than μ: the longitude less the Earth's turn in ΔT, 10^-6
    // degree, EAST positive, ±180,835,614.
    pub longitude: i64,
}

// Two arrays, as `sheet_types::refusals::of_ranges` takes them.
const LOWS: [i64; 5] = [1, -90_000_000, -180_000_000, -500, -10_000];

const HIGHS: [i64; 5] = [999, 90_000_000, 180_000_000, 9_000, 20_000];

// The numbers of the record, in their order.
fn listed(s: Station) -> [i64; 5]
    ensures { result ≡ fields s }
{
    let number = s.number;
    let latitude = s.latitude;
    let longitude = s.longitude;
    let height = s.height;
    let deltat = s.deltat;
    [number, latitude, longitude, height, deltat]
}

// Refusal 3 with the first number that is out of its range: 0 number, 1 latitude, 2 longitude, 3 height, 4 ΔT.
pub fn check(s: Station) -> Result<(), Refusal>
    ensures { result ≡ station_checked s }
{
    let values = listed(s);
    let lows = LOWS;
    let highs = HIGHS;
    sheet_types::refusals::of_ranges(3, &values, &lows, &highs)
}

// (1 - flattening)^2 of Krasovsky's spheroid, 10^-8.
const E: i64 = 99_330_658;

// C of document 01, near(10^16/W), from the sine and cosine of the latitude.
fn c_of(sine: i64, cosine: i64) -> i64
    requires { (nat_abs sine ≤ 100000000) × (nat_abs cosine ≤ 100000000) × (9960000000000000 ≤ nat_abs sine * nat_abs sine + nat_abs cosine * nat_abs cosine) }
    ensures { Value (C sine cosine) 100600000 result }
{
    let e = rounding::near_unit(sine * E);
    let under = cosine * cosine + e * sine;
    let w = rounding::root(under as u64);
    rounding::near(10_000_000_000_000_000, w as i64)
}

// The longitude less the Earth's turn in ΔT, 417,807 of 10^-10 degree in a hundredth of a second.
fn ephemeris_longitude(longitude: i64, deltat: i64) -> i64
    requires { (nat_abs longitude ≤ 180000000) × (nat_abs deltat ≤ 20000) }
    ensures { Value (ephemeris_longitude longitude deltat) 180835614 result }
{
    longitude - rounding::near(deltat * 417_807, 10_000)
}

// The place of a station: R, P and the longitude that its hour angle counts.
pub fn geocentric(table: &[u32], s: Station) -> Place
    requires { (Sines table.now) × (StationSizes s) }
    ensures { result ≡ place_of s }
{
    let latitude = s.latitude;
    let height = s.height;
    let longitude = s.longitude;
    let deltat = s.deltat;
    let angle = sine::reduced(latitude);
    let sine = sine::sine(table, angle);
    let cosine = sine::cosine(table, angle);
    let c = c_of(sine, cosine);
    let z = rounding::near_unit(c * E);
    let h = rounding::near(height * 100_000_000, 6_378_245);
    let r = rounding::near_unit((c + h) * cosine);
    let p = rounding::near_unit((z + h) * sine);
    let longitude = ephemeris_longitude(longitude, deltat);
    Place { r, p, longitude }
}
