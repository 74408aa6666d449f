// The shadow at one second: where the station is in it, and what is seen there.
#![tactic(auto)]

pub mod bodies;
pub mod directions;

ghost use Rattle.std.specs.Prelude.{◌≡◌, ◌≤◌, ℤ, pos, nat_abs, ◌-ℤ◌, ◌*ℤ◌, ◌≤ℤ◌, ◌<ℤ◌};
ghost use Rattle.sheet_types.specs.States.{code, state_of};
ghost use Rattle.rounding.specs.Units.{one};
ghost use Rattle.rounding.specs.Near.{near};
ghost use Rattle.rounding.specs.Value.{Value};
ghost use Rattle.sine_table.specs.Table.{Sines};
ghost use Rattle.elements.specs.declared.Axis.{Axis};
ghost use Rattle.elements.specs.Sizes.{AxisSizes, ConeSizes, ElementSizes};
ghost use Rattle.station.specs.Sizes.{PlaceSizes};
ghost use Rattle.shadow_geometry.specs.Shadow.{state};
ghost use Rattle.shadow_geometry.specs.Magnitude.{millionths, magnitude};
ghost use Rattle.shadow.specs.Shadow.{IsOrientation, OrientationSizes, AreCoordinates, radius_at, AxisAtSizes, Stands, IsOffset, IsShadow};
ghost use Rattle.shadow.specs.Second.{ShadowSizes, StatesOf, IsSecond, magnitude_at};

// How the shadow's axis stands to the station's meridian: sines and cosines of H and d, 10^-8, each ±100,000,000.
#[derive(Clone, Copy)]
pub struct Orientation {
    // sin H
    pub hsine: i64,
    // cos H
    pub hcosine: i64,
    // sin d
    pub dsine: i64,
    // cos d
    pub dcosine: i64,
}

// The station's coordinates in the fundamental system, 10^-8 of the Earth's equatorial radius.
#[derive(Clone, Copy)]
pub struct Coordinates {
    // ξ, to the east, ±101,000,000
    pub xi: i64,
    // η, to the north, ±202,000,000
    pub eta: i64,
    // ζ, toward the Moon, ±202,000,000
    pub zeta: i64,
}

// The shadow's axis at a moment.
#[derive(Clone, Copy)]
pub struct AxisAt {
    // where it meets the fundamental plane, to the east, 10^-8 of the Earth's equatorial radius, ±501,170,000
    pub x: i64,
    // the same to the north
    pub y: i64,
    // its declination, 10^-6 degree, ±500,000,000
    pub d: i64,
    // its hour angle at Greenwich, likewise
    pub mu: i64,
}

// The shadow's axis from the station, the same unit.
#[derive(Clone, Copy)]
pub struct Offset {
    // u, to the east, ±602,170,000
    pub u: i64,
    // v, to the north, ±703,170,000
    pub v: i64,
    // ζ of the station, ±202,000,000
    pub zeta: i64,
    // M = u² + v², 0 to 1,000,000,000,000,000,000
    pub m: i64,
}

// The shadow at the station, the same unit.
#[derive(Clone, Copy)]
pub struct Shadow {
    // u, the axis from the station, to the east, ±602,170,000
    pub u: i64,
    // v, the same to the north, ±651,170,000
    pub v: i64,
    // L1, the penumbra's radius at the station, 48,860,000 to 61,140,000
    pub l1: i64,
    // L2, that of the central cone, below zero where the eclipse is total, ±6,140,000
    pub l2: i64,
    // M = u² + v², 0 to 800,000,000,000,000,000
    pub m: i64,
}

// The states of a second of an eclipse.
#[derive(Clone, Copy)]
pub struct States {
    // of the penumbra: 0 outside, 1 inside, 2 unsure
    pub penumbra: u8,
    // of the central cone, likewise
    pub central: u8,
    // M, by which the closest second is found
    pub m: i64,
}

// The shadow at a second in its phases, of an eclipse or of a star, the same unit.
#[derive(Clone, Copy)]
pub struct Sample {
    // u, the axis from the station, to the east, ±602,170,000
    pub u: i64,
    // v, the same to the north, ±703,170,000
    pub v: i64,
    // M = u² + v², 0 to 1,000,000,000,000,000,000
    pub m: i64,
    // L of the first phase, the penumbra's or the star's, ±600,000,000
    pub first: i64,
    // L of the second, with its sign; the star's again where there is no second
    pub second: i64,
}

// All that is said of a second of an eclipse; of a star's too, whose one phase stands for both.
#[derive(Clone, Copy)]
pub struct Second {
    // a star's: v ±703,170,000, L1 and L2 both the Moon's radius, 27,200,000 to 27,300,000
    pub shadow: Shadow,
    // 0 outside, 1 inside, 2 unsure
    pub penumbra: u8,
    // likewise
    pub central: u8,
    // millionths, 0 to 1,300,000; a star's 0
    pub magnitude: u32,
    // of the axis from the station, tenths of a degree, north through east: 0 to 3599, or 65,535 where u = v = 0
    pub direction: u16,
}

// The sines and cosines of H and d.
pub fn orientation_of(table: &[u32], h: i64, d: i64) -> Orientation
    requires { (Sines table.now) × (nat_abs h ≤ 10000000000) × (nat_abs d ≤ 10000000000) }
    ensures { IsOrientation h d result }
{
    let a = sine::reduced(h);
    let b = sine::reduced(d);
    let hsine = sine::sine(table, a);
    let hcosine = sine::cosine(table, a);
    let dsine = sine::sine(table, b);
    let dcosine = sine::cosine(table, b);
    Orientation {
        hsine,
        hcosine,
        dsine,
        dcosine,
    }
}

// ξ, η and ζ of a place.
pub fn coordinates_of(place: station::Place, o: Orientation) -> Coordinates
    requires { (PlaceSizes place) × (OrientationSizes o) }
    ensures { AreCoordinates place o result }
{
    let r = place.r;
    let p = place.p;
    let hsine = o.hsine;
    let hcosine = o.hcosine;
    let dsine = o.dsine;
    let dcosine = o.dcosine;
    let q = rounding::near_unit(r * hcosine);
    let xi = rounding::near_unit(r * hsine);
    let eta = rounding::near_unit(p * dcosine - q * dsine);
    let zeta = rounding::near_unit(p * dsine + q * dcosine);
    Coordinates { xi, eta, zeta }
}

// u, v, ζ and M of any axis, from where it stands.
pub fn offset_of(table: &[u32], axis: AxisAt, place: station::Place) -> Offset
    requires { (Sines table.now) × (AxisAtSizes axis) × (PlaceSizes place) }
    ensures { (a : Axis) (τ : ℤ) → Stands a τ axis → IsOffset a place τ result }
{
    let o = orientation_of(table, axis.mu + place.longitude, axis.d);
    let c = coordinates_of(place, o);
    let u = axis.x - c.xi;
    let v = axis.y - c.eta;
    let m = u * u + v * v;
    Offset {
        u,
        v,
        zeta: c.zeta,
        m,
    }
}

// The same at second t.
pub fn offset_at(table: &[u32], axis: elements::Axis, place: station::Place, t: i64) -> Offset
    requires { (Sines table.now) × (AxisSizes 90000000 axis) × (PlaceSizes place) × (nat_abs t ≤ 10800) }
    ensures { IsOffset axis place t result }
{
    let at = AxisAt {
        x: elements::cubic_at(axis.x, t),
        y: elements::cubic_at(axis.y, t),
        d: elements::quadratic_at(axis.d, t),
        mu: elements::quadratic_at(axis.mu, t),
    };
    offset_of(table, at, place)
}

// L of a cone at height ζ, from its l: less the cone's term.
pub fn radius_of(l: i64, tanf: i64, zeta: i64) -> i64
    requires { (nat_abs l ≤ 500000000) × (nat_abs tanf ≤ 500000) × (nat_abs zeta ≤ 202000000) }
    ensures { Value (l -ℤ near (zeta *ℤ tanf) one) 600000000 result }
{
    l - rounding::near_unit(zeta * tanf)
}

// The same at second t.
fn radius_at(cone: elements::Cone, zeta: i64, t: i64) -> i64
    requires { (ConeSizes 60000000 cone) × (nat_abs zeta ≤ 202000000) × (nat_abs t ≤ 10800) }
    ensures { Value (radius_at cone zeta t) 600000000 result }
{
    radius_of(elements::quadratic_at(cone.l, t), cone.tanf, zeta)
}

// u, v, L1, L2 and M at a place, at second t.
pub fn shadow_at(table: &[u32], e: elements::Elements, place: station::Place, t: i64) -> Shadow
    requires { (Sines table.now) × (ElementSizes e) × (PlaceSizes place) × (nat_abs t ≤ 10800) }
    ensures { IsShadow e place t result }
{
    let axis = e.axis;
    let penumbra = e.penumbra;
    let central = e.central;
    let o = offset_at(table, axis, place, t);
    let u = o.u;
    let v = o.v;
    let zeta = o.zeta;
    let m = o.m;
    let l1 = radius_at(penumbra, zeta, t);
    let l2 = radius_at(central, zeta, t);
    Shadow { u, v, l1, l2, m }
}

// 0 outside, 1 inside, 2 unsure: where a distance whose square is m stands to a radius l, under a guard. No root is
// taken. A byte and no enum: a sheet and the C interface have these bytes, and `run_length` counts them.
pub fn state(guard: i64, l: i64, m: i64) -> u8
    requires { (nat_abs guard ≤ 1000) × (nat_abs l ≤ 600000000) × (nat_abs m ≤ 1000000000000000000) }
    ensures { result ≡ code (state guard l m) }
{
    let inner = l - guard;
    let outer = l + guard;
    if guard < l {
        if m < inner * inner {
            return 1;
        }
    }
    if outer * outer < m { 0 } else { 2 }
}

// n / d in millionths, rounded down, and 0 below 0.
fn share(n: i64, d: i64) -> u32
    requires { (nat_abs n ≤ 2000000000) × (nat_abs d ≤ 2000000000) × (pos 0 <ℤ d) × (millionths n d ≤ 1300000) }
    ensures { result ≡ millionths n d }
{
    if n < 0 {
        return 0;
    }
    let q = (1_000_000 * n) / d;
    q as u32
}

// The magnitude in millionths, of L1, of L2 with its sign, of M and of the state of central.
fn magnitude(l1: i64, l2: i64, m: i64, central: u8) -> u32
    requires l1_bound { (nat_abs l1 ≤ 600000000) × (nat_abs l2 ≤ 600000000) × (nat_abs m ≤ 1000000000000000000) × (pos 0 ≤ℤ m) }
    requires pos_bound { (pos 0 <ℤ l1) × ((pos 23 *ℤ pos (nat_abs l2)) ≤ℤ (pos 3 *ℤ l1)) }
    ensures { (result ≡ magnitude (state_of central) l1 l2 m) × (result ≤ 1300000) }
{
    let sum = l1 + l2;
    if central == 1 {
        return share(l1 - l2, sum);
    }
    let distance = rounding::root(m as u64);
    share(l1 - distance as i64, sum)
}

// The states of a shadow under a guard.
fn states_of(guard: i64, s: Shadow) -> States
    requires { (nat_abs guard ≤ 1000) × (ShadowSizes s) }
    ensures { StatesOf guard s result }
{
    let l1 = s.l1;
    let l2 = s.l2;
    let m = s.m;
    let penumbra = state(guard, l1, m);
    let central = state(guard, rounding::abs(l2), m);
    States {
        penumbra,
        central,
        m,
    }
}

// The magnitude at a second of an eclipse.
pub fn magnitude_at(
    table: &[u32],
    e: elements::Elements,
    place: station::Place,
    t: i64,
    guard: i64,
) -> u32
    requires { (Sines table.now) × (ElementSizes e) × (PlaceSizes place) × (nat_abs t ≤ 10800) × (nat_abs guard ≤ 1000) }
    ensures { result ≡ magnitude_at guard e place t }
{
    let s = shadow_at(table, e, place, t);
    let w = states_of(guard, s);
    magnitude(s.l1, s.l2, s.m, w.central)
}

// All of a second of an eclipse.
pub fn second_at(
    table: &[u32],
    e: elements::Elements,
    place: station::Place,
    t: i64,
    guard: i64,
) -> Second
    requires { (Sines table.now) × (ElementSizes e) × (PlaceSizes place) × (nat_abs t ≤ 10800) × (nat_abs guard ≤ 1000) }
    ensures { IsSecond guard e place t result }
{
    let s = shadow_at(table, e, place, t);
    let w = states_of(guard, s);
    let magnitude = magnitude(s.l1, s.l2, s.m, w.central);
    let direction = directions::direction(table, s.u, s.v);
    Second {
        shadow: s,
        penumbra: w.penumbra,
        central: w.central,
        magnitude,
        direction,
    }
}
