// One row of the tables of Sun and Moon: whether it is accepted, and its elements.
ghost use Rattle.std.specs.Prelude.{◌≡◌, true, ◌≤◌, ◌*◌, pos, nat_abs, ◌+ℤ◌, ◌-ℤ◌, ◌*ℤ◌, ◌≤ℤ◌};
ghost use Rattle.rounding.specs.Near.{near};
ghost use Rattle.rounding.specs.Value.{Value};
ghost use Rattle.besselian_rows.specs.Exact.{between, level, accepted, RadiiInRange, Faithful};
ghost use Rattle.besselian_rows.specs.Rounded.{millions, elements_of};
ghost use Rattle.besselian_rows.specs.AcceptedLaws.{Accepted};
ghost use Rattle.besselian_rows.specs.laws.Sizes.{IsRadii};
ghost use Rattle.besselian_rows.specs.Parts.{beyond, Given, IsAxis, IsDirections, IsPlane, IsCone};

// ---- refusals

// Whether x is farther than m from 0.
fn beyond(x: i64, m: i64) -> bool
    requires { nat_abs m ≤ 2400000000000 }
    ensures { result ≡ beyond x m }
{
    (x < -m) | (m < x)
}

// Whether a place is from low to high away. A coordinate beyond high is too far by itself; the squares of others fit.
// `Row`, of which the definitions speak, has six fields: a struct of x, y, z would be built at each call.
fn at_distance(x: i64, y: i64, z: i64, low: i64, high: i64) -> bool
    requires { (nat_abs low ≤ 2400000000000) × (nat_abs high ≤ 2400000000000) × (pos 0 ≤ℤ high) }
    ensures { result ≡ between x y z low high }
{
    let far_x = beyond(x, high);
    if far_x {
        return false;
    }
    let far_y = beyond(y, high);
    if far_y {
        return false;
    }
    let far_z = beyond(z, high);
    if far_z {
        return false;
    }
    let w = crate::squares::sum_of_squares(x, y, z);
    let a = crate::squares::square(low);
    let b = crate::squares::square(high);
    let enough = crate::squares::at_most(a, w);
    let near = crate::squares::at_most(w, b);
    enough & near
}

// Whether the size of the sine of a direction above the equator is at most 0.43.
fn is_level(x: i64, y: i64, z: i64) -> bool
    requires { (nat_abs x ≤ 2406500000000) × (nat_abs y ≤ 2406500000000) × (nat_abs z ≤ 2406500000000) }
    ensures { result ≡ level x y z }
{
    let w = crate::squares::sum_of_squares(x, y, z);
    let c = crate::squares::square(z);
    let a = crate::squares::Wide {
        high: 10_000 * c.high,
        mid: 10_000 * c.mid,
        low: 10_000 * c.low,
    };
    let b = crate::squares::Wide {
        high: 1849 * w.high,
        mid: 1849 * w.mid,
        low: 1849 * w.low,
    };
    crate::squares::at_most(a, b)
}

// Whether the Moon is 55 to 65 radii off, the Sun 23,000 to 24,000, and the size of the sine of d at most 0.43.
pub fn accepted(p: crate::besselian::Row) -> bool
    ensures { result ≡ accepted p }
{
    let moon = at_distance(p.moonx, p.moony, p.moonz, 5_500_000_000, 6_500_000_000);
    if !moon {
        return false;
    }
    let sun = at_distance(p.sunx, p.suny, p.sunz, 2_300_000_000_000, 2_400_000_000_000);
    if !sun {
        return false;
    }
    is_level(p.sunx - p.moonx, p.suny - p.moony, p.sunz - p.moonz)
}

// ---- the axis

// That a row is accepted stays a clause, and is no type: `accepted` speaks of rows that are not, and the clauses of
// public functions stay.

// The axis in thousands of units, and the squares of its lengths on the equator and whole.
#[derive(Clone, Copy)]
pub struct Axis {
    pub gx: i64,
    pub gy: i64,
    pub gz: i64,
    pub flat: u64,
    pub whole: u64,
}

fn thousands(a: i64, b: i64) -> i64
    requires { (nat_abs a ≤ 2400000000000) × (nat_abs b ≤ 6500000000) }
    ensures { Value (near (a -ℤ b) (pos 1000)) 2406500000 result }
{
    rounding::near(a - b, 1000)
}

fn squared(g: i64) -> u64
    requires { nat_abs g ≤ 2406500000 }
    ensures { result ≡ nat_abs g * nat_abs g }
{
    (g * g) as u64
}

pub fn find_axis(p: crate::besselian::Row) -> Axis
    requires { Accepted p }
    ensures { IsAxis p result }
{
    let gx = thousands(p.sunx, p.moonx);
    let gy = thousands(p.suny, p.moony);
    let gz = thousands(p.sunz, p.moonz);
    let xx = squared(gx);
    let yy = squared(gy);
    let zz = squared(gz);
    let flat = xx + yy;
    let whole = flat + zz;
    Axis {
        gx: gx,
        gy: gy,
        gz: gz,
        flat: flat,
        whole: whole,
    }
}

// The axis' lengths on the equator and whole, in thousands; cosine and sine of a, sine and cosine of d.
#[derive(Clone, Copy)]
pub struct Directions {
    pub r: u64,
    pub n: u64,
    pub cosa: i64,
    pub sina: i64,
    pub sind: i64,
    pub cosd: i64,
}

// g / n in 10^-8.
fn share(g: i64, n: u64) -> i64
    requires { (nat_abs g ≤ n) × (n ≤ 4200000000) × (1 ≤ n) }
    ensures { Value (near (g *ℤ pos 100000000) (pos n)) 100000000 result }
{
    rounding::near(g * 100_000_000, n as i64)
}

pub fn find_directions(p: crate::besselian::Row, a: Axis) -> Directions
    requires { Accepted p × IsAxis p a }
    ensures { IsDirections p result }
{
    let r = rounding::root(a.flat);
    let n = rounding::root(a.whole);
    let cosa = share(a.gx, r);
    let sina = share(a.gy, r);
    let sind = share(a.gz, n);
    let cosd = share(r as i64, n);
    Directions {
        r: r,
        n: n,
        cosa: cosa,
        sina: sina,
        sind: sind,
        cosd: cosd,
    }
}

// ---- the Moon across and along the axis

#[derive(Clone, Copy)]
struct Plane {
    x: i64,
    y: i64,
    z: i64,
}

// a s + b c in units: a part of a place along a direction whose sine and cosine are s and c.
fn turned(a: i64, s: i64, b: i64, c: i64) -> i64
    requires { (nat_abs a ≤ 6500000000) × (nat_abs s ≤ 100000000) × (nat_abs b ≤ 13000000000) × (nat_abs c ≤ 100000000) }
    ensures { result ≡ near (a *ℤ s +ℤ b *ℤ c) (pos 100000000) }
{
    rounding::near(a * s + b * c, 100_000_000)
}

fn find_plane(p: crate::besselian::Row, d: Directions) -> Plane
    requires { Accepted p × IsDirections p d }
    ensures { IsPlane p result }
{
    let west = -p.moonx;
    let x = turned(p.moony, d.cosa, west, d.sina);
    let q = turned(p.moonx, d.cosa, p.moony, d.sina);
    let inward = -q;
    let y = turned(p.moonz, d.cosd, inward, d.sind);
    let z = turned(p.moonz, d.sind, q, d.cosd);
    Plane { x: x, y: y, z: z }
}

// ---- the cones

// A cone's tangent, and the two terms of l: z tan f and k/cos f.
#[derive(Clone, Copy)]
struct Cone {
    tangent: i64,
    slope: i64,
    foot: i64,
}

// radii: the sum or difference of the radii in units; square: its square in millions; moon: the Moon's radius.
fn find_cone(
    p: crate::besselian::Row,
    whole: u64,
    n: u64,
    z: i64,
    radii: u64,
    square: u64,
    moon: u64,
) -> Cone
    requires { Accepted p × Given p whole n z × IsRadii radii square moon }
    ensures { IsCone p radii square moon result }
{
    let t = rounding::root(whole - square);
    let tangent = rounding::near_unsigned(radii * 100_000, t) as i64;
    let slope = rounding::near(z * tangent, 100_000_000);
    let foot = rounding::near_unsigned(moon * n, t) as i64;
    Cone {
        tangent: tangent,
        slope: slope,
        foot: foot,
    }
}

// The square of a sum or difference of the radii in millions, to the nearest. It has 21 digits, so it is made of
// hundred thousands and the rest.
fn in_millions(radii: u64) -> u64
    requires { radii ≤ 10957300000 }
    ensures { result ≡ millions radii }
{
    let high = radii / 100_000;
    let low = radii % 100_000;
    let whole = high * high;
    let cross = high * low;
    let rest = low * low;
    10_000 * whole + (200_000 * cross + rest + 500_000) / 1_000_000
}

// The elements of a row that is accepted, with these radii.
pub fn elements_of(
    p: crate::besselian::Row,
    k: crate::besselian::Radii,
) -> crate::besselian::Besselian
    requires { (accepted p ≡ true) × RadiiInRange k }
    ensures value { result ≡ elements_of k p }
    ensures faithful { Faithful k p result }
{
    let moon1 = k.penumbra;
    let moon2 = k.central;
    let sum = k.sun + moon1;
    let difference = k.sun - moon2;
    let square1 = in_millions(sum);
    let square2 = in_millions(difference);
    let a = find_axis(p);
    let d = find_directions(p, a);
    let f = find_plane(p, d);
    let penumbra = find_cone(p, a.whole, d.n, f.z, sum, square1, moon1);
    let central = find_cone(p, a.whole, d.n, f.z, difference, square2, moon2);
    crate::besselian::Besselian {
        x: f.x,
        y: f.y,
        sind: d.sind,
        cosd: d.cosd,
        tanf1: penumbra.tangent,
        tanf2: central.tangent,
        l1: penumbra.slope + penumbra.foot,
        l2: central.slope - central.foot,
    }
}
