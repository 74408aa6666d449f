// Positions as doubles: a double read in whole units, exactly, and a whole unit as a double.
#![tactic(auto)]

ghost use Rattle.std.specs.Prelude.{◌≡◌, ◌*◌, ◌^◌, ◌≤◌, ◌<◌, min, nat_abs};
ghost use Rattle.std.specs.Float.Ieee.Scale.{finite};
ghost use Rattle.rounding.specs.Near.{half_up};
ghost use Rattle.binary64.specs.Doubles.{reading_of, stand_in, double_in, longitude_scale, double_of, ReadsBack};
ghost use Rattle.binary64.specs.laws.Fields.{size_of};

// Units to a degree.
pub const DEGREE: u64 = 1_000_000;

// Units to an Earth radius, and to a tangent of 1.
pub const RADIUS: u64 = 100_000_000;

// A longitude as the instrument gives it, EAST positive.
#[derive(Clone, Copy)]
pub enum Longitude {
    Degrees(f64),
    // hours of time, each 15 degrees
    Hours(f64),
}

// ---- the bits of a double: a sign, 11 bits of exponent, 52 digits below the leading one

// The weight of the sign, 2^63. So large a size is too large.
const SIGN: u64 = 9_223_372_036_854_775_808;

// The weight of the exponent, and of the leading digit.
const LEADING: u64 = 4_503_599_627_370_496;

// The exponent field of an infinity or a NaN.
const NOT_FINITE: u64 = 2047;

// What a number of 53 digits is split by, 2^26: each part times a scale fits in 64 bits.
const PART: u64 = 67_108_864;

// Whether it is neither an infinity nor a NaN: by one comparison and the bits, and not by `f64::is_finite`. That
// subtracts x from itself, which on an infinity raises a floating-point exception, and a caller may trap it.
pub fn is_finite(x: f64) -> bool
    ensures { result ≡ finite x }
{
    if x != x {
        return false;
    }
    let bits = f64::to_bits(x);
    bits % SIGN / LEADING != NOT_FINITE
}

// ---- reading

// The whole number nearest to q·scale / 2^k, halves up; 2^63 where it is that or more.
fn scaled(q: u64, scale: u64, k: u64) -> u64
    requires { (q < 2 ^ 53) × (scale ≤ 100_000_000) }
    ensures { result ≡ min (half_up (q * scale) (2 ^ k)) (2 ^ 63) }
{
    // q·scale is high·2^26 + low
    let below = (q % PART) * scale;
    let high = (q / PART) * scale + below / PART;
    let low = below % PART;
    if k <= 26 {
        // high·2^(26-k), and low / 2^k to the nearest
        if high >= 1 << (37 + k) {
            return SIGN;
        }
        (high << (26 - k)) + ((2 * low + (1 << k)) >> (k + 1))
    } else if k <= 82 {
        // low is less than what is rounded off
        (high + (1 << (k - 27))) >> (k - 26)
    } else {
        // less than a half
        0
    }
}

// The same of a double's exponent field and digits.
fn size(field: u64, digits: u64, scale: u64) -> u64
    requires { (digits < 2 ^ 52) × (2048 ≤ scale) × (scale ≤ 100_000_000) }
    ensures { result ≡ min (size_of scale field digits) (2 ^ 63) }
{
    if field == 0 {
        scaled(digits, scale, 1074)
    } else if field <= 1075 {
        scaled(LEADING + digits, scale, 1075 - field)
    } else {
        SIGN
    }
}

// Why a double is no whole number of units.
#[derive(Clone, Copy)]
pub enum NotUnits {
    // 2^63 units or more, either way
    TooLarge,
    // an infinity or a NaN
    NotFinite,
}

// The double times the scale, to the nearest whole number, halves away from zero.
pub fn read(x: f64, scale: u64) -> Result<i64, NotUnits>
    requires { (2048 ≤ scale) × (scale ≤ 100_000_000) }
    ensures { result ≡ reading_of scale x }
{
    let known = is_finite(x);
    if !known {
        return Err(NotUnits::NotFinite);
    }
    let bits = f64::to_bits(x);
    let n = size(bits % SIGN / LEADING, bits % LEADING, scale);
    if SIGN <= n {
        return Err(NotUnits::TooLarge);
    }
    if SIGN <= bits {
        Ok(0 - (n as i64))
    } else {
        Ok(n as i64)
    }
}

// The whole unit that was read. For one too large the largest number, which is out of every range too; for what is not
// finite, which is refused before anyone asks, 0.
pub fn unit_of(reading: Result<i64, NotUnits>) -> i64
    ensures { result ≡ stand_in reading }
{
    match reading {
        Ok(unit) => unit,
        Err(NotUnits::TooLarge) => 9_223_372_036_854_775_807,
        Err(NotUnits::NotFinite) => 0,
    }
}

// ---- a longitude

// The double itself, whatever it counts.
pub fn double_in(longitude: Longitude) -> f64
    ensures { result ≡ double_in longitude }
{
    match longitude {
        Longitude::Degrees(x) | Longitude::Hours(x) => x,
    }
}

// In 10^-6 degree.
pub fn read_longitude(longitude: Longitude) -> Result<i64, NotUnits>
    ensures { result ≡ reading_of (longitude_scale longitude) (double_in longitude) }
{
    match longitude {
        Longitude::Degrees(x) => read(x, DEGREE),
        Longitude::Hours(x) => read(x, 15 * DEGREE),
    }
}

// ---- the other way

// A whole unit as a double: the casts lose nothing, and one division rounds.
pub fn double_of(unit: i64, scale: u64) -> f64
    requires { (nat_abs unit < 2 ^ 51) × (0 < scale) × (scale ≤ 100_000_000) }
    ensures value { result ≡ double_of scale unit }
    ensures back { ReadsBack scale unit result }
{
    unit as f64 / scale as f64
}
