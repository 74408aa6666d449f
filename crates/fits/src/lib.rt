// Fits from the spreadsheet: whether a cubic's four coefficients may stand for seven tabulated hourly values.
#![tactic(auto)]

ghost use Rattle.std.specs.Prelude.{◌≡◌, ◌≤◌, ◌<◌, nat_abs, ◌-ℤ◌, length};
ghost use Rattle.rounding.specs.Limits.{first_out_of_range};
ghost use Rattle.elements.specs.Polynomial.{cubic_at};
ghost use Rattle.elements.specs.Elements.{cubic_from};
ghost use Rattle.elements.specs.Sizes.{CubicSizes};
ghost use Rattle.fits.specs.Fits.{given_ranges, coefficient_ranges, second, differences, hour_ranges, fit_of};
ghost use Rattle.fits.specs.Conditions.{InRanges};

use sheet_types::refusals::Refusal;

// Whether the tolerance (place 0) and the tabulated values (1 to 7) are in their ranges, or the first that is not.
fn given_in_range(tabulated: &[i64], tolerance: i64) -> Option<usize>
    requires { length tabulated.now ≡ 7 }
    ensures { result ≡ first_out_of_range 0 (given_ranges tolerance tabulated.now) }
{
    if tolerance < 0 {
        return Some(0);
    }
    if 1000 < tolerance {
        return Some(0);
    }
    let lows = [-1_000_000_000; 7];
    let highs = [1_000_000_000; 7];
    let i = rounding::first_out_of_range(tabulated, &lows, &highs)?;
    Some(i + 1)
}

// The ranges of x: ±200,000,000; ±100,000,000; ±100,000; ±10,000. Two lists, as `rounding::first_out_of_range` takes
// them: its signature and clause stay.
const LOWS: [i64; 4] = [-200_000_000, -100_000_000, -100_000, -10_000];

const HIGHS: [i64; 4] = [200_000_000, 100_000_000, 100_000, 10_000];

// Whether the four coefficients are in the ranges of x, or the first that is not.
fn coefficients_in_range(coefficients: &[i64]) -> Option<usize>
    requires { length coefficients.now ≡ 4 }
    ensures { result ≡ first_out_of_range 0 (coefficient_ranges (cubic_from coefficients.now 0)) }
{
    let lows = LOWS;
    let highs = HIGHS;
    rounding::first_out_of_range(coefficients, &lows, &highs)
}

// How far a cubic's value at hour i, 0 to 6 for -3 to 3, is from the tabulated one.
fn difference(c: elements::Cubic, tabulated: i64, i: usize) -> i64
    requires { (CubicSizes c) × (nat_abs tabulated ≤ 1000000000) × (i < 7) }
    ensures { result ≡ cubic_at c (second i) -ℤ tabulated }
{
    let hour = i as i64 - 3;
    let value = elements::cubic_at(c, 3600 * hour);
    value - tabulated
}

// The same at each of the seven hours.
fn differences(coefficients: &[i64], tabulated: &[i64]) -> [i64; 7]
    requires { InRanges coefficients.now tabulated.now }
    ensures { result ≡ differences (cubic_from coefficients.now 0) tabulated.now }
{
    let c0 = coefficients[0];
    let c1 = coefficients[1];
    let c2 = coefficients[2];
    let c3 = coefficients[3];
    let c = elements::Cubic { c0, c1, c2, c3 };
    // `array::from_fn` is no plainer: its closure needs `InRanges`, `CubicSizes` and i < 7 in a `requires` of its own.
    let mut all = [0i64; 7];
    for i in 0..7 {
        all[i] = difference(c, tabulated[i], i);
    }
    all
}

// Whether the value is within the tolerance at every hour, or the first hour at which it is not.
fn hours_in_range(coefficients: &[i64], tabulated: &[i64], tolerance: i64) -> Option<usize>
    requires { (InRanges coefficients.now tabulated.now) × (nat_abs tolerance ≤ 1000) }
    ensures { result ≡ first_out_of_range 0 (hour_ranges (cubic_from coefficients.now 0) tabulated.now tolerance) }
{
    let values = differences(coefficients, tabulated);
    let low = -tolerance;
    let lows = [low; 7];
    let highs = [tolerance; 7];
    rounding::first_out_of_range(&values, &lows, &highs)
}

// Accepts a proposed fit, four coefficients for seven tabulated values (hours -3 to 3), or refuses it: 10 for other
// lengths; 18 with place 0 for the tolerance, 1 to 7 for the first tabulated value out of ±1,000,000,000 units; 2 with
// the first coefficient out of the ranges of x, 0 to 3; 17 with the first hour, 0 to 6 for -3 to 3, at which the value
// differs from the tabulated one by more than the tolerance. Any numbers.
pub fn fit(coefficients: &[i64], tabulated: &[i64], tolerance: i64) -> Result<(), Refusal>
    ensures { result ≡ fit_of coefficients.now tabulated.now tolerance }
{
    if coefficients.len() != 4 {
        return Err(Refusal {
            number: 10,
            place: 0,
        });
    }
    if tabulated.len() != 7 {
        return Err(Refusal {
            number: 10,
            place: 0,
        });
    }
    let given = given_in_range(tabulated, tolerance);
    let proposed = coefficients_in_range(coefficients);
    // No `?`: a place that was found becomes a refusal, and nothing found goes on.
    if let Some(place) = given {
        return Err(Refusal { number: 18, place });
    }
    if let Some(place) = proposed {
        return Err(Refusal { number: 2, place });
    }
    let hours = hours_in_range(coefficients, tabulated, tolerance);
    if let Some(place) = hours {
        return Err(Refusal { number: 17, place });
    }
    Ok(())
}
