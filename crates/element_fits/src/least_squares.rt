// Polynomials of least squares for seven hourly values, in whole numbers. Coefficients are found from the highest down, each of
// what the higher ones leave, and rounded to the nearest unit.
ghost use Rattle.std.specs.Prelude.{◌≡◌};
ghost use Rattle.rounding.specs.Value.{Value};
ghost use Rattle.element_fits.specs.LeastSquares.{sum, first, second, third, cubic, quadratic};
ghost use Rattle.element_fits.specs.Sizes.{HourlySizes};

// Values at the hours -3, -2, -1, 0, 1, 2, 3, in any unit: ±100,000,000,000.
#[derive(Clone, Copy)]
pub struct Hourly {
    pub v0: i64,
    pub v1: i64,
    pub v2: i64,
    pub v3: i64,
    pub v4: i64,
    pub v5: i64,
    pub v6: i64,
}

// Sum of the values.
fn sum(v: Hourly) -> i64
    requires { HourlySizes 100_000_000_000 v }
    ensures { Value (sum v) 700000000000 result }
{
    let v0 = v.v0;
    let v1 = v.v1;
    let v2 = v.v2;
    let v3 = v.v3;
    let v4 = v.v4;
    let v5 = v.v5;
    let v6 = v.v6;
    v0 + v1 + v2 + v3 + v4 + v5 + v6
}

// Sum of the values times their hours.
fn first(v: Hourly) -> i64
    requires { HourlySizes 100_000_000_000 v }
    ensures { Value (first v) 1200000000000 result }
{
    let v0 = v.v0;
    let v1 = v.v1;
    let v2 = v.v2;
    let v4 = v.v4;
    let v5 = v.v5;
    let v6 = v.v6;
    3 * (v6 - v0) + 2 * (v5 - v1) + (v4 - v2)
}

// Sum of the values times t² - 4.
fn second(v: Hourly) -> i64
    requires { HourlySizes 100_000_000_000 v }
    ensures { Value (second v) 2000000000000 result }
{
    let v0 = v.v0;
    let v2 = v.v2;
    let v3 = v.v3;
    let v4 = v.v4;
    let v6 = v.v6;
    5 * (v0 + v6) - 3 * (v2 + v4) - 4 * v3
}

// Sum of the values times (t³ - 7t)/6.
fn third(v: Hourly) -> i64
    requires { HourlySizes 100_000_000_000 v }
    ensures { Value (third v) 600000000000 result }
{
    let v0 = v.v0;
    let v1 = v.v1;
    let v2 = v.v2;
    let v4 = v.v4;
    let v5 = v.v5;
    let v6 = v.v6;
    (v6 - v0) - (v5 - v1) - (v4 - v2)
}

// The cubic.
pub fn cubic(v: Hourly) -> elements::Cubic
    requires { HourlySizes 100_000_000_000 v }
    ensures { result ≡ cubic v }
{
    let a0 = sum(v);
    let a1 = first(v);
    let a2 = second(v);
    let a3 = third(v);
    let c3 = rounding::near(a3, 36);
    let c2 = rounding::near(a2, 84);
    let c1 = rounding::near(a1 - 196 * c3, 28);
    let c0 = rounding::near(a0 - 28 * c2, 7);
    elements::Cubic { c0, c1, c2, c3 }
}

// The quadratic.
pub fn quadratic(v: Hourly) -> elements::Quadratic
    requires { HourlySizes 100_000_000_000 v }
    ensures { result ≡ quadratic v }
{
    let a0 = sum(v);
    let a1 = first(v);
    let a2 = second(v);
    let c2 = rounding::near(a2, 84);
    let c1 = rounding::near(a1, 28);
    let c0 = rounding::near(a0 - 28 * c2, 7);
    elements::Quadratic { c0, c1, c2 }
}
