// A fit from the spreadsheet, for C and Rust.
ghost use Rattle.std.specs.Prelude.{◌≡◌};
ghost use Rattle.fits.specs.Fits.{fit_of};
ghost use Rattle.ukhtvaresh.specs.Fits.{fit_reply};

// Whether four coefficients may stand for seven tabulated hourly values, hours -3 to 3, within a tolerance; value: 0.
#[unsafe(no_mangle)]
pub extern "C" fn ukhtvaresh_fit(
    coefficients: &[i64],
    tabulated: &[i64],
    tolerance: i64,
    value: &mut u64,
) -> u64
    ensures number { result ≡ (fit_reply (fit_of coefficients.now tabulated.now tolerance)).number }
    ensures value { value.new ≡ (fit_reply (fit_of coefficients.now tabulated.now tolerance)).value }
{
    ukhtvaresh::tables::spreadsheet::ukhtvaresh_fit(coefficients, tabulated, tolerance, value)
}
