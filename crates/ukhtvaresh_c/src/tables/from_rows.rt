// Elements from rows of Sun and Moon, for C and Rust.
ghost use Rattle.std.specs.Prelude.{◌≡◌, length};
ghost use Rattle.element_fits.specs.Numbers.{admitted, answer_to, elements_after, misfits_after};
ghost use Rattle.requests.specs.Admission.{sines_after};
ghost use Rattle.ukhtvaresh.specs.ElementsReply.{elements_reply};

// The 22 elements of seven hourly rows (as for `ukhtvaresh_from_tables`), of the sidereal time at Greenwich at these hours
// and of three radii: the Sun's, the Moon's for the penumbra and for the central cone; and how far each of the six fits is
// from its values at most. value: 22. `sines` is the buffer for table S.
#[unsafe(no_mangle)]
pub extern "C" fn ukhtvaresh_elements(
    rows: &[i64],
    sidereal: &[i64],
    radii: &[i64],
    tolerance: i64,
    sines: &mut [u32],
    elements: &mut [i64],
    misfits: &mut [i64],
    value: &mut u64,
) -> u64
    ensures number { result ≡ (elements_reply (answer_to rows.now sidereal.now radii.now tolerance sines.old (length elements.old) (length misfits.old))).number }
    ensures value { value.new ≡ (elements_reply (answer_to rows.now sidereal.now radii.now tolerance sines.old (length elements.old) (length misfits.old))).value }
    ensures sines { sines.new ≡ sines_after (admitted rows.now sidereal.now radii.now tolerance sines.old) sines.old }
    ensures elements { elements.new ≡ elements_after (answer_to rows.now sidereal.now radii.now tolerance sines.old (length elements.old) (length misfits.old)) elements.old }
    ensures misfits { misfits.new ≡ misfits_after (answer_to rows.now sidereal.now radii.now tolerance sines.old (length elements.old) (length misfits.old)) misfits.old }
{
    ukhtvaresh::tables::from_rows::ukhtvaresh_elements(
        rows, sidereal, radii, tolerance, sines, elements, misfits, value,
    )
}
