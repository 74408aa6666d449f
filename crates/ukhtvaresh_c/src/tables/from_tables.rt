// Elements from tables of Sun and Moon, for C and Rust.
ghost use Rattle.std.specs.Prelude.{◌≡◌, length};
ghost use Rattle.besselian_rows.specs.Tables.{answer_to, values_after, Claimed};
ghost use Rattle.ukhtvaresh.specs.TablesReply.{tables_reply};

// The elements of seven hourly rows, each the Sun's x, y, z and the Moon's x, y, z: for each row x, y, sin d, cos d,
// tan f1, tan f2, l1, l2; value: 56.
#[unsafe(no_mangle)]
pub extern "C" fn ukhtvaresh_from_tables(rows: &[i64], values: &mut [i64], value: &mut u64) -> u64
    ensures number { result ≡ (tables_reply (answer_to rows.now (length values.old))).number }
    ensures value { value.new ≡ (tables_reply (answer_to rows.now (length values.old))).value }
    ensures values { values.new ≡ values_after (answer_to rows.now (length values.old)) rows.now values.old }
    ensures faithful { Claimed (answer_to rows.now (length values.old)) rows.now values.new }
{
    ukhtvaresh::tables::from_tables::ukhtvaresh_from_tables(rows, values, value)
}
