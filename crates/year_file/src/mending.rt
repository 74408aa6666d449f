// Mending the year file (document 02, wish 11): the sheets that were kept, and each stretch of dropped bytes, apart.
ghost use Rattle.std.specs.Prelude.{◌≡◌, length};
ghost use Rattle.year_file.specs.Walk.{kept, notes};
ghost use Rattle.year_file.specs.Mending.{answer_to, room_after};

use sheet_types::refusals::Refusal;

// Mends a file: the sheets that were kept, in order, into the one buffer; into the other each unbroken stretch of
// dropped bytes, 16 bytes each, its start and its length. How many bytes each buffer has of them; or the refusal, and
// both buffers as they were.
pub fn mend(file: &[u8], sheets: &mut [u8], dropped: &mut [u8]) -> Result<(usize, usize), Refusal>
    ensures answer { result ≡ answer_to (length sheets.old) (length dropped.old) file.now }
    ensures sheets { sheets.new ≡ room_after result (kept file.now) sheets.old }
    ensures dropped { dropped.new ≡ room_after result (notes file.now) dropped.old }
{
    let mut no_sheets = [0u8; 0];
    let mut no_notes = [0u8; 0];
    let need = crate::kept::walk(file, &mut no_sheets, &mut no_notes);
    let kept = need.kept;
    let noted = need.noted;
    if sheets.len() < kept {
        return Err(Refusal {
            number: 4,
            place: kept,
        });
    }
    if dropped.len() < noted {
        return Err(Refusal {
            number: 4,
            place: noted,
        });
    }
    crate::kept::walk(file, sheets, dropped);
    Ok((kept, noted))
}
