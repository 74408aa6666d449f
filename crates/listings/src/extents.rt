// What a reader or a writer of sheets answered, as the programs print it.
ghost use Rattle.std.specs.Prelude.{◌++◌};
ghost use Rattle.decimal_text.specs.Texts.{Put};
ghost use Rattle.listings.specs.Extents.{extent_text};

use sheet_types::refusals::Refusal;

// How many entries and bytes, or the refusal.
fn put_extent(out: &mut [u8], at: usize, extent: Result<(usize, usize), Refusal>) -> usize
    ensures { Put out.old at (extent_text extent) out.new result }
{
    match extent {
        Ok((entries, length)) => listing_lines::lines::put_numbered(
            out,
            at,
            b"sheet ",
            entries as u64,
            length as u64,
        ),
        Err(refusal) => {
            let number = refusal.number as u64;
            let place = refusal.place as u64;
            listing_lines::lines::put_refusal(out, at, number, place)
        }
    }
}

// A word, then an answer.
pub fn put_answer(
    out: &mut [u8],
    at: usize,
    word: &[u8],
    answer: Result<(usize, usize), Refusal>,
) -> usize
    ensures { Put out.old at (word.now ++ extent_text answer) out.new result }
{
    let next = decimal_text::put_text(out, at, word);
    put_extent(out, next, answer)
}
