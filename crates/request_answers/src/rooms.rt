// The caller's buffer for the numbers of an answer.
ghost use Rattle.std.specs.Prelude.{◌≡◌, cond, leb, Ok, Err};
ghost use Rattle.sheet_types.specs.Refusals.{refusal};

use sheet_types::refusals::Refusal;

// 4 where a buffer of that length holds fewer numbers than the answer has.
pub fn check(length: usize, needed: usize) -> Result<(), Refusal>
    ensures { result ≡ cond (leb needed length) (Ok tt) (Err (refusal 4 needed)) }
{
    if length < needed {
        return Err(Refusal {
            number: 4,
            place: needed,
        });
    }
    Ok(())
}
