// The message of a line that names the instant or TAI-UTC and is refused, put as far as the buffer reaches
// (`decimals`).
ghost use Rattle.decimal_text.specs.Texts.{Put};
ghost use Rattle.request_text.specs.TypedMessages.{wrong_text, instant_message};

use crate::instants::Wrong;

// What is wrong with it.
fn put_wrong(out: &mut [u8], at: usize, wrong: Wrong) -> usize
    ensures { Put out.old at (wrong_text wrong) out.new result }
{
    match wrong {
        Wrong::Malformed => decimal_text::put_text(out, at, b": instant is not a date and time\n"),
        Wrong::Twice => decimal_text::put_text(out, at, b": instant is given twice\n"),
        Wrong::NotSeconds => decimal_text::put_text(
            out,
            at,
            b": tai-utc is not a whole number of seconds from 10 to 99\n",
        ),
        Wrong::OffsetTwice => decimal_text::put_text(out, at, b": tai-utc is given twice\n"),
        Wrong::NeedsInstant => decimal_text::put_text(
            out,
            at,
            b": tai-utc needs an instant in 1972 or later\n",
        ),
    }
}

pub fn put_instant(out: &mut [u8], at: usize, line: usize, wrong: Wrong) -> usize
    ensures { Put out.old at (instant_message line wrong) out.new result }
{
    let number = decimal_text::put_text(out, at, b"line ");
    let colon = decimal_text::put_number(out, number, line as u64);
    put_wrong(out, colon, wrong)
}
