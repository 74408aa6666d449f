// What is noted of a stretch: "16 bytes, its start and its length, 8 each, big-endian".
ghost use Rattle.std.specs.Prelude.{◌≤◌};
ghost use Rattle.decimal_text.specs.Texts.{Put};
ghost use Rattle.year_file.specs.Walk.{ended, notes_of};

// The stretch of `lost` bytes that ends before `end`; nothing where `lost` is 0.
pub fn put_stretch(out: &mut [u8], at: usize, end: usize, lost: usize) -> usize
    requires { lost ≤ end }
    ensures { Put out.old at (notes_of (ended end lost)) out.new result }
{
    if lost == 0 {
        return at;
    }
    let start = (end - lost) as u64;
    let length = lost as u64;
    let next = decimal_text::put_text(out, at, &start.to_be_bytes());
    decimal_text::put_text(out, next, &length.to_be_bytes())
}
