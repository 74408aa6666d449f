// The year file, walked (document 02, wish 11): the sheets that are kept, and each stretch of dropped bytes, apart.
mod notes;

ghost use Rattle.decimal_text.specs.Texts.{Put};
ghost use Rattle.year_file.specs.Walk.{kept, notes};

// The places after what was put into each buffer.
#[derive(Clone, Copy)]
pub struct Ends {
    pub kept: usize,
    pub noted: usize,
}

// The walk: what is kept into the one buffer, what is noted into the other, as far as each reaches.
pub fn walk(file: &[u8], sheets: &mut [u8], dropped: &mut [u8]) -> Ends
    ensures kept { Put sheets.old 0 (kept file.now) sheets.new result.kept }
    ensures noted { Put dropped.old 0 (notes file.now) dropped.new result.noted }
{
    let mut at = 0;
    let mut lost = 0;
    let mut kept = 0;
    let mut noted = 0;
    // Not a `for`: a step is a whole sheet or one byte.
    while at < file.len() {
        let length = crate::lengths::sheet_at(file, at, lost);
        if length == 0 {
            at += 1;
            lost += 1;
        } else {
            noted = notes::put_stretch(dropped, noted, at, lost);
            let end = at + length;
            kept = decimal_text::put_text(sheets, kept, &file[at..end]);
            at = end;
            lost = 0;
        }
    }
    noted = notes::put_stretch(dropped, noted, at, lost);
    Ends { kept, noted }
}
