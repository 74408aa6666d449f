// The sheet at a place of a file, for a walk that drops a byte where none begins; what was read already is not read
// again: see `Repeats`.
ghost use Rattle.std.specs.Prelude.{◌≡◌, true, ◌+◌, ◌≤◌, length, drop};
ghost use Rattle.sheet_codec.specs.Sheets.{read_sheet};
ghost use Rattle.year_file.specs.Leading.{leading, NoneBefore};
ghost use Rattle.year_file.specs.laws.Repeats.{SameBefore, OpenOnce};

use sheet_format::kinds::Kind;

// Whether the 14 bytes at a place stand 5 bytes before it too.
fn same_before(file: &[u8], at: usize) -> bool
    requires { (5 ≤ at) × (at + 14 ≤ length file.now) }
    ensures { result ≡ true → SameBefore file.now at }
{
    file[at - 5..at + 9] == file[at..at + 14]
}

// Whether an open entry from and to one second stands at a place.
fn opens_once(file: &[u8], at: usize) -> bool
    requires { at + 5 ≤ length file.now }
    ensures { result ≡ true → OpenOnce file.now at }
{
    let code = file[at] as u32;
    let Some(kind) = sheet_format::kinds::kind_for(code) else {
        return false;
    };
    let Kind::Open(_) = kind else {
        return false;
    };
    if file[at + 1] != file[at + 3] {
        return false;
    }
    file[at + 2] == file[at + 4]
}

// Whether a head and an open entry of one second stand at a place and 5 bytes before it, among the `lost` bytes that
// were dropped. No sheet began there, and then none begins here.
fn is_again(file: &[u8], at: usize, lost: usize) -> bool
    requires at_in_bounds { at ≤ length file.now }
    requires none_before { NoneBefore file.now at lost }
    ensures { result ≡ true → leading (read_sheet (drop at file.now)) ≡ 0 }
{
    if lost < 5 {
        return false;
    }
    if file.len() - at < 14 {
        return false;
    }
    if file[at] != 1 {
        return false;
    }
    if !opens_once(file, at + 9) {
        return false;
    }
    same_before(file, at)
}

// How long the sheet is that begins at a place; 0 where none does. `lost` bytes were dropped right before it.
pub fn sheet_at(file: &[u8], at: usize, lost: usize) -> usize
    requires at_in_bounds { at ≤ length file.now }
    requires none_before { NoneBefore file.now at lost }
    ensures { result ≡ leading (read_sheet (drop at file.now)) }
{
    if is_again(file, at, lost) {
        return 0;
    }
    let found = sheet_codec::decoder::extent_of_leading_sheet(&file[at..]);
    match found {
        Ok((_, length)) => length,
        Err(_) => 0,
    }
}
