// Rows as they are typed: six whole numbers a line. `#` starts a comment.
ghost use Rattle.std.specs.Prelude.{◌≡◌, ◌+◌, ◌-◌, ◌*◌, ◌≤◌, length};
ghost use Rattle.std.proofs.lemmas.List.Edits.{sets};
ghost use Rattle.table_elements.specs.Reading.{appended, with_sign, number_of, line_of, numbers_after};
ghost use Rattle.table_elements.specs.NumberLaws.{capped};
ghost use Rattle.table_elements.specs.ReadingLaws.{answer_of, line_with, next_word, IsRow};

use tokens::Class;

// Why a text is refused.
#[derive(Clone, Copy)]
pub enum Fault {
    // of a word
    NotWhole,
    TooLarge,
    // of a line: more or fewer than six numbers
    More,
    Fewer,
    // of the text: fewer than seven rows in the last table
    Unfinished,
}

// Where a word begins and ends; the same place where there is none.
#[derive(Clone, Copy)]
struct Word {
    from: usize,
    end: usize,
}

fn digit_of(x: u8) -> u64
    ensures { result ≡ x - 48 }
{
    let code = x as u64;
    if code < 48 { 0 } else { code - 48 }
}

// A digit written after a number; 2^63 stands for all above.
fn with_digit(n: u64, x: u8) -> u64
    requires { n ≤ 9223372036854775808 }
    ensures { result ≡ capped (10 * n + (x - 48)) }
{
    if 922_337_203_685_477_580 < n {
        return 9_223_372_036_854_775_808;
    }
    let longer = 10 * n + digit_of(x);
    if 9_223_372_036_854_775_808 < longer {
        return 9_223_372_036_854_775_808;
    }
    longer
}

fn size_of(digits: &[u8]) -> u64
    ensures { result ≡ capped (appended 0 digits.now) }
{
    let mut n = 0;
    for &x in digits {
        n = with_digit(n, x);
    }
    n
}

fn with_sign(minus: usize, n: u64) -> i64
    requires { n ≤ 9223372036854775807 }
    ensures { result ≡ with_sign minus n }
{
    let value = n as i64;
    if minus == 1 {
        return -value;
    }
    value
}

// The number that a word is.
fn number_of(word: &[u8]) -> Result<i64, Fault>
    ensures { result ≡ number_of word.now }
{
    let minus = tokens::start(word, Class::Minus);
    let digits = &word[minus..];
    if digits.len() == 0 {
        return Err(Fault::NotWhole);
    }
    if !tokens::all(digits, Class::Digit) {
        return Err(Fault::NotWhole);
    }
    let n = size_of(digits);
    if 9_223_372_036_854_775_807 < n {
        return Err(Fault::TooLarge);
    }
    Ok(with_sign(minus, n))
}

// What a line with so many numbers is: nothing, a row, or a fault.
fn line_with(count: usize) -> Result<bool, Fault>
    ensures { result ≡ line_with count }
{
    if count == 0 {
        return Ok(false);
    }
    if count == 6 {
        return Ok(true);
    }
    Err(Fault::Fewer)
}

// The next word from a place on.
fn next_word(content: &[u8], at: usize) -> Word
    requires { at ≤ length content.now }
    ensures { result ≡ next_word content.now at }
{
    let from = at + tokens::run(&content[at..], Class::Blank);
    let end = from + tokens::run(&content[from..], Class::Word);
    Word { from, end }
}

// What a line says: true for six numbers, false for none, or its first fault. The numbers before its end or its fault
// are at the start of the row.
fn read_row(line: &[u8], row: &mut [i64]) -> Result<bool, Fault>
    requires { length row.old ≡ 6 }
    ensures value { result ≡ answer_of (line_of line.now) }
    ensures row { IsRow (line_of line.now) row.new }
{
    let said = tokens::run(line, Class::Said);
    let content = &line[..said];
    let mut at = 0;
    let mut column = 0;
    // The step is a word's length, and two faults and the end of the line leave from within: no iterator is plainer.
    loop {
        let word = next_word(content, at);
        let from = word.from;
        let end = word.end;
        if from == end {
            return line_with(column);
        }
        let value = number_of(&content[from..end])?;
        if column == 6 {
            return Err(Fault::More);
        }
        row[column] = value;
        column += 1;
        at = end;
    }
}

// The numbers of a row, stored from place `start` on.
fn put_row(row: &[i64], numbers: &mut [i64], start: usize)
    requires { start + length row.now ≤ length numbers.old }
    ensures { numbers.new ≡ sets numbers.old start row.now }
{
    numbers[start..start + row.len()].copy_from_slice(row);
}

// What a line says, as `read_row` does. The six numbers of a row are stored from place `start` on. Any other line leaves
// the buffer as it was.
pub fn read_line(line: &[u8], numbers: &mut [i64], start: usize) -> Result<bool, Fault>
    requires { start + 6 ≤ length numbers.old }
    ensures value { result ≡ answer_of (line_of line.now) }
    ensures numbers_after { numbers.new ≡ numbers_after (line_of line.now) start numbers.old }
{
    let mut row = [0i64; 6];
    let whole = read_row(line, &mut row)?;
    if whole {
        put_row(&row, numbers, start);
    }
    Ok(whole)
}
