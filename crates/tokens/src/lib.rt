// Words of a typed text: its bytes by their class, and decimal numbers exact in whole units.
#![tactic(auto)]

ghost use Rattle.std.specs.Prelude.{◌≡◌, ◌-◌, ◌≤◌, length, get_or, drop};
ghost use Rattle.tokens.specs.declared.Class.TheVariants.{Zero};
ghost use Rattle.tokens.specs.Text.{is_in, run_of, all_of, start_of};
ghost use Rattle.tokens.specs.Numbers.{capped, digit_after, appended, units_of};

// What the bytes of a text are sorted by.
#[derive(Clone, Copy)]
pub enum Class {
    // all but the end of a line
    Line,
    // all but the `#` that starts a comment
    Said,
    // a space, a tab, and the return that some systems end a line with
    Blank,
    // all but these
    Word,
    Digit,
    Zero,
    Sign,
    Minus,
    Point,
}

// ---- bytes

pub fn is_in(class: Class, x: u8) -> bool
    ensures { result ≡ is_in class x }
{
    match class {
        Class::Line => x != b'\n',
        Class::Said => x != b'#',
        Class::Blank => (x == b' ') | (x == b'\t') | (x == b'\r'),
        Class::Word => !((x == b' ') | (x == b'\t') | (x == b'\r')),
        Class::Digit => (b'0' <= x) & (x <= b'9'),
        Class::Zero => x == b'0',
        Class::Sign => (x == b'+') | (x == b'-'),
        Class::Minus => x == b'-',
        Class::Point => x == b'.',
    }
}

// How many bytes of a class the text begins with.
pub fn run(s: &[u8], class: Class) -> usize
    ensures { (result ≡ run_of class s.now) × (result ≤ length s.now) }
{
    for (n, &x) in s.iter().enumerate() {
        if !is_in(class, x) {
            return n;
        }
    }
    s.len()
}

pub fn all(s: &[u8], class: Class) -> bool
    ensures { result ≡ all_of class s.now }
{
    run(s, class) == s.len()
}

// 1 where the text begins with a byte of the class, otherwise 0.
pub fn start(s: &[u8], class: Class) -> usize
    ensures { (result ≡ start_of class s.now) × (result ≤ length s.now) }
{
    match s.first() {
        Some(&x) if is_in(class, x) => 1,
        _ => 0,
    }
}

// ---- numbers

// The byte at a place of a text, a zero where it ends before.
pub fn byte_or_zero(s: &[u8], at: usize) -> u8
    ensures { result ≡ get_or s.now at 48 }
{
    s.get(at).copied().unwrap_or(b'0')
}

// The digit that a byte is; of any other byte the number means nothing.
pub fn digit_of(x: u8) -> usize
    ensures { result ≡ x - 48 }
{
    usize::from(x.saturating_sub(b'0'))
}

// A digit written after a number.
fn with_digit(n: usize, x: u8) -> usize
    requires { n ≤ 4294967296 }
    ensures { (result ≡ capped (digit_after n x)) × (result ≤ 4294967296) }
{
    (10 * n + digit_of(x)).min(4_294_967_296)
}

// The first digits of a text written after a number, 0 for those that it does not have.
fn append(n: usize, s: &[u8], digits: usize) -> usize
    requires { n ≤ 4294967296 }
    ensures { (result ≡ capped (appended n digits s.now)) × (result ≤ 4294967296) }
{
    let mut total = n;
    for k in 0..digits {
        total = with_digit(total, byte_or_zero(s, k));
    }
    total
}

// Whether all decimals after the first ones are 0.
fn is_whole(decimals: &[u8], places: usize) -> bool
    ensures { result ≡ all_of Zero (drop places decimals.now) }
{
    decimals.len() <= places || all(&decimals[places..], Class::Zero)
}

// Why a word is no number of units.
#[derive(Clone, Copy)]
pub enum NotUnits {
    // no decimal number
    NotNumber,
    // a decimal number, but no whole number of units
    NotWhole,
}

// The number that a word is, without its sign, in units of which one is written with that many decimals. It is at most
// 4,294,967,296, which stands for all above.
pub fn units_in(word: &[u8], places: usize) -> Result<usize, NotUnits>
    ensures { result ≡ units_of places word.now }
{
    let sign = start(word, Class::Sign);
    let body = &word[sign..];
    let wholes = run(body, Class::Digit);
    let pointed = &body[wholes..];
    let point = start(pointed, Class::Point);
    let decimals = &pointed[point..];
    let number = all(decimals, Class::Digit);
    if !number {
        return Err(NotUnits::NotNumber);
    }
    if wholes + decimals.len() == 0 {
        return Err(NotUnits::NotNumber);
    }
    let whole = is_whole(decimals, places);
    if !whole {
        return Err(NotUnits::NotWhole);
    }
    let n = append(0, body, wholes);
    let total = append(n, decimals, places);
    Ok(total)
}
