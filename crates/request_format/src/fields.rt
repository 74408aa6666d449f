// The numbers of a request in their order, an eclipse's or a star's: one table of their names, units and bytes.
// The typed text and the bytes of a request are both read and written by it.
ghost use Rattle.std.specs.Prelude.{◌≡◌, ◌<◌, length};
ghost use Rattle.request_format.specs.Fields.{bytes_in, holds, countOf};
ghost use Rattle.request_format.specs.Rows.{row_in, rowAt};
ghost use Rattle.request_format.specs.laws.Table.{tables, width_from, name_from, field_from, fields_in};

// What a request asks about: an eclipse, or a star behind the Moon.
#[derive(Clone, Copy)]
pub enum Shape {
    Eclipse,
    Star,
}

// How many numbers a request has, and how many bytes: an eclipse's, a star's.
pub const COUNT: usize = 30;

pub const LENGTH: usize = 115;

pub const STAR_COUNT: usize = 21;

pub const STAR_LENGTH: usize = 79;

// The bytes of a number.
#[derive(Clone, Copy)]
pub enum Width {
    Unsigned2,
    Signed2,
    Signed4,
}

// A number of a request: its name as it is typed, with blanks after it, and how long it is; how many decimals one unit
// has; its bytes; and the kind of the record that begins with it, or 0 where none does. Its fields have no names, as
// the definitions `row_of`, `name_of`, `decimals_of` and `width_of` of specs/Rows.antt read them.
#[derive(Drop)]
pub struct Field(pub [u8; 9], pub usize, pub usize, pub Width, pub u8);

// The elements of an eclipse; those of a star, and the Moon's radius; station and window, which follow both. A row has
// thirteen bytes: a name with blanks after it, how long it is, how many decimals one unit has, its bytes (4 and 2
// signed, u two unsigned), and the kind of the record that begins with it, or 0 where none does.
const TABLE: [u8; 559] = *b"\
    x0       2842\
    x1       2840\
    x2       2840\
    x3       2840\
    y0       2840\
    y1       2840\
    y2       2840\
    y3       2840\
    d0       2640\
    d1       2640\
    d2       2640\
    l10      3840\
    l11      3840\
    l12      3840\
    l20      3840\
    l21      3840\
    l22      3840\
    mu0      3640\
    mu1      3640\
    mu2      3640\
    tan f1   6840\
    tan f2   6840\
    x0       2845\
    x1       2840\
    x2       2840\
    x3       2840\
    y0       2840\
    y1       2840\
    y2       2840\
    y3       2840\
    d0       2640\
    mu0      3640\
    mu1      3640\
    mu2      3640\
    radius   6840\
    station  70u3\
    latitude 8640\
    longitude9640\
    height   6040\
    delta t  7240\
    first    5024\
    last     4020\
    guard    50u0";

// How many numbers a request has.
pub fn count_of(shape: Shape) -> usize
    ensures { result ≡ countOf shape }
{
    match shape {
        Shape::Eclipse => COUNT,
        Shape::Star => STAR_COUNT,
    }
}

// The table, which callers pass to `field_from`: an array constant is built again wherever it is named.
fn table() -> [u8; 559]
    ensures { fields_in 43 result ≡ tables }
{
    TABLE
}

// Where number k of a request stands in the table.
fn row_of(shape: Shape, k: usize) -> usize
    requires { k < countOf shape }
    ensures { (result < 43) × (row_in tables result ≡ rowAt shape k) }
{
    match shape {
        Shape::Eclipse => {
            if k < 22 {
                return k;
            }
            k + 13
        }
        Shape::Star => k + 22,
    }
}

fn width_from(letter: u8) -> Width
    ensures { result ≡ width_from letter }
{
    if letter == b'u' {
        return Width::Unsigned2;
    }
    if letter == b'2' {
        return Width::Signed2;
    }
    Width::Signed4
}

// The name in a row, with its blanks.
fn name_from(row: &[u8]) -> [u8; 9]
    requires { length row.now ≡ 13 }
    ensures { result ≡ name_from row.now }
{
    [
        row[0], row[1], row[2], row[3], row[4], row[5], row[6], row[7], row[8],
    ]
}

// A number of a request from its row. A digit is 48 and its value.
fn field_from(row: &[u8]) -> Field
    requires { length row.now ≡ 13 }
    ensures { result ≡ field_from row.now }
{
    let name = name_from(row);
    let letters = (row[9] % 16) as usize;
    let decimals = (row[10] % 16) as usize;
    let width = width_from(row[11]);
    let kind = row[12] % 16;
    Field(name, letters, decimals, width, kind)
}

// Number k of a request. It is for crates that go through the numbers, and has a `requires`, so it is none of the
// public promises.
pub fn field_at(shape: Shape, k: usize) -> Field
    requires { k < countOf shape }
    ensures { result ≡ rowAt shape k }
{
    let at = 13 * row_of(shape, k);
    let table = table();
    field_from(&table[at..at + 13])
}

// How many bytes a number has.
pub fn bytes_in(width: Width) -> usize
    ensures { result ≡ bytes_in width }
{
    match width {
        Width::Unsigned2 => 2,
        Width::Signed2 => 2,
        Width::Signed4 => 4,
    }
}

// Whether they hold n.
pub fn holds(width: Width, n: i64) -> bool
    ensures { result ≡ holds width n }
{
    match width {
        Width::Unsigned2 => (0 <= n) & (n <= 65_535),
        Width::Signed2 => (-32_768 <= n) & (n <= 32_767),
        Width::Signed4 => (-2_147_483_648 <= n) & (n <= 2_147_483_647),
    }
}
