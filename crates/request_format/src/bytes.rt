// The bytes of a request: its numbers to bytes, and bytes to its numbers, by the table of `fields`.
ghost use Rattle.std.specs.Prelude.{◌≡◌, true, ◌+◌, ◌≤◌, ◌<◌, nat_abs, length};
ghost use Rattle.std.proofs.lemmas.List.Edits.{sets};
ghost use Rattle.request_format.specs.declared.fields.Shape.TheVariants.{Eclipse, Star};
ghost use Rattle.request_format.specs.Fields.{bytes_in, holds, countOf};
ghost use Rattle.request_format.specs.Layout.{complement, signed, number_bytes, number_at};
ghost use Rattle.request_format.specs.Request.{size_for, put_for, after_for, reading_for, got_of, numbers_after};
ghost use Rattle.request_format.specs.laws.PutLaws.{Laid};
ghost use Rattle.request_format.specs.laws.GetLaws.{Read};
ghost use Rattle.request_format.specs.laws.RowBytes.{kind_bytes, field_bytes, kind_stands, part_of};

use crate::fields::{COUNT, Field, LENGTH, STAR_COUNT, STAR_LENGTH, Shape, Width};

// How many bytes a request has.
pub fn length_of(shape: Shape) -> usize
    ensures { result ≡ size_for shape }
{
    match shape {
        Shape::Eclipse => LENGTH,
        Shape::Star => STAR_LENGTH,
    }
}

// ---- one number to bytes

// A number in two's complement: below zero it stands for itself and `whole`, as many as its bytes tell apart.
fn complement(n: i64, whole: u64) -> u32
    requires { (nat_abs n < whole) × (whole ≤ 4294967296) }
    ensures { result ≡ complement whole n }
{
    if n < 0 {
        return (n + whole as i64) as u32;
    }
    n as u32
}

// A number's bytes at `at`.
fn put_number(out: &mut [u8], at: usize, width: Width, n: i64)
    requires { (at + bytes_in width ≤ length out.old) × (holds width n ≡ true) }
    ensures { out.new ≡ sets out.old at (number_bytes width n) }
{
    match width {
        Width::Unsigned2 => big_endian::put_two(out, at, complement(n, 65_536)),
        Width::Signed2 => big_endian::put_two(out, at, complement(n, 65_536)),
        Width::Signed4 => big_endian::put_four(out, at, complement(n, 4_294_967_296)),
    }
}

// The kind at `at`, where there is one; the place after it.
fn put_kind(out: &mut [u8], at: usize, kind: u8) -> usize
    requires { at + length (kind_bytes kind) ≤ length out.old }
    ensures { (result ≡ at + length (kind_bytes kind)) × (out.new ≡ sets out.old at (kind_bytes kind)) }
{
    if kind == 0 {
        return at;
    }
    out[at] = kind;
    at + 1
}

// A field's bytes at `at`; the place after them.
fn put_field(out: &mut [u8], at: usize, field: Field, n: i64) -> usize
    requires { (at + length (field_bytes field n) ≤ length out.old) × (holds field.3 n ≡ true) }
    ensures { (result ≡ at + length (field_bytes field n)) × (out.new ≡ sets out.old at (field_bytes field n)) }
{
    let kind = field.4;
    let width = field.3;
    let start = put_kind(out, at, kind);
    put_number(out, start, width, n);
    start + crate::fields::bytes_in(width)
}

// The bytes of the numbers, as far as these fit; or the first that its bytes do not hold, counted from 0.
fn lay(shape: Shape, numbers: &[i64], out: &mut [u8]) -> Result<(), usize>
    requires { (length numbers.now ≡ countOf shape) × (length out.old ≡ size_for shape) }
    ensures { Laid shape numbers.now result out.new }
{
    let mut at = 0;
    for (k, n) in numbers.iter().enumerate() {
        let field = crate::fields::field_at(shape, k);
        if !crate::fields::holds(field.3, *n) {
            return Err(k);
        }
        at = put_field(out, at, field, *n);
    }
    Ok(())
}

// The bytes of a shape's numbers; or the first number that its bytes do not hold, and the bytes as they were.
fn put_as<const N: usize, const BYTES: usize>(
    shape: Shape,
    numbers: &[i64; N],
    out: &mut [u8; BYTES],
) -> Result<(), usize>
    requires { (N ≡ countOf shape) × (BYTES ≡ size_for shape) }
    ensures answer { result ≡ put_for shape numbers.now }
    ensures bytes { out.new ≡ after_for shape numbers.now out.old }
{
    let mut made = [0u8; BYTES];
    lay(shape, numbers, &mut made)?;
    *out = made;
    Ok(())
}

// The bytes of an eclipse's numbers; or the first number that its bytes do not hold, counted from 0, and the bytes as
// they were. Any numbers.
pub fn put(numbers: &[i64; COUNT], out: &mut [u8; LENGTH]) -> Result<(), usize>
    ensures answer { result ≡ put_for Eclipse numbers.now }
    ensures bytes { out.new ≡ after_for Eclipse numbers.now out.old }
{
    put_as(Shape::Eclipse, numbers, out)
}

// The same of a star's.
pub fn put_star(numbers: &[i64; STAR_COUNT], out: &mut [u8; STAR_LENGTH]) -> Result<(), usize>
    ensures answer { result ≡ put_for Star numbers.now }
    ensures bytes { out.new ≡ after_for Star numbers.now out.old }
{
    put_as(Shape::Star, numbers, out)
}

// ---- one number from bytes

// A number in two's complement: from `half` on it stands for itself less twice that.
fn signed(n: u32, half: u32) -> i64
    ensures { result ≡ signed half n }
{
    let whole = n as i64;
    if n < half {
        return whole;
    }
    whole - 2 * half as i64
}

// The number at `at`.
fn number_at(s: &[u8], at: usize, width: Width) -> i64
    requires { at + bytes_in width ≤ length s.now }
    ensures { result ≡ number_at width s.now at }
{
    match width {
        Width::Unsigned2 => big_endian::two_at(s, at) as i64,
        Width::Signed2 => signed(big_endian::two_at(s, at), 32_768),
        Width::Signed4 => signed(big_endian::four_at(s, at), 2_147_483_648),
    }
}

// Whether the kind, where there is one, stands at `at`.
fn kind_stands(s: &[u8], at: usize, kind: u8) -> bool
    ensures { result ≡ kind_stands kind s.now at }
{
    if kind == 0 {
        return true;
    }
    if s.len() <= at {
        return false;
    }
    s[at] == kind
}

// The place after the kind, where there is one.
fn after_kind(at: usize, kind: u8) -> usize
    requires { at < 9223372036854775808 }
    ensures { result ≡ at + length (kind_bytes kind) }
{
    if kind == 0 { at } else { at + 1 }
}

// The number of the field at `at` and the place after it, if the field stands there.
fn part_at(s: &[u8], at: usize, field: Field) -> Option<(i64, usize)>
    requires { at ≤ length s.now }
    ensures { result ≡ part_of field s.now at }
{
    let kind = field.4;
    let width = field.3;
    let stands = kind_stands(s, at, kind);
    if !stands {
        return None;
    }
    let start = after_kind(at, kind);
    let next = start + crate::fields::bytes_in(width);
    if s.len() < next {
        return None;
    }
    let n = number_at(s, start, width);
    Some((n, next))
}

// The numbers of the bytes, as far as these are of the shape; nothing where they are not.
fn read(shape: Shape, bytes: &[u8], found: &mut [i64]) -> Option<()>
    requires { length found.old ≡ countOf shape }
    ensures { Read shape bytes.now result found.new }
{
    let mut at = 0;
    for (k, number) in found.iter_mut().enumerate() {
        let field = crate::fields::field_at(shape, k);
        let (n, next) = part_at(bytes, at, field)?;
        *number = n;
        at = next;
    }
    if at != bytes.len() {
        return None;
    }
    Some(())
}

// The numbers of a shape's bytes; or that these are not of the shape, and the numbers as they were.
fn get_as<const N: usize>(shape: Shape, bytes: &[u8], out: &mut [i64; N]) -> Option<()>
    requires { N ≡ countOf shape }
    ensures answer { result ≡ got_of (reading_for shape bytes.now) }
    ensures numbers { out.new ≡ numbers_after (reading_for shape bytes.now) out.old }
{
    let mut found = [0i64; N];
    read(shape, bytes, &mut found)?;
    *out = found;
    Some(())
}

// The numbers of an eclipse's bytes; or that these are not of the shape, and the numbers as they were. Any bytes.
pub fn get(bytes: &[u8], out: &mut [i64; COUNT]) -> Option<()>
    ensures answer { result ≡ got_of (reading_for Eclipse bytes.now) }
    ensures numbers { out.new ≡ numbers_after (reading_for Eclipse bytes.now) out.old }
{
    get_as(Shape::Eclipse, bytes, out)
}

// The same of a star's.
pub fn get_star(bytes: &[u8], out: &mut [i64; STAR_COUNT]) -> Option<()>
    ensures answer { result ≡ got_of (reading_for Star bytes.now) }
    ensures numbers { out.new ≡ numbers_after (reading_for Star bytes.now) out.old }
{
    get_as(Shape::Star, bytes, out)
}
