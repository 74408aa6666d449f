// Whole numbers in decimal, and lines of text with such numbers, as bytes in a caller-provided buffer.
//
// A `put_` function stores a text at a place, as far as the buffer reaches, and gives the place after it. So texts
// follow each other, and an empty buffer measures them.
#![tactic(auto)]

ghost use Rattle.std.specs.Prelude.{◌≡◌, [], ◌∷◌, ◌+◌, ◌<◌, min, length};
ghost use Rattle.decimal_text.specs.Decimals.{decimal, signed};
ghost use Rattle.decimal_text.specs.Texts.{capped, Put, Counts};
ghost use Rattle.decimal_text.specs.Patterns.{piece, number_after, filled};

// A byte.
pub fn put_byte(out: &mut [u8], at: usize, x: u8) -> usize
    ensures { Put out.old at (x ∷ []) out.new result }
{
    if at < out.len() {
        out[at] = x;
    }
    at.saturating_add(1)
}

// The place `end`, or the end of the buffer where `end` lies past it. So `&out[..n]` is what was put.
pub fn clipped(out: &[u8], end: usize) -> usize
    ensures value { result ≡ min end (length out.now) }
    ensures counts { Counts result out.now }
{
    end.min(out.len())
}

// The place n bytes after another, or the greatest place where that lies past it.
pub fn after(at: usize, n: usize) -> usize
    ensures { result ≡ capped (at + n) }
{
    at.saturating_add(n)
}

// Bytes as they are.
pub fn put_text(out: &mut [u8], start: usize, text: &[u8]) -> usize
    ensures { Put out.old start text.now out.new result }
{
    let mut at = start;
    for &x in text {
        at = put_byte(out, at, x);
    }
    at
}

// A number in decimal: the digits of its tenth, then its last one.
pub fn put_number(out: &mut [u8], at: usize, n: u64) -> usize
    ensures { Put out.old at (decimal n) out.new result }
{
    if n < 10 {
        let digit = 48 + n as u8;
        return put_byte(out, at, digit);
    }
    let next = put_number(out, at, n / 10);
    put_number(out, next, n % 10)
}

// A number in decimal, a minus before one below zero.
pub fn put_signed(out: &mut [u8], at: usize, x: i64) -> usize
    ensures { Put out.old at (signed x) out.new result }
{
    let digits = x.unsigned_abs();
    if x < 0 {
        let next = put_byte(out, at, 45);
        return put_number(out, next, digits);
    }
    put_number(out, at, digits)
}

// What a pattern's byte stands for: # a number, any other itself.
fn put_piece(out: &mut [u8], at: usize, x: u8, v: i64) -> usize
    ensures { Put out.old at (piece x v) out.new result }
{
    if x == 35 {
        return put_signed(out, at, v);
    }
    put_byte(out, at, x)
}

// Which number the next # stands for, after the byte x.
fn number_after(x: u8, k: usize) -> usize
    requires { k < 9223372036854775808 }
    ensures { result ≡ number_after x k }
{
    if x == 35 {
        return k + 1;
    }
    k
}

// A pattern, filled with the numbers in their order, and with 0 where there is none left.
pub fn put_filled(out: &mut [u8], start: usize, pattern: &[u8], numbers: &[i64]) -> usize
    ensures { Put out.old start (filled numbers.now 0 pattern.now) out.new result }
{
    let mut at = start;
    let mut k = 0;
    for &x in pattern {
        let v = numbers.get(k).copied().unwrap_or(0);
        at = put_piece(out, at, x, v);
        k = number_after(x, k);
    }
    at
}
