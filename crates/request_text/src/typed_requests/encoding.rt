// The bytes of a typed request's numbers.
ghost use Rattle.request_format.specs.declared.fields.Shape.TheVariants.{Eclipse, Star};
ghost use Rattle.request_text.specs.Encoded.{Encoded};

use crate::Fault;
use request_format::fields::{COUNT, LENGTH, STAR_COUNT, STAR_LENGTH, Shape};

// The bytes of a typed eclipse at the start of the buffer; or its fault, and the buffer as it was.
fn encode_eclipse(text: &[u8], out: &mut [u8; LENGTH]) -> Result<(), (usize, Fault)>
    ensures { Encoded Eclipse text.now out.old result out.new }
{
    let mut numbers = [0i64; COUNT];
    crate::numbers(text, &mut numbers)?;
    let mut made = [0u8; LENGTH];
    // the numbers of a text that is not refused fit
    let _ = request_format::bytes::put(&numbers, &mut made);
    decimal_text::put_text(out, 0, &made);
    Ok(())
}

// The same of a star. Each of the two calls the public functions of its shape, which docs/DECISIONS.md names.
fn encode_star(text: &[u8], out: &mut [u8; LENGTH]) -> Result<(), (usize, Fault)>
    ensures { Encoded Star text.now out.old result out.new }
{
    let mut numbers = [0i64; STAR_COUNT];
    crate::star_numbers(text, &mut numbers)?;
    let mut made = [0u8; STAR_LENGTH];
    // as above
    let _ = request_format::bytes::put_star(&numbers, &mut made);
    decimal_text::put_text(out, 0, &made);
    Ok(())
}

// The same of a typed request.
pub fn encode(shape: Shape, text: &[u8], out: &mut [u8; LENGTH]) -> Result<(), (usize, Fault)>
    ensures { Encoded shape text.now out.old result out.new }
{
    match shape {
        Shape::Eclipse => encode_eclipse(text, out),
        Shape::Star => encode_star(text, out),
    }
}
