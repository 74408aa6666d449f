// The contact between two seconds of a request, of an eclipse or of a star, for C and Rust.
ghost use Rattle.std.specs.Prelude.{◌≡◌};
ghost use Rattle.request_answers.specs.Contacts.{contact_sines_asked, contact_given, contact_after};
ghost use Rattle.request_answers.specs.Second.{wish};
ghost use Rattle.request_format.specs.declared.fields.Shape.TheVariants.{Eclipse, Star};
ghost use Rattle.ukhtvaresh.specs.Contacts.{contact_reply};

// Where the contact of a phase (0 penumbra, 1 central) between two seconds of a request of 115 bytes lies: two hundredths
// of a second from the reference instant, of which one is surely outside and the other surely inside; value: 2. The
// seconds may lie outside the request's window. `sines` is the buffer for table S.
#[unsafe(no_mangle)]
pub extern "C" fn ukhtvaresh_contact(
    request: &[u8],
    phase: i64,
    from: i64,
    to: i64,
    sines: &mut [u32],
    bracket: &mut [i64],
    value: &mut u64,
) -> u64
    ensures number { result ≡ (contact_reply (contact_given Eclipse request.now phase from to sines.old bracket.old)).number }
    ensures value { value.new ≡ (contact_reply (contact_given Eclipse request.now phase from to sines.old bracket.old)).value }
    ensures buffer { bracket.new ≡ contact_after (contact_given Eclipse request.now phase from to sines.old bracket.old) bracket.old }
    ensures sines { sines.new ≡ contact_sines_asked (wish Eclipse request.now) phase from to sines.old }
{
    ukhtvaresh::of_requests::one_contact::ukhtvaresh_contact(
        request, phase, from, to, sines, bracket, value,
    )
}

// The same of the star of a star request of 79 bytes, whose one phase is 0.
#[unsafe(no_mangle)]
pub extern "C" fn ukhtvaresh_star_contact(
    request: &[u8],
    phase: i64,
    from: i64,
    to: i64,
    sines: &mut [u32],
    bracket: &mut [i64],
    value: &mut u64,
) -> u64
    ensures number { result ≡ (contact_reply (contact_given Star request.now phase from to sines.old bracket.old)).number }
    ensures value { value.new ≡ (contact_reply (contact_given Star request.now phase from to sines.old bracket.old)).value }
    ensures buffer { bracket.new ≡ contact_after (contact_given Star request.now phase from to sines.old bracket.old) bracket.old }
    ensures sines { sines.new ≡ contact_sines_asked (wish Star request.now) phase from to sines.old }
{
    ukhtvaresh::of_requests::one_contact::ukhtvaresh_star_contact(
        request, phase, from, to, sines, bracket, value,
    )
}
