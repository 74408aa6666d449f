// What stands beside a sheet's listing for an observer: the altitude of the Sun or the star at each contact, and notes
// (docs/CLOCK.md). No refraction, no dip.
ghost use Rattle.std.specs.Prelude.{◌≡◌, cond, [], ◌≤◌, nat_abs};
ghost use Rattle.decimal_text.specs.Texts.{Put, Copies};
ghost use Rattle.listings.specs.Sky.{altitude_by, altitude_at, altitude_of, altitude_shown, altitude_for, seen_after, is_contact, view_after, is_below, inside_at, note_for, notes_of, notes_for};

use elements::Body;
use listing_lines::clock::{Altitude, Seconds, Shown};
use requests::Occultation;
use sheet_format::kinds::Entry;

// Whether it is below the horizon at every contact so far: there was none; it was at all; it was not at one. Three
// answers to one question: an Option of two would ask twice.
#[derive(Clone, Copy, PartialEq, Eq)]
pub enum View {
    Nothing,
    Below,
    Above,
}

// Table S.
fn sines_room() -> [u32; 901]
    ensures { Copies 0 901 result }
{
    [0; 901]
}

// ---- the altitude

fn altitude_by(altitude: i64) -> Altitude
    requires { nat_abs altitude ≤ 900 }
    ensures { result ≡ altitude_by altitude }
{
    if altitude < 0 {
        return Altitude::Below((0 - altitude) as u64);
    }
    Altitude::Above(altitude as u64)
}

// The altitude at a second.
pub fn altitude_at(o: Occultation, t: i64) -> Altitude
    ensures { result ≡ altitude_at o t }
{
    let mut sines = sines_room();
    let found = horizon::horizon_at(o, t, &mut sines);
    match found {
        Ok(h) => {
            let altitude = h.altitude;
            altitude_by(altitude)
        }
        Err(_) => Altitude::Nothing,
    }
}

// At the closest second, or at the later second of a contact.
fn altitude_of(o: Occultation, seconds: Seconds) -> Altitude
    ensures { result ≡ altitude_of o seconds }
{
    match seconds {
        Seconds::Moment(second) => {
            let t = sheet_format::kinds::seconds::second_of(second);
            altitude_at(o, t)
        }
        Seconds::Contact(_, to) => {
            let t = sheet_format::kinds::seconds::second_of(to);
            altitude_at(o, t)
        }
    }
}

fn altitude_shown(o: Occultation, shown: Shown) -> Altitude
    ensures { result ≡ altitude_shown o shown }
{
    match shown {
        Shown::Nothing => Altitude::Nothing,
        Shown::InstantLine => Altitude::Nothing,
        Shown::Times(seconds) => altitude_of(o, seconds),
    }
}

// The altitude that stands behind an entry; none where no occultation is given.
pub fn altitude_for(sky: Option<Occultation>, entry: Entry) -> Altitude
    ensures { result ≡ altitude_for sky entry }
{
    let Some(o) = sky else {
        return Altitude::Nothing;
    };
    let kind = entry.kind;
    let a = entry.a;
    let b = entry.b;
    let shown = listing_lines::clock::shown_for(kind, a, b);
    altitude_shown(o, shown)
}

// ---- whether it is below the horizon at every contact

fn is_contact(shown: Shown) -> bool
    ensures { result ≡ is_contact shown }
{
    match shown {
        Shown::Nothing => false,
        Shown::InstantLine => false,
        Shown::Times(seconds) => match seconds {
            Seconds::Moment(_) => false,
            Seconds::Contact(_, _) => true,
        },
    }
}

// After a contact with an altitude.
fn seen_after(view: View, altitude: Altitude) -> View
    ensures { result ≡ seen_after view altitude }
{
    match altitude {
        Altitude::Nothing => view,
        Altitude::Above(_) => View::Above,
        Altitude::Below(_) => match view {
            View::Nothing => View::Below,
            View::Below => View::Below,
            View::Above => View::Above,
        },
    }
}

// After an entry with an altitude.
pub fn view_after(view: View, entry: Entry, altitude: Altitude) -> View
    ensures { result ≡ view_after view entry altitude }
{
    let kind = entry.kind;
    let a = entry.a;
    let b = entry.b;
    let shown = listing_lines::clock::shown_for(kind, a, b);
    if is_contact(shown) {
        return seen_after(view, altitude);
    }
    view
}

fn is_below(view: View) -> bool
    ensures { result ≡ is_below view }
{
    view == View::Below
}

// ---- the notes

// Whether the station is inside the penumbra, or behind the star's shadow edge, at a second.
fn inside_at(o: Occultation, t: i64) -> bool
    ensures { result ≡ inside_at o t }
{
    let mut sines = sines_room();
    let found = seconds::second(o, t, &mut sines);
    match found {
        Ok(x) => {
            let state = x.penumbra;
            state == 1
        }
        Err(_) => false,
    }
}

// Whether it is so at the window's first second, and at its last.
fn began(o: Occultation) -> bool
    ensures { result ≡ inside_at o o.window.first }
{
    let window = o.window;
    let first = window.first;
    inside_at(o, first)
}

fn goes_on(o: Occultation) -> bool
    ensures { result ≡ inside_at o o.window.last }
{
    let window = o.window;
    let last = window.last;
    inside_at(o, last)
}

// The words for the Sun, or those for a star.
fn put_words(out: &mut [u8], at: usize, body: Body, sun: &[u8], star: &[u8]) -> usize
    ensures { Put out.old at (note_for body sun.now star.now) out.new result }
{
    match body {
        Body::Sun(_) => decimal_text::put_text(out, at, sun),
        Body::Star(_) => decimal_text::put_text(out, at, star),
    }
}

// A note where it holds.
fn put_note(out: &mut [u8], at: usize, holds: bool, body: Body, sun: &[u8], star: &[u8]) -> usize
    ensures { Put out.old at (cond holds (note_for body sun.now star.now) []) out.new result }
{
    if holds {
        return put_words(out, at, body, sun, star);
    }
    at
}

// The notes of an occultation.
fn put_notes_of(out: &mut [u8], at: usize, o: Occultation, view: View) -> usize
    ensures { Put out.old at (notes_of o view) out.new result }
{
    let body = o.body;
    let low = is_below(view);
    let early = began(o);
    let late = goes_on(o);
    let before = put_note(
        out,
        at,
        low,
        body,
        b"note the Sun is below the horizon at every contact\n",
        b"note the star is below the horizon at every contact\n",
    );
    let after = put_note(
        out,
        before,
        early,
        body,
        b"note the eclipse began before the window\n",
        b"note the occultation began before the window\n",
    );
    put_note(
        out,
        after,
        late,
        body,
        b"note the eclipse ends after the window\n",
        b"note the occultation ends after the window\n",
    )
}

// The notes after the last line; none where no occultation is given.
pub fn put_notes(out: &mut [u8], at: usize, sky: Option<Occultation>, view: View) -> usize
    ensures { Put out.old at (notes_for sky view) out.new result }
{
    match sky {
        None => at,
        Some(o) => put_notes_of(out, at, o, view),
    }
}
