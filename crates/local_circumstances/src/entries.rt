// Entries as they stand in a sheet, made from the seconds that they name. These functions are internal and have a
// `requires`. The table, the occultation and the place are no struct with an invariant: `seconds::direction_at` and
// `seconds::magnitude_at` take the three apart, with the same `requires`, so each function here would take it apart too.
ghost use Rattle.std.specs.Prelude.{◌≡◌, ◌≤◌, ◌<◌, nat_abs};
ghost use Rattle.sine_table.specs.Table.{Sines};
ghost use Rattle.station.specs.Place.{place_of};
ghost use Rattle.requests.specs.Windows.{second_count};
ghost use Rattle.requests.specs.RequestLaws.{InLimits};
ghost use Rattle.seconds.specs.Seconds.{closestOf};
ghost use Rattle.contacts.specs.Entries.{from, to};
ghost use Rattle.local_circumstances.specs.Courses.{entry_of, headEntry, closestEntry, shareEntry};
ghost use Rattle.local_circumstances.specs.Course.{share_of, course_of};

use elements::Body;
use requests::Occultation;
use sheet_format::kinds::{Entry, Kind};
use sheet_types::phases::Phase;
use station::Place;

// The earlier second of an entry of a phase, counted from the window's first.
fn from_of(entry: contacts::entries::Entry) -> usize
    ensures { result ≡ from entry }
{
    match entry {
        contacts::entries::Entry::Enter { from, to: _ } => from,
        contacts::entries::Entry::Leave { from, to: _ } => from,
        contacts::entries::Entry::Graze { from, to: _ } => from,
        contacts::entries::Entry::Open { from, to: _ } => from,
    }
}

// The later one.
pub fn to_of(entry: contacts::entries::Entry) -> usize
    ensures { result ≡ to entry }
{
    match entry {
        contacts::entries::Entry::Enter { from: _, to } => to,
        contacts::entries::Entry::Leave { from: _, to } => to,
        contacts::entries::Entry::Graze { from: _, to } => to,
        contacts::entries::Entry::Open { from: _, to } => to,
    }
}

// An entry of a phase, with its direction: at the later second of an enter, at the earlier of a leave.
pub fn entry_for(
    table: &[u32],
    o: Occultation,
    place: Place,
    phase: Phase,
    entry: contacts::entries::Entry,
) -> Entry
    requires { (Sines table.now) × (InLimits o) × (place ≡ place_of o.station) × (from entry < second_count o.window) × (to entry < second_count o.window) }
    ensures { result ≡ entry_of (course_of o) phase entry }
{
    let w = o.window;
    let earlier = requests::windows::nth_second(w, from_of(entry));
    let later = requests::windows::nth_second(w, to_of(entry));
    let from = sheet_format::kinds::seconds::store_second(earlier);
    let to = sheet_format::kinds::seconds::store_second(later);
    match entry {
        contacts::entries::Entry::Enter { from: _, to: _ } => {
            let direction = seconds::direction_at(table, o, place, later);
            let kind = Kind::Enter(phase);
            Entry {
                kind,
                a: from,
                b: to,
                c: direction,
                d: 0,
            }
        }
        contacts::entries::Entry::Leave { from: _, to: _ } => {
            let direction = seconds::direction_at(table, o, place, earlier);
            let kind = Kind::Leave(phase);
            Entry {
                kind,
                a: from,
                b: to,
                c: direction,
                d: 0,
            }
        }
        contacts::entries::Entry::Graze { from: _, to: _ } => {
            let kind = Kind::Graze(phase);
            Entry {
                kind,
                a: from,
                b: to,
                c: 0,
                d: 0,
            }
        }
        contacts::entries::Entry::Open { from: _, to: _ } => {
            let kind = Kind::Open(phase);
            Entry {
                kind,
                a: from,
                b: to,
                c: 0,
                d: 0,
            }
        }
    }
}

// The head of the sheet.
pub fn head_for(o: Occultation) -> Entry
    requires { InLimits o }
    ensures { result ≡ headEntry (course_of o) }
{
    let s = o.station;
    let w = o.window;
    let station = s.number as u32;
    let first = sheet_format::kinds::seconds::store_second(w.first);
    let last = sheet_format::kinds::seconds::store_second(w.last);
    let guard = o.guard as u32;
    let kind = Kind::Head;
    Entry {
        kind,
        a: station,
        b: first,
        c: last,
        d: guard,
    }
}

// The closest second, counted from the window's first, with its magnitude.
pub fn closest_for(table: &[u32], o: Occultation, place: Place, k: usize) -> Entry
    requires { (Sines table.now) × (InLimits o) × (place ≡ place_of o.station) × (k ≡ closestOf o) }
    ensures { result ≡ closestEntry (course_of o) }
{
    let w = o.window;
    let t = requests::windows::nth_second(w, k);
    let second = sheet_format::kinds::seconds::store_second(t);
    let magnitude = seconds::magnitude_at(table, o, place, t);
    let kind = Kind::Closest;
    Entry {
        kind,
        a: second,
        b: magnitude,
        c: 0,
        d: 0,
    }
}

// The covered share at a second; a star has none.
fn share_at(table: &[u32], o: Occultation, place: Place, t: i64) -> u32
    requires { (Sines table.now) × (InLimits o) × (place ≡ place_of o.station) × (nat_abs t ≤ 10800) }
    ensures { result ≡ share_of o.body place t }
{
    let body = o.body;
    match body {
        Body::Sun(e) => obscuration::second::share_at(table, e, place, t),
        Body::Star(_) => 0,
    }
}

// The share at the closest second.
pub fn share_for(table: &[u32], o: Occultation, place: Place, k: usize) -> Entry
    requires { (Sines table.now) × (InLimits o) × (place ≡ place_of o.station) × (k ≡ closestOf o) }
    ensures { result ≡ shareEntry (course_of o) }
{
    let w = o.window;
    let t = requests::windows::nth_second(w, k);
    let share = share_at(table, o, place, t);
    let kind = Kind::Share;
    Entry {
        kind,
        a: share,
        b: 0,
        c: 0,
        d: 0,
    }
}
