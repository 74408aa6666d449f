// The first enter of the penumbra at one station: its entries are stepped through up to it, and no sheet is written.
// These functions are internal and have a `requires`.
ghost use Rattle.std.specs.Prelude.{◌≡◌, map, length};
ghost use Rattle.sine_table.specs.Table.{Sines};
ghost use Rattle.requests.specs.Requests.{of_eclipse};
ghost use Rattle.requests.specs.RequestLaws.{InLimits};
ghost use Rattle.requests.specs.Windows.{second_count};
ghost use Rattle.requests.specs.WindowLaws.{WindowHolds};
ghost use Rattle.run_length.specs.Runs.{decoded, Whole};
ghost use Rattle.contacts.specs.Entries.{entries};
ghost use Rattle.contacts.specs.laws.Shifted.{shifted};
ghost use Rattle.sheet_format.specs.StoredSeconds.{stored};
ghost use Rattle.networks.specs.Enters.{is_enter, first_enter, firstTo};

// Whether an entry is an enter.
fn is_enter(entry: contacts::entries::Entry) -> bool
    ensures { result ≡ is_enter entry }
{
    matches!(entry, contacts::entries::Entry::Enter { .. })
}

// The "to" of the first enter of the first phase of a window, as it is stored, or 21,601 where there is none. Each
// step hands on a cursor: an iterator over the entries would hold the same cursor.
fn first_enter(w: requests::windows::Window, runs: &[u8]) -> u32
    requires { (WindowHolds w) × (Whole runs.now) × (length (decoded 0 runs.now) ≡ second_count w) }
    ensures { result ≡ first_enter (map (shifted (stored w.first)) (entries (decoded 0 runs.now))) }
{
    let seconds = requests::windows::second_count(w);
    let mut c = contacts::Cursor {
        at: 0,
        run: 0,
        was: 0,
    };
    while let Some((entry, next)) = contacts::step(runs, 0, seconds, c) {
        let enters = is_enter(entry);
        if enters {
            let to = local_circumstances::entries::to_of(entry);
            let t = requests::windows::nth_second(w, to);
            return sheet_format::kinds::seconds::store_second(t);
        }
        c = next;
    }
    21_601
}

// The "to" of the first enter of the penumbra on the sheet of an eclipse, as it is stored, or 21,601 where the sheet
// has none.
pub fn first_to(table: &[u32], q: requests::Request) -> u32
    requires { (Sines table.now) × (InLimits (of_eclipse q)) }
    ensures { result ≡ firstTo (of_eclipse q) }
{
    let o = requests::of_eclipse(q);
    let s = q.station;
    let w = q.window;
    let place = station::geocentric(table, s);
    let mut runs = [0u8; 21601];
    let known = adaptive_sampling::bisection::fill(table, o, place, &mut runs);
    let count = known.count;
    first_enter(w, &runs[..count])
}
