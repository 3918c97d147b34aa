#![tactic(auto)]

ghost use Rattle.std.specs.Prelude.{◌≡◌, false, length, is_ok};
ghost use Rattle.parts.specs.Sizes.{power_for, size_answer};
ghost use Rattle.session.specs.Output.{Printed};
ghost use Rattle.session.specs.Served.{printed_over};
ghost use Rattle.door.specs.Door.{map_in, store_in, amounts as blank_amounts, door_text};

use compact_map::map::check_bytes;
use compact_map::shape::CompactMap;
use label_stores::plain::PlainStore;
use session::serve::print_list;
use shelves::record::RecordShelf;

// A list over a compact map, a plain store and 1,024 amounts.
fn answers_over(
    map: &mut [u8],
    labels: &mut [u8],
    starts: &mut [u32],
    lines: &[u8],
    out: &mut [u8],
) -> usize
    ensures { Printed (printed_over (map_in (length map.old)) (store_in (length labels.old) (length starts.old)) blank_amounts lines.now) out.old out.new result }
{
    let mut amounts = [None; 1_024];
    let map = CompactMap::new(map);
    let store = PlainStore::new(labels, starts);
    let shelf = RecordShelf::new(&mut amounts);
    print_list(map, store, shelf, lines, out)
}

// Runs the lines of a bench list on a new dictionary in lent memory, and writes what the bench program prints for them
// into `out`, as far as it goes; bytes beyond stay. Answers how many bytes that is, whether they fit or not. In memory of
// sizes that do not serve, every line that is read is refused with 13. Where the map's size is refused, `map`, `labels` and
// `starts` stay as they are; otherwise what they hold afterwards is left open: the next call begins anew in them.
#[unsafe(no_mangle)]
pub extern "C" fn walnutyore_answers(
    map: &mut [u8],
    labels: &mut [u8],
    starts: &mut [u32],
    lines: &[u8],
    out: &mut [u8],
) -> usize
    ensures printed { Printed (door_text (length map.old) (length labels.old) (length starts.old) lines.now) out.old out.new result }
    ensures kept { is_ok (size_answer (power_for (length map.old) 14)) ≡ false → (map.new ≡ map.old) × (labels.new ≡ labels.old) × (starts.new ≡ starts.old) }
{
    if check_bytes(map.len()).is_ok() {
        answers_over(map, labels, starts, lines, out)
    } else {
        // A map without its memory has room for one node; without a store nothing fits it.
        answers_over(&mut [], &mut [], &mut [], lines, out)
    }
}
