ghost use Rattle.std.specs.Prelude.{◌≡◌, ℕ, ◌+◌, ◌-◌, ◌*◌, ◌/◌, ◌<◌, ◌≤◌, List, length};
ghost use Rattle.label_stores.specs.Sizes.{grouped_takes};
ghost use Rattle.label_stores.specs.Leads.{end_from, head_at, grouped_labels, led, noted};
ghost use Rattle.label_stores.specs.Sound.{GroupedSound};
ghost use Rattle.label_stores.specs.Laws.{grouped_once, grouped_counted, grouped_summed, grouped_short, grouped_empty};

use crate::fill::Fill;
use crate::labels::write;
use crate::layout::Layout;
use crate::lent::LentStore;

const MOST_BYTES: usize = 1_081_344;

const MOST_GROUPS: usize = 2_048;

// The labels of a group.
const GROUP: usize = 16;

// The labels lie one after another, each led by its length in one byte, and each group of 16 has its start in the list.
pub struct Grouped;

// A label store over lent bytes, in which the labels lie one after another, each led by its length in one byte, and a
// lent list of the starts of groups of 16 labels.
pub type GroupedStore<'a> = LentStore<'a, Grouped>;

// Where the label ends whose length stands at a place.
fn end_of(bytes: &[u8], head: usize) -> usize
    requires { end_from bytes.now head ≤ length bytes.now }
    ensures end { result ≡ end_from bytes.now head }
    ensures within { result ≤ length bytes.now }
{
    head + 1 + usize::from(bytes[head])
}

// Where the length of label `to` stands, from where that of label `from` does. Each is found from the one before, and no
// index is used: a fold over the range is no plainer.
fn walk(bytes: &[u8], start: usize, from: usize, to: usize) -> usize
    requires { (start ≡ head_at bytes.now from) × ((from ≤ to) × (head_at bytes.now to ≤ length bytes.now)) }
    ensures { result ≡ head_at bytes.now to }
{
    let mut head = start;
    for _ in from..to {
        head = end_of(bytes, head);
    }
    head
}

// Writes a label from a place on, its length first.
fn lead(bytes: &mut [u8], at: usize, label: &[u8])
    requires { (at + 1 + length label.now ≤ length bytes.old) × (length label.now ≤ 201) }
    ensures { bytes.new ≡ led bytes.old at label.now }
{
    bytes[at] = label.len() as u8;
    write(bytes, at + 1, label);
}

// Notes where the length of label v stands, if v is the first of its group.
fn note(starts: &mut [u32], v: usize, at: u32)
    requires { v / 16 < length starts.old }
    ensures { starts.new ≡ noted starts.old v at }
{
    if v % GROUP == 0 {
        starts[v / GROUP] = at;
    }
}

impl Layout for Grouped {
    ghost takes = { grouped_takes };

    ghost room = { λ bytes starts. bytes - 16 * starts };

    ghost places = { λ bytes starts. 16 * starts };

    ghost labels = { λ bytes starts n t. grouped_labels bytes n };

    ghost bytes_with = { λ bytes n t label. led bytes (t + n) label };

    ghost starts_with = { λ starts n t. noted starts n (t + n) };

    ghost Sound = { GroupedSound };

    ghost sound_once = { grouped_once };

    ghost counted = { grouped_counted };

    ghost summed = { grouped_summed };

    ghost short = { grouped_short };

    ghost empty = { grouped_empty };

    fn fresh(bytes: usize, starts: usize) -> Option<Fill> {
        if !(1..=MOST_GROUPS).contains(&starts) || bytes <= GROUP * starts || bytes > MOST_BYTES {
            return None;
        }
        let places = GROUP * starts;
        Some(Fill::new(places as u32, (bytes - places) as u32))
    }

    fn span<'a>(bytes: &'a [u8], starts: &[u32], _fill: Fill, v: u32) -> &'a [u8] {
        let v = v as usize;
        let group = v / GROUP;
        let head = walk(bytes, starts[group] as usize, GROUP * group, v);
        let end = end_of(bytes, head);
        &bytes[head + 1..end]
    }

    fn lay(bytes: &mut [u8], starts: &mut [u32], fill: Fill, label: &[u8]) -> Fill {
        let head = fill.total + fill.count;
        lead(bytes, head as usize, label);
        note(starts, fill.count as usize, head);
        fill.with_label(label.len() as u32)
    }
}
