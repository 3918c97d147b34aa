ghost use Rattle.std.specs.Prelude.{ℕ, List, slice_set};
ghost use Rattle.label_stores.specs.Sizes.{plain_takes};
ghost use Rattle.label_stores.specs.Spans.{written, plain_labels};
ghost use Rattle.label_stores.specs.Sound.{PlainSound};
ghost use Rattle.label_stores.specs.Laws.{plain_once, plain_counted, plain_summed, plain_short, plain_empty};

use crate::fill::Fill;
use crate::labels::write;
use crate::layout::Layout;
use crate::lent::LentStore;

const MOST_BYTES: usize = 1_048_576;

const MOST_STARTS: usize = 32_768;

// The labels lie one after another, and each has its start in the list.
pub struct Plain;

// A label store over lent bytes, in which the labels lie one after another, and a lent list of their starts.
pub type PlainStore<'a> = LentStore<'a, Plain>;

impl Layout for Plain {
    ghost takes = { plain_takes };

    ghost room = { λ bytes starts. bytes };

    ghost places = { λ bytes starts. starts };

    ghost labels = { plain_labels };

    ghost bytes_with = { λ bytes n t label. written bytes t label };

    ghost starts_with = { slice_set };

    ghost Sound = { PlainSound };

    ghost sound_once = { plain_once };

    ghost counted = { plain_counted };

    ghost summed = { plain_summed };

    ghost short = { plain_short };

    ghost empty = { plain_empty };

    fn fresh(bytes: usize, starts: usize) -> Option<Fill> {
        let taken = (1..=MOST_BYTES).contains(&bytes) && (1..=MOST_STARTS).contains(&starts);
        taken.then(|| Fill::new(starts as u32, bytes as u32))
    }

    fn span<'a>(bytes: &'a [u8], starts: &[u32], fill: Fill, v: u32) -> &'a [u8] {
        let start = starts[v as usize] as usize;
        let end = if v + 1 < fill.count {
            starts[v as usize + 1]
        } else {
            fill.total
        };
        &bytes[start..end as usize]
    }

    fn lay(bytes: &mut [u8], starts: &mut [u32], fill: Fill, label: &[u8]) -> Fill {
        write(bytes, fill.total as usize, label);
        starts[fill.count as usize] = fill.total;
        fill.with_label(label.len() as u32)
    }
}
