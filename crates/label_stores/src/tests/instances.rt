// Never called: these functions state, proved, what the generic store promises at each layout, in that layout's words.
ghost use Rattle.std.specs.Prelude.{◌≡◌, drop, length, slice_set};
ghost use Rattle.parts.specs.Stores.{append_answer, append_next};
ghost use Rattle.label_stores.specs.Sizes.{plain_sizes, grouped_sizes, new_plain, new_grouped};
ghost use Rattle.label_stores.specs.Spans.{written};
ghost use Rattle.label_stores.specs.Leads.{led, noted};
ghost use Rattle.label_stores.specs.Meaning.{after_append, plain_meaning, plain_bytes_next, plain_starts_next, grouped_meaning, grouped_bytes_next, grouped_starts_next};

use crate::grouped::{Grouped, GroupedStore};
use crate::plain::{Plain, PlainStore};
use crate::tests::append_first;
use parts::store::{LabelStore, StoreFault};
use tags::refusal::Refusal;

fn check_plain(bytes: usize, starts: usize) -> Result<(), Refusal>
    ensures { result ≡ plain_sizes bytes starts }
{
    PlainStore::check_sizes(bytes, starts)
}

fn make_plain<'a>(bytes: &'a mut [u8], starts: &'a mut [u32]) -> PlainStore<'a>
    ensures { plain_meaning result ≡ new_plain (length bytes.old) (length starts.old) }
{
    PlainStore::new(bytes, starts)
}

fn append_plain(store: &mut PlainStore<'_>, s: &[u8], from: usize) -> Result<(), StoreFault>
    ensures answer { result ≡ append_answer (plain_meaning store.old) s.now from }
    ensures next { plain_meaning store.new ≡ append_next (plain_meaning store.old) s.now from }
    ensures bytes { store.new.bytes.now ≡ plain_bytes_next store.old s.now from }
    ensures starts { store.new.starts.now ≡ plain_starts_next store.old s.now from }
{
    store.append(s, from)
}

fn check_grouped(bytes: usize, starts: usize) -> Result<(), Refusal>
    ensures { result ≡ grouped_sizes bytes starts }
{
    GroupedStore::check_sizes(bytes, starts)
}

fn make_grouped<'a>(bytes: &'a mut [u8], starts: &'a mut [u32]) -> GroupedStore<'a>
    ensures { grouped_meaning result ≡ new_grouped (length bytes.old) (length starts.old) }
{
    GroupedStore::new(bytes, starts)
}

fn append_grouped(store: &mut GroupedStore<'_>, s: &[u8], from: usize) -> Result<(), StoreFault>
    ensures answer { result ≡ append_answer (grouped_meaning store.old) s.now from }
    ensures next { grouped_meaning store.new ≡ append_next (grouped_meaning store.old) s.now from }
    ensures bytes { store.new.bytes.now ≡ grouped_bytes_next store.old s.now from }
    ensures starts { store.new.starts.now ≡ grouped_starts_next store.old s.now from }
{
    store.append(s, from)
}

// What the lent memory holds once the store is gone.
fn append_plain_first(
    bytes: &mut [u8],
    starts: &mut [u32],
    s: &[u8],
    from: usize,
) -> Result<(), StoreFault>
    ensures bytes { bytes.new ≡ after_append result (written bytes.old 0 (drop from s.now)) bytes.old }
    ensures starts { starts.new ≡ after_append result (slice_set starts.old 0 0) starts.old }
{
    append_first::<Plain>(bytes, starts, s, from)
}

fn append_grouped_first(
    bytes: &mut [u8],
    starts: &mut [u32],
    s: &[u8],
    from: usize,
) -> Result<(), StoreFault>
    ensures bytes { bytes.new ≡ after_append result (led bytes.old 0 (drop from s.now)) bytes.old }
    ensures starts { starts.new ≡ after_append result (noted starts.old 0 0) starts.old }
{
    append_first::<Grouped>(bytes, starts, s, from)
}
