ghost use Rattle.std.specs.Prelude.{◌≡◌};
ghost use Rattle.dictionary.specs.Shows.{open_answer};
ghost use Rattle.session.specs.Output.{Printed};
ghost use Rattle.session.specs.Served.{ServedList, printed_over};

use crate::lists::put_lines;
use crate::output::Output;
use dictionary::dictionary::{Dictionary, Parts};
use parts::map::NodeMap;
use parts::shelf::Shelf;
use parts::store::LabelStore;

// Opens a dictionary over parts of any state and runs a bench list on it: for each line of the text a line is printed, and
// at the end the totals. What is printed goes into `out` as far as it fits; what lies beyond it stays. Answers the
// dictionary, and how many bytes are printed, whether they fit or not.
pub fn serve_list<M: NodeMap, L: LabelStore, S: Shelf<Value = u32>>(
    parts: Parts<M, L, S>,
    text: &[u8],
    out: &mut [u8],
) -> (Dictionary<M, L, S>, usize)
    ensures served { ServedList (M.NodeMap.meaning parts.map) (L.LabelStore.meaning parts.store) (S.Shelf.meaning parts.shelf)
        text.now out.old out.new result.1
        (M.NodeMap.meaning result.0.parts.map) (L.LabelStore.meaning result.0.parts.store) (S.Shelf.meaning result.0.parts.shelf) (result.0.parts ≡ parts) }
    ensures opened { result.0.opened ≡ open_answer (M.NodeMap.meaning parts.map) (L.LabelStore.meaning parts.store) (S.Shelf.meaning parts.shelf) }
{
    let mut d = Dictionary::new(parts);
    let mut output = Output::new(out);
    put_lines(&mut d, text, &mut output);
    output.put_totals(d.nodes(), d.label_bytes());
    (d, output.count())
}

// The same for a caller that does not go on with the dictionary. It need not be generic, so that it hands in no `Parts`, as
// with `check_parts`.
pub fn print_list<M: NodeMap + Drop, L: LabelStore + Drop, S: Shelf<Value = u32> + Drop>(
    map: M,
    store: L,
    shelf: S,
    text: &[u8],
    out: &mut [u8],
) -> usize
    ensures { Printed (printed_over (M.NodeMap.meaning map) (L.LabelStore.meaning store) (S.Shelf.meaning shelf) text.now) out.old out.new result }
{
    let parts = Parts { map, store, shelf };
    let (_, count) = serve_list(parts, text, out);
    count
}
