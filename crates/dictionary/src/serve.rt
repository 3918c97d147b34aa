ghost use Rattle.std.specs.Prelude.{◌≡◌, Ok};
ghost use Rattle.dictionary.specs.Shows.{open_answer};
ghost use Rattle.dictionary.specs.Runs.{made, Opened, AnsweredAlike};

use crate::dictionary::{Dictionary, Parts};
use crate::runs::run;
use parts::map::NodeMap;
use parts::shelf::Shelf;
use parts::store::LabelStore;
use rules::answers::{Answer, Call};
use tags::refusal::Refusal;

// Opens a dictionary over parts of any state, and runs any list of calls on it. Calls, answers and memory are no struct: of
// `&mut` fields a contract would have to speak by what becomes of each loan, and not by old and new.
pub fn serve<M: NodeMap, L: LabelStore, S: Shelf>(
    parts: Parts<M, L, S>,
    calls: &[Call<'_, S::Value>],
    answers: &mut [Result<Answer<S::Value>, Refusal>],
    memory: &mut [u8],
) -> Dictionary<M, L, S>
    ensures ran { Opened (M.NodeMap.meaning parts.map) (L.LabelStore.meaning parts.store) (S.Shelf.meaning parts.shelf)
        (made calls.now answers.old) answers.old memory.old answers.new memory.new
        (M.NodeMap.meaning result.parts.map) (L.LabelStore.meaning result.parts.store) (S.Shelf.meaning result.parts.shelf) (result.parts ≡ parts) }
    ensures opened { result.opened ≡ open_answer (M.NodeMap.meaning parts.map) (L.LabelStore.meaning parts.store) (S.Shelf.meaning parts.shelf) }
{
    let mut d = Dictionary::new(parts);
    run(&mut d, calls, answers, memory);
    d
}

// The same with two dictionaries over parts of any makes. Where both sets of parts fit, rooms do not show in the answers.
pub fn serve_both<
    M: NodeMap,
    L: LabelStore,
    S: Shelf,
    M2: NodeMap,
    L2: LabelStore,
    S2: Shelf<Value = S::Value>,
>(
    parts: Parts<M, L, S>,
    calls: &[Call<'_, S::Value>],
    answers: &mut [Result<Answer<S::Value>, Refusal>],
    memory: &mut [u8],
    parts2: Parts<M2, L2, S2>,
    calls2: &[Call<'_, S::Value>],
    answers2: &mut [Result<Answer<S::Value>, Refusal>],
    memory2: &mut [u8],
) -> (Dictionary<M, L, S>, Dictionary<M2, L2, S2>)
    ensures first { Opened (M.NodeMap.meaning parts.map) (L.LabelStore.meaning parts.store) (S.Shelf.meaning parts.shelf)
        (made calls.now answers.old) answers.old memory.old answers.new memory.new
        (M.NodeMap.meaning result.0.parts.map) (L.LabelStore.meaning result.0.parts.store) (S.Shelf.meaning result.0.parts.shelf) (result.0.parts ≡ parts) }
    ensures second { Opened (M2.NodeMap.meaning parts2.map) (L2.LabelStore.meaning parts2.store) (S2.Shelf.meaning parts2.shelf)
        (made calls2.now answers2.old) answers2.old memory2.old answers2.new memory2.new
        (M2.NodeMap.meaning result.1.parts.map) (L2.LabelStore.meaning result.1.parts.store) (S2.Shelf.meaning result.1.parts.shelf) (result.1.parts ≡ parts2) }
    ensures opened { (result.0.opened ≡ open_answer (M.NodeMap.meaning parts.map) (L.LabelStore.meaning parts.store) (S.Shelf.meaning parts.shelf))
        × (result.1.opened ≡ open_answer (M2.NodeMap.meaning parts2.map) (L2.LabelStore.meaning parts2.store) (S2.Shelf.meaning parts2.shelf)) }
    ensures alike { open_answer (M.NodeMap.meaning parts.map) (L.LabelStore.meaning parts.store) (S.Shelf.meaning parts.shelf) ≡ Ok tt
        → open_answer (M2.NodeMap.meaning parts2.map) (L2.LabelStore.meaning parts2.store) (S2.Shelf.meaning parts2.shelf) ≡ Ok tt
        → AnsweredAlike (made calls.now answers.old) memory.old answers.new memory.new
        (made calls2.now answers2.old) memory2.old answers2.new memory2.new }
{
    let first = serve(parts, calls, answers, memory);
    let second = serve(parts2, calls2, answers2, memory2);
    (first, second)
}
