ghost use Rattle.std.specs.Prelude.{◌≡◌, ◌≤◌, false, is_ok, None, Ok, Err, slice_index_or};
ghost use Rattle.tags.specs.declared.refusal.Refusal.TheVariants.{UnfitParts};
ghost use Rattle.rules.specs.declared.step.Step.TheVariants.{By32};
ghost use Rattle.rules.specs.Calls.{Book, strike as strike_in};
ghost use Rattle.parts.specs.Maps.{MapFacts};
ghost use Rattle.dictionary.specs.Shows.{Shows, extent_of, held_with};
ghost use Rattle.dictionary.specs.Growth.{room_answer};

use crate::calls::DictionaryCalls;
use crate::climbing::{climb, is_ticket};
use crate::descent::look;
use crate::dictionary::Dictionary;
use crate::growth::grow;
use parts::map::NodeMap;
use parts::shelf::Shelf;
use parts::store::LabelStore;
use rules::answers::{Found, Held};
use tags::refusal::Refusal;
use tags::tag::Tag;

// The row with the ticket, where a value lies at that place.
#[tactic(auto, unfolding(parts::specs::Shelves::get_answer))]
fn held_at<S: Shelf>(shelf: &S, ticket: u32) -> Option<Held<S::Value>>
    ensures { result ≡ held_with ticket (slice_index_or (S.Shelf.meaning shelf.now) ticket None) }
{
    let value = shelf.get(ticket).unwrap_or(None)?;
    Some(Held { ticket, value })
}

impl<M: NodeMap, L: LabelStore, S: Shelf> Dictionary<M, L, S> {
    // The ticket of the row that holds a value for the tag. What holds of every node map is told with the count, and
    // here with the answer.
    fn live(&self, tag: &[u8]) -> Result<u32, Refusal>
        ensures answer { self.now.opened ≡ Ok tt → (b : Book S.Value) → Shows (M.NodeMap.meaning self.now.parts.map) (L.LabelStore.meaning self.now.parts.store) (S.Shelf.meaning self.now.parts.shelf) b → result ≡ (strike_in b tag.now).answer }
        ensures facts { MapFacts By32 (M.NodeMap.meaning self.now.parts.map) }
        ensures unfit { is_ok self.now.opened ≡ false → result ≡ Err UnfitParts }
    {
        let _ = self.parts.map.count();
        let found = self.find(tag)?;
        let row = found.held.ok_or(Refusal::NoLiveRow)?;
        Ok(row.ticket)
    }

    // Whether there is room for so many nodes more and for the label. What holds of every node map is told here.
    fn check_room(&self, nodes: u32, label: &[u8]) -> Result<(), Refusal>
        requires { nodes ≤ 7 }
        ensures answer { result ≡ room_answer (M.NodeMap.meaning self.now.parts.map) (L.LabelStore.meaning self.now.parts.store) nodes label.now }
        ensures facts { MapFacts By32 (M.NodeMap.meaning self.now.parts.map) }
    {
        if self.parts.map.count() + nodes > self.parts.map.room() {
            return Err(Refusal::NoNodeRoom);
        }
        if self.parts.store.total() as usize + label.len() > self.parts.store.byte_room() as usize {
            return Err(Refusal::NoByteRoom);
        }
        Ok(())
    }
}

impl<M: NodeMap, L: LabelStore, S: Shelf> DictionaryCalls for Dictionary<M, L, S> {
    type Value = S::Value;

    ghost shows = { λ d b. (d.opened ≡ Ok tt) × Shows (M.NodeMap.meaning d.parts.map) (L.LabelStore.meaning d.parts.store) (S.Shelf.meaning d.parts.shelf) b };

    ghost unfit = { λ d. is_ok d.opened ≡ false };

    ghost extent = { λ d. extent_of (L.LabelStore.meaning d.parts.store) (S.Shelf.meaning d.parts.shelf) };

    fn enter(&mut self, tag: &[u8], value: S::Value) -> Result<u32, Refusal> {
        self.opened.or(Err(Refusal::UnfitParts))?;
        let tag = Tag::try_from(tag)?;
        let mut form = [0; 201];
        let len = tag.spell_into(&mut form);
        let s = &form[..len];
        if self.parts.store.count() == 0 {
            self.check_room(0, s)?;
            let _ = self.parts.store.append(s, 0);
            let _ = self.parts.shelf.put(0, value);
            return Ok(0);
        }
        let node = match look(&self.parts.map, &self.parts.store, s).end {
            Ok(node) => match held_at(&self.parts.shelf, node) {
                Some(_) => return Err(Refusal::RowHolds),
                None => node,
            },
            Err(gap) => {
                self.check_room(gap.missing + 1, gap.label)?;
                grow(&mut self.parts.map, &mut self.parts.store, gap)
            }
        };
        let _ = self.parts.shelf.put(node, value);
        Ok(node)
    }

    fn change(&mut self, tag: &[u8], value: S::Value) -> Result<u32, Refusal> {
        let ticket = self.live(tag)?;
        let _ = self.parts.shelf.put(ticket, value);
        Ok(ticket)
    }

    fn strike(&mut self, tag: &[u8]) -> Result<u32, Refusal> {
        let ticket = self.live(tag)?;
        let _ = self.parts.shelf.clear(ticket);
        Ok(ticket)
    }

    fn find(&self, tag: &[u8]) -> Result<Found<S::Value>, Refusal> {
        self.opened.or(Err(Refusal::UnfitParts))?;
        let tag = Tag::try_from(tag)?;
        let mut form = [0; 201];
        let len = tag.spell_into(&mut form);
        if self.parts.store.count() == 0 {
            return Ok(Found {
                held: None,
                moves: 0,
            });
        }
        let place = look(&self.parts.map, &self.parts.store, &form[..len]);
        let held = match place.end {
            Ok(ticket) => held_at(&self.parts.shelf, ticket),
            Err(_) => None,
        };
        Ok(Found {
            held,
            moves: place.moves,
        })
    }

    fn spell(&self, ticket: u32, buffer: &mut [u8]) -> Result<usize, Refusal> {
        self.opened.or(Err(Refusal::UnfitParts))?;
        if !is_ticket(&self.parts.map, &self.parts.store, ticket) {
            return Err(Refusal::NoSuchTicket);
        }
        let mut word = [0; 201];
        let from = climb(&self.parts.map, &self.parts.store, ticket, &mut word).min(200);
        let n = 200 - from;
        if buffer.len() < n {
            return Err(Refusal::ShortBuffer);
        }
        buffer[0..n].copy_from_slice(&word[from..200]);
        Ok(n)
    }

    fn double(&mut self) -> Result<u32, Refusal> {
        self.opened.or(Err(Refusal::UnfitParts))?;
        self.parts.map.double().map_err(Refusal::NoNextRoom)
    }
}
