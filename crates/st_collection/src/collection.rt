//! A collection of requests.
ghost use Rattle.std.specs.Prelude.{◌≡◌, ◌<◌, ◌↔◌, [], map, length, remove, slice_get, Some, None, IsTrue, IsSome, IsOk, IfSome, IfOk, IfErr, OnOk, OnErr};
ghost use Rattle.st_events.specs.declared.refusal.Refusal.TheVariants.{NoMemory};
ghost use Rattle.st_collection.specs.Collection.{place_of, added, with_label, shown, HaveOwnTags};
ghost use Rattle.st_collection.specs.declared.sent.Sent.{Sent};

use crate::{Request, Sent};
use indexmap::IndexMap;
use st_events::{Refusal, Refused, Tag};
use std::alloc::Global;
use std::marker::Model;

/// Requests that were sent, with their labels, in the order in which they were added. No two have one tag.
///
/// Manual: `request_id_collection()`; ours: docs/DECISIONS.md, Collections.
#[derive(Drop)]
pub struct Collection<Q: Request, L: Copy> {
    sent: IndexMap<Tag, Sent<Q, L>>,
}

impl<Q: Request, L: Copy> Model for Collection<Q, L> {
    ghost use Rattle.std.specs.Prelude.{◌≡◌, List, map};
    ghost use Rattle.indexmap.specs.IndexMap.{keys, values};
    ghost use Rattle.st_collection.specs.declared.sent.Sent.{Sent};
    ghost use Rattle.st_collection.specs.Collection.{tag_of};

    ghost Value = { List (Sent Q L) };

    ghost view = { λ collection. values collection.sent };

    ghost invariant = { λ collection. keys collection.sent ≡ map (tag_of Q.tag_is) (values collection.sent) };
}

impl<Q: Request, L: Copy> Collection<Q, L> {
    /// An empty collection. It takes no memory.
    ///
    /// Manual: `reqids_new/0`.
    pub fn new(alloc: Global) -> Collection<Q, L>
        ensures { result ≡ [] }
    {
        Collection {
            sent: IndexMap::new(alloc),
        }
    }

    /// How many requests there are. No two of them have one tag.
    ///
    /// Manual: `reqids_size/1`.
    pub fn size(&self) -> usize
        ensures size { result ≡ length self.now }
        ensures unique { HaveOwnTags Q.tag_is self.now }
    {
        self.sent.len()
    }

    /// Says whether there is no request.
    ///
    /// Ours: docs/DECISIONS.md, Collections.
    pub fn is_empty(&self) -> bool
        ensures { IsTrue result ↔ (self.now ≡ []) }
    {
        self.sent.is_empty()
    }

    /// The place of the request of a tag.
    fn place_of(&self, tag: Tag) -> Option<usize>
        ensures place { result ≡ place_of Q.tag_is tag self.now }
        ensures within { IfSome result (λ place. place < length self.now) }
    {
        self.sent.get_index_of(&tag)
    }

    /// Puts a label to the request at a place.
    fn set_label(&mut self, place: usize, label: L)
        requires { place < length self.old }
        ensures { self.new ≡ with_label place label self.old }
    {
        let sent = &mut self.sent[place];
        sent.label = label;
    }

    /// Puts a request of a new tag last.
    fn push(&mut self, request: Q, label: L) -> Result<(), Refused<Q>>
        requires { place_of Q.tag_is (Q.tag_is request) self.old ≡ None }
        ensures pushed { OnOk result (self.new ≡ added Q.tag_is request label self.old) }

        ensures refusals { IfErr result (λ refused. refused.refusal ≡ NoMemory) }
        ensures unchanged { OnErr result (self.new ≡ self.old) }
        ensures returned { IfErr result (λ refused. refused.value ≡ request) }
    {
        match self.sent.insert(request.tag(), Sent { request, label }) {
            Ok(_) => Ok(()),
            Err(failed) => Err(Refused::new(Refusal::NoMemory, failed.value.1.request)),
        }
    }

    /// Adds a request with its label, behind the others. Where one of its tag is there, that one keeps its place, takes
    /// the label, and needs no memory.
    ///
    /// Refused with `NoMemory` where memory is wanted and there is none; then nothing is added, and the request comes
    /// back.
    ///
    /// Manual: `reqids_add/3`; ours: docs/DECISIONS.md, Collections.
    pub fn add(&mut self, request: Q, label: L) -> Result<(), Refused<Q>>
        ensures added { OnOk result (self.new ≡ added Q.tag_is request label self.old) }

        ensures refusals { IfErr result (λ refused. refused.refusal ≡ NoMemory) }
        ensures there { IsSome (place_of Q.tag_is (Q.tag_is request) self.old) → IsOk result }
        ensures unchanged { OnErr result (self.new ≡ self.old) }
        ensures returned { IfErr result (λ refused. refused.value ≡ request) }
    {
        match self.place_of(request.tag()) {
            Some(place) => {
                self.set_label(place, label);
                Ok(())
            }
            None => self.push(request, label),
        }
    }

    /// Each request's tag with its label, in the order of the requests.
    ///
    /// Refused with `NoMemory` where memory is wanted and there is none; then nothing is listed.
    ///
    /// Manual: `reqids_to_list/1`; ours: docs/DECISIONS.md, Collections.
    pub fn to_list(&self) -> Result<Vec<(Tag, L)>, Refusal>
        ensures list { IfOk result (λ list. list.items ≡ map (shown Q.tag_is) self.now) }

        ensures refusals { IfErr result (λ refusal. refusal ≡ NoMemory) }
    {
        let list = self
            .sent
            .values()
            .map(|sent| (sent.request.tag(), sent.label))
            .collect(*self.sent.allocator())?;
        Ok(list)
    }

    /// The request at a place, in the order of the requests.
    ///
    /// Ours: docs/DECISIONS.md, Collections.
    pub fn get(&self, place: usize) -> &Q
        requires { place < length self.now }
        ensures { (sent : Sent Q L) → slice_get self.now place ≡ Some sent → result.now ≡ sent.request }
    {
        &self.sent[place].request
    }

    /// Takes out the request at a place, and answers its label. The others keep their order.
    ///
    /// Ours: docs/DECISIONS.md, Collections.
    pub fn take(&mut self, place: usize) -> L
        requires { place < length self.old }
        ensures label { (sent : Sent Q L) → slice_get self.old place ≡ Some sent → result ≡ sent.label }
        ensures taken { self.new ≡ remove self.old place }
    {
        let (_, taken) = self.sent.shift_remove_index(place).unwrap();
        taken.label
    }
}
