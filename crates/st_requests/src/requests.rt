//! The requests that are open or kept: in the order in which they were opened, searched by their tags.
ghost use Rattle.std.specs.Prelude.{◌≡◌, ◌+◌, ◌≤◌, ◌++◌, [], ◌∷◌, None, length, map, option_copied, position, vec_capacity, IfOk, OnOk, OnErr};
ghost use Rattle.std.specs.Option.{option_map};
ghost use Rattle.st_events.specs.Rows.{RepliesFit};
ghost use Rattle.st_requests.specs.Requests.{is_for, held_for, held_of, reply_of, shown, with_answer, with_answers, taken_by, is_open, collected_of, without_kept, without_request, closed_by};

use crate::{Collected, Held, Request, RequestState};
use st_events::{CopyContent, PlainList, Reason, Replies, Tag};
use std::alloc::{AllocError, Global};
use std::marker::Model;

/// The requests to one machine that are open, and the replies and reasons that are kept, each tag at
/// most once, in the order in which they were opened.
///
/// Only `open` takes memory.
///
/// Manual: `call/2`, `reply/2`.
#[derive(Drop)]
pub struct Requests<C> {
    requests: Vec<Request<C>>,
}

impl<C> Model for Requests<C> {
    ghost use Rattle.std.specs.Prelude.{List};
    ghost use Rattle.st_requests.specs.declared.request.Request.{Request};
    ghost use Rattle.st_requests.specs.Requests.{OneEach};

    ghost Value = { List (Request C) };

    ghost view = { λ requests. requests.requests.items };

    ghost invariant = { λ requests. OneEach requests.requests.items };
}

impl<C> Requests<C> {
    /// No request. It takes no memory.
    ///
    /// Manual: `call/2`.
    pub fn new(alloc: Global) -> Requests<C>
        ensures { result ≡ [] }
    {
        Requests {
            requests: Vec::new(alloc),
        }
    }

    /// Shows the reply that is kept for a tag, and leaves it there. Where none is kept, it answers `None`.
    ///
    /// Manual: `receive_response/1`; there a reply is only ever taken.
    pub fn peek(&self, tag: Tag) -> Option<&C>
        ensures { option_copied result ≡ reply_of (held_for self.now tag) }
    {
        let place = place_of(&self.requests, tag)?;
        let request = &self.requests[place];
        request.reply()
    }

    /// Says what is held for a tag: that the request is open, or that a reply or a reason to stop is kept. Where
    /// nothing is held, it answers `None`.
    ///
    /// Manual: `receive_response/1`, which alone can tell there.
    pub fn held(&self, tag: Tag) -> Option<Held>
        ensures { result ≡ option_map held_of (held_for self.now tag) }
    {
        let found = place_of(&self.requests, tag)?;
        Some(self.requests[found].held.shown())
    }

    /// The requests, in the order in which they were opened, with the replies and the reasons that are kept.
    ///
    /// Manual: `from()`; ours: docs/DECISIONS.md, Snapshots.
    pub fn as_slice(&self) -> &[Request<C>]
        ensures { result.now ≡ self.now }
    {
        &self.requests
    }

    /// Each tag that is open or kept, once, in the order in which they were opened, with what is held for it. A kept
    /// reply is shown by `peek`.
    ///
    /// Where memory is wanted and there is none, nothing is listed.
    ///
    /// Manual: `reqids_to_list/1`; there it is the caller who keeps the requests.
    pub fn list(&self) -> Result<PlainList<(Tag, Held)>, AllocError>
        ensures { IfOk result (λ list. list ≡ map shown self.now) }
    {
        let alloc = *self.requests.allocator();
        list_requests(&self.requests, alloc)
    }
}

impl<C: Drop> Requests<C> {
    /// A copy of the requests, in their order; a copier copies the replies.
    ///
    /// Where memory is wanted and there is none, nothing is copied. Ours: docs/DECISIONS.md, Snapshots.
    pub fn copy<K: CopyContent<C>>(&self, copier: &K) -> Result<PlainList<Request<C>>, AllocError>
        ensures { IfOk result (λ copy. copy ≡ self.now) }
    {
        let alloc = *self.requests.allocator();
        copy_requests(&self.requests, alloc, copier)
    }

    /// Opens a request, behind all others. For its tag nothing may be held.
    ///
    /// Where there is no memory, it opens none, and all stays as it was.
    ///
    /// Manual: `call/2`, `send_request/2`.
    pub fn open(&mut self, tag: Tag) -> Result<(), AllocError>
        requires { held_for self.old tag ≡ None }
        ensures opened { OnOk result (self.new ≡ self.old ++ record { tag = tag; held = RequestState.Open } ∷ []) }

        ensures unchanged { OnErr result (self.new ≡ self.old) }
    {
        self.requests.reserve(1)?;
        self.requests.push_reserved(Request {
            tag,
            held: RequestState::Open,
        });
        Ok(())
    }

    /// Takes a request back, as where no memory is left for its event: what is held for the tag is let
    /// go, whatever it is. The others stay, in their order. It takes no memory.
    ///
    /// Where nothing is held for the tag, all stays as it was.
    ///
    /// Manual: `call/2`, `send_request/2`; there no call is refused for want of memory.
    pub fn withdraw(&mut self, tag: Tag)
        ensures { self.new ≡ without_request self.old tag }
    {
        self.requests.retain(|request| request.tag != tag);
    }

    /// Answers an open request: the reply is kept until it is collected. It says whether the request
    /// was open.
    ///
    /// Where it was not, for no such request was opened, or it was answered or collected, or the
    /// machine has stopped, the content is let go, and all stays as it was.
    ///
    /// Manual: `reply/2`, `reply_action()`.
    pub fn answer(&mut self, tag: Tag, content: C) -> bool
        ensures was_open { result ≡ is_open self.old tag }
        ensures answered { self.new ≡ with_answer self.old tag content }
    {
        let Some(place) = place_of(&self.requests, tag) else {
            return false;
        };
        let request = &mut self.requests[place];
        request.answer(content)
    }

    /// Answers requests, each as `answer` does, in the order of the replies, and adds the tags whose
    /// request was open to a list, in memory that was reserved. It takes none.
    ///
    /// Where a request is not open when its reply comes, the content is let go, its tag is not listed,
    /// and what is held for it stays.
    ///
    /// Manual: `reply/1`, `reply_action()`.
    pub fn answer_all(&mut self, replies: Replies<C>, taken: &mut Vec<Tag>)
        requires replies_fit { RepliesFit C.row }
        requires reserved { length taken.old.items + length replies ≤ vec_capacity taken.old }
        ensures answered { self.new ≡ with_answers self.old replies }
        ensures taken { taken.new.items ≡ taken.old.items ++ taken_by self.old replies }
    {
        let mut left = replies.into_places();
        for (tag, content) in left.take_each() {
            if self.answer(tag, content) {
                taken.push_reserved(tag);
            }
        }
    }

    /// Hands out what is kept for a tag, once: the reply, or the reason for which the machine stopped.
    ///
    /// Where the request is open, it answers `Waiting`, and where nothing is held for the tag, `Gone`.
    /// Both leave all as it was.
    ///
    /// Manual: `receive_response/1`.
    pub fn collect(&mut self, tag: Tag) -> Collected<C>
        ensures collected { result ≡ collected_of (held_for self.old tag) }
        ensures left { self.new ≡ without_kept self.old tag }
    {
        let Some(place) = place_of(&self.requests, tag) else {
            return Collected::Gone;
        };
        let request = &self.requests[place];
        if request.is_open() {
            return Collected::Waiting;
        }
        self.requests.remove(place).into_collected()
    }

    /// Closes the open requests, for the reason for which the machine stops. What is kept stays.
    ///
    /// Manual: `call/2`, on a machine that dies before it replies.
    pub fn close(&mut self, reason: Reason)
        ensures { self.new ≡ closed_by reason self.old }
    {
        close_all(&mut self.requests, reason);
    }
}

/// Each request's tag, with what is held for it.
fn list_requests<C>(
    requests: &[Request<C>],
    alloc: Global,
) -> Result<PlainList<(Tag, Held)>, AllocError>
    ensures { IfOk result (λ list. list ≡ map shown requests.now) }
{
    let mut list = Vec::with_capacity(alloc, requests.len())?;
    for request in requests {
        list.push_reserved((request.tag, request.held.shown()));
    }
    Ok(PlainList::from(list))
}

/// A copy of each request.
fn copy_requests<C: Drop, K: CopyContent<C>>(
    requests: &[Request<C>],
    alloc: Global,
    copier: &K,
) -> Result<PlainList<Request<C>>, AllocError>
    ensures { IfOk result (λ copy. copy ≡ requests.now) }
{
    let mut copies = Vec::with_capacity(alloc, requests.len())?;
    for request in requests {
        let copy = request.copy(alloc, copier)?;
        copies.push_reserved(copy);
    }
    Ok(PlainList::from(copies))
}

/// The place of a tag's request.
fn place_of<C>(requests: &[Request<C>], tag: Tag) -> Option<usize>
    ensures { result ≡ position (is_for tag) requests.now }
{
    requests.iter().position(|request| request.tag == tag)
}

/// Closes those that are open.
fn close_all<C: Drop>(requests: &mut [Request<C>], reason: Reason)
    ensures { requests.new ≡ closed_by reason requests.old }
{
    for request in requests.iter_mut() {
        request.close(reason);
    }
}
