//! The list, its cursor from 0 to the list's length, and the calls that read and change them.
ghost use Rattle.std.specs.Prelude.{◌≡◌, ◌↔◌, ◌+◌, ◌^◌, ◌<◌, ◌≤◌, [], length, max, option_copied, IsTrue, IsSome, IsNone, IsOk, IfNone, IfOk, IfErr, OnOk, OnErr, OnSome};
ghost use Rattle.st_queue.specs.Filled.{AreKept};
ghost use Rattle.st_queue.specs.Queue.{current, with_pushed, without_current, with_skipped, rewound, with_staged, with_inserted, with_pushed_staged};

use crate::chain::{Chain, Node};
use st_steps::Steps;
use std::alloc::{AllocError, AllocFailed, Global};
use std::marker::Model;
use std::mem::swap;
use std::sync::ledger::Ledger;
use std_alloc::room::Vacant;

/// One more than the most nodes that a queue has. No machine has memory for so many.
const NODE_LIMIT: usize = 0x8000_0000_0000_0000;

/// As many freed nodes are kept: an event comes in for each that leaves, and then none takes memory.
const KEPT_LIMIT: usize = 2;

/// A list of events, and a cursor that stands before one of them or at the end.
///
/// The events before the cursor were passed over by `skip`. They stay in the list, and `rewind` turns back to them.
///
/// Each event stands on a node of its own. `stage` makes nodes ready for events that come later. The calls
/// `insert_staged` and `push_staged` use them and cannot fail; no other call does. Only `push_back` and `stage` take
/// memory. Up to two freed nodes, of events that were removed, are kept: these two calls use them first.
///
/// Whatever the list's length, each call visits two of its nodes at most: `steps`, their last parameter, counts them.
/// `peek` shows the one at the cursor; it and the other calls that change nothing count none. Only the drop of a queue
/// visits all its nodes, and frees each.
///
/// Manual: `transition_option()` and `postpone()`, on the event queue and the events that are put off.
#[derive(Drop)]
pub struct EventQueue<E> {
    // The events before the cursor.
    passed: Chain<Option<E>, Global>,
    // The events from the cursor on.
    rest: Chain<Option<E>, Global>,
    // The nodes that are ready.
    spare: Chain<Option<E>, Global>,
    // The freed nodes that are kept.
    kept: Chain<Option<E>, Global>,
    alloc: Global,
}

impl<E> Model for EventQueue<E> {
    ghost use Rattle.std.specs.Prelude.{◌+◌, ◌<◌, ◌^◌, length};
    ghost use Rattle.st_queue.specs.Queue.{Queue};
    ghost use Rattle.st_queue.specs.Filled.{queue_of, AreFilled, AreKept};

    ghost Value = { Queue E };

    ghost view = { λ queue. queue_of queue.passed.items queue.rest.items queue.spare.items };

    ghost invariant = { λ queue. AreFilled queue.passed.items × AreFilled queue.rest.items × (length queue.passed.items + length queue.rest.items + length queue.spare.items + length queue.kept.items < 2 ^ 63) × AreKept queue.kept.items };
}

impl<E> EventQueue<E> {
    /// Makes a queue with no event and no node ready. It takes no memory yet.
    pub fn new(alloc: Global) -> EventQueue<E>
        ensures items { result.items ≡ [] }
        ensures cursor { result.cursor ≡ 0 }
        ensures staged { result.staged ≡ 0 }
    {
        EventQueue {
            passed: Chain::new(),
            rest: Chain::new(),
            spare: Chain::new(),
            kept: Chain::new(),
            alloc,
        }
    }

    /// Puts an event at the end, on a node of its own: the nodes that are ready stay ready.
    ///
    /// Where there is no memory, it gives the event back, and the queue stays as it was.
    pub fn push_back<L: Ledger>(
        &mut self,
        event: E,
        steps: &mut Steps<L>,
    ) -> Result<(), AllocFailed<E>>
        ensures pushed { OnOk result (self.new ≡ with_pushed self.old event) }

        ensures unchanged { OnErr result (self.new ≡ self.old) }
        ensures value_returned { IfErr result (λ failed. failed.value ≡ event) }

        ensures visits { steps.new ≤ steps.old + 2 }
    {
        if self.kept.len() > 0 {
            let node = take_kept(&mut self.kept, steps);
            self.rest.attach_behind(node, Some(event), steps);
            return Ok(());
        }
        match self.node_beside(0) {
            Some(node) => {
                self.rest.attach_behind(node, Some(event), steps);
                Ok(())
            }
            None => Err(AllocFailed { value: event }),
        }
    }

    /// Shows the event at the cursor, or `None` where the cursor is at the end of the list.
    pub fn peek(&self) -> Option<&E>
        ensures event { option_copied result ≡ current self.now }

        ensures end { IsNone result ↔ (self.now.cursor ≡ length self.now.items) }
    {
        if self.rest.len() == 0 {
            return None;
        }
        self.rest.lend_first().as_ref()
    }

    /// Takes the event at the cursor out. The cursor then stands before the event that came after it.
    ///
    /// `None`: the cursor is at the end of the list.
    pub fn remove<L: Ledger>(&mut self, steps: &mut Steps<L>) -> Option<E>
        ensures event { result ≡ current self.old }
        ensures removed { OnSome result (self.new ≡ without_current self.old) }

        ensures end { IsNone result ↔ (self.old.cursor ≡ length self.old.items) }
        ensures unchanged { IfNone result (self.new ≡ self.old) }

        ensures visits { steps.new ≤ steps.old + 2 }
    {
        if self.rest.len() == 0 {
            return None;
        }
        let (event, node) = self.rest.detach_first(steps);
        keep(&mut self.kept, node, steps);
        event
    }

    /// Moves the cursor past one event, which stays in the list.
    ///
    /// `None`: the cursor is at the end of the list.
    pub fn skip<L: Ledger>(&mut self, steps: &mut Steps<L>) -> Option<()>
        ensures skipped { OnSome result (self.new ≡ with_skipped self.old) }

        ensures end { IsNone result ↔ (self.old.cursor ≡ length self.old.items) }
        ensures unchanged { IfNone result (self.new ≡ self.old) }

        ensures visits { steps.new ≤ steps.old + 2 }
    {
        if self.rest.len() == 0 {
            return None;
        }
        let (event, node) = self.rest.detach_first(steps);
        self.passed.attach_behind(node, event, steps);
        Some(())
    }

    /// Moves the cursor back to the start of the list.
    pub fn rewind<L: Ledger>(&mut self, steps: &mut Steps<L>)
        ensures rewound { self.new ≡ rewound self.old }

        ensures visits { steps.new ≤ steps.old + 2 }
    {
        self.passed.join(&mut self.rest, steps);
        swap(&mut self.passed, &mut self.rest);
    }

    /// Says how many events there are, before and behind the cursor.
    pub fn len(&self) -> usize
        ensures length { result ≡ length self.now.items }
    {
        self.passed.len() + self.rest.len()
    }

    /// Says whether there is no event, neither before nor behind the cursor.
    pub fn is_empty(&self) -> bool
        ensures empty { IsTrue result ↔ (self.now.items ≡ []) }
    {
        self.len() == 0
    }

    /// Says how many events stand before the cursor.
    pub fn before(&self) -> usize
        ensures cursor { result ≡ self.now.cursor }
        ensures within { self.now.cursor ≤ length self.now.items }
    {
        self.passed.len()
    }

    /// Says how many nodes are ready for `insert_staged` and `push_staged`.
    pub fn staged(&self) -> usize
        ensures staged { result ≡ self.now.staged }
    {
        self.spare.len()
    }

    /// Memory for one node more than the queue's and so many others, which are not in the queue yet. None is kept where
    /// this is called.
    fn node_beside(&self, others: usize) -> Option<Vacant<Node<Option<E>, Global>, Global>>
        requires { others < 2 ^ 63 }
        ensures { IsSome result → length self.now.items + self.now.staged + others + 1 < 2 ^ 63 }
    {
        let nodes = self.spare.len() + self.rest.len() + self.passed.len();
        if NODE_LIMIT - 1 <= nodes + others {
            return None;
        }
        Vacant::take(self.alloc).ok()
    }
}

// A node that is ready has no event; to leave that out the event has to be `Drop`.
impl<E: Drop> EventQueue<E> {
    /// Makes the nodes that are lacking, so that `count` events can come in by calls that cannot fail.
    ///
    /// Where so many are ready, it makes none and takes no memory. Where memory is wanted and there is
    /// none, nothing changes.
    pub fn stage<L: Ledger>(&mut self, count: usize, steps: &mut Steps<L>) -> Result<(), AllocError>
        ensures staged { OnOk result (self.new ≡ with_staged self.old (max self.old.staged count)) }

        ensures enough { count ≤ self.old.staged → IsOk result }
        ensures unchanged { OnErr result (self.new ≡ self.old) }

        ensures visits { steps.new ≤ steps.old + 2 }
    {
        let ready = self.spare.len();
        if count <= ready {
            return Ok(());
        }
        // One is lacking, and two are kept.
        if count - ready < self.kept.len() {
            let node = take_kept(&mut self.kept, steps);
            self.spare.attach_front(node, None, steps);
            return Ok(());
        }
        // Where memory is wanted and there is none, those that were kept are dropped with the others.
        let mut made = Chain::new();
        swap(&mut made, &mut self.kept);
        self.fill(&mut made, count - ready, steps)?;
        self.spare.join(&mut made, steps);
        Ok(())
    }

    /// Puts nodes without events to those in `made`, up to so many, by memory for each.
    fn fill<L: Ledger>(
        &self,
        made: &mut Chain<Option<E>, Global>,
        count: usize,
        steps: &mut Steps<L>,
    ) -> Result<(), AllocError>
        requires within { length made.old.items ≤ count }
        requires small { length self.now.items + self.now.staged + length made.old.items < 2 ^ 63 }
        ensures count { OnOk result (length made.new.items ≡ count) }
        ensures small { OnOk result (length self.now.items + self.now.staged + count < 2 ^ 63) }

        ensures visits { steps.new ≡ steps.old }
    {
        while made.len() < count {
            match self.node_beside(made.len()) {
                Some(node) => made.attach_front(node, None, steps),
                None => return Err(AllocError),
            }
        }
        Ok(())
    }

    /// Puts an event at the cursor, on a node that is ready. The event that stood there comes after it.
    ///
    /// It cannot fail, and the cursor then stands before the new event.
    pub fn insert_staged<L: Ledger>(&mut self, event: E, steps: &mut Steps<L>)
        requires { 0 < self.old.staged }
        ensures inserted { self.new ≡ with_inserted self.old event }

        ensures visits { steps.new ≤ steps.old + 2 }
    {
        let (nothing, node) = self.spare.detach_first(steps);
        drop(nothing);
        self.rest.attach_front(node, Some(event), steps);
    }

    /// Puts an event at the end, on a node that is ready. It cannot fail.
    pub fn push_staged<L: Ledger>(&mut self, event: E, steps: &mut Steps<L>)
        requires { 0 < self.old.staged }
        ensures pushed { self.new ≡ with_pushed_staged self.old event }

        ensures visits { steps.new ≤ steps.old + 2 }
    {
        let (nothing, node) = self.spare.detach_first(steps);
        drop(nothing);
        self.rest.attach_behind(node, Some(event), steps);
    }
}

/// Takes a node out of those that are kept.
fn take_kept<E, L: Ledger>(
    kept: &mut Chain<Option<E>, Global>,
    steps: &mut Steps<L>,
) -> Vacant<Node<Option<E>, Global>, Global>
    requires kept { AreKept kept.old.items }
    requires some { 0 < length kept.old.items }
    ensures kept { AreKept kept.new.items }
    ensures taken { length kept.old.items ≡ length kept.new.items + 1 }

    ensures visits { steps.new ≤ steps.old + 1 }
{
    let (nothing, node) = kept.detach_first(steps);
    let None = nothing else { unreachable!() };
    node
}

/// Puts a node to those that are kept, or frees it where two are.
fn keep<E, L: Ledger>(
    kept: &mut Chain<Option<E>, Global>,
    node: Vacant<Node<Option<E>, Global>, Global>,
    steps: &mut Steps<L>,
)
    requires kept { AreKept kept.old.items }
    ensures kept { AreKept kept.new.items }
    ensures put { length kept.new.items ≤ length kept.old.items + 1 }

    ensures visits { steps.new ≡ steps.old }
{
    if kept.len() < KEPT_LIMIT {
        kept.attach_front(node, None, steps);
    } else {
        drop(node.free());
    }
}
