//! The nodes of a chain, which lie in blocks of their own.
ghost use Rattle.std.specs.Prelude.{◌≡◌, ◌^◌, ◌+◌, ◌<◌, ◌≤◌, List, [], ◌∷◌, ◌++◌, length, slice_index_or};
ghost use Rattle.st_queue.specs.Links.{Link, links_of, IsChained};
ghost use Rattle.st_queue.specs.Ownership.{nodes_own, first_lent};

use st_steps::Steps;
use std::alloc::Allocator;
use std::marker::{Brand, Model, Send};
use std::mem::swap;
use std::sync::ledger::{Blank, Ledger};
use std_alloc::room::Vacant;

/// `next` of the last node means nothing.
pub struct Node<T, A> {
    next: *const Node<T, A>,
    elem: T,
    alloc: A,
}

/// A chain. `blocks` says of each node where it lies, its `next` and its handle. With no node, `head` and `tail` dangle.
pub struct Chain<T, A: Allocator> {
    head: *const Node<T, A>,
    tail: *const Node<T, A>,
    count: usize,
    pub ghost items: { List T },
    ghost blocks: { List (Link × A) },
    ghost ok: { (count ≡ length items) × (count ≡ length blocks) },
    ghost small: { count < 2 ^ 63 },
    ghost chained: { ∥ IsChained head tail (links_of blocks) ∥₁ },
}

impl<T, A: Allocator> Model for Chain<T, A> {
    ghost also_owns = { λ n. nodes_own T.row A.row A.dealloc_token n.blocks n.items };

    ghost also_shares = { λ n _ κ. first_lent T.row n.blocks n.items κ };
}

// It may go to another thread if its elements and its allocator may.
unsafe impl<T: Send, A: Allocator + Send> Send for Chain<T, A> {}

impl<T, A: Allocator> Chain<T, A> {
    pub(crate) fn new() -> Chain<T, A>
        ensures { result.items ≡ [] }
    {
        let none: [u8; 0] = [];
        let nowhere = &raw const none as *const Node<T, A>;
        Chain {
            head: nowhere,
            tail: nowhere,
            count: 0,
        }
    }

    /// Puts a node in front. No linked node is visited, so nothing is counted.
    pub(crate) fn attach_front<L: Ledger>(
        &mut self,
        room: Vacant<Node<T, A>, A>,
        elem: T,
        _steps: &mut Steps<L>,
    )
        requires { self.old.count + 1 < 2 ^ 63 }
        ensures { (self.new.items ≡ elem ∷ self.old.items) × (_steps.new ≡ _steps.old) }
    {
        let Vacant { ptr, alloc } = room;
        let head = self.head;
        unsafe {
            ptr.write(Node {
                next: head,
                elem,
                alloc,
            });
        }
        self.head = ptr;
        if self.count == 0 {
            self.tail = ptr;
        }
        self.count = self.count + 1;
    }

    /// Puts a node behind the last.
    pub(crate) fn attach_behind<L: Ledger>(
        &mut self,
        room: Vacant<Node<T, A>, A>,
        elem: T,
        steps: &mut Steps<L>,
    )
        requires { self.old.count + 1 < 2 ^ 63 }
        ensures { (self.new.items ≡ self.old.items ++ elem ∷ []) × (steps.new ≡ steps.old + 1) }
    {
        steps.tick();
        let Vacant { ptr, alloc } = room;
        unsafe {
            ptr.write(Node {
                next: ptr,
                elem,
                alloc,
            });
        }
        if self.count == 0 {
            self.head = ptr;
        } else {
            let tail = self.tail.cast_mut();
            unsafe {
                (*tail).next = ptr;
            }
        }
        self.tail = ptr;
        self.count = self.count + 1;
    }

    pub(crate) fn detach_first<L: Ledger>(
        &mut self,
        steps: &mut Steps<L>,
    ) -> (T, Vacant<Node<T, A>, A>)
        requires { 0 < self.old.count }
        ensures { (self.old.items ≡ result.0 ∷ self.new.items) × (steps.new ≡ steps.old + 1) }
    {
        steps.tick();
        let ptr = self.head.cast_mut();
        self.count = self.count - 1;
        unsafe {
            self.head = (*ptr).next;
            let elem = (&raw const (*ptr).elem).read();
            let alloc = (&raw const (*ptr).alloc).read();
            (elem, Vacant { ptr, alloc })
        }
    }

    /// Lends the first element.
    pub(crate) fn lend_first(&self) -> &T
        requires { 0 < self.now.count }
        ensures { result.now ≡ slice_index_or self.now.items 0 result.now }
    {
        unsafe { &(*self.head).elem }
    }

    /// Links the nodes of `other` in after the last.
    fn link_behind(&mut self, other: &mut Chain<T, A>)
        requires { (0 < self.old.count) × (0 < other.old.count) × (self.old.count + other.old.count < 2 ^ 63) }
        ensures { (self.new.items ≡ self.old.items ++ other.old.items) × (other.new.items ≡ []) }
    {
        let tail = self.tail.cast_mut();
        let head = other.head;
        unsafe {
            (*tail).next = head;
        }
        self.tail = other.tail;
        self.count = self.count + other.count;
        other.count = 0;
    }

    /// Takes the nodes of `other`, in order. The last node is visited.
    pub(crate) fn join<L: Ledger>(&mut self, other: &mut Chain<T, A>, steps: &mut Steps<L>)
        requires { length self.old.items + length other.old.items < 2 ^ 63 }
        ensures { (self.new.items ≡ self.old.items ++ other.old.items) × (other.new.items ≡ []) × (steps.new ≤ steps.old + 1) }
    {
        if other.len() == 0 {
            return;
        }
        if self.len() == 0 {
            return swap(self, other);
        }
        steps.tick();
        self.link_behind(other);
    }

    pub(crate) fn len(&self) -> usize
        ensures { (result ≡ length self.now.items) × (result < 2 ^ 63) }
    {
        self.count
    }

    fn forget_empty(self)
        requires { length self.items ≡ 0 }
    {
        let Chain {
            head: _,
            tail: _,
            count: _,
        } = self;
    }
}

/// Takes each node out, by a loop, which counts for itself.
fn free_all<T: Drop, A: Allocator, L: Ledger>(chain: &mut Chain<T, A>, blank: Blank)
    requires name { blank.name ≡ L.name }
    requires parts { blank.parts ≡ L.parts }
    requires some { 0 < blank.parts }
    ensures { length chain.new.items ≡ 0 }
{
    let mut steps = Steps::<L>::new(blank);
    while chain.len() > 0 {
        let (elem, room) = chain.detach_first(&mut steps);
        drop(elem);
        drop(room.free());
    }
}

/// Frees each node.
impl<T: Drop, A: Allocator> Drop for Chain<T, A> {
    fn drop(mut self) {
        free_all::<T, A, Brand>(&mut self, Blank::new(1));
        self.forget_empty();
    }
}
