//! The counter of a port's posts, and the steps on it.
ghost use Rattle.std.specs.Prelude.{◌≡◌, ◌+◌, ◌≤◌, [], ◌∷◌, ◌++◌, length, IfOk};
ghost use Rattle.st_post_counter.specs.Seen.{Begins, whole, part, joined, IsWhole, IsPart, IsJoined};

use crate::endpoint::Endpoint;
use crate::seen::Seen;
use crate::steps::{Addition, Adds, Compares, Copies, OneHistory, TakesIn};
use atomic_table::Table;
use std::alloc::{AllocError, Global};
use std::marker::{Brand, Model};

/// One word that threads share: how many posts the machine's endpoint has seen.
///
/// A contract sees which counter it is.
#[derive(Drop)]
pub struct Counter<T> {
    pub(crate) table: Table<(), Seen<T>, (), OneHistory, Global>,
}

impl<T> Model for Counter<T> {
    ghost use Rattle.std.specs.Prelude.{◌≡◌};
    ghost use Rattle.st_post_counter.specs.Endpoint.{CounterId};

    ghost Value = { CounterId };

    ghost view = { λ counter. counter.table.shared.table_id };

    ghost invariant = { λ counter. counter.table.shared.table_id.words ≡ 1 };
}

impl<T> Counter<T> {
    /// Makes a counter with its two endpoints, the machine's and the port's. Both have seen nothing.
    ///
    /// Where there is no memory for it, nothing is made.
    #[tactic(auto, using(crate::proofs::StepLemmas::copies))]
    pub fn open(alloc: Global) -> Result<(Counter<T>, Endpoint<T>, Endpoint<T>), AllocError>
        ensures machine { IfOk result (λ made. made.1 ≡ record { counter = made.0; seen = whole [] }) }
        ensures port { IfOk result (λ made. made.2 ≡ record { counter = made.0; seen = part [] }) }
    {
        let (table, mut machine) = Table::of_words(alloc, &[0], &())?;
        let port = table.shared.split_seat::<Copies>(&mut machine);
        Ok((
            Counter { table },
            Endpoint { seat: machine },
            Endpoint { seat: port },
        ))
    }

    /// The machine's endpoint sees one post more. The word becomes the count, which is that of the posts with it.
    pub fn add(&self, machine: &mut Endpoint<T>, count: u64, post: &T)
        requires counter { machine.old.counter ≡ self.now }
        requires whole { IsWhole machine.old.seen }
        requires count { count ≡ length machine.old.seen.posts + 1 }
        ensures added { machine.new ≡ record machine.old { seen = whole (machine.old.seen.posts ++ post.now ∷ []) } }
    {
        self.add_one::<Brand>(machine, count, post);
    }

    /// The same, where the post that is handed in is picked.
    fn add_one<A: Addition<T>>(&self, machine: &mut Endpoint<T>, count: u64, post: &T)
        requires counter { machine.old.counter ≡ self.now }
        requires whole { IsWhole machine.old.seen }
        requires count { count ≡ length machine.old.seen.posts + 1 }
        requires picked { A.added ≡ post.now ∷ [] }
        ensures added { machine.new ≡ record machine.old { seen = whole (machine.old.seen.posts ++ post.now ∷ []) } }
    {
        let _ = post;
        self.add_picked::<A>(machine, count);
    }

    /// The same for a post that is no value any more: the caller's proof picks it, as a list of one.
    pub fn add_picked<A: Addition<T>>(&self, machine: &mut Endpoint<T>, count: u64)
        requires counter { machine.old.counter ≡ self.now }
        requires whole { IsWhole machine.old.seen }
        requires count { count ≡ length machine.old.seen.posts + 1 }
        requires one { length A.added ≡ 1 }
        ensures added { machine.new ≡ record machine.old { seen = whole (machine.old.seen.posts ++ A.added) } }
    {
        self.table
            .shared
            .swap::<Adds<A>>(&mut machine.seat, 0, count);
    }

    /// A copy of an endpoint: it has seen the same posts.
    #[tactic(auto, using(crate::proofs::StepLemmas::copies))]
    pub fn copy(&self, endpoint: &mut Endpoint<T>) -> Endpoint<T>
        requires { endpoint.old.counter ≡ self.now }
        ensures copy { result ≡ record { counter = self.now; seen = part endpoint.old.seen.posts } }
        ensures same { endpoint.new ≡ endpoint.old }
    {
        let copy = self.table.shared.split_seat::<Copies>(&mut endpoint.seat);
        Endpoint { seat: copy }
    }

    /// An endpoint takes in a copy of another. It has seen the longer of both lists, and is to compare them next.
    #[tactic(auto, using(crate::proofs::StepLemmas::takes_in))]
    pub fn take_in(&self, endpoint: &mut Endpoint<T>, copy: Endpoint<T>)
        requires counter { (endpoint.old.counter ≡ self.now) × (copy.counter ≡ self.now) }
        requires part { IsPart endpoint.old.seen × IsPart copy.seen }
        ensures taken { endpoint.new ≡ record endpoint.old { seen = joined endpoint.old.seen.posts copy.seen.posts } }
    {
        let Endpoint { seat: copy } = copy;
        self.table
            .shared
            .join_seat::<TakesIn>(&mut endpoint.seat, copy);
    }

    /// An endpoint that took in another looks at the word: both lists are beginnings of the longer.
    pub fn compare(&self, endpoint: &mut Endpoint<T>)
        requires counter { endpoint.old.counter ≡ self.now }
        requires joined { IsJoined endpoint.old.seen }
        ensures compared { endpoint.new ≡ record endpoint.old { seen = part endpoint.old.seen.posts } }
        ensures own { Begins endpoint.old.seen.own endpoint.old.seen.posts }
        ensures taken { Begins endpoint.old.seen.taken endpoint.old.seen.posts }
    {
        self.table.shared.load::<Compares>(&mut endpoint.seat, 0);
    }

    /// After an add: the port's endpoint sees what the machine's has seen.
    pub fn follow(&self, machine: &mut Endpoint<T>, endpoint: &mut Endpoint<T>)
        requires counter { (machine.old.counter ≡ self.now) × (endpoint.old.counter ≡ self.now) }
        requires part { IsPart endpoint.old.seen }
        requires behind { length endpoint.old.seen.posts ≤ length machine.old.seen.posts }
        ensures followed { endpoint.new ≡ record endpoint.old { seen = part machine.old.seen.posts } }
        ensures begins { Begins endpoint.old.seen.posts machine.old.seen.posts }
        ensures same { machine.new ≡ machine.old }
    {
        let copy = self.copy(machine);
        self.take_in(endpoint, copy);
        self.compare(endpoint);
    }

    /// Two endpoints that have seen equally many posts have seen the same. Copies alone change.
    #[tactic(auto, using(crate::proofs::HistoryLemmas::begins_whole))]
    pub fn agree(&self, machine: &mut Endpoint<T>, endpoint: &mut Endpoint<T>)
        requires counter { (machine.old.counter ≡ self.now) × (endpoint.old.counter ≡ self.now) }
        requires counts { length endpoint.old.seen.posts ≡ length machine.old.seen.posts }
        ensures agree { endpoint.old.seen.posts ≡ machine.old.seen.posts }
        ensures same { (machine.new ≡ machine.old) × (endpoint.new ≡ endpoint.old) }
    {
        let mut copy = self.copy(endpoint);
        self.follow(machine, &mut copy);
    }
}
