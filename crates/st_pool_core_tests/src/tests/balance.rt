//! Many steps as they come: each machine that has work has one token, which stands in one place.
ghost use Rattle.std.specs.Prelude.{◌<◌};

use super::host::{Host, holds};
use super::opened::{machine_id, opened};
use super::pooled::Pooled;
use super::whole::{callers, lane};
use st_core::{Entry, MachineId, Tag};
use st_events::Token;
use st_pool_core::{Step, StepAnswer};
use std::alloc::Global;
use std::process::Abort;

/// Numbers that look as if they came by chance.
#[derive(Drop)]
struct Numbers {
    state: u64,
}

impl Numbers {
    /// The next number, below a limit.
    fn below(&mut self, limit: u64) -> u64
        requires { 0 < limit }
        ensures { result < limit }
    {
        self.state = self
            .state
            .wrapping_mul(6_364_136_223_846_793_005)
            .wrapping_add(1_442_695_040_888_963_407);
        (self.state >> 33) % limit
    }

    /// A machine, one of five.
    fn machine(&mut self) -> MachineId {
        machine_id(self.below(5) as usize)
    }

    /// A worker or a lane: of workers 1 to 3 are there, of lanes 0 to 3.
    fn place(&mut self) -> usize {
        match self.below(10) {
            0 => 0,
            1 => 4,
            other => (other % 3) as usize + 1,
        }
    }

    /// How an event is posted.
    fn entry(&mut self) -> Entry {
        match self.below(3) {
            0 => Entry::Call,
            1 => Entry::Cast,
            _ => Entry::Info,
        }
    }

    /// A content: seldom one at which the machine ends.
    fn content(&mut self) -> u32 {
        match self.below(60) {
            0 => 1,
            1..=3 => 4,
            4..=10 => 3,
            11..=18 => 2,
            19..=28 => 5,
            29..=33 => 6,
            34..=38 => 7,
            _ => 0,
        }
    }

    /// A request of a machine.
    fn tag(&mut self, id: MachineId) -> Tag {
        Tag::new(id, self.below(20))
    }

    /// A caller stops a machine, which is seldom, or posts to it, or tells it the moment.
    fn of_machine(&mut self, number: u64, id: MachineId, now: u64) -> Step<u32> {
        match number {
            0 => Step::Stop(id, 9),
            1..=14 => Step::Post(id, self.entry(), self.content()),
            _ => Step::Tick(id, now),
        }
    }

    /// A token is given to a lane, or is taken from one.
    fn of_lane<T: Pooled>(&mut self, number: u64, pool: &T, id: MachineId) -> Step<u32> {
        match number {
            18..=32 => Step::Give(token_for(pool, id), self.place()),
            _ => Step::Take(self.place(), self.place()),
        }
    }

    /// What a worker does with the token in its hand and the message that it carries.
    fn of_hand(&mut self, number: u64, now: u64) -> Step<u32> {
        let worker = self.place();
        match number {
            61..=77 => Step::Turn(worker, now),
            78..=82 => Step::Carry(worker),
            83..=88 => Step::Deliver(worker),
            89..=91 => Step::PutBack(worker),
            _ => Step::Drop(worker),
        }
    }

    /// A request is answered or collected.
    fn of_request(&mut self, number: u64, id: MachineId) -> Step<u32> {
        let tag = self.tag(id);
        match number {
            94..=96 => Step::Reply(id, tag, 50),
            _ => Step::Collect(id, tag),
        }
    }

    /// A step at a moment.
    fn step<T: Pooled>(&mut self, pool: &T, now: u64) -> Step<u32> {
        let id = self.machine();
        let number = self.below(100);
        match number {
            0..=17 => self.of_machine(number, id, now),
            18..=60 => self.of_lane(number, pool, id),
            61..=93 => self.of_hand(number, now),
            _ => self.of_request(number, id),
        }
    }
}

/// A machine's token, or one that it has not.
fn token_for<T: Pooled>(pool: &T, id: MachineId) -> Token {
    match pool.token_of(id) {
        Some(token) => token,
        None => Token {
            machine: id,
            wake: 0,
        },
    }
}

/// Adds those of some tokens that are a machine's to others.
fn add_of(rt: &impl Abort, found: &mut Vec<Token>, id: MachineId, tokens: &[Token]) {
    for token in tokens {
        if token.machine == id {
            found.push(*token).expect(rt, "there is memory");
        }
    }
}

/// Adds those of a lane's tokens that are a machine's to others.
fn add_lane<T: Pooled>(
    rt: &Host<impl Abort>,
    found: &mut Vec<Token>,
    id: MachineId,
    pool: &T,
    number: usize,
) {
    let tokens = lane(rt, pool, number).expect(rt, "there is such a lane");
    add_of(rt, found, id, tokens.as_slice());
}

/// Adds the token of a hand to others, if it is a machine's.
fn add_hand<T: Pooled>(
    rt: &impl Abort,
    found: &mut Vec<Token>,
    id: MachineId,
    pool: &T,
    number: usize,
) {
    if let Some(token) = pool.in_hand(number) {
        add_of(rt, found, id, [token].as_slice());
    }
}

/// The tokens of a machine, wherever they stand: with callers, in a lane or in a hand.
fn standing<T: Pooled>(
    rt: &Host<impl Abort>,
    alloc: Global,
    pool: &T,
    id: MachineId,
) -> Vec<Token> {
    let mut found = Vec::new(alloc);
    add_of(rt, &mut found, id, callers(rt, pool).as_slice());
    for number in 0..4 {
        add_lane(rt, &mut found, id, pool, number);
        add_hand(rt, &mut found, id, pool, number);
    }
    found
}

/// Looks that these tokens of a machine are its own, if it has one, and no other.
fn stands_alone(rt: &impl Abort, found: &[Token], token: Option<Token>) {
    match token {
        Some(token) => {
            let is_alone = *found == *[token].as_slice();
            holds(rt, "its token stands in one place", is_alone);
        }
        None => holds(rt, "no token stands anywhere", found.is_empty()),
    }
}

/// Looks that a machine's token stands in one place and no other token of it anywhere, and that a machine that has work
/// has a token.
fn is_balanced<T: Pooled>(rt: &Host<impl Abort>, alloc: Global, pool: &T, id: MachineId) {
    let found = standing(rt, alloc, pool, id);
    let token = pool.token_of(id);
    stands_alone(rt, found.as_slice(), token);
    let seen = pool.see(id).expect(rt, "there is such a machine");
    let is_fit = !seen.is_ready | token.is_some();
    holds(rt, "it has a token where it has work", is_fit);
    drop(found);
}

/// The machines of the pool.
fn five() -> [MachineId; 5] {
    [
        machine_id(0),
        machine_id(1),
        machine_id(2),
        machine_id(3),
        machine_id(4),
    ]
}

/// Says whether a step delivers a message.
fn delivers(step: &Step<u32>) -> bool {
    matches!(step, Step::Deliver(_))
}

/// Says whether an answer is a turn's report.
fn is_turned(answer: &StepAnswer<u32, u32>) -> bool {
    matches!(answer, StepAnswer::Turned(_))
}

/// Says whether a step was refused.
fn is_refused(answer: &StepAnswer<u32, u32>) -> bool {
    matches!(answer, StepAnswer::Refused(_))
}

/// How many turns there were, and how many deliveries.
#[derive(Drop)]
struct Counts {
    turns: u64,
    deliveries: u64,
}

/// Does a step, and counts whether it was a turn, and whether it delivered a message.
fn goes<T: Pooled>(pool: &mut T, step: Step<u32>, counts: &mut Counts) {
    let delivers = delivers(&step);
    let answer = pool.do_step(step);
    let turned = u64::from(is_turned(&answer));
    counts.turns = counts.turns.saturating_add(turned);
    let delivered = u64::from(delivers & !is_refused(&answer));
    counts.deliveries = counts.deliveries.saturating_add(delivered);
    drop(answer);
}

/// Looks that all machines are in balance.
fn are_balanced<T: Pooled>(rt: &Host<impl Abort>, alloc: Global, pool: &T) {
    for id in &five() {
        is_balanced(rt, alloc, pool, *id);
    }
}

/// Does many steps, and looks after each that all is in balance.
fn stays_balanced<T: Pooled>(rt: &Host<impl Abort>, alloc: Global, mut pool: T) {
    let mut numbers = Numbers { state: 7 };
    let mut counts = Counts {
        turns: 0,
        deliveries: 0,
    };
    for now in 0..600 {
        let step = numbers.step(&pool, now);
        goes(&mut pool, step, &mut counts);
        are_balanced(rt, alloc, &pool);
    }
    holds(rt, "there are 20 turns", counts.turns >= 20);
    holds(rt, "and 3 deliveries", counts.deliveries >= 3);
    drop(pool);
}

#[test]
fn each_ready_machine_has_one_token(rt: HostRuntime) {
    let rt = Host::with_memory(rt);
    let pool = opened(&rt, rt.alloc(), 3, five().as_slice());
    stays_balanced(&rt, rt.alloc(), pool);
    rt.end_with_memory();
}
