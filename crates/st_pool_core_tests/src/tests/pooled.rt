//! A pool as a test sees it: what it is told, and what can be read of it.
use super::plain::Plain;
use st_core::{Core, MachineId, Module, PlainList, Reason, Refusal, Refused};
use st_events::Token;
use st_pool_core::{Message, PoolWorld, Step, StepAnswer};

/// What can be read of one machine of a pool.
#[derive(Clone, Copy, PartialEq)]
pub struct Seen {
    pub count: Option<u64>,
    pub is_ready: bool,
    pub waiting: usize,
    pub latest: u64,
    pub ended: Option<(Reason, u32)>,
}

/// A pool. What is done with any pool is proved with no contract of the pool at hand, which makes these proofs
/// short.
pub trait Pooled: Drop {
    /// Does one step.
    fn do_step(&mut self, step: Step<u32>) -> StepAnswer<u32, u32>;

    /// Does steps in order.
    fn do_all(
        &mut self,
        steps: Vec<Step<u32>>,
    ) -> Result<Vec<StepAnswer<u32, u32>>, Refused<Vec<Step<u32>>>>;

    /// What can be read of the machine of an id.
    fn see(&self, id: MachineId) -> Option<Seen>;

    /// The outstanding token of the machine of an id.
    fn token_of(&self, id: MachineId) -> Option<Token>;

    /// Says whether callers have a token.
    fn have_callers(&self, token: Token) -> bool;

    /// The tokens that callers have, or that there is no memory for them.
    fn try_callers(&self) -> Result<PlainList<Token>, Refusal>;

    /// The token in a worker's hand.
    fn in_hand(&self, worker: usize) -> Option<Token>;

    /// The message that a worker carries.
    fn in_transit(&self, worker: usize) -> Option<&Message<u32>>;

    /// The tokens of a lane, or that there is no memory for them.
    fn try_lane(&self, lane: usize) -> Result<Option<PlainList<Token>>, Refusal>;
}

/// What can be read of a machine with this count of commands.
fn sight_of<M: Module>(core: &Core<M>, count: Option<u64>) -> Seen {
    Seen {
        count,
        is_ready: core.is_ready(),
        waiting: core.waiting(),
        latest: core.latest(),
        ended: core.ended(),
    }
}

impl Pooled for PoolWorld<Plain> {
    fn do_step(&mut self, step: Step<u32>) -> StepAnswer<u32, u32> {
        self.step(step)
    }

    fn do_all(
        &mut self,
        steps: Vec<Step<u32>>,
    ) -> Result<Vec<StepAnswer<u32, u32>>, Refused<Vec<Step<u32>>>> {
        self.play(steps)
    }

    fn see(&self, id: MachineId) -> Option<Seen> {
        match self.machine(id) {
            Some(core) => Some(sight_of(core, self.count(id))),
            None => None,
        }
    }

    fn token_of(&self, id: MachineId) -> Option<Token> {
        self.token(id)
    }

    fn have_callers(&self, token: Token) -> bool {
        self.is_with_callers(token)
    }

    fn try_callers(&self) -> Result<PlainList<Token>, Refusal> {
        self.with_callers()
    }

    fn in_hand(&self, worker: usize) -> Option<Token> {
        self.hand(worker)
    }

    fn in_transit(&self, worker: usize) -> Option<&Message<u32>> {
        self.carried(worker)
    }

    fn try_lane(&self, lane: usize) -> Result<Option<PlainList<Token>>, Refusal> {
        self.lane(lane)
    }
}
