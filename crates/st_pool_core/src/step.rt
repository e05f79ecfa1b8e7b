//! What a pool can be told.

use st_core::Entry;
use st_events::{MachineId, Reason, Tag, Token};

/// One step of a pool. Machines are named by their ids, workers by numbers from 1 on, and run queues by lanes: lane 0
/// is the shared run queue, and each other lane the local one of the worker of its number.
///
/// Ours: docs/DECISIONS.md, The pool's steps.
#[derive(Debug, PartialEq, Eq, Drop)]
pub enum Step<C> {
    /// A caller posts an event to a machine, as `Core::post` does. A machine that has work then and had no outstanding
    /// token is issued one, which the caller gets.
    Post(MachineId, Entry, C),
    /// A machine is told the moment, in milliseconds, as `Core::tick` does. A machine that has work then and had no
    /// outstanding token is issued one, which the caller gets.
    Tick(MachineId, u64),
    /// A token that callers have goes to the end of a lane.
    Give(Token, usize),
    /// A worker whose hand is empty takes the first token of a lane.
    Take(usize, usize),
    /// A worker that carries no message serves the machine of the token in its hand: one turn at a moment, in
    /// milliseconds, as `Core::turn` does. Where the machine has work after it, the token stays in the hand; else it is
    /// retired. If there was no event for a turn, as where the machine had ended already, there is no turn: its token
    /// stays as long as it has a message to be taken out, and else is retired.
    Turn(usize, u64),
    /// The token in the hand of a worker that carries no message goes to the end of the worker's own lane.
    PutBack(usize),
    /// The token in the hand of a worker that carries no message goes to callers.
    Drop(usize),
    /// A machine is stopped, as `Core::stop` does. Its outstanding token stays until its next turn.
    Stop(MachineId, Reason),
    /// A request is answered, as `Core::reply` does.
    Reply(MachineId, Tag, C),
    /// What is kept for a request is collected, as `Core::collect` does.
    Collect(MachineId, Tag),
    /// A worker that carries no message takes up the first one of the machine of the token in its hand, as
    /// `Core::take_out` takes it out. There has to be one.
    Carry(usize),
    /// The message that a worker carries is posted to its target, as an info. A target that has work then and had no
    /// outstanding token is issued one, which callers get. Where the target is not there, has ended or has no number
    /// left, the message is lost. Where memory is wanted and there is none, the worker carries it still.
    Deliver(usize),
}
