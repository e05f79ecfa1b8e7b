//! Laws of pools, for every callback module: each is shown once, and calling it does nothing. But for those of a pool at
//! hand they speak of the definitions alone.
ghost use Rattle.std.specs.Prelude.{◌≡◌, ◌≤◌, ℕ, true, Some, List, All, length, map};
ghost use Rattle.st_events.specs.declared.machine_id.MachineId.{MachineId};
ghost use Rattle.st_events.specs.declared.token.Token.{Token};
ghost use Rattle.st_core.specs.Callbacks.{Callbacks};
ghost use Rattle.st_core.specs.MachineState.{Machine};
ghost use Rattle.st_pool_core.specs.declared.step.Step.{Step};
ghost use Rattle.st_scheduled.specs.declared.step_answer.StepAnswer.{StepAnswer};
ghost use Rattle.st_pool_core.specs.Balance.{IsBalanced, times_in};
ghost use Rattle.st_pool_core.specs.Deliveries.{CarriesOwn, KeepsMessages};
ghost use Rattle.st_pool_core.specs.Opening.{opened, HasItsOwn};
ghost use Rattle.st_pool_core.specs.Play.{Plays, EachWentThroughItsOwn};
ghost use Rattle.st_scheduled.specs.ScheduledMachine.{ScheduledMachine, token_of, has_work};
ghost use Rattle.st_pool_core.specs.PoolState.{PoolState, OneEach, machine_of};
ghost use Rattle.st_pool_core.specs.Queues.{hand_in};
ghost use Rattle.st_pool_core.specs.Transit.{transit_of};
ghost use Rattle.st_scheduled.specs.Serving.{scheduled_at_first};

use crate::PoolWorld;
use st_events::Module;

/// Each pool is balanced. No two machines have one id; a token that is outstanding stands once, with callers, in a run
/// queue or in a hand, and no other token stands anywhere; and each machine that has work, ended or not, has an
/// outstanding token.
///
/// Ours: docs/TRANSITIONS.md, Balanced pools.
pub fn a_pool_is_balanced<M: Module>(world: &PoolWorld<M>)
    ensures { IsBalanced world.now }
{
    let _ = &world.alloc;
}

/// A new pool is balanced, whatever machines it is given, so long as no two have one id.
///
/// Ours: docs/TRANSITIONS.md, Balanced pools.
pub fn a_new_pool_is_balanced<M: Module>(_module: &M)
    ensures { (workers : ℕ) (cores : List (Machine M M.State M.Data M.Content)) → OneEach (map scheduled_at_first cores) → IsBalanced (opened workers cores) }
{}

/// Each list of steps leaves a balanced pool balanced, whoever takes which token from where, and wherever memory is
/// wanted.
///
/// Ours: docs/TRANSITIONS.md, Balanced pools.
pub fn a_play_keeps_pools_balanced<M: Module>(_module: &M)
    ensures { (callbacks : M → Callbacks M.State M.Data M.Content) (old new : PoolState M M.State M.Data M.Content) (steps : List (Step M.Content)) (answers : List (StepAnswer M.State M.Content))
        → IsBalanced old → Plays callbacks old steps answers new → IsBalanced new }
{}

/// Each machine goes through its own commands in a play, and through no others: its state after the play is what these
/// commands lead to from its state before.
///
/// Ours: docs/TRANSITIONS.md, Balanced pools.
pub fn a_play_is_each_machines_own_run<M: Module>(_module: &M)
    ensures { (callbacks : M → Callbacks M.State M.Data M.Content) (old new : PoolState M M.State M.Data M.Content) (steps : List (Step M.Content)) (answers : List (StepAnswer M.State M.Content))
        → IsBalanced old → Plays callbacks old steps answers new → EachWentThroughItsOwn callbacks old steps answers new }
{}

/// In a balanced pool no machine has two workers: two hands with tokens of one machine are one hand.
///
/// Ours: docs/TRANSITIONS.md, Balanced pools.
pub fn no_machine_has_two_workers<M: Module>(_module: &M)
    ensures { (pool : PoolState M M.State M.Data M.Content) (one other : ℕ) (token other_token : Token)
        → IsBalanced pool → hand_in pool.queues one ≡ Some token → hand_in pool.queues other ≡ Some other_token → token.machine ≡ other_token.machine → one ≡ other }
{}

/// In a balanced pool no machine that has work is stranded: it has a token, which stands with callers, in a run queue or
/// in a hand, once.
///
/// Ours: docs/TRANSITIONS.md, Balanced pools.
pub fn no_ready_machine_is_stranded<M: Module>(_module: &M)
    ensures { (pool : PoolState M M.State M.Data M.Content) (id : MachineId) (machine : ScheduledMachine M M.State M.Data M.Content)
        → IsBalanced pool → machine_of id pool.machines ≡ Some machine → has_work machine.core ≡ true
        → (token : Token) × (token_of machine ≡ Some token) × (times_in token pool ≡ 1) }
{}

/// In each pool a worker that carries a message has the token of the machine that sent it, and each machine's outbox
/// has its own messages alone.
///
/// Ours: docs/TRANSITIONS.md, Messages.
pub fn a_pool_carries_its_own<M: Module>(world: &PoolWorld<M>)
    ensures { CarriesOwn world.now }
{
    let _ = &world.alloc;
}

/// In a new pool no message is in transit, and each machine's messages are its own where they were before.
///
/// Ours: docs/TRANSITIONS.md, Messages.
pub fn a_new_pool_carries_nothing<M: Module>(_module: &M)
    ensures { (workers : ℕ) (cores : List (Machine M M.State M.Data M.Content)) → All HasItsOwn cores → CarriesOwn (opened workers cores) }
{}

/// Messages go their way in a play. Of each machine, what was in transit and in its outbox and what it sends is, in this
/// order, what is delivered, then what is in transit, then what is in its outbox; what it sends is what its reports
/// list; each message that arrives is a post among its target's own commands, in order; and each other one is lost
/// since its target has ended, has no number left, or is not there.
///
/// Ours: docs/TRANSITIONS.md, Messages.
pub fn a_play_keeps_messages<M: Module>(_module: &M)
    ensures { (callbacks : M → Callbacks M.State M.Data M.Content) (old new : PoolState M M.State M.Data M.Content) (steps : List (Step M.Content)) (answers : List (StepAnswer M.State M.Content))
        → IsBalanced old → CarriesOwn old → Plays callbacks old steps answers new → KeepsMessages callbacks old steps answers new }
{}

/// Of each machine of a pool one message at most is in transit.
///
/// Ours: docs/TRANSITIONS.md, Messages.
pub fn a_machine_has_one_message_in_transit<M: Module>(_module: &M)
    ensures { (pool : PoolState M M.State M.Data M.Content) (id : MachineId) → IsBalanced pool → CarriesOwn pool → length (transit_of id pool.transit) ≤ 1 }
{}
