//! What a host answers, as a callback module.
ghost use Rattle.std.proofs.Common.{rules};
ghost use Rattle.st_events.specs.declared.init.Init.TheVariants as init;
ghost use Rattle.st_hosted.specs.HostAnswer.{outcome_in, entered_in};

use crate::copies::{copy_actions, copy_enter_outcome, copy_outcome, copy_payload};
use crate::{Begin, HostEntered, HostOutcome, Payload};
use st_events::{EnterOutcome, Init, Kind, Module, Outcome, Reason};
use std::alloc::{AllocError, Global};

/// What a host answers to an event, as a module: whatever the machine asks, it answers so. That the host was shown
/// the very event to which it answers is what `turn_by` sees to.
///
/// States and data are the host's numbers. It is plain data: one without actions and without an outcome of `enter`
/// takes no memory.
///
/// Manual: Callback Functions; ours: docs/DECISIONS.md, Callbacks are functions.
#[derive(Drop)]
pub struct HostAnswer {
    /// Whether the machine has enter calls.
    pub enters: bool,
    /// What `handle` answers.
    pub outcome: HostOutcome,
    /// What `enter` answers, where the outcome leads to an enter call. Without it an enter call keeps state and data,
    /// and asks for nothing.
    pub entered: Option<HostEntered>,
    /// What `terminate` answers, where the machine ends.
    pub word: u32,
}

impl Module for HostAnswer {
    type State = u64;

    type Data = u64;

    type Content = Payload;

    type Arg = Begin;

    ghost init_is = { λ answer begin. init.Ok begin.state begin.data begin.actions };

    ghost handle_is = { λ answer kind content state held. outcome_in answer.outcome };

    ghost enters_is = { λ answer. answer.enters };

    ghost enter_is = { λ answer old state held. entered_in answer.entered };

    ghost terminate_is = { λ answer reason state held. answer.word };

    fn init(&self, alloc: Global, begin: &Begin) -> Result<Init<u64, u64, Payload>, AllocError> {
        let actions = copy_actions(alloc, begin.actions.as_slice())?;
        Ok(Init::Ok(begin.state, begin.data, actions))
    }

    fn handle(
        &self,
        alloc: Global,
        _kind: Kind,
        _content: &Payload,
        _state: u64,
        _held: &u64,
    ) -> Result<Outcome<u64, u64, Payload>, AllocError> {
        copy_outcome(alloc, &self.outcome)
    }

    fn enters(&self) -> bool {
        self.enters
    }

    fn enter(
        &self,
        alloc: Global,
        _old: u64,
        _state: u64,
        _held: &u64,
    ) -> Result<EnterOutcome<u64, Payload>, AllocError> {
        copy_enter_outcome(alloc, &self.entered)
    }

    fn terminate(&self, _reason: Reason, _state: u64, _held: &u64) -> u32 {
        self.word
    }

    fn copy_content(&self, alloc: Global, content: &Payload) -> Result<Payload, AllocError> {
        copy_payload(alloc, content)
    }

    fn copy_data(&self, _alloc: Global, held: &u64) -> Result<u64, AllocError> {
        Ok(*held)
    }

    ghost lawful = { Prim.search rules };
}
