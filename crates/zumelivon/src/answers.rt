//! What a turn, or a start, is handed.
ghost use Rattle.std.specs.Prelude.{◌≡◌, true, IfOk};
ghost use Rattle.zumelivon.specs.Handed.{handed_in};
ghost use Rattle.zumelivon.specs.Reading.{is_answer, answer_in, is_entered, entered_in};

use crate::flat_action::FlatAction;
use crate::flat_answer::FlatAnswer;
use crate::read_answers::{entered_of, is_entered, is_outcome, outcome_of};
use st_hosted::{HostAnswer, HostEntered};
use std::alloc::{AllocError, Global};

/// The answer to an event and the one to the enter call that it leads to, with their actions, their bytes and a last
/// word.
#[derive(Clone, Copy)]
pub(crate) struct Answers<'a> {
    pub(crate) handled: &'a FlatAnswer,
    pub(crate) actions: &'a [FlatAction],
    pub(crate) entered: &'a FlatAnswer,
    pub(crate) enter_actions: &'a [FlatAction],
    pub(crate) bytes: &'a [u8],
    pub(crate) word: u32,
}

impl Answers<'_> {
    /// Says whether the enter call is answered by something that means something.
    pub(crate) fn is_entered(&self) -> bool
        ensures { result ≡ is_entered self.now.bytes.now self.now.entered.now self.now.enter_actions.now }
    {
        is_entered(self.entered, self.enter_actions, self.bytes)
    }

    /// Says whether these are answers to an event and to an enter call.
    pub(crate) fn is_answer(&self) -> bool
        ensures { result ≡ is_answer (handed_in self.now) }
    {
        is_outcome(self.handled, self.actions, self.bytes) && self.is_entered()
    }

    /// The answer to the enter call, if there is one.
    pub(crate) fn entered(&self, alloc: Global) -> Result<Option<HostEntered>, AllocError>
        requires { is_entered self.now.bytes.now self.now.entered.now self.now.enter_actions.now ≡ true }
        ensures { IfOk result (λ read. read ≡ entered_in self.now.bytes.now self.now.entered.now self.now.enter_actions.now) }
    {
        entered_of(alloc, self.entered, self.enter_actions, self.bytes)
    }

    /// The answers, as a module has them. Whether there are enter calls is said elsewhere.
    pub(crate) fn host_answer(&self, alloc: Global) -> Result<HostAnswer, AllocError>
        requires { is_answer (handed_in self.now) ≡ true }
        ensures { IfOk result (λ read. read ≡ answer_in (handed_in self.now)) }
    {
        Ok(HostAnswer {
            enters: false,
            outcome: outcome_of(alloc, self.handled, self.actions, self.bytes)?,
            entered: self.entered(alloc)?,
            word: self.word,
        })
    }
}
