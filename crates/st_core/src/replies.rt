//! Replies to requests, and what a caller collects.
ghost use Rattle.std.specs.Prelude.{◌≡◌, option_copied};
ghost use Rattle.std.specs.Option.{option_map};
ghost use Rattle.st_requests.specs.Requests.{held_for, held_of};
ghost use Rattle.st_answers.specs.declared.answer.Answer.TheVariants as answer;
ghost use Rattle.st_answers.specs.declared.command.Command.TheVariants as command;
ghost use Rattle.st_core.specs.Callbacks.{callbacks_of};
ghost use Rattle.st_core.specs.Replies.{peek_of};
ghost use Rattle.st_core.specs.Run.{Does};

use crate::Core;
use st_events::{Module, Tag};
use st_requests::{Collected, Held};

impl<M: Module> Core<M> {
    /// Answers the request of a tag, and says whether it was open. The first reply to an open request is
    /// its answer, and is kept until it is collected.
    ///
    /// Where the request is not open, for no such call was posted here, or it was answered, or the machine
    /// has ended, the content is let go, and nothing changes. It is never refused and takes no memory.
    ///
    /// Manual: `reply/2`; ours: docs/DECISIONS.md, Requests.
    pub fn reply(&mut self, tag: Tag, content: M::Content) -> bool
        ensures does { Does (callbacks_of M.Module M.State.eq) self.old (command.Reply tag content) (answer.Reply result) self.new }
    {
        self.requests.answer(tag, content)
    }

    /// Shows the reply that `collect` would hand out for a tag, and leaves it there. Where there is no reply,
    /// it answers `None`. It is never refused and takes no memory, also after the machine has ended.
    ///
    /// Manual: `receive_response/1`; there a reply is only ever taken.
    pub fn peek(&self, tag: Tag) -> Option<&M::Content>
        ensures { option_copied result ≡ peek_of self.now.machine tag }
    {
        self.requests.peek(tag)
    }

    /// Says what is held for a tag, and leaves it there: that its call waits for a reply, or that `collect` would
    /// hand out a reply or the reason for which the machine has ended. Where nothing is held, it answers `None`. It
    /// is never refused and takes no memory, also after the machine has ended.
    ///
    /// Manual: `receive_response/1`, which alone can tell there.
    pub fn held(&self, tag: Tag) -> Option<Held>
        ensures { result ≡ option_map held_of (held_for self.now.machine.requests tag) }
    {
        self.requests.held(tag)
    }

    /// Hands out what is kept for a tag, once: the reply to its call, or the reason for which the machine has
    /// ended before it replied.
    ///
    /// Where the request is open, it answers `Waiting`, and where nothing is kept, for no such call was posted
    /// here or it was collected, `Gone`. Both change nothing. It is never refused and takes no memory, also
    /// after the machine has ended.
    ///
    /// Manual: `receive_response/1`, `call/2`; ours: docs/DECISIONS.md, Requests.
    pub fn collect(&mut self, tag: Tag) -> Collected<M::Content>
        ensures does { Does (callbacks_of M.Module M.State.eq) self.old (command.Collect tag) (answer.Collect result) self.new }
    {
        self.requests.collect(tag)
    }
}
