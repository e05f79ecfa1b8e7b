//! One machine.
ghost use Rattle.std.specs.Prelude.{◌≡◌, ◌<◌, ◌^◌, IfOk, IfErr};
ghost use Rattle.std.specs.Option.{option_map};
ghost use Rattle.st_events.specs.declared.refusal.Refusal.TheVariants.{NoMemory};
ghost use Rattle.st_core.specs.Choice.{next_event_of, has_event_of, has_message_of, is_ready_of, waiting_of, timers_of, next_due_of};

use st_agenda::Agenda;
use st_events::{Kind, MachineId, Module, PlainList, Reason, Refusal, Tag, Timer};
use st_outbox::Outgoing;
use st_requests::Requests;
use st_timeouts::Due;
use std::alloc::Global;
use std::marker::Model;
use std::mem::replace;

/// One machine: a callback module with its state, its data, the events that wait, the time-outs that run,
/// the requests that are open or kept, and the messages that were not taken out yet.
///
/// Contracts see the module and the machine state, a plain value with a list of events and expiries. It is
/// always lawful: one that can come about.
///
/// Manual: the introduction, on the state, the data and the event queue.
#[derive(Drop)]
pub struct Core<M: Module> {
    pub(crate) alloc: Global,
    pub(crate) module: M,
    pub(crate) id: MachineId,
    pub(crate) state: M::State,
    pub(crate) data: M::Data,
    pub(crate) agenda: Agenda<M::Content>,
    pub(crate) requests: Requests<M::Content>,
    pub(crate) outgoing: Outgoing<M::Content>,
    pub(crate) latest: u64,
    // The reason and the last word, once the machine has ended.
    pub(crate) ended: Option<(Reason, u32)>,
}

impl<M: Module> Model for Core<M> {
    ghost use Rattle.st_core.specs.Lawful.{IsLawfulOf};
    ghost use Rattle.st_core.specs.MachineState.{Machine};

    ghost Value = { Machine M M.State M.Data M.Content };

    ghost view = { λ core. record {
      module_ = core.module;
      machine = record {
        id = core.id;
        state = core.state;
        «data» = core.data;
        schedule = core.agenda.schedule;
        requests = core.requests;
        outbox = core.outgoing.outbox;
        latest = core.latest;
        ended = core.ended;
      };
    } };

    ghost invariant = { λ core. IsLawfulOf core.id core.agenda.schedule core.requests core.outgoing.outbox core.latest core.ended };
}

impl<M: Module> Core<M> {
    /// Says whether there is something to do for who serves the machine: an event that a turn would handle, or a
    /// message to be taken out, which there may be after the end, too.
    ///
    /// Ours: docs/TRANSITIONS.md, Next event; docs/DECISIONS.md, Messages.
    pub fn is_ready(&self) -> bool
        ensures { result ≡ is_ready_of self.now.machine }
    {
        self.has_event() || self.has_message()
    }

    /// Says whether the machine has not ended and there is an event that a turn would handle.
    ///
    /// Ours: docs/TRANSITIONS.md, Next event.
    pub fn has_event(&self) -> bool
        ensures { result ≡ has_event_of self.now.machine }
    {
        self.ended.is_none() && self.agenda.has_next()
    }

    /// The number, the kind and the content of the event that a turn would handle next, if there is one; it stays.
    ///
    /// Ours: docs/TRANSITIONS.md, Next event.
    pub fn next(&self) -> Option<(u64, Kind, &M::Content)>
        ensures { option_map (λ seen. record { number = seen.0; kind = seen.1; content = seen.2.now }) result ≡ next_event_of self.now.machine }
    {
        self.agenda.next()
    }

    /// Says whether there is a message that `take_out` would take out, ended or not.
    ///
    /// Ours: docs/DECISIONS.md, Messages.
    pub fn has_message(&self) -> bool
        ensures { result ≡ has_message_of self.now.machine }
    {
        self.outgoing.has_messages()
    }

    /// The machine's id.
    ///
    /// Ours: docs/DECISIONS.md, Ids.
    pub fn id(&self) -> MachineId
        ensures { result ≡ self.now.machine.id }
    {
        self.id
    }

    /// The callback module.
    ///
    /// Ours: docs/DECISIONS.md, Callbacks are functions.
    pub fn module(&self) -> &M
        ensures { result.now ≡ self.now.module_ }
    {
        &self.module
    }

    /// Puts another module in the place of the machine's, which is returned. The machine stays as it is: what it is
    /// told from then on is done as the new module answers.
    ///
    /// Ours: docs/DECISIONS.md, Callbacks are functions.
    pub fn replace_module(&mut self, module: M) -> M
        ensures module { result ≡ self.old.module_ }
        ensures replaced { self.new ≡ record self.old { module_ = «module» } }
    {
        replace(&mut self.module, module)
    }

    /// The callback module alone: the machine is let go, and its `terminate` is not called.
    ///
    /// Ours: docs/DECISIONS.md, Callbacks are functions.
    pub fn into_module(self) -> M
        ensures { result ≡ self.module_ }
    {
        let Core { module, .. } = self;
        module
    }

    /// The number that the next event gets. Where it is 2^63, no number is left.
    ///
    /// Ours: docs/DECISIONS.md, Numbers of events.
    pub fn next_number(&self) -> u64
        ensures { result ≡ self.now.machine.schedule.next_number }
    {
        self.agenda.next_number()
    }

    /// The tag of the call whose event has this number, as `post` answered it.
    ///
    /// Manual: `from()`, `send_request/2`.
    pub fn tag(&self, number: u64) -> Tag
        ensures { result ≡ record { machine = self.now.machine.id; request = number } }
    {
        Tag::new(self.id, number)
    }

    /// The state.
    ///
    /// Manual: `state()`.
    pub fn state(&self) -> M::State
        ensures { result ≡ self.now.machine.state }
    {
        self.state
    }

    /// The data.
    ///
    /// Manual: `data()`.
    pub fn data(&self) -> &M::Data
        ensures { result.now ≡ self.now.machine.data }
    {
        &self.data
    }

    /// The latest moment that the machine has seen, in milliseconds.
    ///
    /// Ours: docs/DECISIONS.md, Moments.
    pub fn latest(&self) -> u64
        ensures latest { result ≡ self.now.machine.latest }
        ensures within { result < 2 ^ 63 }
    {
        self.latest
    }

    /// How many accepted events wait, the postponed ones too; once the machine has ended, none. A time-out
    /// that runs is none, nor is one that has expired and was not handled yet.
    ///
    /// Manual: the introduction, on the event queue; ours: docs/TRANSITIONS.md, Next event.
    pub fn waiting(&self) -> usize
        ensures { result ≡ waiting_of self.now.machine }
    {
        self.agenda.waiting()
    }

    /// The moment, in milliseconds, at which the next time-out expires that has not expired yet: a tick before it
    /// makes none expire. One that is due at once waits for no moment, and once the machine has ended, none runs:
    /// where there is no other, it answers `None`. The moment may lie at 2^63 or later, which no tick reaches.
    ///
    /// It takes no memory. Ours: docs/TRANSITIONS.md, Time-outs.
    pub fn next_due(&self) -> Option<u64>
        ensures { result ≡ next_due_of self.now.machine }
    {
        self.agenda.next_due()
    }

    /// The running time-outs in the order in which they were set: timer, number of the event, and when it is
    /// due, in milliseconds.
    ///
    /// Refused with `NoMemory` where memory is wanted and there is none; then nothing is listed.
    ///
    /// Manual: `timeout_action()`; ours: docs/TRANSITIONS.md, Time-outs.
    pub fn timers(&self) -> Result<PlainList<(Timer, u64, Due)>, Refusal>
        ensures timers { IfOk result (λ timers. timers ≡ timers_of self.now.machine) }

        ensures refusals { IfErr result (λ refusal. refusal ≡ NoMemory) }
    {
        Ok(self.agenda.timers()?)
    }

    /// The reason for which the machine has ended, and its last word; `None` as long as it runs.
    ///
    /// Manual: `stop/3`, `Module:terminate/3`; ours: docs/DECISIONS.md, The last word.
    pub fn ended(&self) -> Option<(Reason, u32)>
        ensures { result ≡ self.now.machine.ended }
    {
        self.ended
    }
}
