//! The machine goes on after an event: what the callbacks came to is done. What can fail is done before anything changes.
ghost use Rattle.std.specs.Prelude.{◌≡◌, [], ◌<◌, ◌^◌, Some};
ghost use Rattle.std.specs.Option.{option_map};
ghost use Rattle.st_core.specs.declared.gathered.Gathered.{Gathered};
ghost use Rattle.st_core.specs.Callbacks.{Called};
ghost use Rattle.st_core.specs.Choice.{next_event_of};
ghost use Rattle.st_core.specs.Gathering.{ComesTo, IsEmpty, TurnsTo};
ghost use Rattle.st_core.specs.Transition.{with_moment, done_by, unless_refused, went_on};

use crate::answering::answer_each;
use crate::course::Course;
use crate::gathered::Gathered;
use crate::new_data::replace;
use crate::prepared::prepare;
use crate::sending::send_each;
use crate::{Core, Done};
use st_events::{Actions, Module, Refusal};

/// How an event ends that is postponed or not.
fn done_by(postpone: bool) -> Done
    ensures { result ≡ done_by postpone }
{
    if postpone {
        Done::PutOff
    } else {
        Done::Finished
    }
}

impl<M: Module> Core<M> {
    /// The machine goes on after the next event, with what its callbacks came to.
    pub(crate) fn go_on(
        &mut self,
        course: Course<M::State>,
        data: Option<M::Data>,
        actions: &mut Actions<M::Content>,
        gathered: &mut Gathered<M::State>,
    ) -> Result<Done, Refusal>
        requires moment { course.now < 2 ^ 63 }
        requires number_is { option_map (λ event. event.number) (next_event_of self.old.machine) ≡ Some course.number }
        requires empty { IsEmpty gathered.old }
        ensures { (called : Called M.State M.Data M.Content)
            → ComesTo course self.old.machine.data gathered.old.calls «data» actions.old called
            → TurnsTo course.number self.old self.new gathered.new result
            (unless_refused self.old.machine (went_on (with_moment self.old.machine course.now) course.number called)) }
    {
        if actions.is_empty() {
            self.finish(course, data)
        } else {
            self.carry_out(course, data, actions, gathered)
        }
    }

    /// The same, where nothing is asked for.
    fn finish(&mut self, course: Course<M::State>, data: Option<M::Data>) -> Result<Done, Refusal>
        requires moment { course.now < 2 ^ 63 }
        requires number_is { option_map (λ event. event.number) (next_event_of self.old.machine) ≡ Some course.number }
        ensures { (gathered : Gathered M.State) → IsEmpty gathered → (called : Called M.State M.Data M.Content)
            → ComesTo course self.old.machine.data gathered.calls «data» [] called
            → TurnsTo course.number self.old self.new gathered result
            (unless_refused self.old.machine (went_on (with_moment self.old.machine course.now) course.number called)) }
    {
        self.agenda.stage(1)?;
        // Nothing fails from here on.
        self.latest = self.latest.max(course.now);
        self.state = course.after;
        replace(&mut self.data, data);
        self.agenda.settle(course.number, false, course.changed);
        Ok(Done::Finished)
    }

    /// The same, where something may be asked for.
    fn carry_out(
        &mut self,
        course: Course<M::State>,
        data: Option<M::Data>,
        actions: &mut Actions<M::Content>,
        gathered: &mut Gathered<M::State>,
    ) -> Result<Done, Refusal>
        requires moment { course.now < 2 ^ 63 }
        requires number_is { option_map (λ event. event.number) (next_event_of self.old.machine) ≡ Some course.number }
        requires empty { IsEmpty gathered.old }
        ensures { (called : Called M.State M.Data M.Content)
            → ComesTo course self.old.machine.data gathered.old.calls «data» actions.old called
            → TurnsTo course.number self.old self.new gathered.new result
            (unless_refused self.old.machine (went_on (with_moment self.old.machine course.now) course.number called)) }
    {
        let counts = match prepare(
            self.alloc,
            &mut self.agenda,
            &mut self.outgoing,
            course.changed,
            actions,
            gathered,
        ) {
            Ok(counts) => counts,
            Err(refusal) => return Err(refusal),
        };
        // Nothing fails from here on.
        self.latest = self.latest.max(course.now);
        self.state = course.after;
        replace(&mut self.data, data);
        answer_each(
            &mut self.requests,
            counts.replies,
            actions,
            &mut gathered.replied,
        );
        let postpone = counts.postpone.unwrap_or(false);
        self.agenda.settle(course.number, postpone, course.changed);
        self.agenda.insert(counts.inserts, actions);
        self.agenda.set_all(self.latest, counts.settings, actions);
        send_each(&mut self.outgoing, self.id, counts.sends, actions);
        Ok(done_by(postpone))
    }
}
