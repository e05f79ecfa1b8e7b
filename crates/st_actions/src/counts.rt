//! How much a list of actions asks for.
ghost use Rattle.std.specs.Prelude.{◌+◌, ◌<◌, ◌≤◌, ◌^◌, ◌∷◌, List, length, drop};
ghost use Rattle.st_events.specs.declared.action.Action.{Action};
ghost use Rattle.st_actions.specs.Counted.{IsCountOf};

use st_events::{Action, Actions, Time};

/// How much a list of actions asks for: what has to be known before memory is got and anything is changed.
///
/// Manual: `action()`.
#[derive(Clone, Copy)]
pub struct Counts {
    /// How many replies.
    pub replies: usize,
    /// How many events to be inserted.
    pub inserts: usize,
    /// How many settings of timers: how often one is set, cancelled or updated.
    pub settings: usize,
    /// How many updates of time-outs: each takes one number more where its timer does not run.
    pub updates: usize,
    /// How many messages to be sent.
    pub sends: usize,
    /// How many numbers of events in any case: one for each that is inserted, and one for each time-out that begins.
    pub numbers: u64,
    /// What the last postpone says, if there is one.
    pub postpone: Option<bool>,
}

/// Counts what a list of actions asks for. Each action is looked at once. It takes no memory.
///
/// Manual: `action()`; ours: docs/DECISIONS.md, Numbers of events.
pub fn count<C>(actions: &Actions<C>) -> Counts
    ensures { IsCountOf result actions.now }
{
    let mut counts = Counts {
        replies: 0,
        inserts: 0,
        settings: 0,
        updates: 0,
        sends: 0,
        numbers: 0,
        postpone: None,
    };
    // From the end on: so the first postpone that it meets is the last.
    let mut index = actions.len();
    while index > 0 {
        index -= 1;
        count_at(actions, index, &mut counts);
    }
    counts
}

/// Counts the action at an index too.
fn count_at<C>(actions: &Actions<C>, index: usize, counts: &mut Counts)
    requires room { counts.old.replies + counts.old.inserts + counts.old.settings + counts.old.sends + 1 < 2 ^ 64 }
    requires numbers { counts.old.numbers + 1 < 2 ^ 64 }
    requires updates { counts.old.updates ≤ counts.old.settings }
    requires there { index < length actions.now }
    ensures counted { IsCountOf counts.old (drop (index + 1) actions.now) → IsCountOf counts.new (drop index actions.now) }
    ensures one { counts.new.replies + counts.new.inserts + counts.new.settings + counts.new.sends ≤ counts.old.replies + counts.old.inserts + counts.old.settings + counts.old.sends + 1 }
    ensures one_number { counts.new.numbers ≤ counts.old.numbers + 1 }
    ensures updates { counts.new.updates ≤ counts.new.settings }
{
    match actions.get(index) {
        None => {}
        Some(action) => count_one(action, counts),
    }
}

/// Counts an action that stands before those that were counted.
fn count_one<C>(action: &Action<C>, counts: &mut Counts)
    requires room { counts.old.replies + counts.old.inserts + counts.old.settings + counts.old.sends + 1 < 2 ^ 64 }
    requires numbers { counts.old.numbers + 1 < 2 ^ 64 }
    requires updates { counts.old.updates ≤ counts.old.settings }
    ensures counted { (rest : List (Action C)) → IsCountOf counts.old rest → IsCountOf counts.new (action.now ∷ rest) }
    ensures one { counts.new.replies + counts.new.inserts + counts.new.settings + counts.new.sends ≤ counts.old.replies + counts.old.inserts + counts.old.settings + counts.old.sends + 1 }
    ensures one_number { counts.new.numbers ≤ counts.old.numbers + 1 }
    ensures updates { counts.new.updates ≤ counts.new.settings }
{
    match action {
        Action::Reply(_, _) => counts.replies += 1,
        Action::NextEvent(_, _) => {
            counts.inserts += 1;
            counts.numbers += 1;
        }
        Action::Set(_, Time::After(_), _) => {
            counts.settings += 1;
            counts.numbers += 1;
        }
        Action::Set(_, Time::Infinity, _) | Action::Cancel(_) => counts.settings += 1,
        Action::Update(_, _) => {
            counts.settings += 1;
            counts.updates += 1;
        }
        Action::Send(_, _) => counts.sends += 1,
        Action::Postpone(last) => counts.postpone = counts.postpone.or(Some(*last)),
        Action::Hibernate => {}
    }
}
