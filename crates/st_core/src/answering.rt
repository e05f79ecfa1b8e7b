//! The replies of a list of actions are sent.
ghost use Rattle.std.specs.Prelude.{◌≡◌, ◌+◌, ◌≤◌, ◌++◌, length, vec_capacity};
ghost use Rattle.st_actions.specs.Plan.{replies_of, inserts_of, sends_of};
ghost use Rattle.st_actions.specs.Taking.{all_settings_of};
ghost use Rattle.st_requests.specs.Requests.{with_answers, taken_by};

use st_actions::take_reply;
use st_events::{Actions, Tag};
use st_requests::Requests;

/// Answers requests by the replies of a list of actions, of which there are so many, in their order, and adds the tags
/// whose request was open to a list, in memory that was reserved. The replies leave the list of actions; all else in it
/// stays.
pub(crate) fn answer_each<C: Drop>(
    requests: &mut Requests<C>,
    count: usize,
    actions: &mut Actions<C>,
    taken: &mut Vec<Tag>,
)
    requires count { count ≡ length (replies_of actions.old) }
    requires reserved { length taken.old.items + count ≤ vec_capacity taken.old }
    ensures answered { requests.new ≡ with_answers requests.old (replies_of actions.old) }
    ensures taken { taken.new.items ≡ taken.old.items ++ taken_by requests.old (replies_of actions.old) }
    ensures same_inserts { inserts_of actions.new ≡ inserts_of actions.old }
    ensures same_settings { all_settings_of actions.new ≡ all_settings_of actions.old }
    ensures same_sends { sends_of actions.new ≡ sends_of actions.old }
{
    if count > 0 {
        answer_all(requests, actions, taken);
    }
}

/// The same, where there may be one.
// Few turns reply, and the others are not to get anything ready for this.
#[inline(never)]
pub(crate) fn answer_all<C: Drop>(
    requests: &mut Requests<C>,
    actions: &mut Actions<C>,
    taken: &mut Vec<Tag>,
)
    requires reserved { length taken.old.items + length (replies_of actions.old) ≤ vec_capacity taken.old }
    ensures answered { requests.new ≡ with_answers requests.old (replies_of actions.old) }
    ensures taken { taken.new.items ≡ taken.old.items ++ taken_by requests.old (replies_of actions.old) }
    ensures same_inserts { inserts_of actions.new ≡ inserts_of actions.old }
    ensures same_settings { all_settings_of actions.new ≡ all_settings_of actions.old }
    ensures same_sends { sends_of actions.new ≡ sends_of actions.old }
{
    for index in 0..actions.len() {
        if let Some((tag, content)) = take_reply(actions, index) {
            if requests.answer(tag, content) {
                taken.push_reserved(tag);
            }
        }
    }
}
