//! What a list of actions asks for, taken out of it, each kind by itself.
ghost use Rattle.std.specs.Prelude.{◌≡◌, ◌+◌, [], ◌++◌, length, slice_get, take, drop, is_some};
ghost use Rattle.std.specs.Option.{option_and_then, option_to_list};
ghost use Rattle.st_actions.specs.Plan.{replies_of, inserts_of, sends_of};
ghost use Rattle.st_actions.specs.Taking.{all_settings_of, as_reply, as_insert, as_setting, as_send};

use st_events::{Action, Actions, Asked, Insert, MachineId, Setting, Tag};

/// Takes out the reply at an index, if there is one, and leaves `Hibernate` in its place. So a list's replies are taken
/// in their order, from index 0 on. It takes no memory.
///
/// Manual: `action()`: `reply_action()`; ours: docs/DECISIONS.md, Hibernation.
pub fn take_reply<C: Drop>(actions: &mut Actions<C>, index: usize) -> Option<(Tag, C)>
    requires first { replies_of (take index actions.old) ≡ [] }
    ensures taken { replies_of actions.old ≡ option_to_list result ++ replies_of actions.new }
    ensures none_before { replies_of (take (index + 1) actions.new) ≡ [] }
    ensures same_inserts { inserts_of actions.new ≡ inserts_of actions.old }
    ensures same_settings { all_settings_of actions.new ≡ all_settings_of actions.old }
    ensures same_sends { sends_of actions.new ≡ sends_of actions.old }
    ensures as_many { length actions.new ≡ length actions.old }
{
    if !is_reply_at(actions, index) {
        return None;
    }
    match actions.replace(index, Action::Hibernate) {
        Some(action) => reply_of(action),
        None => unreachable!(),
    }
}

/// Takes out the event to be inserted at an index, if there is one, and leaves `Hibernate` in its place. So a list's
/// inserts are taken in the opposite order, from its end on. It takes no memory.
///
/// Manual: `action()`, the bullet on `next_event`; ours: docs/DECISIONS.md, Hibernation.
pub fn take_insert<C: Drop>(actions: &mut Actions<C>, index: usize) -> Option<Insert<C>>
    requires last { inserts_of (drop (index + 1) actions.old) ≡ [] }
    ensures taken { inserts_of actions.old ≡ inserts_of actions.new ++ option_to_list result }
    ensures none_behind { inserts_of (drop index actions.new) ≡ [] }
    ensures same_replies { replies_of actions.new ≡ replies_of actions.old }
    ensures same_settings { all_settings_of actions.new ≡ all_settings_of actions.old }
    ensures same_sends { sends_of actions.new ≡ sends_of actions.old }
    ensures as_many { length actions.new ≡ length actions.old }
{
    if !is_insert_at(actions, index) {
        return None;
    }
    match actions.replace(index, Action::Hibernate) {
        Some(action) => insert_of(action),
        None => unreachable!(),
    }
}

/// Takes out what the action at an index asks of a timer, to set, cancel or update it, if it does, and leaves
/// `Hibernate` in its place. So a list's settings are taken in their order, from index 0 on. It takes no memory.
///
/// Manual: `action()`: `timeout_action()`, `timeout_cancel_action()`, `timeout_update_action()`; ours:
/// docs/DECISIONS.md, Hibernation.
pub fn take_setting<C: Drop>(actions: &mut Actions<C>, index: usize) -> Option<Setting<C>>
    requires first { all_settings_of (take index actions.old) ≡ [] }
    ensures taken { all_settings_of actions.old ≡ option_to_list result ++ all_settings_of actions.new }
    ensures none_before { all_settings_of (take (index + 1) actions.new) ≡ [] }
    ensures same_sends { sends_of actions.new ≡ sends_of actions.old }
    ensures as_many { length actions.new ≡ length actions.old }
{
    if !is_setting_at(actions, index) {
        return None;
    }
    match actions.replace(index, Action::Hibernate) {
        Some(action) => setting_of(action),
        None => unreachable!(),
    }
}

/// What an action asks of a timer, if it does.
fn setting_of<C: Drop>(action: Action<C>) -> Option<Setting<C>>
    ensures { result ≡ as_setting action }
{
    let (timer, asked) = match action {
        Action::Set(timer, time, content) => (timer, Asked::Set(time, content)),
        Action::Cancel(timer) => (timer, Asked::Cancel),
        Action::Update(timer, content) => (timer, Asked::Update(content)),
        _ => return None,
    };
    Some(Setting { timer, asked })
}

/// Takes out what the action at an index sends, and to which machine, if it does, and leaves `Hibernate` in its place.
/// So what a list sends is taken in its order, from index 0 on. It takes no memory.
///
/// Ours: docs/DECISIONS.md, Messages and Hibernation.
pub fn take_send<C: Drop>(actions: &mut Actions<C>, index: usize) -> Option<(MachineId, C)>
    requires first { sends_of (take index actions.old) ≡ [] }
    ensures taken { sends_of actions.old ≡ option_to_list result ++ sends_of actions.new }
    ensures none_before { sends_of (take (index + 1) actions.new) ≡ [] }
    ensures as_many { length actions.new ≡ length actions.old }
{
    if !is_send_at(actions, index) {
        return None;
    }
    match actions.replace(index, Action::Hibernate) {
        Some(action) => send_of(action),
        None => unreachable!(),
    }
}

/// The reply that an action is, if it is one.
fn reply_of<C: Drop>(action: Action<C>) -> Option<(Tag, C)>
    ensures { result ≡ as_reply action }
{
    match action {
        Action::Reply(tag, content) => Some((tag, content)),
        _ => None,
    }
}

/// The event to be inserted that an action is, if it is one.
fn insert_of<C: Drop>(action: Action<C>) -> Option<Insert<C>>
    ensures { result ≡ as_insert action }
{
    match action {
        Action::NextEvent(kind, content) => Some(Insert { kind, content }),
        _ => None,
    }
}

/// What an action sends, and to which machine, if it does.
fn send_of<C: Drop>(action: Action<C>) -> Option<(MachineId, C)>
    ensures { result ≡ as_send action }
{
    match action {
        Action::Send(target, content) => Some((target, content)),
        _ => None,
    }
}

/// Says whether there is a reply at an index.
fn is_reply_at<C>(actions: &Actions<C>, index: usize) -> bool
    ensures { result ≡ is_some (option_and_then as_reply (slice_get actions.now index)) }
{
    matches!(actions.get(index), Some(Action::Reply(..)))
}

/// Says whether there is an event to be inserted.
fn is_insert_at<C>(actions: &Actions<C>, index: usize) -> bool
    ensures { result ≡ is_some (option_and_then as_insert (slice_get actions.now index)) }
{
    matches!(actions.get(index), Some(Action::NextEvent(..)))
}

/// Says whether there is an action that asks something of a timer.
fn is_setting_at<C>(actions: &Actions<C>, index: usize) -> bool
    ensures { result ≡ is_some (option_and_then as_setting (slice_get actions.now index)) }
{
    matches!(
        actions.get(index),
        Some(Action::Set(..) | Action::Cancel(_) | Action::Update(..))
    )
}

/// Says whether there is something to be sent.
fn is_send_at<C>(actions: &Actions<C>, index: usize) -> bool
    ensures { result ≡ is_some (option_and_then as_send (slice_get actions.now index)) }
{
    matches!(actions.get(index), Some(Action::Send(..)))
}
