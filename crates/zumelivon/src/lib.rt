//! The table of machines for programs in other languages: the exports that c/zumelivon.h declares.
//! Each takes the table out of its handle, calls the function of the same name in a module here, and puts it back.
#![tactic(auto)]

ghost use Rattle.std.specs.Prelude.{◌≡◌, ◌≢◌, ◌↔◌, None, IsSome};
ghost use Rattle.st_embedded.specs.Table.{IfOpen, IsEmptyTable};
ghost use Rattle.zumelivon.specs.Calls.{CollectsContent, CollectsSignal, Describes, Looks, MakesTurn, PostsHosted, PostsSignal, ReadsList, Removes, Replies, RunsDescribed, ShowsNext, StartsDescribed, StartsHosted, StopsEither, TakesMessage, TakesSignal, TicksEither, WhyNoBegin, WhyNoName, WhyNoStart};
ghost use Rattle.zumelivon.specs.Exports.{Seen, Told, content_in};

mod answers;
mod codes;
mod described;
mod describing;
mod either;
mod flat_action;
mod flat_answer;
mod flat_begin;
mod flat_content;
mod flat_event;
mod flat_listed;
mod flat_machine;
mod flat_message;
mod flat_report;
mod flat_signal;
mod posting;
mod read_actions;
mod read_answers;
mod reading;
mod showing;
mod signals;
mod taking;
mod turning;

use answers::Answers;
use codes::{CLOSED, DONE, NO_MEMORY, OPEN, VERSION, WRONG_VERSION};
use flat_action::FlatAction;
use flat_answer::FlatAnswer;
use flat_begin::FlatBegin;
use flat_content::FlatContent;
use flat_event::FlatEvent;
use flat_listed::FlatListed;
use flat_machine::FlatMachine;
use flat_message::FlatMessage;
use flat_report::FlatReport;
use flat_signal::FlatSignal;
use st_embedded::Handle;
use std::alloc::Global;

/// The version of the library.
#[unsafe(no_mangle)]
pub extern "C" fn zumelivon_version() -> u32
    ensures { result ≡ 1 }
{
    VERSION
}

/// Opens a closed table.
#[unsafe(no_mangle)]
pub extern "C" fn zumelivon_open(alloc: Global, table: &mut Handle, version: u32) -> u32
    ensures opened { result ≡ 0 → (version ≡ 1) × (table.old.value ≡ None) × IfOpen table.new.value IsEmptyTable }
    ensures refused { result ≢ 0 → table.new.value ≡ table.old.value }
    ensures open { version ≡ 1 → IsSome table.old.value → result ≡ 106 }
    ensures was_open { result ≡ 106 → IsSome table.old.value }
    ensures wrong { version ≢ 1 ↔ result ≡ 108 }
{
    if version != VERSION {
        return WRONG_VERSION;
    }
    match table.open(alloc) {
        Ok(true) => DONE,
        Ok(false) => OPEN,
        Err(_) => NO_MEMORY,
    }
}

/// Closes a table, and drops its machines.
#[unsafe(no_mangle)]
pub extern "C" fn zumelivon_close(alloc: Global, table: &mut Handle) -> u32
    ensures empty { table.new.value ≡ None }
    ensures closed { result ≡ 105 ↔ (table.old.value ≡ None) }
    ensures done { result ≡ 0 ↔ IsSome table.old.value }
{
    if table.close(alloc) { DONE } else { CLOSED }
}

/// Tells a machine the moment.
#[unsafe(no_mangle)]
pub extern "C" fn zumelivon_tick(
    alloc: Global,
    table: &mut Handle,
    id: u64,
    now: u64,
    expired: &mut u64,
) -> u32
    ensures does { Told table.old.value table.new.value (λ old new. TicksEither id now result expired.old expired.new old new) }
    ensures closed { result ≡ 105 ↔ (table.old.value ≡ None) }
    ensures kept { result ≡ 105 → (expired.new ≡ expired.old) }
{
    let Some(mut all) = table.take(alloc) else {
        return CLOSED;
    };
    let answer = either::tick(&mut all, id, now, expired);
    table.put(alloc, all);
    answer
}

/// Shows a machine.
#[unsafe(no_mangle)]
pub extern "C" fn zumelivon_look(
    alloc: Global,
    table: &mut Handle,
    id: u64,
    machine: &mut FlatMachine,
) -> u32
    ensures looks { Seen table.old.value (λ all. Looks id result machine.old machine.new all) }
    ensures unchanged { table.new.value ≡ table.old.value }
    ensures closed { result ≡ 105 ↔ (table.old.value ≡ None) }
    ensures kept { result ≡ 105 → (machine.new ≡ machine.old) }
{
    let Some(all) = table.take(alloc) else {
        return CLOSED;
    };
    let answer = either::look(&all, id, machine);
    table.put(alloc, all);
    answer
}

/// Ends a machine for a reason.
#[unsafe(no_mangle)]
pub extern "C" fn zumelivon_stop(
    alloc: Global,
    table: &mut Handle,
    id: u64,
    reason: u32,
    word: u32,
) -> u32
    ensures does { Told table.old.value table.new.value (λ old new. StopsEither id reason word result old new) }
    ensures closed { result ≡ 105 ↔ (table.old.value ≡ None) }
{
    let Some(mut all) = table.take(alloc) else {
        return CLOSED;
    };
    let answer = either::stop(alloc, &mut all, id, reason, word);
    table.put(alloc, all);
    answer
}

/// Drops a machine.
#[unsafe(no_mangle)]
pub extern "C" fn zumelivon_remove(alloc: Global, table: &mut Handle, id: u64) -> u32
    ensures does { Told table.old.value table.new.value (λ old new. Removes id result old new) }
    ensures closed { result ≡ 105 ↔ (table.old.value ≡ None) }
{
    let Some(mut all) = table.take(alloc) else {
        return CLOSED;
    };
    let answer = either::remove(&mut all, id);
    table.put(alloc, all);
    answer
}

/// Reads a list of what the latest start or turn reported.
#[unsafe(no_mangle)]
pub extern "C" fn zumelivon_list(
    alloc: Global,
    table: &mut Handle,
    list: u32,
    index: u64,
    listed: &mut FlatListed,
) -> u32
    ensures reads { Seen table.old.value (λ all. ReadsList list index result listed.old listed.new all) }
    ensures unchanged { table.new.value ≡ table.old.value }
    ensures closed { result ≡ 105 ↔ (table.old.value ≡ None) }
    ensures kept { result ≡ 105 → (listed.new ≡ listed.old) }
{
    let Some(all) = table.take(alloc) else {
        return CLOSED;
    };
    let answer = either::list(&all, list, index, listed);
    table.put(alloc, all);
    answer
}

/// Starts a hosted machine.
#[unsafe(no_mangle)]
pub extern "C" fn zumelivon_start(
    alloc: Global,
    table: &mut Handle,
    now: u64,
    begin: &FlatBegin,
    actions: &[FlatAction],
    entered: &FlatAnswer,
    enter_actions: &[FlatAction],
    bytes: &[u8],
    id: &mut u64,
    report: &mut FlatReport,
) -> u32
    ensures does { Told table.old.value table.new.value (λ old new. StartsHosted now begin.now actions.now entered.now enter_actions.now bytes.now result id.old id.new report.old report.new old new) }
    ensures why { Seen table.old.value (λ old. WhyNoStart now begin.now actions.now entered.now enter_actions.now bytes.now result old) }
    ensures closed { result ≡ 105 ↔ (table.old.value ≡ None) }
    ensures kept { result ≡ 105 → (id.new ≡ id.old) × (report.new ≡ report.old) }
{
    let answers = Answers {
        handled: entered,
        word: begin.word,
        actions,
        entered,
        enter_actions,
        bytes,
    };
    let Some(mut all) = table.take(alloc) else {
        return CLOSED;
    };
    let answer = turning::start(alloc, &mut all, now, begin, &answers, id, report);
    table.put(alloc, all);
    answer
}

/// Posts an event to a hosted machine.
#[unsafe(no_mangle)]
pub extern "C" fn zumelivon_post(
    alloc: Global,
    table: &mut Handle,
    id: u64,
    entry: u32,
    code: u64,
    bytes: &[u8],
    number: &mut u64,
) -> u32
    ensures does { Told table.old.value table.new.value (λ old new. PostsHosted id entry (content_in code bytes.now) result number.old number.new old new) }
    ensures closed { result ≡ 105 ↔ (table.old.value ≡ None) }
    ensures kept { result ≡ 105 → (number.new ≡ number.old) }
{
    let Some(mut all) = table.take(alloc) else {
        return CLOSED;
    };
    let answer = posting::post(alloc, &mut all, id, entry, code, bytes, number);
    table.put(alloc, all);
    answer
}

/// Shows the event that the next turn of a hosted machine handles.
#[unsafe(no_mangle)]
pub extern "C" fn zumelivon_next(
    alloc: Global,
    table: &mut Handle,
    id: u64,
    event: &mut FlatEvent,
    room: &mut [u8],
) -> u32
    ensures shows { Seen table.old.value (λ all. ShowsNext id result event.old event.new room.old room.new all) }
    ensures unchanged { table.new.value ≡ table.old.value }
    ensures closed { result ≡ 105 ↔ (table.old.value ≡ None) }
    ensures kept { result ≡ 105 → (event.new ≡ event.old) × (room.new ≡ room.old) }
{
    let Some(all) = table.take(alloc) else {
        return CLOSED;
    };
    let answer = turning::next(&all, id, event, room);
    table.put(alloc, all);
    answer
}

/// Makes the turn of the event of a number of a hosted machine.
#[unsafe(no_mangle)]
pub extern "C" fn zumelivon_turn(
    alloc: Global,
    table: &mut Handle,
    id: u64,
    number: u64,
    now: u64,
    handled: &FlatAnswer,
    actions: &[FlatAction],
    entered: &FlatAnswer,
    enter_actions: &[FlatAction],
    bytes: &[u8],
    word: u32,
    report: &mut FlatReport,
) -> u32
    ensures does { Told table.old.value table.new.value (λ old new. MakesTurn id number now (record { handled = handled.now; actions = actions.now; entered = entered.now; enter_actions = enter_actions.now; bytes = bytes.now; word = word }) result report.old report.new old new) }
    ensures closed { result ≡ 105 ↔ (table.old.value ≡ None) }
    ensures kept { result ≡ 105 → (report.new ≡ report.old) }
{
    let answers = Answers {
        handled,
        word,
        actions,
        entered,
        enter_actions,
        bytes,
    };
    let Some(mut all) = table.take(alloc) else {
        return CLOSED;
    };
    let answer = turning::turn(alloc, &mut all, id, number, now, &answers, report);
    table.put(alloc, all);
    answer
}

/// Takes the reply to a call of a hosted machine out.
#[unsafe(no_mangle)]
pub extern "C" fn zumelivon_collect(
    alloc: Global,
    table: &mut Handle,
    id: u64,
    number: u64,
    content: &mut FlatContent,
    room: &mut [u8],
) -> u32
    ensures does { Told table.old.value table.new.value (λ old new. CollectsContent id number result content.old content.new room.old room.new old new) }
    ensures closed { result ≡ 105 ↔ (table.old.value ≡ None) }
    ensures kept { result ≡ 105 → (content.new ≡ content.old) × (room.new ≡ room.old) }
{
    let Some(mut all) = table.take(alloc) else {
        return CLOSED;
    };
    let answer = taking::collect(&mut all, id, number, content, room);
    table.put(alloc, all);
    answer
}

/// Answers a call of a hosted machine from outside.
#[unsafe(no_mangle)]
pub extern "C" fn zumelivon_reply(
    alloc: Global,
    table: &mut Handle,
    id: u64,
    number: u64,
    code: u64,
    bytes: &[u8],
) -> u32
    ensures does { Told table.old.value table.new.value (λ old new. Replies id number (content_in code bytes.now) result old new) }
    ensures closed { result ≡ 105 ↔ (table.old.value ≡ None) }
{
    let Some(mut all) = table.take(alloc) else {
        return CLOSED;
    };
    let answer = posting::reply(alloc, &mut all, id, number, code, bytes);
    table.put(alloc, all);
    answer
}

/// Takes the first message of a hosted machine out.
#[unsafe(no_mangle)]
pub extern "C" fn zumelivon_take_out(
    alloc: Global,
    table: &mut Handle,
    id: u64,
    message: &mut FlatMessage,
    room: &mut [u8],
) -> u32
    ensures does { Told table.old.value table.new.value (λ old new. TakesMessage id result message.old message.new room.old room.new old new) }
    ensures closed { result ≡ 105 ↔ (table.old.value ≡ None) }
    ensures kept { result ≡ 105 → (message.new ≡ message.old) × (room.new ≡ room.old) }
{
    let Some(mut all) = table.take(alloc) else {
        return CLOSED;
    };
    let answer = taking::take_out(&mut all, id, message, room);
    table.put(alloc, all);
    answer
}

/// Reads a description.
#[unsafe(no_mangle)]
pub extern "C" fn zumelivon_describe(
    alloc: Global,
    table: &mut Handle,
    text: &[u8],
    description: &mut u64,
    room: &mut [u8],
    length: &mut u64,
) -> u32
    ensures does { Told table.old.value table.new.value (λ old new. Describes result description.old description.new old new) }
    ensures closed { result ≡ 105 ↔ (table.old.value ≡ None) }
    ensures told { result ≢ 111 → (room.new ≡ room.old) × (length.new ≡ length.old) }
    ensures kept { result ≡ 105 → description.new ≡ description.old }
{
    let Some(mut all) = table.take(alloc) else {
        return CLOSED;
    };
    let answer = describing::describe(alloc, &mut all, text, description, room, length);
    table.put(alloc, all);
    answer
}

/// The number of a name of a description.
#[unsafe(no_mangle)]
pub extern "C" fn zumelivon_number_of(
    alloc: Global,
    table: &mut Handle,
    description: u64,
    kind: u32,
    name: &[u8],
    number: &mut u64,
) -> u32
    ensures why { Seen table.old.value (λ all. WhyNoName description kind result all) }
    ensures unchanged { table.new.value ≡ table.old.value }
    ensures closed { result ≡ 105 ↔ (table.old.value ≡ None) }
    ensures refused { result ≢ 0 → number.new ≡ number.old }
{
    let Some(all) = table.take(alloc) else {
        return CLOSED;
    };
    let answer = describing::number_of_name(&all, description, kind, name, number);
    table.put(alloc, all);
    answer
}

/// The name of a number of a description.
#[unsafe(no_mangle)]
pub extern "C" fn zumelivon_name_of(
    alloc: Global,
    table: &mut Handle,
    description: u64,
    kind: u32,
    number: u64,
    room: &mut [u8],
    length: &mut u64,
) -> u32
    ensures why { Seen table.old.value (λ all. WhyNoName description kind result all) }
    ensures unchanged { table.new.value ≡ table.old.value }
    ensures closed { result ≡ 105 ↔ (table.old.value ≡ None) }
    ensures refused { result ≢ 0 → room.new ≡ room.old }
    ensures length { result ≢ 0 → result ≢ 102 → length.new ≡ length.old }
{
    let Some(all) = table.take(alloc) else {
        return CLOSED;
    };
    let answer = describing::name_of_number(&all, description, kind, number, room, length);
    table.put(alloc, all);
    answer
}

/// Starts a machine of a description.
#[unsafe(no_mangle)]
pub extern "C" fn zumelivon_start_described(
    alloc: Global,
    table: &mut Handle,
    description: u64,
    now: u64,
    values: &[FlatSignal],
    bytes: &[u8],
    id: &mut u64,
    report: &mut FlatReport,
) -> u32
    ensures does { Told table.old.value table.new.value (λ old new. StartsDescribed description now values.now bytes.now result id.old id.new report.old report.new old new) }
    ensures why { Seen table.old.value (λ old. WhyNoBegin description now values.now bytes.now result old) }
    ensures closed { result ≡ 105 ↔ (table.old.value ≡ None) }
    ensures kept { result ≡ 105 → (id.new ≡ id.old) × (report.new ≡ report.old) }
{
    let Some(mut all) = table.take(alloc) else {
        return CLOSED;
    };
    let answer = described::start(alloc, &mut all, description, now, values, bytes, id, report);
    table.put(alloc, all);
    answer
}

/// Posts an event to a described machine.
#[unsafe(no_mangle)]
pub extern "C" fn zumelivon_post_signal(
    alloc: Global,
    table: &mut Handle,
    id: u64,
    entry: u32,
    signal: &FlatSignal,
    bytes: &[u8],
    number: &mut u64,
) -> u32
    ensures does { Told table.old.value table.new.value (λ old new. PostsSignal id entry signal.now bytes.now result number.old number.new old new) }
    ensures closed { result ≡ 105 ↔ (table.old.value ≡ None) }
    ensures kept { result ≡ 105 → (number.new ≡ number.old) }
{
    let Some(mut all) = table.take(alloc) else {
        return CLOSED;
    };
    let answer = described::post(alloc, &mut all, id, entry, signal, bytes, number);
    table.put(alloc, all);
    answer
}

/// Makes turns of a described machine until it is idle, but at most so many.
#[unsafe(no_mangle)]
pub extern "C" fn zumelivon_run(
    alloc: Global,
    table: &mut Handle,
    id: u64,
    now: u64,
    at_most: u64,
    turns: &mut u64,
    more: &mut u32,
) -> u32
    ensures does { Told table.old.value table.new.value (λ old new. RunsDescribed id now at_most result turns.old turns.new more.old more.new old new) }
    ensures closed { result ≡ 105 ↔ (table.old.value ≡ None) }
    ensures kept { result ≡ 105 → (turns.new ≡ turns.old) × (more.new ≡ more.old) }
{
    let Some(mut all) = table.take(alloc) else {
        return CLOSED;
    };
    let answer = described::run(&mut all, id, now, at_most, turns, more);
    table.put(alloc, all);
    answer
}

/// Takes the reply to a call of a described machine out.
#[unsafe(no_mangle)]
pub extern "C" fn zumelivon_collect_signal(
    alloc: Global,
    table: &mut Handle,
    id: u64,
    number: u64,
    signal: &mut FlatSignal,
    reason: &mut u32,
    room: &mut [u8],
) -> u32
    ensures does { Told table.old.value table.new.value (λ old new. CollectsSignal id number result signal.old signal.new reason.old reason.new room.old room.new old new) }
    ensures closed { result ≡ 105 ↔ (table.old.value ≡ None) }
    ensures kept { result ≡ 105 → (signal.new ≡ signal.old) × (reason.new ≡ reason.old) × (room.new ≡ room.old) }
{
    let Some(mut all) = table.take(alloc) else {
        return CLOSED;
    };
    let answer = described::collect(&mut all, id, number, signal, reason, room);
    table.put(alloc, all);
    answer
}

/// Takes the first message of a described machine out.
#[unsafe(no_mangle)]
pub extern "C" fn zumelivon_take_out_signal(
    alloc: Global,
    table: &mut Handle,
    id: u64,
    signal: &mut FlatSignal,
    target: &mut u64,
    number: &mut u64,
    room: &mut [u8],
) -> u32
    ensures does { Told table.old.value table.new.value (λ old new. TakesSignal id result signal.old signal.new target.old target.new number.old number.new room.old room.new old new) }
    ensures closed { result ≡ 105 ↔ (table.old.value ≡ None) }
    ensures kept { result ≡ 105 → (signal.new ≡ signal.old) × (target.new ≡ target.old) × (number.new ≡ number.old) × (room.new ≡ room.old) }
{
    let Some(mut all) = table.take(alloc) else {
        return CLOSED;
    };
    let answer = described::take_out(&mut all, id, signal, target, number, room);
    table.put(alloc, all);
    answer
}
