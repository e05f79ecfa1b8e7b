//! The JSON of what turns did.
ghost use Rattle.std.specs.Prelude.{◌≡◌, IfOk};
ghost use Rattle.serde_json.specs.View.{view, members_view};
ghost use Rattle.st_answers.specs.declared.call.Call.TheVariants.{Handle, Enter, Terminate};
ghost use Rattle.st_json.specs.Reports.{call_data, done_data, report_data, last_members, turned_data};

use crate::forms::{StateIn, named, named_pair, with, wrapped};
use crate::writer::{Writer, Written};
use serde_json::{Map, Value};
use st_core::{Call, Done, Kind, Reason, Report, Turned};
use st_trace::StateNames;
use std::alloc::AllocError;

/// The JSON of a call of `handle`.
fn handle<S: Copy, N: StateNames<S>, J>(
    by: &Writer<'_, N, J>,
    number: u64,
    kind: Kind,
    state: S,
) -> Result<Value, AllocError>
    ensures { IfOk result (λ value. view value ≡ call_data (N.name_is by.now.names.now) (Handle number kind state)) }
{
    let members = with(by, Map::new(by.alloc), "state", &StateIn { state })?;
    let members = with(by, members, "number", &number)?;
    let members = with(by, members, "kind", &kind)?;
    wrapped(by, "Handle", Value::Object(members))
}

/// The JSON of a call of `enter`.
fn enter<S: Copy, N: StateNames<S>, J>(
    by: &Writer<'_, N, J>,
    old: S,
    state: S,
) -> Result<Value, AllocError>
    ensures { IfOk result (λ value. view value ≡ call_data (N.name_is by.now.names.now) (Enter old state)) }
{
    let members = with(by, Map::new(by.alloc), "state", &StateIn { state })?;
    let members = with(by, members, "old", &StateIn { state: old })?;
    wrapped(by, "Enter", Value::Object(members))
}

/// The JSON of a call of `terminate`.
fn terminate<S: Copy, N: StateNames<S>, J>(
    by: &Writer<'_, N, J>,
    reason: Reason,
    state: S,
    word: u32,
) -> Result<Value, AllocError>
    ensures { IfOk result (λ value. view value ≡ call_data (N.name_is by.now.names.now) (Terminate reason state word)) }
{
    let members = with(by, Map::new(by.alloc), "word", &word)?;
    let members = with(by, members, "state", &StateIn { state })?;
    let members = with(by, members, "reason", &reason)?;
    wrapped(by, "Terminate", Value::Object(members))
}

impl<S: Copy, N: StateNames<S>, J> Written<N, J> for Call<S> {
    ghost data_is = { λ names contents call. call_data (N.name_is names) call };

    fn written(&self, by: &Writer<'_, N, J>) -> Result<Value, AllocError> {
        match self {
            Call::Handle {
                number,
                kind,
                state,
            } => handle(by, *number, *kind, *state),
            Call::Enter { old, state } => enter(by, *old, *state),
            Call::Terminate {
                reason,
                state,
                word,
            } => terminate(by, *reason, *state, *word),
        }
    }
}

impl<N, J> Written<N, J> for Done {
    ghost data_is = { λ names contents done. done_data done };

    fn written(&self, by: &Writer<'_, N, J>) -> Result<Value, AllocError> {
        match self {
            Done::Started => Value::try_from_str(by.alloc, "Started"),
            Done::Finished => Value::try_from_str(by.alloc, "Finished"),
            Done::PutOff => Value::try_from_str(by.alloc, "PutOff"),
            Done::Ended(reason, word) => named_pair(by, "Ended", reason, word),
        }
    }
}

/// The last members of a report.
fn last_members<S, N, J>(
    by: &Writer<'_, N, J>,
    report: &Report<S>,
) -> Result<Map<String, Value>, AllocError>
    ensures { IfOk result (λ members. members_view members.entries ≡ last_members report.now) }
{
    let members = with(by, Map::new(by.alloc), "set", &report.set)?;
    let members = with(by, members, "sent", &report.sent)?;
    let members = with(by, members, "replied", &report.replied)?;
    let members = with(by, members, "inserted", &report.inserted)?;
    Ok(members)
}

impl<S: Copy, N: StateNames<S>, J> Written<N, J> for Report<S> {
    ghost data_is = { λ names contents report. report_data (N.name_is names) report };

    fn written(&self, by: &Writer<'_, N, J>) -> Result<Value, AllocError> {
        let members = last_members(by, self)?;
        let members = with(by, members, "event", &self.event)?;
        let members = with(by, members, "done", &self.done)?;
        let members = with(by, members, "calls", &self.calls)?;
        let members = with(by, members, "before", &StateIn { state: self.before })?;
        let members = with(by, members, "after", &StateIn { state: self.after })?;
        Ok(Value::Object(members))
    }
}

impl<S: Copy, N: StateNames<S>, J> Written<N, J> for Turned<S> {
    ghost data_is = { λ names contents turned. turned_data (N.name_is names) turned };

    fn written(&self, by: &Writer<'_, N, J>) -> Result<Value, AllocError> {
        match self {
            Turned::Reported(report) => named(by, "Reported", report),
            Turned::Idle => Value::try_from_str(by.alloc, "Idle"),
        }
    }
}
