//! The callback module of a table.
ghost use Rattle.std.specs.Prelude.{◌≡◌, IfOk};
ghost use Rattle.std.proofs.Common.{rules};
ghost use Rattle.st_table.specs.Lent.{hears};
ghost use Rattle.st_table.specs.Calls.{init_of, handle_of, enter_of, terminate_of, ending};

use crate::at_hand::AtHand;
use crate::beginning::{Begun, init_of};
use crate::entering::{Entered, enter_of};
use crate::expression::short_number_of;
use crate::handling::{Handled, handle_of};
use crate::seen::Seen;
use crate::signal::copied;
use crate::value::all_copied;
use crate::{Place, Signal, Table, Value};
use st_events::{Kind, Module, PlainList, Reason};
use std::alloc::{AllocError, Global};
use std::sync::Arc;

/// The callback module that does what a table says. Machines of one table share it; the data of each are its registers.
///
/// `init` takes the first rule of the start whose guard holds, and begins with the table's first registers; what the start
/// was given is read by `Operand::Before`. `handle` takes the first rule that fits, of the state's and then of those of any
/// state; where none fits, nothing happens. `enter` takes the state's first entry whose guard holds, if there is one.
/// `terminate` answers the table's last word.
///
/// Any table will do, also one that no reader of files has looked at: each call ends, and answers its definition. Or it
/// finds no memory, for new registers, for a copy of a text, or for more than four actions, and says so.
///
/// Manual: Callback Functions, in the callback mode `handle_event_function`, with `state_enter()` where the table says so.
#[derive(Drop)]
pub struct Interpreter {
    /// The table.
    pub table: Arc<Table>,
}

/// What is at hand at the end.
fn ending(reason: Reason) -> AtHand<'static>
    ensures { hears result ≡ ending reason }
{
    AtHand {
        tag: None,
        argument: Seen::Number(u64::from(reason)),
    }
}

/// The last word.
fn terminate_of(table: &Table, reason: Reason, registers: &[Value]) -> u32
    ensures { result ≡ terminate_of table.now reason registers.now }
{
    short_number_of(&table.last, ending(reason), registers, registers)
}

impl Module for Interpreter {
    type State = Place;

    type Data = PlainList<Value>;

    type Content = Signal;

    type Arg = PlainList<Value>;

    ghost init_is = { λ it given. init_of it.table.value given };

    ghost handle_is = { λ it kind signal state registers. handle_of it.table.value kind signal state registers };

    ghost enters_is = { λ it. it.table.value.enters };

    ghost enter_is = { λ it old state registers. enter_of it.table.value old state registers };

    ghost terminate_is = { λ it reason state registers. terminate_of it.table.value reason registers };

    fn init(&self, alloc: Global, given: &PlainList<Value>) -> Result<Begun, AllocError> {
        init_of(alloc, &self.table, given.as_slice())
    }

    fn handle(
        &self,
        alloc: Global,
        kind: Kind,
        content: &Signal,
        state: Place,
        data: &PlainList<Value>,
    ) -> Result<Handled, AllocError> {
        handle_of(alloc, &self.table, kind, content, state, data.as_slice())
    }

    fn enters(&self) -> bool {
        self.table.enters
    }

    fn enter(
        &self,
        alloc: Global,
        old: Place,
        state: Place,
        data: &PlainList<Value>,
    ) -> Result<Entered, AllocError> {
        enter_of(alloc, &self.table, old, state, data.as_slice())
    }

    fn terminate(&self, reason: Reason, _state: Place, data: &PlainList<Value>) -> u32 {
        terminate_of(&self.table, reason, data.as_slice())
    }

    fn copy_content(&self, alloc: Global, content: &Signal) -> Result<Signal, AllocError> {
        copied(alloc, content)
    }

    fn copy_data(
        &self,
        alloc: Global,
        data: &PlainList<Value>,
    ) -> Result<PlainList<Value>, AllocError> {
        all_copied(alloc, data.as_slice())
    }

    ghost lawful = { Prim.search rules };
}
