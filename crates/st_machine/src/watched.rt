//! A table's callback module that is watched.
ghost use Rattle.std.proofs.Common.{rules};
ghost use Rattle.st_table.specs.Calls.{init_of, handle_of, enter_of, terminate_of};

use st_events::{EnterOutcome, Init, Kind, Module, Outcome, PlainList, Reason};
use st_table::{Interpreter, Place, Signal, Value};
use std::alloc::{AllocError, Global};
use std::cell::Cell;

/// The callback module of a table, which notes what it was handed last.
#[derive(Drop)]
pub(crate) struct Watched {
    pub(crate) interpreter: Interpreter,
    /// A copy of the content that `handle` was given last.
    pub(crate) heard: Cell<Option<Signal>>,
}

impl Module for Watched {
    type State = Place;

    type Data = PlainList<Value>;

    type Content = Signal;

    type Arg = PlainList<Value>;

    ghost init_is = { λ it given. init_of it.interpreter.table.value given };

    ghost handle_is = { λ it kind signal state registers. handle_of it.interpreter.table.value kind signal state registers };

    ghost enters_is = { λ it. it.interpreter.table.value.enters };

    ghost enter_is = { λ it old state registers. enter_of it.interpreter.table.value old state registers };

    ghost terminate_is = { λ it reason state registers. terminate_of it.interpreter.table.value reason registers };

    fn init(
        &self,
        alloc: Global,
        given: &PlainList<Value>,
    ) -> Result<Init<Place, PlainList<Value>, Signal>, AllocError> {
        self.interpreter.init(alloc, given)
    }

    fn handle(
        &self,
        alloc: Global,
        kind: Kind,
        content: &Signal,
        state: Place,
        data: &PlainList<Value>,
    ) -> Result<Outcome<Place, PlainList<Value>, Signal>, AllocError> {
        let heard = self.interpreter.copy_content(alloc, content)?;
        self.heard.set(Some(heard));
        self.interpreter.handle(alloc, kind, content, state, data)
    }

    fn enters(&self) -> bool {
        self.interpreter.enters()
    }

    fn enter(
        &self,
        alloc: Global,
        old: Place,
        state: Place,
        data: &PlainList<Value>,
    ) -> Result<EnterOutcome<PlainList<Value>, Signal>, AllocError> {
        self.interpreter.enter(alloc, old, state, data)
    }

    fn terminate(&self, reason: Reason, state: Place, data: &PlainList<Value>) -> u32 {
        self.interpreter.terminate(reason, state, data)
    }

    fn copy_content(&self, alloc: Global, content: &Signal) -> Result<Signal, AllocError> {
        self.interpreter.copy_content(alloc, content)
    }

    fn copy_data(
        &self,
        alloc: Global,
        data: &PlainList<Value>,
    ) -> Result<PlainList<Value>, AllocError> {
        self.interpreter.copy_data(alloc, data)
    }

    ghost lawful = { Prim.search rules };
}
