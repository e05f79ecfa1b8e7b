//! Signals as JSON.
ghost use Rattle.std.specs.Prelude.{◌≡◌, IfOk};
ghost use Rattle.serde_json.specs.View.{view};
ghost use Rattle.st_json.specs.Events.{id_data, tag_data};
ghost use Rattle.st_machine.specs.Contents.{value_data, signal_data};

use crate::texts::Texts;
use serde_json::json;
use st_events::{MachineId, Tag};
use st_json::{ContentJson, Value as Json};
use st_table::{Signal, Value};
use std::alloc::{AllocError, Global};

/// An id.
fn id_json(alloc: Global, id: MachineId) -> Result<Json, AllocError>
    ensures { IfOk result (λ json. view json ≡ id_data id) }
{
    let MachineId { slot, serial } = id;
    json!(in alloc; {"slot": slot, "serial": serial})
}

/// A tag.
fn tag_json(alloc: Global, tag: Tag) -> Result<Json, AllocError>
    ensures { IfOk result (λ json. view json ≡ tag_data tag) }
{
    let machine = id_json(alloc, tag.machine)?;
    let request = tag.request;
    json!(in alloc; {"machine": machine, "request": request})
}

/// An argument.
pub(crate) fn value_json(alloc: Global, value: &Value) -> Result<Json, AllocError>
    ensures { IfOk result (λ json. view json ≡ value_data value.now) }
{
    match value {
        Value::Nothing => Ok(Json::Null),
        Value::Number(number) => Ok(Json::from(*number)),
        Value::Call(tag) => {
            let tag = tag_json(alloc, *tag)?;
            json!(in alloc; {"Call": tag})
        }
        Value::Machine(id) => {
            let id = id_json(alloc, *id)?;
            json!(in alloc; {"Machine": id})
        }
        Value::Text(text) => Json::try_from_str(alloc, text.as_str()),
    }
}

/// Signals are written with these names of symbols.
#[derive(Drop)]
pub(crate) struct Contents {
    pub(crate) symbols: Texts,
}

impl ContentJson<Signal> for Contents {
    ghost json_is = { λ it signal. signal_data it.symbols.texts signal };

    fn json(&self, alloc: Global, signal: &Signal) -> Result<Json, AllocError> {
        let argument = value_json(alloc, &signal.argument)?;
        let symbol = Json::try_from_str(alloc, self.symbols.at(signal.symbol))?;
        json!(in alloc; {"argument": argument, "symbol": symbol})
    }
}
