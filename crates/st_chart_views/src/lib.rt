//! What is made of a machine's description: warnings, a diagram, its text, and the format as a JSON Schema. It knows
//! nothing of how machines run.
#![tactic(auto)]

mod arrows;
mod asks;
mod diagram;
mod drawing;
mod expressions;
mod flags;
mod found;
mod hidden;
mod idle;
mod keys;
mod labels;
mod machine_json;
mod nodes;
mod oddities;
mod on_json;
mod page;
mod part;
mod rule_json;
mod schema_text;
mod scope;
mod time_outs;
mod ways;
mod words;

pub use diagram::draw;
pub use drawing::Drawing;
pub use machine_json::to_json;
pub use oddities::warnings;
pub use schema_text::schema;
pub use st_chart::{Chart, Fault, PlainList};
