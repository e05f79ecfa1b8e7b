//! Tables that machines run.

mod building;
mod clerk;
mod did;
mod door;
mod greets;
mod host;
mod machine;
mod modules;
mod opens;
