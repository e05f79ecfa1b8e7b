//! Tables of machines.

mod described;
mod host;
mod hosted;
