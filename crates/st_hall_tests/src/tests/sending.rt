//! How a client posts an event.

/// How a client posts an event: by which of its calls.
#[derive(Clone, Copy)]
pub enum Sending {
    Cast,
    Info,
    Request,
    Call,
}
