//! How a clerk is told an order.

/// How a clerk is told an order.
#[derive(Clone, Copy)]
pub enum Way {
    /// By a cast.
    Cast,
    /// By a message.
    Info,
    /// By a call, which waits for what he replies.
    Call,
    /// By a request, whose reply may be asked for. Nobody asks.
    Request,
}
