//! What pools answer to steps, with memory and while an allocation is refused.

mod balance;
mod ended;
mod host;
mod memory;
mod messages;
mod opened;
mod plain;
mod played;
mod pooled;
mod refusals;
mod serving;
mod shown;
mod shows;
mod told;
mod whole;
