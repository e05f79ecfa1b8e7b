//! What cells and machines answer to calls, with memory and while an allocation is refused, what threads see, and what
//! journals are when they are replayed.

mod asked;
mod begun;
mod by_rows;
mod celled;
mod compared;
mod did;
mod ended;
mod entries;
mod first;
mod host;
mod inside;
mod kept;
mod machines;
mod memory;
mod messages;
mod past;
mod plain;
mod played;
mod posting;
mod reading;
mod relay;
mod replays;
mod row;
mod seen;
mod shared;
mod sharing;
mod shows;
mod taken;
mod threads;
mod traced;
mod twin;
mod way;
mod whole;
