//! Machines whose host is the test.

mod answers;
mod connection;
mod did;
mod host;
mod hosted;
mod replies;
mod starts;
