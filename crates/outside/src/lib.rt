//! What stands outside of the program: a host with named bytes, and a sink for text.
//!
//! Promises: the traits say when a call may fail (only where a count of faults rose) and what a call leaves; `put_all` puts a whole
//! text or a front of it. The devices in memory fail exactly where asked. The definitions stand in specs/Outside (the traits) and
//! specs/Devices (the devices in memory).
#![tactic(auto)]

mod host;
mod put;
mod sink;

pub use host::{Fetch, Host, MemHost, Named, SureHost};
pub use put::put_all;
pub use sink::{Failed, MemSink, Sink, SureSink};
