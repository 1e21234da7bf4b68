//! What stands outside of the program on a real system: the files of the working directory as a host, and standard output as a sink.
//!
//! Promises: both are devices as crate `outside` asks, which tell none of their bytes. The count of faults rises by one exactly where a
//! fetch or a put fails, so want of memory is no fault. What a put takes is handed to the system at once, so nothing is left to be
//! flushed. The definitions stand in outside (Outside, Devices).
#![tactic(auto)]

mod file_host;
mod std_sink;

pub use file_host::FsHost;
pub use std_sink::StdSink;
