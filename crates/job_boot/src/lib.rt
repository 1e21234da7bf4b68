//! What a job puts into a node at the boot, whichever kernel runs it: its files, its script, and the process and the first thread of each guest.
//!
//! Promises: each call is the word of kernel_model (specs/OneKernel) on the files or on the node's tables, guest by guest (specs/Guests). What fails for
//! want of memory leaves no guest half in.
#![tactic(auto)]

mod files;
mod guests;
mod script;

pub use files::boot_files;
pub use guests::{boot_node, put_guest, reserve_guest};
