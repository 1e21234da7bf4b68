//! How far a delegated call has come, and its steps over any store of files.
//!
//! Promises: the tests and steps of `Progress` are the words of the same names in kernel_model's specs/Progress:
//! `next_kind`, `next_piece`, `needed_access`, `move_piece`, `take_file_step`, `interrupted_answer`, `fault_answer`,
//! and `give_back` for `given_back`; `of_call` begins a call with its phases. Only `make_room_for_piece` and
//! `make_room_for_step` take memory, and they change nothing that those words speak of: after them the piece or the
//! step can't fail. What contracts see of a `Progress` is in specs/Kept, the room that a piece and a
//! step need in specs/Streams.
#![tactic(auto)]

pub mod acts;
pub mod ends;
pub mod moves;
pub mod pieces;
pub mod progress;
pub mod rooms;
pub mod steps;
pub mod streams;

pub use progress::Progress;
