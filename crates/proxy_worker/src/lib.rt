//! The Linux side of one process: its proxy, whose workers serve the delegated calls, and the turns at the ends of
//! pipes.
//!
//! Promises: each event of the Linux side has a file of its name, whose method of `Proxy` leaves what hybrid_model's
//! file of that name says, over the side that the proxy shows (specs/Shown) and what the method is handed: the book of
//! requests, the round, the files, the turns, the bytes of a page. Each `may_` method is the test of that name. Only
//! room calls, `reserve_..` and `make_room_for_..`, take memory; an event can't fail. Proxies, workers
//! and turns are this project's own.
#![tactic(auto)]

mod ack_clear;
mod act;
mod assign;
mod copy;
mod fetch;
mod finish;
pub mod lookups;
mod miss;
mod park;
mod pin;
pub mod proxy;
pub mod services;
mod standing;
mod steps;
pub mod turns;
mod unpark;
mod unpin;
pub mod workers;

pub use proxy::Proxy;
pub use services::Service;
pub use turns::{Turn, Turns};
pub use workers::Workers;
