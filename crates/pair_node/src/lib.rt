//! The two kernels of a node in a state that they reach.
//!
//! Promises: a `Pair` is in a state that is coherent, lasts and is small (node_machine, Reached), and tells whether an
//! event may happen in it (hybrid_model, Events), what each actor offers (node_machine, Offers) and what a report says
//! of it (run_summary, Summaries). Where room was made for an event, it happens, and can't fail: the state
//! after it is the definition's. The step of the one-kernel machine that an event stands for is told too
//! (hybrid_model, Images). Its live threads are listed by core and by process (specs/Listed), so that an actor's own
//! threads are found without a look at others. An actor that is asked finds its process once, and each thread of it
//! once.
#![tactic(auto)]

mod asked;
mod booting;
mod core_offers;
mod events;
mod kernel_offers;
mod linux_offers;
mod machine;
mod members;
mod offers;
mod pair;
mod room;
mod steps;
mod summary;

pub use pair::Pair;
