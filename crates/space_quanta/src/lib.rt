//! Quanta that were computed outside a lock, and the space of their process under it.
//!
//! Promises: `page_image` tells a page of a space as it is now, for who computes quanta on it. `take` compares the
//! registers and the pages that quanta saw with those that are there, each page once, and names the first thing that
//! differs (rv_quantum's specs/Differing); where nothing does, it copies the written images into the frames, which are
//! then those to which so many instructions lead (specs/Taking). Nothing else changes.
#![tactic(auto)]

mod differing;
mod pages;
mod taking;

pub use pages::page_image;
pub use taking::take;
