//! Quanta of user instructions on page images, outside any lock.
//!
//! Promises: quanta of one thread, one after another on the images of the pages that they touched, come to the
//! registers, the stop and the bytes that so many instructions come to over every memory that has those pages.
//! specs/Images has the words on images, specs/Promised the promise; `quanta_lead` says that it holds of all `Quanta`.
//! specs/Told has the words on quanta, specs/Differing which is the first thing that isn't as they saw it.
#![tactic(auto)]

mod batch;
mod differs;
mod image;
mod images;
mod lent;
mod quanta;

// A crate can name quanta in a contract only if the types of their fields are exported.
#[doc(hidden)]
pub use batch::Batch;
pub use differs::Differs;
pub use image::{Image, Pages};
#[doc(hidden)]
pub use images::Images;
pub use quanta::{Quanta, all_but_the_last_go_on, quanta_lead};
