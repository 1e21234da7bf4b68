//! Assembler texts: words of a text, the text of words, and small images and jobs made of them.
//!
//! Promises: `assemble` answers the words of a text or the number of its first broken line; `listing` writes a text that assembles to
//! the same words; `small_image` and `grow_job` are their definitions. Reading is linear in the text but for the look-up of labels,
//! which stand in a map. The definitions stand in specs/: Names and Numbers (the words of a line), Lines (one line), Assembly (the
//! whole text), Listing, Images, Growing; Labels says what the map of labels shows.
#![tactic(auto)]

mod assembling;
mod fault;
mod growing;
mod images;
mod labels;
mod layout;
mod lines;
mod listing_text;
mod marks;
mod names;
mod numbers;

pub use assembling::{Words, assemble};
pub use fault::AsmError;
pub use growing::{Images, grow_job};
pub use images::small_image;
pub use labels::Labels;
pub use layout::Layout;
pub use listing_text::listing;
pub use marks::Mark;
pub use numbers::Number;
