//! The file calls over any store of files: the acts, the pieces of streams, and the file steps.
//!
//! Promises: over a store that keeps the contracts of `store::FileStore`, `steps::ready` and `steps::file_step` are the words of
//! the same names in file_model's specs/FileSteps, for every operation, process and state of the files. So are the parts:
//! - each act (`open`, `tree`, `descriptors`, `given`) is the word of its name in file_model's specs/Acts: each errno comes exactly
//!   where its check is the first that fails, and after a refusal all is as before;
//! - where a path leads (`names`, `start`, `walk`) is the word of specs/Paths;
//! - how a piece of a stream stands, what it moves and where the offset is after it (`streams`, `get`, `put`) are those of
//!   specs/Streams.
//!
//! Nothing here takes memory: `FileStore::make_room` makes the room of an operation before, which is `HasRoom` of specs/Pieces, and
//! then the step cannot fail. What an operation asks of the buffer for its bytes is `Allows` of specs/FileSteps, what it gives
//! `IsStep`: the answer, the bytes at the buffer's front, the files.
//!
//! The act of a reading or writing call asks for `FewCalls` (specs/FileSteps): a description counts the calls that hold it in 32
//! bits, and one more has to fit. A call holds at most one description and a thread has at most one call, so a caller knows it from
//! the number of its threads: fewer than 2^32 - 1 are enough.
//!
//! What a report reads of a store beside the questions of the calls, its nodes and consoles in order, is asked by `listing::Listing`.
#![tactic(auto)]

pub mod descriptors;
pub mod entries;
pub mod errno;
pub mod get;
pub mod given;
pub mod listing;
pub mod names;
pub mod open;
pub mod put;
pub mod records;
pub mod start;
pub mod steps;
pub mod store;
pub mod streams;
pub mod tree;
pub mod walk;
