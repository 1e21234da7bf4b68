// What a store of files offers to those who go through all of it.
ghost use Rattle.file_model.specs.Files.{node_of};
ghost use Rattle.mck_word.specs.Maps.{keys};
ghost use Rattle.std.specs.Option.{option_copied};
ghost use Rattle.std.specs.Prelude.{◌≡◌, ◌<◌, ◌-◌, ◌^◌, IfSome, option_map, slice_get};

use crate::store::FileStore;
use mck_word::Pid;

/// A store whose nodes and consoles can be gone through, in the order of their numbers.
pub trait Listing: FileStore {
    /// The number of the node at a place among all nodes, from 0 on: None exactly past the last.
    fn node_at(&self, place: u64) -> Option<u64>
        ensures { result ≡ slice_get (keys (Self.files self.now).nodes) place };

    /// The name of a node: None where it has none.
    fn name(&self, node: u64) -> Option<&[u8]>
        ensures { option_copied result ≡ (node_of (Self.files self.now) node).name };

    /// The guest of the console at a place among all consoles, from 0 on: None exactly past the last.
    fn console_at(&self, place: u64) -> Option<Pid>
        ensures guest { option_map (λ p. p.0) result ≡ slice_get (keys (Self.files self.now).consoles) place }
        ensures few { IfSome result (λ _. place < 2 ^ 64 - 1) };
}
