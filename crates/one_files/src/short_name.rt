// The name of a node in its directory.
ghost use Rattle.std.specs.Prelude.{◌≡◌, ◌≤◌, length};

use arrayvec::ArrayVec;
use std::marker::Model;

/// A name of at most 255 bytes, seen as its bytes. It is kept in place.
#[derive(Drop)]
pub struct ShortName {
    bytes: ArrayVec<u8, 255>,
}

impl Model for ShortName {
    ghost use Rattle.std.specs.Prelude.{List, ℕ};

    ghost Value = { List ℕ };

    ghost view = { λ n. n.bytes.items };
}

impl ShortName {
    /// The name of these bytes.
    pub fn new(bytes: &[u8]) -> ShortName
        requires { length bytes.now ≤ 255 }
        ensures { result ≡ bytes.now }
    {
        let mut name = ArrayVec::new();
        let _ = name.try_extend_from_slice(bytes);
        ShortName { bytes: name }
    }

    /// Its bytes.
    pub fn as_slice(&self) -> &[u8]
        ensures { result.now ≡ self.now }
    {
        self.bytes.as_slice()
    }
}
