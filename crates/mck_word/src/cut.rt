// The parts of a range of addresses, page by page.
ghost use Rattle.std.specs.Prelude.{◌+◌, ◌<◌, ◌^◌};
ghost use Rattle.std.specs.Iterator.{YieldsFirst, item_count};
ghost use Rattle.mck_word.specs.Pieces.{ArePieces};

use crate::parts::Piece;
use std::marker::Model;

/// The pieces of a range that are left, seen as their list.
#[derive(Drop)]
pub struct Pieces {
    at: u64,
    left: u64,
}

impl Model for Pieces {
    ghost use Rattle.std.specs.Prelude.{List, ◌+◌, ◌<◌, ◌^◌};
    ghost use Rattle.mck_word.specs.declared.parts.Piece.{Piece};

    ghost Value = { List Piece };

    ghost use Rattle.mck_word.specs.Pieces.{pieces_of};

    ghost view = { λ s. pieces_of s.at s.left };

    ghost invariant = { λ s. s.at + s.left < 2 ^ 64 };
}

impl Pieces {
    /// The pieces of the range of `len` bytes from `addr` on.
    pub fn over(addr: u64, len: u64) -> Self
        requires { addr + len < 2 ^ 64 }
        ensures { ArePieces addr len result }
    {
        Pieces {
            at: addr,
            left: len,
        }
    }
}

impl Iterator for Pieces {
    type Item = Piece;

    ghost next_gives = { YieldsFirst (λ s. s) };

    ghost remaining = { item_count (λ s. s) };

    fn next(&mut self) -> Option<Piece> {
        if self.left == 0 {
            return None;
        }
        let off = self.at % 4096;
        let len = self.left.min(4096 - off);
        let piece = Piece {
            page: self.at / 4096,
            off: off as u32,
            len: len as u32,
        };
        self.at += len;
        self.left -= len;
        Some(piece)
    }
}
