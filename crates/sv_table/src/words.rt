//! Entries: words of 64 bits.
ghost use Rattle.std.specs.Prelude.{◌≡◌, ◌<◌, ◌^◌, Some};
ghost use Rattle.sv_table.specs.Trees.{IsEntry};
ghost use Rattle.sv_table.specs.Words.{entry_of_node, entry_of_page, is_present, node_in, page_in};

use mck_flags::Rights;
use mck_word::Frame;

/// Whether a word is a present entry.
pub fn is_there(word: u64) -> bool
    ensures { result ≡ is_present word }
{
    word % 2 == 1
}

/// The entry of a page: bit 0, the rights from bit 1 on, the frame from bit 10 on.
pub fn page_entry(f: Frame, r: Rights) -> u64
    ensures value { result ≡ entry_of_page f r }
    ensures entry { IsEntry result }
    ensures row { page_in result ≡ Some (f, r) }
{
    1 + 2 * r.0 as u64 + 1024 * f.0 as u64
}

/// What an entry of the last level says of its page.
#[tactic(auto, unfolding(crate::specs::Words::page_in))]
pub fn page_of(word: u64) -> Option<(Frame, Rights)>
    requires { IsEntry word }
    ensures { result ≡ page_in word }
{
    if is_there(word) {
        Some((Frame((word / 1024) as u32), Rights((word / 2 % 256) as u8)))
    } else {
        None
    }
}

/// The entry of the node with the key.
pub fn node_entry(key: usize) -> u64
    requires { key < 2 ^ 32 }
    ensures { result ≡ entry_of_node key }
{
    1 + 1024 * key as u64
}

/// The key in an entry of the levels above.
#[tactic(auto, unfolding(crate::specs::Words::node_in))]
pub fn key_of(word: u64) -> Option<usize>
    ensures { result ≡ node_in word }
{
    if is_there(word) {
        Some((word / 1024) as usize)
    } else {
        None
    }
}
