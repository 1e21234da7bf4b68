// The vectors of a call.
ghost use Rattle.std.specs.Prelude.{◌≡◌, ◌≤◌, ◌<◌, ◌+◌, ◌^◌, ◌++◌, IsTrue, length, take, drop};
ghost use Rattle.std.specs.Bool.{OnFalse};
ghost use Rattle.std.specs.List.{list_all, list_any};
ghost use Rattle.call_phases.specs.Ranges.{is_full, is_too_long};
ghost use Rattle.kernel_model.specs.Progress.{cut_ranges, vectors, without_empty};
ghost use Rattle.mck_word.specs.Words.{number_of};

use arrayvec::ArrayVec;
use kernel_model::Range;

/// The number that stands in at most 8 bytes, the lowest first.
fn number(bytes: &[u8]) -> u64
    requires { length bytes.now ≤ 8 }
    ensures is { result ≡ number_of bytes.now }
    ensures bound { result < 256 ^ length bytes.now }
{
    match bytes.split_first() {
        None => 0,
        Some((low, rest)) => u64::from(*low) + 256 * number(rest),
    }
}

/// At most `n` bytes from the front.
fn front(bytes: &[u8], n: usize) -> &[u8]
    ensures { result.now ≡ take n bytes.now }
{
    bytes.split_at(bytes.len().min(n)).0
}

/// The bytes behind the first `n`.
fn behind(bytes: &[u8], n: usize) -> &[u8]
    ensures { result.now ≡ drop n bytes.now }
{
    bytes.split_at(bytes.len().min(n)).1
}

/// The first vector: an address and a length, of 8 bytes each. What is missing is zero.
fn first_vector(bytes: &[u8]) -> Range
    ensures { result ≡ record { address = number_of (take 8 bytes.now); len = number_of (take 8 (drop 8 bytes.now)) } }
{
    Range {
        address: number(front(bytes, 8)),
        len: number(front(behind(bytes, 8), 8)),
    }
}

/// Adds the ranges of the vectors, cut to `left` bytes in all; answers whether a length is above 2^63 - 1.
pub fn add_vectors(count: u32, bytes: &[u8], left: u64, ranges: &mut ArrayVec<Range, 16>) -> bool
    requires { length ranges.old.items + count ≤ 16 }
    ensures long { result ≡ list_any is_too_long (vectors count bytes.now) }
    ensures full { IsTrue (list_all is_full ranges.old.items) → IsTrue (list_all is_full ranges.new.items) }
    ensures items { OnFalse result (ranges.new.items ≡ ranges.old.items ++ without_empty (cut_ranges left (vectors count bytes.now))) }
{
    if count == 0 {
        return false;
    }
    let vector = first_vector(bytes);
    if vector.len >= 1 << 63 {
        return true;
    }
    let len = vector.len.min(left);
    if len > 0 {
        ranges.push(Range {
            address: vector.address,
            len,
        });
    }
    add_vectors(count - 1, behind(bytes, 16), left - len, ranges)
}
