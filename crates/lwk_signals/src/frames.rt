// The frame that a handler returns by: pc, x1 to x31, the mask and eight zero bytes, each word with its lowest byte first.
ghost use Rattle.std.specs.Prelude.{◌≡◌, ◌*◌, drop, flat_map, length};
ghost use Rattle.kernel_model.specs.Signals.{frame_bytes, frame_size, mask_in, restored, words_in};
ghost use Rattle.mck_word.specs.Words.{little_endian, number_of};

use crate::sets::as_mask;
use byteorder::{ByteOrder, LittleEndian};
use mck_flags::SigSet;
use mck_word::Regs;

/// How many bytes a frame has.
pub const FRAME_SIZE: usize = 272;

/// Writes a word.
pub(crate) fn put_word(into: &mut [u8], word: u64)
    requires { length into.old ≡ 8 }
    ensures { into.new ≡ little_endian 8 word }
{
    LittleEndian::write_u64(into, word);
}

fn put_words(into: &mut [u8], words: &[u64])
    requires { length into.old ≡ 8 * length words.now }
    ensures { into.new ≡ flat_map (little_endian 8) words.now }
{
    LittleEndian::write_u64_into(words, into);
}

/// Writes the registers from x1 on.
fn put_registers(into: &mut [u8], x: &[u64])
    requires all { length x.now ≡ 32 }
    requires room { length into.old ≡ 248 }
    ensures { into.new ≡ flat_map (little_endian 8) (drop 1 x.now) }
{
    put_words(into, &x[1..]);
}

/// Writes the frame of a thread with these registers and this mask.
pub fn push_frame(r: &Regs, mask: SigSet, into: &mut [u8])
    requires { length into.old ≡ frame_size }
    ensures { into.new ≡ frame_bytes r.now mask.0 }
{
    let (pc, rest) = into.split_at_mut(8);
    let (registers, rest) = rest.split_at_mut(248);
    let (set, zeros) = rest.split_at_mut(8);
    put_word(pc, r.pc);
    put_registers(registers, &r.x);
    put_word(set, mask.0);
    put_word(zeros, 0);
}

/// The word that the bytes hold.
pub(crate) fn word_in(from: &[u8]) -> u64
    requires { length from.now ≡ 8 }
    ensures { result ≡ number_of from.now }
{
    LittleEndian::read_u64(from)
}

fn get_words(from: &[u8], into: &mut [u64])
    requires { length from.now ≡ 8 * length into.old }
    ensures { into.new ≡ words_in (length into.old) from.now }
{
    LittleEndian::read_u64_into(from, into);
}

/// The registers and the mask that a frame gives back.
pub fn pop_frame(from: &[u8]) -> (Regs, SigSet)
    requires { length from.now ≡ frame_size }
    ensures registers { result.0 ≡ restored from.now }
    ensures mask { result.1.0 ≡ mask_in from.now }
{
    let pc = word_in(&from[..8]);
    let mut x = [0; 32];
    get_words(&from[8..256], &mut x[1..]);
    let mask = as_mask(SigSet(word_in(&from[256..264])));
    (Regs { pc, x }, mask)
}
