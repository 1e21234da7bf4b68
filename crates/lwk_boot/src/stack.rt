// The top of a guest's stack at the start, and its registers.
ghost use Rattle.frame_mem.specs.Pages.{written};
ghost use Rattle.kernel_model.specs.Layout.{addresses_from, guest_regs, stack_pointer, strings, strings_address};
ghost use Rattle.lwk_boot.specs.Guests.{AreArguments};
ghost use Rattle.lwk_boot.specs.Top.{auxiliary_words, top_page};
ghost use Rattle.mck_word.specs.Words.{little_endian};
ghost use Rattle.std.specs.Prelude.{◌≡◌, ◌≤◌, ◌+◌, ◌*◌, ◌^◌, ◌<◌, flat_map, length};

use byteorder::{ByteOrder, LittleEndian};
use job_model::Image;
use mck_word::{Bytes, Regs};

/// The address of the 16 bytes 0 to 15 that stand for random ones. The strings end there.
const AUXILIARY: u64 = 0x3f_ffff_eff0;

/// The first address of the stack's last page.
pub const TOP_ADDRESS: u64 = 0x3f_ffff_e000;

/// Writes bytes into a page.
fn put(page: &mut [u8], at: usize, bytes: &[u8])
    requires { at + length bytes.now ≤ length page.old }
    ensures { page.new ≡ written page.old at bytes.now }
{
    page[at..at + bytes.len()].copy_from_slice(bytes);
}

/// Writes the strings one behind the other, each with a zero byte behind it.
fn put_strings(page: &mut [u8], place: usize, arguments: &[Bytes])
    requires { place + length (strings arguments.now) ≤ length page.old }
    ensures { page.new ≡ written page.old place (strings arguments.now) }
{
    let mut at = place;
    for argument in arguments {
        put(page, at, argument.as_slice());
        at += argument.len();
        put(page, at, &[0]);
        at += 1;
    }
}

/// Writes a word with its lowest byte first.
fn put_word(page: &mut [u8], at: usize, word: u64)
    requires { at + 8 ≤ length page.old }
    ensures { page.new ≡ written page.old at (little_endian 8 word) }
{
    let mut bytes = [0; 8];
    LittleEndian::write_u64(&mut bytes, word);
    put(page, at, &bytes);
}

/// Writes words one behind the other.
fn put_words(page: &mut [u8], place: usize, words: &[u64])
    requires { place + 8 * length words.now ≤ length page.old }
    ensures { page.new ≡ written page.old place (flat_map (little_endian 8) words.now) }
{
    let mut at = place;
    for word in words {
        put_word(page, at, *word);
        at += 8;
    }
}

/// Writes the addresses of the strings, of which the first stands at `first`.
fn put_addresses(page: &mut [u8], place: usize, first: u64, arguments: &[Bytes])
    requires room { place + 8 * length arguments.now ≤ length page.old }
    requires fits { first + length (strings arguments.now) < 2 ^ 63 }
    ensures { page.new ≡ written page.old place (flat_map (little_endian 8) (addresses_from first arguments.now)) }
{
    let mut at = place;
    let mut address = first;
    for argument in arguments {
        put_word(page, at, address);
        at += 8;
        address += argument.len() as u64 + 1;
    }
}

/// How many bytes the strings of the arguments have together.
fn strings_len(arguments: &[Bytes]) -> u64
    requires { AreArguments arguments.now }
    ensures { result ≡ length (strings arguments.now) }
{
    let mut len = 0;
    for argument in arguments {
        len += argument.len() as u64 + 1;
    }
    len
}

/// The address of the first string.
fn first_string(arguments: &[Bytes]) -> u64
    requires { AreArguments arguments.now }
    ensures { result ≡ strings_address arguments.now }
{
    AUXILIARY - strings_len(arguments)
}

/// The stack pointer at the start.
fn first_pointer(arguments: &[Bytes]) -> u64
    requires { AreArguments arguments.now }
    ensures { result ≡ stack_pointer arguments.now }
{
    (first_string(arguments) - 8 * (arguments.len() as u64 + 17)) / 16 * 16
}

/// The words behind the addresses of the arguments: two zeros, then PHDR, PHENT, PHNUM, PAGESZ, ENTRY, RANDOM and the null pair.
fn auxiliary(image: &Image) -> [u64; 16]
    ensures { result ≡ auxiliary_words image.now }
{
    [
        0,
        0,
        3,
        image.phdr,
        4,
        56,
        5,
        u64::from(image.phnum),
        6,
        4096,
        9,
        image.entry,
        25,
        AUXILIARY,
        0,
        0,
    ]
}

/// The bytes of the stack's last page at the start.
pub fn stack_top(image: &Image, arguments: &[Bytes]) -> [u8; 4096]
    requires { AreArguments arguments.now }
    ensures { result ≡ top_page image.now arguments.now }
{
    let mut page = [0; 4096];
    let strings = first_string(arguments);
    let words = (first_pointer(arguments) - TOP_ADDRESS) as usize;
    put(
        &mut page,
        0xff0,
        &[0, 1, 2, 3, 4, 5, 6, 7, 8, 9, 10, 11, 12, 13, 14, 15],
    );
    put_strings(&mut page, (strings - TOP_ADDRESS) as usize, arguments);
    put_word(&mut page, words, arguments.len() as u64);
    put_addresses(&mut page, words + 8, strings, arguments);
    put_words(
        &mut page,
        words + 8 + 8 * arguments.len(),
        &auxiliary(image),
    );
    page
}

/// The registers of a guest at the start: the entry, and the stack pointer.
pub fn guest_regs(image: &Image, arguments: &[Bytes]) -> Regs
    requires { AreArguments arguments.now }
    ensures { result ≡ guest_regs image.now arguments.now }
{
    let mut x = [0; 32];
    x[2] = first_pointer(arguments);
    Regs { pc: image.entry, x }
}
