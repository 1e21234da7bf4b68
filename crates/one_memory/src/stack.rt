// The top of a guest's stack at the boot, and its registers.
ghost use Rattle.isa_model.specs.Memory.{lacks};
ghost use Rattle.kernel_model.specs.Layout.{addresses_from, guest_regs, stack_pointer, stack_words, strings, strings_address, with_stack_top};
ghost use Rattle.mck_word.specs.Words.{little_endian};
ghost use Rattle.mck_word.specs.declared.Access.TheVariants.{Write};
ghost use Rattle.one_memory.specs.Guests.{AreArguments};
ghost use Rattle.std.specs.Prelude.{◌≡◌, ◌+◌, ◌++◌, ◌<◌, ◌^◌, IfOk, OnOk, false, flat_map, length};

use crate::PageRows;
use job_model::Image;
use mck_word::{Bytes, NoMemory, Regs};
use std::alloc::Global;

/// The address of the 16 bytes 0 to 15 that stand for random ones. The strings end there.
const AUXILIARY: u64 = 0x3f_ffff_eff0;

/// The address of the first string.
fn first_string(arguments: &[Bytes]) -> u64
    requires { AreArguments arguments.now }
    ensures { result ≡ strings_address arguments.now }
{
    let mut len = 0;
    for argument in arguments {
        len += argument.len() as u64 + 1;
    }
    AUXILIARY - len
}

/// The stack pointer at the boot.
fn first_pointer(arguments: &[Bytes]) -> u64
    requires { AreArguments arguments.now }
    ensures { result ≡ stack_pointer arguments.now }
{
    (first_string(arguments) - 8 * (arguments.len() as u64 + 17)) / 16 * 16
}

/// The strings one behind the other, each with a zero byte behind it.
fn string_bytes(alloc: Global, arguments: &[Bytes]) -> Result<Vec<u8>, NoMemory>
    ensures { IfOk result (λ bytes. bytes.items ≡ strings arguments.now) }
{
    let mut bytes = Vec::new(alloc);
    for argument in arguments {
        bytes.extend_from_slice(argument.as_slice())?;
        bytes.push(0)?;
    }
    Ok(bytes)
}

/// Adds the addresses of the strings, of which the first stands at `first`.
fn add_addresses(words: &mut Vec<u64>, first: u64, arguments: &[Bytes]) -> Result<(), NoMemory>
    requires { first + length (strings arguments.now) < 2 ^ 63 }
    ensures { OnOk result (words.new.items ≡ words.old.items ++ addresses_from first arguments.now) }
{
    let mut address = first;
    for argument in arguments {
        words.push(address)?;
        address += argument.len() as u64 + 1;
    }
    Ok(())
}

/// The words at the stack pointer: the count, the argument addresses, two zeros, and the pairs PHDR, PHENT, PHNUM, PAGESZ, ENTRY, RANDOM
/// and the null pair.
fn first_words(alloc: Global, image: &Image, arguments: &[Bytes]) -> Result<Vec<u64>, NoMemory>
    requires { AreArguments arguments.now }
    ensures { IfOk result (λ words. words.items ≡ stack_words image.now arguments.now) }
{
    let first = first_string(arguments);
    let mut words = Vec::new(alloc);
    words.push(arguments.len() as u64)?;
    add_addresses(&mut words, first, arguments)?;
    words.extend_from_slice(&[
        0,
        0,
        3,
        image.phdr,
        4,
        56,
        5,
        u64::from(image.phnum),
        6,
        4096,
        9,
        image.entry,
        25,
        AUXILIARY,
        0,
        0,
    ])?;
    Ok(words)
}

/// The bytes of words, each with its lowest byte first.
fn word_bytes(alloc: Global, words: &[u64]) -> Result<Vec<u8>, NoMemory>
    ensures { IfOk result (λ bytes. bytes.items ≡ flat_map (little_endian 8) words.now) }
{
    let mut bytes = Vec::new(alloc);
    for word in words {
        bytes.extend_from_slice(&word.to_le_bytes())?;
    }
    Ok(bytes)
}

/// Writes what a guest finds on its stack into the stack's last page.
pub fn put_top(
    memory: &mut PageRows,
    alloc: Global,
    image: &Image,
    arguments: &[Bytes],
) -> Result<(), NoMemory>
    requires arguments { AreArguments arguments.now }
    requires there { lacks memory.old.map Write 0x3fffffe ≡ false }
    ensures { OnOk result (memory.new.map ≡ with_stack_top image.now arguments.now memory.old.map) }
{
    let strings = string_bytes(alloc, arguments)?;
    let words = first_words(alloc, image, arguments)?;
    let bytes = word_bytes(alloc, &words)?;
    memory.try_store(
        AUXILIARY,
        &[0, 1, 2, 3, 4, 5, 6, 7, 8, 9, 10, 11, 12, 13, 14, 15],
    );
    memory.try_store(first_string(arguments), &strings);
    memory.try_store(first_pointer(arguments), &bytes);
    Ok(())
}

/// The registers of a guest at the boot: the entry, and the stack pointer.
pub fn guest_regs(image: &Image, arguments: &[Bytes]) -> Regs
    requires { AreArguments arguments.now }
    ensures { result ≡ guest_regs image.now arguments.now }
{
    let mut x = [0; 32];
    x[2] = first_pointer(arguments);
    Regs { pc: image.entry, x }
}
