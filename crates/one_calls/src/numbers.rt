// Numbers of 32 bits that are read and stored for the caller.
ghost use Rattle.isa_model.specs.Memory.{may_access};
ghost use Rattle.one_memory.specs.Views.{tried};
ghost use Rattle.one_calls.specs.Words.{told, word_at};
ghost use Rattle.mck_word.specs.Words.{little_endian, number_of};
ghost use Rattle.mck_word.specs.declared.Access.TheVariants.{Write};
ghost use Rattle.std.specs.Prelude.{◌≡◌, length};

use byteorder::{ByteOrder, LittleEndian};
use one_memory::PageRows;

fn put_number(into: &mut [u8], n: u32)
    requires { length into.old ≡ 4 }
    ensures { into.new ≡ little_endian 4 n }
{
    LittleEndian::write_u32(into, n);
}

fn number_in(from: &[u8]) -> u32
    requires { length from.now ≡ 4 }
    ensures { result ≡ number_of from.now }
{
    LittleEndian::read_u32(from)
}

/// The 32-bit number at the address, where the process may read it.
pub fn word_at(memory: &PageRows, address: u64) -> Option<u32>
    ensures { result ≡ word_at memory.now.map address }
{
    let mut bytes = [0; 4];
    if memory.read_into(address, &mut bytes) {
        Some(number_in(&bytes))
    } else {
        None
    }
}

/// Stores a number of 32 bits, its lowest byte first, where the process may write it, and tells whether it does.
pub fn store_number(memory: &mut PageRows, address: u64, n: u32) -> bool
    ensures may { result ≡ may_access memory.old.map Write address 4 }
    ensures stored { memory.new.map ≡ tried address (little_endian 4 n) memory.old.map }
{
    let mut bytes = [0; 4];
    put_number(&mut bytes, n);
    memory.try_store(address, &bytes)
}

/// Stores a number of 32 bits where it is asked for.
pub fn tells_number(memory: &mut PageRows, asked: bool, address: u64, n: u32)
    ensures { memory.new.map ≡ told asked address n memory.old.map }
{
    if asked {
        store_number(memory, address, n);
    }
}
