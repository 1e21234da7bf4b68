// Numbers of 32 bits that are stored for the caller.
ghost use Rattle.isa_model.specs.Memory.{may_access};
ghost use Rattle.lwk_calls.specs.Words.{told};
ghost use Rattle.lwk_space.specs.Lacks.{OthersStay, memory};
ghost use Rattle.lwk_space.specs.Rows.{FramesApart, FramesIn};
ghost use Rattle.lwk_views.specs.Views.{tried};
ghost use Rattle.mck_word.specs.Words.{little_endian};
ghost use Rattle.mck_word.specs.declared.Access.TheVariants.{Write};
ghost use Rattle.std.specs.Prelude.{◌≡◌, length};

use byteorder::{ByteOrder, LittleEndian};
use frame_mem::FrameMem;
use lwk_space::Space;
use lwk_views::try_store;
use page_map::PageTable;

fn put_number(into: &mut [u8], n: u32)
    requires { length into.old ≡ 4 }
    ensures { into.new ≡ little_endian 4 n }
{
    LittleEndian::write_u32(into, n);
}

/// Stores a number of 32 bits, its lowest byte first, where the process may write it, and tells whether it does.
pub fn store_number<T: PageTable>(
    space: &Space<T>,
    mem: &mut FrameMem,
    address: u64,
    n: u32,
) -> bool
    requires frames { FramesIn (T.rows space.now.table) mem.old }
    requires apart { FramesApart (T.rows space.now.table) }
    ensures may { result ≡ may_access (memory (T.rows space.now.table) mem.old) Write address 4 }
    ensures memory { memory (T.rows space.now.table) mem.new ≡ tried address (little_endian 4 n) (memory (T.rows space.now.table) mem.old) }
    ensures others { OthersStay (T.rows space.now.table) mem.old mem.new }
    ensures count { length mem.new ≡ length mem.old }
{
    let mut bytes = [0; 4];
    put_number(&mut bytes, n);
    try_store(space, mem, address, &bytes)
}

/// Stores a number of 32 bits where it is asked for.
pub fn tells_number<T: PageTable>(
    space: &Space<T>,
    mem: &mut FrameMem,
    asked: bool,
    address: u64,
    n: u32,
)
    requires frames { FramesIn (T.rows space.now.table) mem.old }
    requires apart { FramesApart (T.rows space.now.table) }
    ensures memory { memory (T.rows space.now.table) mem.new ≡ told asked address n (memory (T.rows space.now.table) mem.old) }
    ensures others { OthersStay (T.rows space.now.table) mem.old mem.new }
    ensures count { length mem.new ≡ length mem.old }
{
    if asked {
        store_number(space, mem, address, n);
    }
}
