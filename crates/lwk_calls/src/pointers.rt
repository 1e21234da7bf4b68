// Pointers of the calls on signals, which ask for nothing where they are 0.
ghost use Rattle.lwk_calls.specs.SignalWords.{lacks_access, put_at, readable, writable};
ghost use Rattle.lwk_space.specs.Lacks.{OthersStay, memory};
ghost use Rattle.lwk_space.specs.Rows.{FramesApart, FramesIn};
ghost use Rattle.std.specs.Prelude.{◌≡◌, ◌<◌, ◌^◌, List, length, ℕ};

use frame_mem::FrameMem;
use lwk_space::Space;
use lwk_views::{can_read, can_write, try_store};
use page_map::PageTable;

/// Whether the process may read so many bytes there, or asks for none.
fn readable<T: PageTable>(space: &Space<T>, address: u64, len: u64) -> bool
    requires { len < 2 ^ 63 }
    ensures { (pages : List (List ℕ)) → result ≡ readable (memory (T.rows space.now.table) pages) address len }
{
    if address == 0 {
        return true;
    }
    can_read(space, address, len)
}

/// Whether the process may write so many bytes there, or asks for none.
fn writable<T: PageTable>(space: &Space<T>, address: u64, len: u64) -> bool
    requires { len < 2 ^ 63 }
    ensures { (pages : List (List ℕ)) → result ≡ writable (memory (T.rows space.now.table) pages) address len }
{
    if address == 0 {
        return true;
    }
    can_write(space, address, len)
}

/// Whether so many bytes are asked for that the process may not read, or that it may not write.
pub fn lacks_access<T: PageTable>(space: &Space<T>, read: u64, write: u64, len: u64) -> bool
    requires { len < 2 ^ 63 }
    ensures { (pages : List (List ℕ)) → result ≡ lacks_access (memory (T.rows space.now.table) pages) read write len }
{
    if readable(space, read, len) {
        !writable(space, write, len)
    } else {
        true
    }
}

/// Stores bytes there, where it is asked for.
pub fn store_at<T: PageTable>(space: &Space<T>, mem: &mut FrameMem, address: u64, bytes: &[u8])
    requires frames { FramesIn (T.rows space.now.table) mem.old }
    requires apart { FramesApart (T.rows space.now.table) }
    ensures memory { memory (T.rows space.now.table) mem.new ≡ put_at address bytes.now (memory (T.rows space.now.table) mem.old) }
    ensures others { OthersStay (T.rows space.now.table) mem.old mem.new }
    ensures count { length mem.new ≡ length mem.old }
{
    if address != 0 {
        try_store(space, mem, address, bytes);
    }
}
