//! What a process reads and stores through its table, and what a step of the definitions makes of a node's tables and the frames.
//!
//! Promises: `can_read` and `can_write` are isa_model's `may_access` of the memory that the table shows, `read_into` and
//! `try_store` are its bytes read and written where they may be, and change nothing else. `Did` of specs/Views says that the
//! tables and the frames after a step are what a word on views (kernel_model's specs/Signals) makes of them; the lemmas of
//! proofs/Doing compose it: a step that changes the node alone, and a step with a store.
#![tactic(auto)]

ghost use Rattle.isa_model.specs.Memory.{may_access};
ghost use Rattle.lwk_space.specs.Lacks.{OthersStay, memory};
ghost use Rattle.lwk_space.specs.Rows.{FramesApart, FramesIn};
ghost use Rattle.lwk_views.specs.Views.{read_or, tried};
ghost use Rattle.mck_word.specs.declared.Access.TheVariants.{Read, Write};
ghost use Rattle.std.specs.Prelude.{◌≡◌, ◌<◌, ◌^◌, List, length, ℕ};

use frame_mem::FrameMem;
use lwk_space::Space;
use mck_word::Access;
use page_map::PageTable;

/// Whether the process may read so many bytes from an address on.
pub fn can_read<T: PageTable>(space: &Space<T>, address: u64, len: u64) -> bool
    requires { len < 2 ^ 63 }
    ensures { (pages : List (List ℕ)) → result ≡ may_access (memory (T.rows space.now.table) pages) Read address len }
{
    space.may_access(Access::Read, address, len)
}

/// Whether the process may write so many bytes from an address on.
pub fn can_write<T: PageTable>(space: &Space<T>, address: u64, len: u64) -> bool
    requires { len < 2 ^ 63 }
    ensures { (pages : List (List ℕ)) → result ≡ may_access (memory (T.rows space.now.table) pages) Write address len }
{
    space.may_access(Access::Write, address, len)
}

/// Reads bytes where the process may read them, and tells whether it does.
pub fn read_into<T: PageTable>(
    space: &Space<T>,
    mem: &FrameMem,
    address: u64,
    into: &mut [u8],
) -> bool
    requires { FramesIn (T.rows space.now.table) mem.now }
    ensures may { result ≡ may_access (memory (T.rows space.now.table) mem.now) Read address (length into.old) }
    ensures read { into.new ≡ read_or into.old address (memory (T.rows space.now.table) mem.now) }
{
    match space.read(mem, address, into) {
        Ok(()) => true,
        Err(_) => false,
    }
}

/// Stores bytes where the process may write them, and tells whether it does.
pub fn try_store<T: PageTable>(
    space: &Space<T>,
    mem: &mut FrameMem,
    address: u64,
    bytes: &[u8],
) -> bool
    requires frames { FramesIn (T.rows space.now.table) mem.old }
    requires apart { FramesApart (T.rows space.now.table) }
    ensures may { result ≡ may_access (memory (T.rows space.now.table) mem.old) Write address (length bytes.now) }
    ensures memory { memory (T.rows space.now.table) mem.new ≡ tried address bytes.now (memory (T.rows space.now.table) mem.old) }
    ensures others { OthersStay (T.rows space.now.table) mem.old mem.new }
    ensures count { length mem.new ≡ length mem.old }
{
    match space.write(mem, address, bytes) {
        Ok(()) => true,
        Err(_) => false,
    }
}
