// Pointers of the calls on signals, which ask for nothing where they are 0.
ghost use Rattle.isa_model.specs.Memory.{write_bytes};
ghost use Rattle.one_calls.specs.SignalWords.{lacks_access, readable, writable};
ghost use Rattle.std.specs.Bool.{OnFalse};
ghost use Rattle.std.specs.Prelude.{◌≡◌, ◌<◌, ◌==◌, ◌^◌, cond, length, true};

use one_memory::PageRows;

/// Whether the process may read so many bytes there, or asks for none.
fn readable(memory: &PageRows, address: u64, len: u64) -> bool
    requires { len < 2 ^ 63 }
    ensures { result ≡ readable memory.now.map address len }
{
    address == 0 || memory.can_read(address, len)
}

/// Whether the process may write so many bytes there, or asks for none.
fn writable(memory: &PageRows, address: u64, len: u64) -> bool
    requires { len < 2 ^ 63 }
    ensures { result ≡ writable memory.now.map address len }
{
    address == 0 || memory.can_write(address, len)
}

/// Whether so many bytes are asked for that the process may not read, or that it may not write.
pub fn lacks_access(memory: &PageRows, read: u64, write: u64, len: u64) -> bool
    requires { len < 2 ^ 63 }
    ensures is { result ≡ lacks_access memory.now.map read write len }
    ensures reads { OnFalse result (readable memory.now.map read len ≡ true) }
    ensures writes { OnFalse result (writable memory.now.map write len ≡ true) }
{
    !readable(memory, read, len) || !writable(memory, write, len)
}

/// Stores bytes there, where it is asked for.
pub fn store_at(memory: &mut PageRows, address: u64, bytes: &[u8])
    requires { writable memory.old.map address (length bytes.now) ≡ true }
    ensures { memory.new.map ≡ cond (address == 0) memory.old.map (write_bytes memory.old.map address bytes.now) }
{
    if address != 0 {
        memory.try_store(address, bytes);
    }
}
