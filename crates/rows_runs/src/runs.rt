// One call of the program over a host and a sink in memory.
ghost use Rattle.std.specs.Prelude.{◌<◌};

use mcexec_run::{Ended, mcexec};
use mck_crew::OpenGate;
use one_files::RowFiles;
use one_kernel::One;
use outside::{MemHost, MemSink, Named};
use page_map::PageMap;
use pair_node::Pair;
use std::alloc::Global;
use std::sync::Wait;
use std::test::Fail;
use std::thread::Threads;

/// The machine of the rows: the plain page table and the plain store of files.
pub type Node = Pair<PageMap, RowFiles>;

/// A host with these names, whose fetches of these numbers fail.
pub fn host_of(alloc: Global, names: &[(&str, &[u8])], failing: &[u64]) -> Result<MemHost, Fail> {
    let mut held = Vec::new(alloc);
    for (name, bytes) in names {
        held.push(Named {
            name: String::from_str(alloc, name)?,
            bytes: Vec::from_slice(alloc, bytes)?,
        })?;
    }
    Ok(MemHost::new(held, Vec::from_slice(alloc, failing)?))
}

/// A sink with room for so many bytes.
pub fn sink_of(alloc: Global, room: usize, most: usize) -> Result<MemSink, Fail>
    requires { 0 < most }
{
    let sink = MemSink::new(alloc, room, most, Vec::new(alloc)).map_err(|_| "no memory")?;
    Ok(sink)
}

/// The call of the program with these words.
pub fn call<R: Threads + Wait + Sync>(
    rt: &R,
    alloc: Global,
    words: &[&str],
    host: &mut MemHost,
    sink: &mut MemSink,
) -> Result<Ended, Fail> {
    let mut owned = Vec::new(alloc);
    for word in words {
        owned.push(String::from_str(alloc, word)?)?;
    }
    let audited = mcexec::<Node, One, OpenGate, R, MemHost, MemSink>(
        rt, &OpenGate, alloc, &owned, host, sink,
    );
    Ok(Ended {
        status: audited.status,
        journal: audited.journal,
    })
}
