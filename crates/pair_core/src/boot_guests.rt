// What a guest has in the kernels at the boot: its process, its thread, and its side.
ghost use Rattle.std.specs.Prelude.{◌≡◌, ◌≤◌, ◌+◌, IfOk, List, OnOk, ℕ};
ghost use Rattle.file_model.specs.Files.{Files};
ghost use Rattle.hybrid_model.specs.Sides as sides;
ghost use Rattle.hybrid_model.specs.Sides.{no_lwk};
ghost use Rattle.job_model.specs.Images.{IsImage};
ghost use Rattle.job_model.specs.Prepared.{HasArguments};
ghost use Rattle.kernel_model.specs.OneKernel as kernel;
ghost use Rattle.kernel_tables.specs.Shown.{node_of, shown_process};
ghost use Rattle.pair_core.specs.Booting.{IsBefore, guest_at, node_with};
ghost use Rattle.pair_core.specs.Kept.{Takes};
ghost use Rattle.pair_core.specs.Shown.{shown_side};

use crate::parts::Side;
use hybrid_model::ring_capacity;
use ikc_channel::Channel;
use job_model::{GuestLine, Image};
use kernel_model::Life;
use kernel_tables::{KernelTables, Process};
use key_rows::Rows;
use lwk_boot::{guest_regs, heap_base};
use lwk_side::{Noted, Task};
use lwk_signals::Actions;
use lwk_space::Space;
use mck_flags::SigSet;
use mck_word::{NoMemory, Pid, Tid};
use page_map::PageTable;
use proxy_worker::Proxy;
use std::alloc::Global;

/// The process of a guest.
fn guest_process(image: &Image) -> Process
    requires { IsImage image.now }
    ensures is { (n : ℕ) (arguments : List (List ℕ)) → shown_process result ≡ kernel.guest_process (record { number = n; arguments = arguments; image = image.now }) }
    ensures new { result.instructions ≡ 0 }
{
    let base = heap_base(image);
    Process {
        parent: Pid(0),
        waited: false,
        first_code: None,
        life: Life::Living,
        instructions: 0,
        actions: Actions::new(),
        pending: SigSet(0),
        program_break: base,
        heap_base: base,
    }
}

/// Makes room for the process of a guest and its thread. The node stays, also where memory lacks.
pub fn reserve_guest(node: &mut KernelTables) -> Result<(), NoMemory>
    ensures node { (files : Files) → node_of node.new files ≡ node_of node.old files }
    ensures process { OnOk result (1 ≤ node.new.processes.spare) }
    ensures thread { OnOk result (1 ≤ node.new.threads.spare) }
{
    node.reserve_process()?;
    node.reserve_thread()
}

/// Puts the process of a guest in, and its thread, which has the same number.
pub fn put_guest(node: &mut KernelTables, number: u32, line: &GuestLine, image: &Image)
    requires process_room { 1 ≤ node.old.processes.spare }
    requires thread_room { 1 ≤ node.old.threads.spare }
    requires most { number ≤ 16 }
    requires arguments { HasArguments line.now }
    requires image { IsImage image.now }
    requires before { (files : Files) → IsBefore number (node_of node.old files) }
    ensures { (files : Files) → node_of node.new files ≡ node_with (guest_at number line.now image.now) (node_of node.old files) }
{
    let _all = node.instructions_in_all();
    let regs = guest_regs(image, line.args.as_slice());
    node.put_process(Pid(number), guest_process(image));
    node.begin_thread(Pid(number), Tid(number), regs, SigSet(0), 0);
}

/// The side of a new process that has this space.
pub fn guest_side<T: PageTable + Drop>(
    alloc: Global,
    space: Space<T>,
    rings: u32,
    workers: u32,
) -> Result<Side<T>, NoMemory>
    requires { workers ≤ 4 }
    ensures side { IfOk result (λ s. shown_side T.rows s ≡ record (sides.new_side rings) { lwk = record no_lwk { table = T.rows space.table } }) }
    ensures rings { IfOk result (λ s. Takes (49 + workers) s.channel) }
    ensures space { IfOk result (λ s. s.task.space ≡ space) }
{
    let channel = Channel::new(alloc, rings, ring_capacity(workers))?;
    Ok(Side {
        task: Task {
            space,
            noted: Noted::new(),
            begun: 0,
            changing: None,
            callers: Rows::new(alloc),
        },
        proxy: Proxy::new(alloc),
        channel,
    })
}
