// A change made, and the room for it.
ghost use Rattle.kernel_model.specs.MemoryCalls.{effect_of, heap_rights};
ghost use Rattle.kernel_model.specs.Nodes.{Process};
ghost use Rattle.kernel_model.specs.Pages.{page_end, pages_count, range};
ghost use Rattle.kernel_model.specs.Spaces.{add_page, after_effect, drop_page, each_in, protect_page};
ghost use Rattle.kernel_model.specs.declared.Change.TheVariants.{Brk};
ghost use Rattle.mck_word.specs.Maps.{count};
ghost use Rattle.offer_laws.specs.ChangeFits.{ChangeFits};
ghost use Rattle.one_memory.specs.Changing.{added_by, spaced};
ghost use Rattle.std.specs.Prelude.{◌≡◌, ◌≤◌, ◌<◌, ◌+◌, ◌^◌, OnOk};

use crate::counts::rights_of;
use crate::gaps::page_end;
use kernel_model::Change;
use mck_flags::Rights;
use mck_word::{NoMemory, PageRange};
use one_memory::PageRows;
use std::alloc::Global;

/// How many pages a change adds.
fn pages_added(brk: u64, change: &Change) -> u64
    ensures { result ≡ pages_count (added_by brk change.now) }
{
    match *change {
        Change::Map { range, .. } => range.hi.saturating_sub(range.lo),
        Change::Brk(a) => page_end(a).saturating_sub(page_end(brk)),
        Change::Unmap(_) | Change::Protect { .. } => 0,
    }
}

/// Makes room for the pages that the change adds. The pages stay, also where memory lacks.
pub fn make_room_for(
    memory: &mut PageRows,
    alloc: Global,
    brk: u64,
    change: &Change,
) -> Result<(), NoMemory>
    ensures same { memory.new.map ≡ memory.old.map }
    ensures room { OnOk result (pages_count (added_by brk change.now) ≤ memory.new.spare) }
{
    memory.reserve(alloc, pages_added(brk, change) as usize)
}

/// Takes the pages of a range away; their frames come free.
fn drop_range(memory: &mut PageRows, free: &mut u64, r: &PageRange)
    requires fits { free.old + count memory.old.map < 2 ^ 64 }
    ensures after { spaced memory.new.map free.new ≡ each_in drop_page r.now (spaced memory.old.map free.old) }
    ensures spare { memory.new.spare ≡ memory.old.spare }
{
    *free += memory.drop_range(r);
}

/// Adds the pages of a range, which take frames.
fn add_range(memory: &mut PageRows, free: &mut u64, r: &PageRange, rights: Rights)
    requires room { pages_count r.now ≤ memory.old.spare }
    requires below { r.now.hi ≤ 2 ^ 27 }
    ensures { spaced memory.new.map free.new ≡ each_in (add_page rights) r.now (spaced memory.old.map free.old) }
{
    memory.add_range(r, rights);
    *free = free.saturating_sub(r.hi.saturating_sub(r.lo));
}

/// Maps all of a range, in place of the pages that are present.
fn replace(memory: &mut PageRows, free: &mut u64, r: &PageRange, rights: Rights)
    requires fits { free.old + count memory.old.map < 2 ^ 64 }
    requires room { pages_count r.now ≤ memory.old.spare }
    requires below { r.now.hi ≤ 2 ^ 27 }
    ensures { spaced memory.new.map free.new ≡ each_in (add_page rights) r.now (each_in drop_page r.now (spaced memory.old.map free.old)) }
{
    drop_range(memory, free, r);
    add_range(memory, free, r, rights);
}

/// Moves the break: the pages between are dropped or mapped.
fn move_break(memory: &mut PageRows, free: &mut u64, brk: u64, a: u64)
    requires fits { free.old + count memory.old.map < 2 ^ 64 }
    requires room { pages_count (added_by brk (Brk a)) ≤ memory.old.spare }
    requires below { a ≤ 2 ^ 39 }
    ensures { spaced memory.new.map free.new ≡ each_in (add_page heap_rights) (range (page_end brk) (page_end a)) (each_in drop_page (range (page_end a) (page_end brk)) (spaced memory.old.map free.old)) }
{
    let old = page_end(brk);
    let new = page_end(a);
    drop_range(memory, free, &PageRange { lo: new, hi: old });
    add_range(memory, free, &PageRange { lo: old, hi: new }, rights_of(3));
}

/// Makes a change: pages go, come, or get other rights, and so do free frames. The break is the caller's to set.
pub fn make(memory: &mut PageRows, free: &mut u64, brk: u64, change: &Change)
    requires change { ChangeFits change.now }
    requires fits { free.old + count memory.old.map < 2 ^ 64 }
    requires room { pages_count (added_by brk change.now) ≤ memory.old.spare }
    ensures { (p : Process) → brk ≡ p.program_break → spaced memory.new.map free.new ≡ after_effect (effect_of p change.now) (spaced memory.old.map free.old) }
{
    match *change {
        Change::Map { range, rights } => replace(memory, free, &range, rights),
        Change::Unmap(range) => drop_range(memory, free, &range),
        Change::Protect { range, rights } => memory.protect_range(&range, rights),
        Change::Brk(a) => move_break(memory, free, brk, a),
    }
}
