// A change made, and the room for it.
ghost use Rattle.hybrid_model.specs.Spaces.{add_page, after_effect, drop_page, protect_page};
ghost use Rattle.kernel_model.specs.MemoryCalls.{all_present, effect_of, exceeds, heap_rights};
ghost use Rattle.kernel_model.specs.Nodes.{Process};
ghost use Rattle.kernel_model.specs.Spaces.{each_in};
ghost use Rattle.kernel_model.specs.declared.Change.TheVariants.{Brk};
ghost use Rattle.lwk_changes.specs.Conditions.{GoesAhead, HasRoomFor, IsInBounds, RisesBy, added_by};
ghost use Rattle.lwk_space.specs.Frames.{space};
ghost use Rattle.lwk_space.specs.Lacks.{memory};
ghost use Rattle.lwk_space.specs.Rows.{FramesApart, FramesTaken, RoomFor};
ghost use Rattle.mck_word.specs.declared.PageRange.{PageRange as range};
ghost use Rattle.std.specs.Prelude.{◌≡◌, ◌≤◌, ◌+◌, ◌^◌, ℕ, List, OnOk, false, length, true};

use crate::counts::rights_of;
use frame_mem::FrameMem;
use frame_pool::FramePool;
use kernel_model::Change;
use lwk_space::Space;
use mck_flags::Rights;
use mck_word::{NoMemory, PageRange};
use page_map::PageTable;
use vm_calls::change_range;

/// The pages that a change adds.
fn added_range(brk: u64, change: &Change) -> PageRange
    ensures { result ≡ added_by brk change.now }
{
    match *change {
        Change::Map { range, .. } => range,
        Change::Brk(a) => {
            if a < brk {
                PageRange { lo: 0, hi: 0 }
            } else {
                change_range(brk, change)
            }
        }
        Change::Unmap(_) => PageRange { lo: 0, hi: 0 },
        Change::Protect { .. } => PageRange { lo: 0, hi: 0 },
    }
}

/// Makes room for the pages that the change adds.
pub fn make_room_for<T: PageTable>(
    own: &mut Space<T>,
    brk: u64,
    change: &Change,
) -> Result<(), NoMemory>
    requires { IsInBounds brk change.now }
    ensures same { T.rows own.new.table ≡ T.rows own.old.table }
    ensures brk { own.new.areas.program_break ≡ own.old.areas.program_break }
    ensures room { OnOk result (HasRoomFor (T.has_room own.new.table) own.new.areas.spare brk change.now) }
    ensures keeps { (rs : List range) → T.has_room own.old.table rs → T.has_room own.new.table rs }
{
    own.make_room(&[added_range(brk, change)])?;
    own.reserve(2)
}

/// Drops the pages of a range that are present, and maps all of it.
fn replace<T: PageTable>(
    own: &mut Space<T>,
    r: &PageRange,
    rights: Rights,
    mem: &mut FrameMem,
    pool: &mut FramePool,
)
    requires order { r.now.lo ≤ r.now.hi }
    requires below { r.now.hi ≤ 2 ^ 27 }
    requires spare { 2 ≤ own.old.areas.spare }
    requires room { RoomFor (T.has_room own.old.table) r.now }
    requires enough { exceeds (memory (T.rows own.old.table) mem.old) (length pool.old.free) r.now ≡ false }
    requires taken { FramesTaken (T.rows own.old.table) pool.old }
    requires apart { FramesApart (T.rows own.old.table) }
    requires frames { pool.old.frames ≡ length mem.old }
    ensures after { space (T.rows own.new.table) mem.new pool.new ≡ each_in (add_page rights) r.now (each_in drop_page r.now (space (T.rows own.old.table) mem.old pool.old)) }
    ensures brk { own.new.areas.program_break ≡ own.old.areas.program_break }
    ensures pool { pool.new.frames ≡ pool.old.frames }
    ensures mem { length mem.new ≡ length mem.old }
{
    own.unmap(r, pool);
    own.map(r, rights, mem, pool);
}

/// Gives the pages of a range other rights.
fn protect<T: PageTable>(
    own: &mut Space<T>,
    r: &PageRange,
    rights: Rights,
    mem: &FrameMem,
    pool: &FramePool,
)
    requires order { r.now.lo ≤ r.now.hi }
    requires present { all_present (memory (T.rows own.old.table) mem.now) r.now ≡ true }
    ensures after { space (T.rows own.new.table) mem.now pool.now ≡ each_in (protect_page rights) r.now (space (T.rows own.old.table) mem.now pool.now) }
    ensures areas { own.new.areas ≡ own.old.areas }
{
    own.protect(r, rights);
}

/// Maps the pages that the heap gets.
fn raise_heap<T: PageTable>(
    own: &mut Space<T>,
    r: &PageRange,
    mem: &mut FrameMem,
    pool: &mut FramePool,
)
    requires order { r.now.lo ≤ r.now.hi }
    requires below { r.now.hi ≤ 2 ^ 27 }
    requires spare { 2 ≤ own.old.areas.spare }
    requires room { RoomFor (T.has_room own.old.table) r.now }
    requires rises { RisesBy (memory (T.rows own.old.table) mem.old) (length pool.old.free) r.now }
    requires frames { pool.old.frames ≡ length mem.old }
    ensures after { space (T.rows own.new.table) mem.new pool.new ≡ each_in (add_page heap_rights) r.now (space (T.rows own.old.table) mem.old pool.old) }
    ensures brk { own.new.areas.program_break ≡ own.old.areas.program_break }
    ensures pool { pool.new.frames ≡ pool.old.frames }
    ensures mem { length mem.new ≡ length mem.old }
{
    own.map(r, rights_of(3), mem, pool);
}

/// Moves the break: the pages between are dropped or mapped.
fn move_break<T: PageTable>(
    own: &mut Space<T>,
    mem: &mut FrameMem,
    pool: &mut FramePool,
    brk: u64,
    a: u64,
)
    requires bounds { IsInBounds brk (Brk a) }
    requires room { HasRoomFor (T.has_room own.old.table) own.old.areas.spare brk (Brk a) }
    requires ahead { GoesAhead (memory (T.rows own.old.table) mem.old) (length pool.old.free) brk (Brk a) }
    requires taken { FramesTaken (T.rows own.old.table) pool.old }
    requires apart { FramesApart (T.rows own.old.table) }
    requires frames { pool.old.frames ≡ length mem.old }
    ensures after { (p : Process) → brk ≡ p.program_break → space (T.rows own.new.table) mem.new pool.new ≡ after_effect (effect_of p (Brk a)) (space (T.rows own.old.table) mem.old pool.old) }
    ensures brk { own.new.areas.program_break ≡ own.old.areas.program_break }
    ensures pool { pool.new.frames ≡ pool.old.frames }
    ensures mem { length mem.new ≡ length mem.old }
{
    let r = change_range(brk, &Change::Brk(a));
    if a < brk {
        own.unmap(&r, pool);
    } else {
        raise_heap(own, &r, mem, pool);
    }
}

/// Makes a change that may go ahead. The break that the space keeps is the caller's to set.
pub fn make<T: PageTable>(
    own: &mut Space<T>,
    mem: &mut FrameMem,
    pool: &mut FramePool,
    brk: u64,
    change: &Change,
)
    requires bounds { IsInBounds brk change.now }
    requires room { HasRoomFor (T.has_room own.old.table) own.old.areas.spare brk change.now }
    requires ahead { GoesAhead (memory (T.rows own.old.table) mem.old) (length pool.old.free) brk change.now }
    requires taken { FramesTaken (T.rows own.old.table) pool.old }
    requires apart { FramesApart (T.rows own.old.table) }
    requires frames { pool.old.frames ≡ length mem.old }
    ensures after { (p : Process) → brk ≡ p.program_break → space (T.rows own.new.table) mem.new pool.new ≡ after_effect (effect_of p change.now) (space (T.rows own.old.table) mem.old pool.old) }
    ensures brk { own.new.areas.program_break ≡ own.old.areas.program_break }
    ensures pool { pool.new.frames ≡ pool.old.frames }
    ensures mem { length mem.new ≡ length mem.old }
{
    match *change {
        Change::Map { range, rights } => replace(own, &range, rights, mem, pool),
        Change::Unmap(range) => own.unmap(&range, pool),
        Change::Protect { range, rights } => protect(own, &range, rights, mem, pool),
        Change::Brk(a) => move_break(own, mem, pool, brk, a),
    }
}
