// How many descriptors name each description.
ghost use Rattle.std.specs.Prelude.{◌≡◌, ◌≤◌, ◌<◌, ◌+◌, ◌-◌, ◌^◌, ℕ, length};
ghost use Rattle.file_tree.specs.Counting.{count_in};
ghost use Rattle.linux_files.specs.Slotted.{slots_name};

use file_tree::counts::Counts;

/// One more name for each description that a slot has, each of which has a name already.
pub fn raise_all(named: &mut Counts, slots: &[Option<u32>])
    requires left { length slots.now ≤ named.old.left }
    requires there { (d : ℕ) → 0 < slots_name d slots.now → 0 < count_in named.old.counts d }
    ensures { (d : ℕ) → count_in named.new.counts d ≡ count_in named.old.counts d + slots_name d slots.now }
{
    for slot in slots {
        match slot {
            Some(d) => named.raise(*d as u64),
            None => {}
        }
    }
}

/// One name less for each description that a slot has.
pub fn lower_all(named: &mut Counts, slots: &[Option<u32>])
    ensures { (d : ℕ) → count_in named.new.counts d ≡ count_in named.old.counts d - slots_name d slots.now }
{
    for slot in slots {
        match slot {
            Some(d) => named.lower(*d as u64),
            None => {}
        }
    }
}
