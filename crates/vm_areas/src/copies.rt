// The mapped pages of another process, as a list and copied.
ghost use Rattle.std.specs.Prelude.{◌≡◌, ◌≤◌, [], OnOk, length, vec_len};
ghost use Rattle.std.specs.Vec.{vec_capacity};
ghost use Rattle.vm_areas.specs.Ranges.{Rises};

use crate::Areas;
use mck_word::{NoMemory, PageRange};

/// Adds the ranges to a list that is empty.
fn push_all(ranges: &[PageRange], out: &mut Vec<PageRange>)
    requires empty { out.old.items ≡ [] }
    requires room { length ranges.now ≤ vec_capacity out.old }
    ensures items { out.new.items ≡ ranges.now }
    ensures capacity { vec_capacity out.new ≡ vec_capacity out.old }
{
    for r in ranges {
        out.push_reserved(*r);
    }
}

impl Areas {
    /// The mapped pages as ranges that rise, do not meet and aren't empty.
    pub fn ranges(&self) -> &[PageRange]
        ensures same { result.now ≡ self.now.ranges }
        ensures rise { Rises 0 result.now }
    {
        &self.ranges
    }

    /// Makes room for a copy of the mapped pages of another process. The pages stay, also where memory lacks.
    pub fn reserve_copy(&mut self, from: &Areas) -> Result<(), NoMemory>
        ensures same { self.new.ranges ≡ self.old.ranges }
        ensures brk { self.new.program_break ≡ self.old.program_break }
        ensures grows { self.old.spare ≤ self.new.spare }
        ensures room { OnOk result (length from.now.ranges ≤ self.new.spare) }
    {
        let n = from.ranges.len();
        self.ranges.reserve(n)?;
        let most = self.ranges.len() + n;
        self.next.reserve(most)?;
        Ok(())
    }

    /// The mapped pages and the break of another process, where no page is mapped yet.
    pub fn copy_from(&mut self, from: &Areas)
        requires empty { self.old.ranges ≡ [] }
        requires room { length from.now.ranges ≤ self.old.spare }
        ensures ranges { self.new.ranges ≡ from.now.ranges }
        ensures brk { self.new.program_break ≡ from.now.program_break }
    {
        push_all(&from.ranges, &mut self.ranges);
        self.brk = from.brk;
    }
}
