// The boot of a job and its images.
ghost use Rattle.job_boot.specs.Guests.{IsBefore, guest_at};
ghost use Rattle.job_model.specs.Images.{IsImage};
ghost use Rattle.job_model.specs.Prepared.{HasArguments, IsPrepared};
ghost use Rattle.kernel_model.specs.OneKernel.{boot, guest_own, guests_from};
ghost use Rattle.one_kernel.specs.Booting.{no_guests, one_with};
ghost use Rattle.one_kernel.specs.Parts.{one_of, shown_own};
ghost use Rattle.std.specs.Prelude.{◌≡◌, ◌≤◌, All, IfOk, OnOk, fold, length};

use crate::parts::{One, Own};
use job_boot::{boot_files, boot_node, put_guest, reserve_guest};
use job_model::{GuestLine, Image, Job};
use key_rows::Rows;
use mck_word::NoMemory;
use one_memory::{PageRows, guest_memory, guest_regs, heap_base};
use rv64i_user::KnownWords;
use std::alloc::Global;

/// What the kernel keeps of a guest beside the node.
fn own_of(alloc: Global, number: u32, line: &GuestLine, image: &Image) -> Result<Own, NoMemory>
    requires arguments { HasArguments line.now }
    requires image { IsImage image.now }
    ensures { IfOk result (λ own. shown_own own ≡ guest_own (guest_at number line.now image.now)) }
{
    let memory = guest_memory(alloc, image, line.args.as_slice())?;
    Ok(Own {
        memory,
        calls: Rows::new(alloc),
    })
}

impl One {
    /// The machine before the first guest.
    fn without_guests(alloc: Global, job: &Job, images: &[Image]) -> Result<Self, NoMemory>
        requires { IsPrepared job.now images.now }
        ensures { IfOk result (λ x. one_of x ≡ no_guests job.now) }
    {
        let node = boot_node(alloc, job)?;
        let files = boot_files(alloc, job)?;
        let known = KnownWords::new(alloc)?;
        Ok(One {
            node,
            own: Rows::new(alloc),
            files,
            free: u64::from(job.frames),
            known,
            unborn: PageRows::new(alloc),
            alloc,
        })
    }

    /// Puts a guest in.
    fn add_guest(&mut self, number: u32, line: &GuestLine, image: &Image) -> Result<(), NoMemory>
        requires before { IsBefore number (one_of self.old).node }
        requires most { number ≤ 16 }
        requires arguments { HasArguments line.now }
        requires image { IsImage image.now }
        ensures { OnOk result (one_of self.new ≡ one_with (one_of self.old) (guest_at number line.now image.now)) }
    {
        reserve_guest(&mut self.node)?;
        self.own.reserve(1)?;
        let own = own_of(self.alloc, number, line, image)?;
        self.free = self.free.saturating_sub(own.memory.count() as u64);
        let regs = guest_regs(image, line.args.as_slice());
        put_guest(&mut self.node, number, regs, heap_base(image));
        self.own.put(number as u64, own);
        Ok(())
    }

    /// Puts the guests in, one after another.
    fn add_guests(&mut self, lines: &[GuestLine], images: &[Image]) -> Result<(), NoMemory>
        requires before { IsBefore 1 (one_of self.old).node }
        requires most { length lines.now ≤ 16 }
        requires arguments { All HasArguments lines.now }
        requires images { All IsImage images.now }
        ensures { OnOk result (one_of self.new ≡ fold one_with (one_of self.old) (guests_from 1 lines.now images.now)) }
    {
        let mut number = 1u32;
        let mut rest = lines;
        let mut left = images;
        while let Some((line, more)) = rest.split_first() {
            let Some((image, others)) = left.split_first() else {
                return Ok(());
            };
            self.add_guest(number, line, image)?;
            number += 1;
            rest = more;
            left = others;
        }
        Ok(())
    }

    /// The machine at the boot of a job and its images. It has as many frames as the job says, less the pages of the
    /// guests.
    pub fn boot(alloc: Global, job: &Job, images: &[Image]) -> Result<Self, NoMemory>
        requires { IsPrepared job.now images.now }
        ensures { IfOk result (λ x. one_of x ≡ boot job.now images.now) }
    {
        let mut one = Self::without_guests(alloc, job, images)?;
        one.add_guests(job.guests.as_slice(), images)?;
        Ok(one)
    }
}
