// The boot of a job and its images.
ghost use Rattle.std.specs.Prelude.{◌≡◌, ◌≤◌, ◌+◌, ◌∷◌, [], All, IfOk, MatchResult, None, OnOk, fold, length};
ghost use Rattle.hybrid_model.specs.Boot.{boot, shortage, shortage_from};
ghost use Rattle.job_model.specs.Images.{IsImage};
ghost use Rattle.job_model.specs.Prepared.{HasArguments, IsPrepared};
ghost use Rattle.kernel_model.specs.Layout.{needed_frames as needed_by};
ghost use Rattle.kernel_model.specs.OneKernel.{boot_files as files_of_job, guests_from};
ghost use Rattle.kernel_tables.specs.Shown.{node_of};
ghost use Rattle.lwk_space.specs.Frames.{frames_map};
ghost use Rattle.mck_word.specs.Maps.{no_rows};
ghost use Rattle.node_machine.specs.Booting.{BootFails};
ghost use Rattle.pair_core.specs.Booting.{IsBefore, guest_at, no_guests, pair_with};
ghost use Rattle.pair_core.specs.Kept.{Kept};
ghost use Rattle.pair_core.specs.Shown.{pair_of};

use crate::boot_files::boot_files;
use crate::boot_guests::{guest_side, put_guest, reserve_guest};
use crate::boot_script::boot_script;
use crate::parts::Parts;
use frame_mem::FrameMem;
use frame_pool::FramePool;
use job_files::JobFiles;
use job_model::{GuestLine, Image, Job};
use kernel_tables::KernelTables;
use key_rows::Rows;
use lwk_boot::{load_guest, needed_frames};
use lwk_side::{Last, Lwk};
use mck_word::NoMemory;
use node_machine::BootError;
use page_map::PageTable;
use proxy_worker::Turns;
use rv64i_user::KnownWords;
use std::alloc::Global;

/// The tables before the first guest, with the script.
fn boot_node(alloc: Global, job: &Job, images: &[Image]) -> Result<KernelTables, NoMemory>
    requires { IsPrepared job.now images.now }
    ensures { IfOk result (λ node. node_of node (files_of_job job.now) ≡ (no_guests job.now).node) }
{
    let mut node = KernelTables::new(alloc, job.frames, job.limit);
    node.unsent = boot_script(alloc, job)?;
    Ok(node)
}

/// The lightweight kernel before the first guest: all frames are zero and free.
fn boot_lwk(alloc: Global, job: &Job, images: &[Image]) -> Result<Lwk, NoMemory>
    requires { IsPrepared job.now images.now }
    ensures node { IfOk result (λ lwk. node_of lwk.node (files_of_job job.now) ≡ (no_guests job.now).node) }
    ensures frames { IfOk result (λ lwk. frames_map lwk.frames ≡ (no_guests job.now).frames) }
    ensures free { IfOk result (λ lwk. lwk.pool.free ≡ (no_guests job.now).free) }
    ensures last { IfOk result (λ lwk. lwk.last ≡ no_rows) }
    ensures cores { IfOk result (λ lwk. lwk.cores ≡ job.now.cores) }
    ensures rings { IfOk result (λ lwk. lwk.rings ≡ job.now.rings) }
    ensures pages { IfOk result (λ lwk. length lwk.frames ≡ lwk.node.frame_count) }
    ensures pool { IfOk result (λ lwk. lwk.pool.frames ≡ lwk.node.frame_count) }
{
    let node = boot_node(alloc, job, images)?;
    let frames = FrameMem::new(alloc, job.frames)?;
    let pool = FramePool::new(alloc, job.frames)?;
    Ok(Lwk {
        node,
        frames,
        pool,
        last: Last::new(),
        cores: job.cores,
        rings: job.rings,
    })
}

impl<T: PageTable + Drop, F: JobFiles> Parts<T, F> {
    /// The two kernels before the first guest.
    fn without_guests(alloc: Global, job: &Job, images: &[Image]) -> Result<Self, NoMemory>
        requires { IsPrepared job.now images.now }
        ensures state { IfOk result (λ x. pair_of T.rows F.files x ≡ no_guests job.now) }
        ensures kept { IfOk result (λ x. Kept x) }
    {
        let lwk = boot_lwk(alloc, job, images)?;
        let files = boot_files(alloc, job)?;
        let known = KnownWords::new(alloc)?;
        Ok(Parts {
            lwk,
            sides: Rows::new(alloc),
            files,
            turns: Turns::new(alloc),
            workers: job.workers,
            known,
            newborn: None,
        })
    }

    /// Puts a guest in for which the frames suffice.
    fn load(
        &mut self,
        alloc: Global,
        number: u32,
        line: &GuestLine,
        image: &Image,
    ) -> Result<(), NoMemory>
        requires kept { Kept self.old }
        requires workers { self.old.workers ≤ 4 }
        requires before { IsBefore number (pair_of T.rows F.files self.old).node }
        requires most { number ≤ 16 }
        requires arguments { HasArguments line.now }
        requires image { IsImage image.now }
        requires enough { needed_by image.now ≤ length self.old.lwk.pool.free }
        ensures state { OnOk result (pair_of T.rows F.files self.new ≡ pair_with (pair_of T.rows F.files self.old) (guest_at number line.now image.now)) }
        ensures kept { OnOk result (Kept self.new) }
        ensures left { OnOk result (length self.new.lwk.pool.free + needed_by image.now ≡ length self.old.lwk.pool.free) }
    {
        reserve_guest(&mut self.lwk.node)?;
        self.sides.reserve(1)?;
        let space = load_guest(
            alloc,
            image,
            line.args.as_slice(),
            &mut self.lwk.frames,
            &mut self.lwk.pool,
        )?;
        let side = guest_side(alloc, space, self.lwk.rings, self.workers)?;
        put_guest(&mut self.lwk.node, number, line, image);
        self.sides.put(number as u64, side);
        Ok(())
    }

    /// Puts a guest in.
    fn add_guest(
        &mut self,
        alloc: Global,
        number: u32,
        line: &GuestLine,
        image: &Image,
    ) -> Result<(), BootError>
        requires kept { Kept self.old }
        requires workers { self.old.workers ≤ 4 }
        requires before { IsBefore number (pair_of T.rows F.files self.old).node }
        requires most { number ≤ 16 }
        requires arguments { HasArguments line.now }
        requires image { IsImage image.now }
        ensures state { OnOk result (pair_of T.rows F.files self.new ≡ pair_with (pair_of T.rows F.files self.old) (guest_at number line.now image.now)) }
        ensures kept { OnOk result (Kept self.new) }
        ensures left { OnOk result (length self.new.lwk.pool.free + needed_by image.now ≡ length self.old.lwk.pool.free) }
        ensures frames { MatchResult result (λ _. shortage_from (length self.old.lwk.pool.free) (guest_at number line.now image.now ∷ []) ≡ None) (λ e. BootFails e (shortage_from (length self.old.lwk.pool.free) (guest_at number line.now image.now ∷ []))) }
    {
        let needed = needed_frames(image);
        let free = self.lwk.pool.free();
        if free < needed {
            return Err(BootError::NoFrames {
                guest: number,
                needed,
                free,
            });
        }
        self.load(alloc, number, line, image)?;
        Ok(())
    }

    /// Puts the guests in, one after another.
    fn add_guests(
        &mut self,
        alloc: Global,
        lines: &[GuestLine],
        images: &[Image],
    ) -> Result<(), BootError>
        requires kept { Kept self.old }
        requires workers { self.old.workers ≤ 4 }
        requires before { IsBefore 1 (pair_of T.rows F.files self.old).node }
        requires most { length lines.now ≤ 16 }
        requires arguments { All HasArguments lines.now }
        requires images { All IsImage images.now }
        ensures state { OnOk result (pair_of T.rows F.files self.new ≡ fold pair_with (pair_of T.rows F.files self.old) (guests_from 1 lines.now images.now)) }
        ensures kept { OnOk result (Kept self.new) }
        ensures frames { MatchResult result (λ _. shortage_from (length self.old.lwk.pool.free) (guests_from 1 lines.now images.now) ≡ None) (λ e. BootFails e (shortage_from (length self.old.lwk.pool.free) (guests_from 1 lines.now images.now))) }
    {
        let mut number = 1u32;
        let mut rest = lines;
        let mut left = images;
        while let Some((line, more)) = rest.split_first() {
            let Some((image, others)) = left.split_first() else {
                return Ok(());
            };
            self.add_guest(alloc, number, line, image)?;
            number += 1;
            rest = more;
            left = others;
        }
        Ok(())
    }

    /// The two kernels at the boot of a job and its images. `NoFrames` names the first guest for which the frames
    /// don't suffice.
    pub fn boot(alloc: Global, job: &Job, images: &[Image]) -> Result<Self, BootError>
        requires { IsPrepared job.now images.now }
        ensures state { IfOk result (λ x. pair_of T.rows F.files x ≡ boot job.now images.now) }
        ensures kept { IfOk result (λ x. Kept x) }
        ensures frames { MatchResult result (λ _. shortage job.now images.now ≡ None) (λ e. BootFails e (shortage job.now images.now)) }
    {
        let mut parts: Self = Self::without_guests(alloc, job, images)?;
        match parts.add_guests(alloc, job.guests.as_slice(), images) {
            Ok(()) => Ok(parts),
            Err(e) => Err(e),
        }
    }
}
