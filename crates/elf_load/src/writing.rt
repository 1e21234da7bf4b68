// From an image to a file that loads to it.
ghost use Rattle.std.specs.Prelude.{◌≡◌, IfOk, Ok};
ghost use Rattle.elf_load.specs.Kept.{IsLoaded};
ghost use Rattle.elf_load.specs.Profile.{image_of};

use crate::written_apart::write_apart;
use crate::written_around::{find_table, write_around};
use job_model::Image;
use mck_word::{Bytes, NoMemory};
use std::alloc::Global;

/// Bytes that load to the image. Where its program headers stand in no segment, they follow the header, and the file parts follow
/// them; else each file part stands where the program headers in memory say.
pub fn write(alloc: Global, image: &Image) -> Result<Bytes, NoMemory>
    requires { IsLoaded image.now }
    ensures { IfOk result (λ file. image_of file ≡ Ok image.now) }
{
    match find_table(image) {
        Some(table) => write_around(alloc, image, table),
        None => write_apart(alloc, image),
    }
}
