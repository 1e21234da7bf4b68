// What is told of one file.
use anyhow::Result;
use elf_load::{ElfError, Image, Segment, load, write};
use std::alloc::{AllocError, Global};

fn same_segment(s: &Segment, t: &Segment) -> bool {
    s.addr == t.addr
        && s.mem == t.mem
        && s.rights == t.rights
        && s.bytes.as_slice() == t.bytes.as_slice()
}

fn same_image(a: &Image, b: &Image) -> bool {
    let theirs = b.segments.as_slice();
    let mut same = a.entry == b.entry
        && a.phdr == b.phdr
        && a.phnum == b.phnum
        && a.segments.len() == theirs.len();
    for (k, s) in a.segments.as_slice().iter().enumerate() {
        same = same && theirs.get(k).is_some_and(|t| same_segment(s, t));
    }
    same
}

fn tell_image(alloc: Global, image: &Image) -> Result<String, AllocError> {
    let mut told = format!(in alloc;
        "entry {:x} headers {:x} of {}\n",
        image.entry, image.phdr, image.phnum
    )?;
    for s in image.segments.as_slice() {
        let line = format!(in alloc;
            "segment {:x} {} of {} rights {}\n",
            s.addr,
            s.bytes.len(),
            s.mem,
            s.rights.0
        )?;
        told.push_str(line.as_str())?;
    }
    Ok(told)
}

/// The image and the size of the file that is written of it, with whether it is the same file, or the first rule that is broken.
pub fn tell(alloc: Global, bytes: &[u8]) -> Result<String> {
    let image = match load(alloc, bytes) {
        Ok(image) => image,
        Err(e) => return Ok(format!(in alloc; "{e}\n")?),
    };
    let mut told = tell_image(alloc, &image)?;
    let file = write(alloc, &image).map_err(ElfError::from)?;
    let again = load(alloc, file.as_slice())?;
    told.push_str("written to ")?;
    if !same_image(&image, &again) {
        told.push_str("another image, of ")?;
    } else if file.as_slice() == bytes {
        told.push_str("the same ")?;
    }
    let line = format!(in alloc; "{} bytes\n", file.len())?;
    told.push_str(line.as_str())?;
    Ok(told)
}
