// Bytes of a file in place.
ghost use Rattle.std.specs.Prelude.{◌≡◌, ◌≤◌, ◌+◌, ◌-◌, ◌++◌, length, replicate, vec_len};
ghost use Rattle.std.specs.Vec.{vec_capacity};
ghost use Rattle.mck_word.specs.Lists.{spliced};

/// Puts bytes in place of those at an offset.
fn put_at(bytes: &mut [u8], offset: usize, from: &[u8])
    requires { offset + length from.now ≤ length bytes.old }
    ensures { bytes.new ≡ spliced bytes.old offset from.now }
{
    let (_, rest) = bytes.split_at_mut(offset);
    let (there, _) = rest.split_at_mut(from.len());
    there.copy_from_slice(from);
}

/// Fills up with zeros to that length.
fn fill(bytes: &mut Vec<u8>, end: usize)
    requires { end ≤ vec_capacity bytes.old }
    ensures items { bytes.new.items ≡ bytes.old.items ++ replicate (end - length bytes.old.items) 0 }
    ensures len { end ≤ vec_len bytes.new }
    ensures capacity { vec_capacity bytes.old ≤ vec_capacity bytes.new }
{
    if bytes.len() < end {
        let _ = bytes.resize(end, 0);
    }
}

/// Adds bytes for which there is room.
fn append(bytes: &mut Vec<u8>, from: &[u8])
    requires { vec_len bytes.old + length from.now ≤ vec_capacity bytes.old }
    ensures { bytes.new.items ≡ bytes.old.items ++ from.now }
{
    let _ = bytes.extend_from_slice(from);
}

/// Puts bytes at an offset, behind zeros where the bytes end before it. Only what is put in is moved.
pub fn write_at(bytes: &mut Vec<u8>, offset: usize, from: &[u8])
    requires { offset + length from.now ≤ vec_capacity bytes.old }
    ensures { bytes.new.items ≡ spliced bytes.old.items offset from.now }
{
    fill(bytes, offset);
    let over = from.len().min(bytes.len() - offset);
    let (front, back) = from.split_at(over);
    put_at(bytes, offset, front);
    append(bytes, back);
}
