// The records that the acts give out: little-endian numbers, stat records, entries of directories.
ghost use Rattle.std.specs.Prelude.{◌≡◌, ◌≤◌, ◌<◌, ◌+◌, ◌^◌, length, replicate};
ghost use Rattle.file_model.specs.Acts.{stat_record};
ghost use Rattle.mck_word.specs.Words.{little_endian};

/// Fills the bytes with a number, the lowest byte first.
pub fn put_number(into: &mut [u8], number: u64)
    ensures { into.new ≡ little_endian (length into.old) number }
{
    if let Some((first, rest)) = into.split_first_mut() {
        *first = (number % 256) as u8;
        put_number(rest, number / 256);
    }
}

/// Fills the bytes with zeros.
pub fn put_zeros(into: &mut [u8])
    ensures { into.new ≡ replicate (length into.old) 0 }
{
    into.fill(0);
}

/// Fills a stat record.
pub fn put_stat(into: &mut [u8], node: u64, mode: u32, size: u64)
    requires bytes { length into.old ≡ 128 }
    requires fits { size < 2 ^ 63 }
    ensures { into.new ≡ stat_record node mode size }
{
    let (device, rest) = into.split_at_mut(8);
    let (inode, rest) = rest.split_at_mut(8);
    let (mode_bytes, rest) = rest.split_at_mut(4);
    let (links, rest) = rest.split_at_mut(4);
    let (owner, rest) = rest.split_at_mut(24);
    let (size_bytes, rest) = rest.split_at_mut(8);
    let (block_size, rest) = rest.split_at_mut(4);
    let (gap, rest) = rest.split_at_mut(4);
    let (blocks, times) = rest.split_at_mut(8);
    put_number(device, 1);
    put_number(inode, node);
    put_number(mode_bytes, u64::from(mode));
    put_number(links, 1);
    put_zeros(owner);
    put_number(size_bytes, size);
    put_number(block_size, 4096);
    put_zeros(gap);
    put_number(blocks, (size + 511) / 512);
    put_zeros(times);
}
