// Numbers in a page's bytes.
ghost use Rattle.std.specs.Prelude.{◌≡◌, ◌≤◌, ◌+◌};
ghost use Rattle.isa_model.specs.Memory.{IsSize};
ghost use Rattle.rv64i_user.specs.Places.{le_number, put_bytes};

// The number that two, four or eight bytes of a page spell.
#[inline(always)]
fn two(b: &[u8; 4096], off: usize) -> u16
    requires { off + 2 ≤ 4096 }
    ensures { result ≡ le_number b.now off 2 }
{
    u16::from_le_bytes([b[off], b[off + 1]])
}

#[inline(always)]
pub fn four(b: &[u8; 4096], off: usize) -> u32
    requires { off + 4 ≤ 4096 }
    ensures { result ≡ le_number b.now off 4 }
{
    u32::from_le_bytes([b[off], b[off + 1], b[off + 2], b[off + 3]])
}

#[inline(always)]
fn eight(b: &[u8; 4096], off: usize) -> u64
    requires { off + 8 ≤ 4096 }
    ensures { result ≡ le_number b.now off 8 }
{
    u64::from_le_bytes([
        b[off],
        b[off + 1],
        b[off + 2],
        b[off + 3],
        b[off + 4],
        b[off + 5],
        b[off + 6],
        b[off + 7],
    ])
}

// The number that `size` bytes spell.
#[inline(always)]
pub fn some_bytes(b: &[u8; 4096], off: usize, size: u32) -> u64
    requires size { IsSize size }
    requires inside { off + size ≤ 4096 }
    ensures { result ≡ le_number b.now off size }
{
    match size {
        1 => u64::from(b[off]),
        2 => u64::from(two(b, off)),
        4 => u64::from(four(b, off)),
        _ => eight(b, off),
    }
}

/// Writes the low `size` bytes of `v` into a page's bytes, from the byte `off` on, the lowest first.
#[inline(always)]
pub fn write_some(b: &mut [u8; 4096], off: usize, size: u32, v: u64)
    requires size { IsSize size }
    requires inside { off + size ≤ 4096 }
    ensures { b.new ≡ put_bytes b.old off size v }
{
    match size {
        1 => b[off] = (v % 256) as u8,
        2 => {
            b[off] = (v % 256) as u8;
            b[off + 1] = (v / 256 % 256) as u8;
        }
        4 => {
            b[off] = (v % 256) as u8;
            b[off + 1] = (v / 256 % 256) as u8;
            b[off + 2] = (v / 65536 % 256) as u8;
            b[off + 3] = (v / 16777216 % 256) as u8;
        }
        _ => {
            b[off] = (v % 256) as u8;
            b[off + 1] = (v / 256 % 256) as u8;
            b[off + 2] = (v / 65536 % 256) as u8;
            b[off + 3] = (v / 16777216 % 256) as u8;
            b[off + 4] = (v / 4294967296 % 256) as u8;
            b[off + 5] = (v / 1099511627776 % 256) as u8;
            b[off + 6] = (v / 281474976710656 % 256) as u8;
            b[off + 7] = (v / 72057594037927936 % 256) as u8;
        }
    }
}
