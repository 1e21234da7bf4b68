// The error numbers of the file calls, and their answers.
ghost use Rattle.std.specs.Prelude.{◌≡◌, ◌<◌};
ghost use Rattle.mck_word.specs.Words.{refused};

pub const ENOENT: u32 = 2;

pub const EBADF: u32 = 9;

pub const EBUSY: u32 = 16;

pub const EEXIST: u32 = 17;

pub const ENOTDIR: u32 = 20;

pub const EISDIR: u32 = 21;

pub const EINVAL: u32 = 22;

pub const EMFILE: u32 = 24;

pub const ENOTTY: u32 = 25;

pub const EFBIG: u32 = 27;

pub const ENOSPC: u32 = 28;

pub const ESPIPE: u32 = 29;

pub const EPIPE: u32 = 32;

pub const ENAMETOOLONG: u32 = 36;

pub const ENOTEMPTY: u32 = 39;

/// The answer of a refused call: the negated errno.
pub fn fails(errno: u32) -> i64
    ensures { result ≡ refused errno }
{
    -i64::from(errno)
}
