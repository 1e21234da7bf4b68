// The answers of calls that are refused: the errors' numbers of Linux, negated.

pub const EINTR: i64 = -4;

pub const ECHILD: i64 = -10;

pub const EAGAIN: i64 = -11;

pub const ENOMEM: i64 = -12;

pub const EFAULT: i64 = -14;

pub const EINVAL: i64 = -22;

pub const EPIPE: i64 = -32;

pub const ENAMETOOLONG: i64 = -36;

pub const ENOSYS: i64 = -38;
