// The calls on files, which are delegated.
ghost use Rattle.std.specs.Prelude.{◌≡◌};
ghost use Rattle.system_calls.specs.FileCalls as calls;

/// A call on files, pipes or directories, which is delegated to the Linux side.
#[derive(Clone, Copy, PartialEq, Eq, Debug)]
pub enum FileCall {
    Ioctl,
    Mkdirat,
    Unlinkat,
    Openat,
    Close,
    Pipe2,
    Getdents64,
    Lseek,
    Read,
    Write,
    Readv,
    Writev,
    Pread64,
    Pwrite64,
    Fstat,
}

impl FileCall {
    /// Whether the call reads a stream.
    pub fn is_read(self) -> bool
        ensures { result ≡ calls.is_read self }
    {
        matches!(self, FileCall::Read | FileCall::Readv | FileCall::Pread64)
    }

    /// Whether the call writes a stream.
    pub fn is_write(self) -> bool
        ensures { result ≡ calls.is_write self }
    {
        matches!(
            self,
            FileCall::Write | FileCall::Writev | FileCall::Pwrite64
        )
    }

    /// Whether the call has vectors.
    pub fn has_vectors(self) -> bool
        ensures { result ≡ calls.has_vectors self }
    {
        matches!(self, FileCall::Readv | FileCall::Writev)
    }

    /// Whether the call has an offset of its own.
    pub fn has_offset(self) -> bool
        ensures { result ≡ calls.has_offset self }
    {
        matches!(self, FileCall::Pread64 | FileCall::Pwrite64)
    }

    /// Whether the call has a path.
    pub fn has_path(self) -> bool
        ensures { result ≡ calls.has_path self }
    {
        matches!(
            self,
            FileCall::Openat | FileCall::Mkdirat | FileCall::Unlinkat
        )
    }
}
