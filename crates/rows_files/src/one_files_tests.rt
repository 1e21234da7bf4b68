// A file is made, written, read back and unlinked; one is written at its limit and past it.
use crate::steps::step;
use file_calls::store::FileStore;
use file_model::{FileAns, FileOp};
use mck_word::{NoMemory, Pid};
use one_files::RowFiles;
use std::process::Abort;
use std::test::Fail;

fn written_and_unlinked_in(rt: &impl Abort, files: &mut RowFiles) -> Result<(), Fail> {
    let open = FileOp::Openat {
        dirfd: -100,
        flags: 0o102,
    };
    assert_eq!(rt; step(files, &open, &mut [47, 97])?, FileAns::Done(0));
    let put = FileOp::Put {
        desc: 0,
        at: None,
        moved: 0,
        len: 2,
    };
    assert_eq!(rt; step(files, &put, &mut [104, 105])?, FileAns::Done(2));
    let get = FileOp::Get {
        desc: 0,
        at: Some(0),
        moved: 0,
        len: 2,
    };
    let mut read = [0, 0];
    assert_eq!(rt; step(files, &get, &mut read)?, FileAns::Done(2));
    assert_eq!(rt; read, [104, 105]);
    assert_eq!(rt; files.node_count(), 2);
    let unlink = FileOp::Unlinkat {
        dirfd: -100,
        flags: 0,
    };
    assert_eq!(rt; step(files, &unlink, &mut [47, 97])?, FileAns::Done(0));
    assert_eq!(rt; files.node_count(), 2);
    assert_eq!(rt;
        step(files, &FileOp::Close { fd: 0 }, &mut [])?,
        FileAns::Done(0)
    );
    assert_eq!(rt; files.node_count(), 1);
    Ok(())
}

#[test]
fn a_file_is_written_and_unlinked(rt: HostRuntime) -> Result<(), Fail> {
    let mut files = RowFiles::new(rt.alloc())?;
    written_and_unlinked_in(&rt, &mut files)
}

fn written_up_to_its_limit_in(rt: &impl Abort, files: &mut RowFiles) -> Result<(), Fail> {
    let open = FileOp::Openat {
        dirfd: -100,
        flags: 0o102,
    };
    assert_eq!(rt; step(files, &open, &mut [47, 97])?, FileAns::Done(0));
    for at in [1_048_576, 1 << 40, u64::MAX] {
        let put = FileOp::Put {
            desc: 0,
            at: Some(at),
            moved: 0,
            len: 2,
        };
        assert_eq!(rt; step(files, &put, &mut [104, 105])?, FileAns::Done(-27));
    }
    assert_eq!(rt; files.file_len(2), 0);
    let last = FileOp::Put {
        desc: 0,
        at: Some(1_048_575),
        moved: 0,
        len: 2,
    };
    assert_eq!(rt; step(files, &last, &mut [104, 105])?, FileAns::Done(1));
    assert_eq!(rt; files.file_len(2), 1_048_576);
    Ok(())
}

#[test]
fn a_file_is_written_up_to_its_limit(rt: HostRuntime) -> Result<(), Fail> {
    let mut files = RowFiles::new(rt.alloc())?;
    written_up_to_its_limit_in(&rt, &mut files)
}
