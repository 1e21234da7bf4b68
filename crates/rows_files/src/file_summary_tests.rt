// The paths and outputs of a small tree.
use crate::steps::step;
use file_calls::store::FileStore;
use file_model::{FileAns, FileOp};
use file_summary::{outputs, paths};
use mck_word::{NoMemory, Pid};
use one_files::RowFiles;
use std::alloc::Global;
use std::test::Fail;

// The files of a guest with two files, in a tree.
#[tactic(auto, using(mck_word::specs::MapLaws::maps))]
fn guest(alloc: Global) -> Result<RowFiles, NoMemory> {
    let mut files = RowFiles::new(alloc)?;
    files.process(Pid(1), b"typed")?;
    files.file(b"/b/x", b"hi")?;
    files.file(b"/a", b"")?;
    Ok(files)
}

#[test]
fn a_tree_in_order(rt: HostRuntime) -> Result<(), Fail> {
    let files = guest(rt.alloc())?;
    let rows = paths(rt.alloc(), &files)?;
    assert_eq!(rt; rows.len(), 3);
    let mut rows = rows.as_slice().iter();
    if let (Some(a), Some(b), Some(x)) = (rows.next(), rows.next(), rows.next()) {
        assert_eq!(rt; a.path.as_slice(), b"/a".as_slice());
        assert!(rt; !a.directory);
        assert_eq!(rt; a.bytes.len(), 0);
        assert_eq!(rt; b.path.as_slice(), b"/b".as_slice());
        assert!(rt; b.directory);
        assert_eq!(rt; x.path.as_slice(), b"/b/x".as_slice());
        assert_eq!(rt; x.bytes.as_slice(), b"hi".as_slice());
    }
    Ok(())
}

#[test]
fn a_console(rt: HostRuntime) -> Result<(), Fail> {
    let mut files = guest(rt.alloc())?;
    let put = FileOp::Put {
        desc: 1,
        at: None,
        moved: 0,
        len: 2,
    };
    assert_eq!(rt; step(&mut files, &put, &mut [104, 105])?, FileAns::Done(2));
    let outputs = outputs(rt.alloc(), &files)?;
    assert_eq!(rt; outputs.len(), 1);
    for output in outputs.as_slice() {
        assert_eq!(rt; output.pid, Pid(1));
        assert_eq!(rt; output.bytes.as_slice(), b"hi".as_slice());
    }
    Ok(())
}
