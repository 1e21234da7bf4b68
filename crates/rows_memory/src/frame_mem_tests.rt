// Frames that are written and read, and go between threads.
ghost use Rattle.std.specs.Prelude.{◌≡◌, IfOk, length};

use frame_mem::FrameMem;
use mck_word::{Frame, NoMemory};
use std::alloc::Global;
use std::test::*;
use std::thread::join;

fn filled(alloc: Global) -> Result<FrameMem, NoMemory>
    ensures { IfOk result (λ m. length m ≡ 3) }
{
    let mut mem = FrameMem::new(alloc, 3)?;
    mem.copy_in(Frame(1), 4094, &[7, 8]);
    mem.page_mut(Frame(2))[5] = 9;
    Ok(mem)
}

#[test]
fn copies_in_and_out(rt: HostRuntime) {
    let mut mem = filled(rt.alloc()).expect(&rt, "memory");
    let mut two = [1, 1];
    mem.copy_out(Frame(1), 4094, &mut two);
    assert_eq!(rt; two, [7, 8]);
    mem.copy_out(Frame(1), 4093, &mut two);
    assert_eq!(rt; two, [0, 7]);
    assert_eq!(rt; mem.page(Frame(2))[5], 9);
    mem.zero(Frame(1));
    assert_eq!(rt; mem.page(Frame(1))[4095], 0);
    assert_eq!(rt; mem.page(Frame(2))[5], 9);
    assert_eq!(rt; mem.len(), 3);
    mem.array_mut(Frame(0))[7] = 6;
    assert_eq!(rt; mem.array(Frame(0))[7], 6);
}

#[test]
fn is_read_by_two_threads(rt: HostRuntime) {
    let mem = filled(rt.alloc()).expect(&rt, "memory");
    let shared = &mem;
    let (a, b) = join(
        &rt,
        || shared.page(Frame(1))[4095],
        || shared.page(Frame(2))[5],
    );
    assert_eq!(rt; (a, b), (8, 9));
}

#[test]
fn goes_to_a_thread_and_back(rt: HostRuntime) {
    let mem = filled(rt.alloc()).expect(&rt, "memory");
    let (mem, _) = join(&rt, move || mem, || ());
    let mem: FrameMem = mem;
    drop(mem);
}
