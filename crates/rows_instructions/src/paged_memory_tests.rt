// Instructions over a plain paged memory.
ghost use Rattle.paged_memory.specs.Rows.{pages_of};

use isa_model::{Lack, Stop};
use mck_flags::Rights;
use mck_word::{Access, NoMemory, Regs};
use paged_memory::{PageRow, PagedRows};
use rv64i_user::{Kept, KnownWords, UserMem, run_known, run_most, step, step_known, step_to};
use std::alloc::Global;

// A page with words at its beginning.
fn page(rights: u8, words: &[u32]) -> PageRow {
    let mut bytes = [0u8; 4096];
    for (k, w) in words.iter().enumerate() {
        if k < 1024 {
            let b = w.to_le_bytes();
            bytes[4 * k] = b[0];
            bytes[4 * k + 1] = b[1];
            bytes[4 * k + 2] = b[2];
            bytes[4 * k + 3] = b[3];
        }
    }
    PageRow {
        rights: Rights(rights),
        bytes,
    }
}

// Page 0 without rights, page 1 with the code, pages 2 and 3 with data, page 4 only for reading.
fn memory(alloc: Global, code: &[u32]) -> Result<Kept<PagedRows>, NoMemory> {
    let mut rows = PagedRows::new(alloc);
    rows.push(page(0, &[]))?;
    rows.push(page(5, code))?;
    rows.push(page(3, &[0xffff_ffff]))?;
    rows.push(page(3, &[]))?;
    rows.push(page(1, &[]))?;
    Ok(Kept::over(rows))
}

fn start() -> Regs {
    Regs {
        pc: 0x1000,
        x: [0; 32],
    }
}

// What is left of a run over some code: the registers, the stop, and how many went on.
fn ran(alloc: Global, code: &[u32], most: u32, r: &mut Regs) -> Result<(Stop, u32), NoMemory> {
    let mut mem = memory(alloc, code)?;
    let mut stop = Stop::On;
    let n = run_most(r, &mut mem, &mut stop, most);
    let _rows = mem.into_mem();
    Ok((stop, n))
}

#[test]
fn stops_kill(rt: HostRuntime) {
    let mut r = start();
    // addi a0,x0,7; addi a7,x0,93; ecall
    assert_eq!(rt;
        ran(rt.alloc(), &[0x0070_0513, 0x05d0_0893, 0x73], 64, &mut r),
        Ok((Stop::Ecall, 2))
    );
    assert_eq!(rt; (r.pc, r.x[10], r.x[17]), (0x1008, 7, 93));
    let mut r = start();
    // jalr x0,6(x0)
    assert_eq!(rt;
        ran(rt.alloc(), &[0x0060_0067], 64, &mut r),
        Ok((Stop::Misaligned, 0))
    );
    assert_eq!(rt; r, start());
    assert_eq!(rt;
        ran(rt.alloc(), &[0x0010_0073], 64, &mut r),
        Ok((Stop::Break, 0))
    );
    assert_eq!(rt; ran(rt.alloc(), &[0], 64, &mut r), Ok((Stop::Illegal, 0)));
    // ld a0,0(x0)
    let lack = Lack {
        page: 0,
        access: Access::Read,
    };
    assert_eq!(rt;
        ran(rt.alloc(), &[0x0000_3503], 64, &mut r),
        Ok((Stop::Fault(lack), 0))
    );
    // sd x0,0(t0) with t0 in page 4
    r.x[5] = 0x4000;
    let lack = Lack {
        page: 4,
        access: Access::Write,
    };
    assert_eq!(rt;
        ran(rt.alloc(), &[0x0002_b023], 64, &mut r),
        Ok((Stop::Fault(lack), 0))
    );
    // jal x0,0 goes on; a page past the last has no word
    assert_eq!(rt;
        ran(rt.alloc(), &[0x0000_006f], 5, &mut r),
        Ok((Stop::On, 5))
    );
    r.pc = 0x5000;
    let lack = Lack {
        page: 5,
        access: Access::Exec,
    };
    assert_eq!(rt; ran(rt.alloc(), &[], 5, &mut r), Ok((Stop::Fault(lack), 0)));
}

// The same with instructions that were decoded before.
fn ran_known(rows: PagedRows, words: &mut KnownWords, most: u32, r: &mut Regs) -> (Stop, u32) {
    let mut mem = Kept::over(rows);
    let mut stop = Stop::On;
    let n = run_known(r, &mut mem, words, &mut stop, most);
    let _rows = mem.into_mem();
    (stop, n)
}

#[test]
fn stores_into_code(rt: HostRuntime) {
    // addi a0,a0,1; sw a1,0(t0); jal x0,-8; and a1 is the word of addi a0,a0,2
    let code = [0x0015_0513, 0x00b2_a023, 0xff9f_f06f];
    if let Ok(mut words) = KnownWords::new(rt.alloc()) {
        for _ in 0..2 {
            let mut rows = PagedRows::new(rt.alloc());
            assert!(rt; rows.push(page(0, &[])).is_ok() && rows.push(page(7, &code)).is_ok());
            let mut r = start();
            r.x[5] = 0x1000;
            r.x[11] = 0x0025_0513;
            assert_eq!(rt; ran_known(rows, &mut words, 7, &mut r), (Stop::On, 7));
            assert_eq!(rt; (r.pc, r.x[10]), (0x1004, 5));
        }
        let mut rows = PagedRows::new(rt.alloc());
        // The third of these words is none.
        let code = [0x0015_0513, 0x02b5_0533, 0x1005_a52f];
        assert!(rt; rows.push(page(5, &code)).is_ok());
        let mut r = start();
        r.pc = 0;
        r.x[10] = 5;
        r.x[11] = 7;
        let mut mem = Kept::over(rows);
        let mut stop = Stop::On;
        assert!(rt; step_known(&mut r, &mut mem, &mut words, &mut stop));
        assert!(rt; step_known(&mut r, &mut mem, &mut words, &mut stop));
        assert!(rt; !step_known(&mut r, &mut mem, &mut words, &mut stop));
        assert_eq!(rt; (stop, r.pc, r.x[10]), (Stop::Illegal, 8, 42));
        let _rows = mem.into_mem();
    } else {
        assert!(rt; false);
    }
}

#[test]
fn multiply_and_divide(rt: HostRuntime) {
    let mut r = start();
    r.x[10] = 6;
    r.x[11] = 7;
    // mul a0,a0,a1; div a1,a0,x0; remu a2,a0,x0
    let code = [0x02b5_0533, 0x0205_45b3, 0x0205_7633];
    assert_eq!(rt; ran(rt.alloc(), &code, 3, &mut r), Ok((Stop::On, 3)));
    assert_eq!(rt; (r.x[10], r.x[11], r.x[12]), (42, u64::MAX, 42));
}

#[test]
fn atomic_additions(rt: HostRuntime) {
    let mut r = start();
    r.x[11] = 0x2000;
    r.x[12] = 1;
    // amoadd.w a0,a2,(a1); lw a3,0(a1); lr.w a0,(a1)
    let code = [0x00c5_a52f, 0x0005_a683, 0x1005_a52f];
    assert_eq!(rt; ran(rt.alloc(), &code, 64, &mut r), Ok((Stop::Illegal, 2)));
    assert_eq!(rt; (r.x[10], r.x[13]), (u64::MAX, 0));
    let mut r = start();
    r.x[11] = 0x2002;
    assert_eq!(rt;
        ran(rt.alloc(), &code, 64, &mut r),
        Ok((Stop::Misaligned, 0))
    );
    // A page that may be read only, and one that may not even be read: the write access lacks.
    for page in [4u64, 0] {
        r.x[11] = page * 4096;
        let lack = Lack {
            page,
            access: Access::Write,
        };
        assert_eq!(rt;
            ran(rt.alloc(), &code, 64, &mut r),
            Ok((Stop::Fault(lack), 0))
        );
    }
}

// A memory with the three calls alone.
struct Plain {
    mem: Kept<PagedRows>,
}

impl UserMem for Plain {
    ghost memory = { λ s. pages_of s.mem.mem.rows.items };

    fn fetch(&self, pc: u64) -> Result<u32, Lack> {
        self.mem.fetch(pc)
    }

    fn load(&self, addr: u64, size: u32) -> Result<u64, Lack> {
        self.mem.load(addr, size)
    }

    fn store(&mut self, addr: u64, size: u32, v: u64) -> Result<(), Lack> {
        self.mem.store(addr, size, v)
    }
}

#[test]
fn across_pages(rt: HostRuntime) {
    // sd a0,0(t0); ld a1,0(t0); lbu a2,4(t0); sh a0,1(x0)
    let code = [0x00a2_b023, 0x0002_b583, 0x0042_c603, 0x00a0_10a3];
    if let Ok(mem) = memory(rt.alloc(), &code) {
        let mut mem = Plain { mem };
        let mut r = start();
        r.x[5] = 0x2ffc;
        r.x[10] = 0x1122_3344_5566_7788;
        assert_eq!(rt; step(&mut r, &mut mem), Stop::On);
        assert_eq!(rt; mem.load(0x2ffe, 4), Ok(0x3344_5566));
        let mut stop = Stop::On;
        assert!(rt; step_to(&mut r, &mut mem, &mut stop));
        assert!(rt; step_to(&mut r, &mut mem, &mut stop));
        assert_eq!(rt; (r.x[11], r.x[12]), (0x1122_3344_5566_7788, 0x44));
        let before = r;
        let lack = Lack {
            page: 0,
            access: Access::Write,
        };
        assert_eq!(rt; step(&mut r, &mut mem), Stop::Fault(lack));
        assert_eq!(rt; r, before);
        let lack = Lack {
            page: 4,
            access: Access::Write,
        };
        assert_eq!(rt; mem.store(0x3ffd, 8, 0), Err(lack));
        let Plain { mem } = mem;
        let _rows = mem.into_mem();
    } else {
        assert!(rt; false);
    }
}
