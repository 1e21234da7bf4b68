// Signs, pieces of a range, own lists and decimal numbers.
use mck_word::{Bytes, Piece, pieces, read_number, sext};

#[test]
fn signs(rt: HostRuntime) {
    assert_eq!(rt; sext(0x800, 12), 0xffff_ffff_ffff_f800);
    assert_eq!(rt; sext(0xf7ff, 12), 0x7ff);
    assert_eq!(rt; sext(0x1_8000_0000, 32), 0xffff_ffff_8000_0000);
    assert_eq!(rt; sext(5, 64), 5);
    assert_eq!(rt; sext(1, 1), u64::MAX);
}

#[test]
fn cuts(rt: HostRuntime) {
    let mut it = pieces(0x1ffe, 4100);
    assert_eq!(rt;
        it.next(),
        Some(Piece {
            page: 1,
            off: 4094,
            len: 2
        })
    );
    assert_eq!(rt;
        it.next(),
        Some(Piece {
            page: 2,
            off: 0,
            len: 4096
        })
    );
    assert_eq!(rt;
        it.next(),
        Some(Piece {
            page: 3,
            off: 0,
            len: 2
        })
    );
    assert_eq!(rt; it.next(), None);
    let mut last = 0;
    for p in pieces(0x1ffe, 4100) {
        last = p.page;
    }
    assert_eq!(rt; last, 3);
    let mut b = Bytes::new(rt.alloc());
    assert!(rt; b.push(7).is_ok());
    assert!(rt; b.add(&[8, 9]).is_ok());
    assert_eq!(rt; b.as_slice(), [7, 8, 9].as_slice());
    assert_eq!(rt; b.len(), 3);
    assert_eq!(rt; read_number(b"1205"), Some(1205));
    assert_eq!(rt; read_number(b"016"), None);
    assert_eq!(rt; read_number(b"18446744073709551616"), None);
}
