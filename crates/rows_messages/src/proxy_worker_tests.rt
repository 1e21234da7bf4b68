// A worker that faults and is answered, and the turns at pipes.
use clear_rounds::Round;
use ikc_ring::{CallRequest, Msg};
use mck_flags::Rights;
use mck_word::{Access, Frame, NoMemory, PageRange, Pid, Req, Tid};
use proxy_worker::{Proxy, Turn, Turns};
use request_book::{Book, ReqState};
use std::alloc::Global;
use std::test::Fail;
use system_calls::FileCall;

// Posts a write of five bytes.
fn post(book: &mut Book) -> Result<CallRequest, NoMemory> {
    book.reserve()?;
    let call = CallRequest {
        q: book.fresh(),
        tid: Tid(17),
        call: FileCall::Write,
        args: [1, 0x1000, 5, 0, 0, 0],
    };
    if call.q.0 < u64::MAX - 1 {
        book.number(call);
    }
    Ok(call)
}

fn fetch_call(
    proxy: &mut Proxy,
    alloc: Global,
    call: CallRequest,
    book: &mut Book,
    round: &mut Round,
) -> Result<(), NoMemory> {
    proxy.reserve_service()?;
    if book.standing(call.q) == ReqState::Posted {
        proxy.fetch(alloc, &Msg::Request(call), book, round);
    }
    Ok(())
}

fn assign(proxy: &mut Proxy, worker: u32, book: &mut Book) {
    let Some(q) = book.oldest() else {
        return;
    };
    if worker < 4 && proxy.may_assign(worker, book) && proxy.has_service(q) {
        proxy.assign(worker, book);
    }
}

fn fetch_row(
    proxy: &mut Proxy,
    alloc: Global,
    worker: u32,
    row: (Frame, Rights),
    book: &mut Book,
    round: &mut Round,
) -> Result<(), NoMemory> {
    proxy.reserve_mirror()?;
    if book.standing(proxy.serves(worker)) == ReqState::Faulted {
        let m = Msg::Answer {
            worker,
            page: 1,
            round: 0,
            row: Some(row),
        };
        proxy.fetch(alloc, &m, book, round);
    }
    Ok(())
}

fn fetch_clear(
    proxy: &mut Proxy,
    alloc: Global,
    range: PageRange,
    book: &mut Book,
    round: &mut Round,
) {
    if round.now().is_none() && proxy.cleared() < 9 {
        round.begin(range);
        proxy.fetch(alloc, &Msg::Clear(range), book, round);
    }
}

#[test]
fn a_worker_faults_and_pins(rt: HostRuntime) -> Result<(), Fail> {
    let mut proxy = Proxy::new(rt.alloc());
    let mut book = Book::new(rt.alloc());
    let mut round = Round::new();
    let call = post(&mut book)?;
    fetch_call(&mut proxy, rt.alloc(), call, &mut book, &mut round)?;
    assert!(rt; proxy.has_service(call.q) && proxy.is_idle(0));
    assign(&mut proxy, 0, &mut book);
    assert_eq!(rt; proxy.serves(0), call.q);
    assert!(rt; proxy.holds(0, &book));
    if proxy.holds(0, &book) {
        let fault = proxy.miss(0, &mut book);
        assert!(rt; matches!(fault, Msg::Fault { worker: 0, .. }));
    }
    assert!(rt; !proxy.holds(0, &book));
    let row = (Frame(7), Rights::READ);
    fetch_row(&mut proxy, rt.alloc(), 0, row, &mut book, &mut round)?;
    assert!(rt; proxy.holds(0, &book));
    assert_eq!(rt; proxy.mirror().look(1, Access::Read), Some(row));
    let range = PageRange { lo: 1, hi: 2 };
    fetch_clear(&mut proxy, rt.alloc(), range, &mut book, &mut round);
    assert_eq!(rt; proxy.mirror().look(1, Access::Read), None);
    assert!(rt; proxy.may_ack_clear(&round));
    Ok(())
}

#[test]
fn turns_by_end(rt: HostRuntime) -> Result<(), Fail> {
    let mut turns = Turns::new(rt.alloc());
    turns.reserve()?;
    turns.take(Pid(1), Req(2), Some(6));
    let turn = Turn {
        process: Pid(1),
        request: Req(2),
    };
    assert_eq!(rt; turns.look(6), Some(turn));
    assert!(rt; turns.other_has_turn(Pid(1), Req(3), Some(6)));
    assert!(rt; !turns.other_has_turn(Pid(1), Req(2), Some(6)));
    turns.give_up(Pid(3), Req(2), Some(6));
    assert_eq!(rt; turns.look(6), Some(turn));
    turns.give_up(Pid(1), Req(2), Some(6));
    assert_eq!(rt; turns.look(6), None);
    Ok(())
}
