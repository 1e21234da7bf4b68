// Requests that are posted, served and answered.
use ikc_ring::CallRequest;
use mck_word::{NoMemory, Req, Tid};
use request_book::{Book, ReqState};
use std::process::Abort;
use std::test::Fail;
use system_calls::FileCall;

// Posts a call of thread 1, where the numbers last.
fn post(book: &mut Book) -> Result<Req, NoMemory> {
    book.reserve()?;
    let q = book.fresh();
    if q.0 < u64::MAX - 1 {
        let call = CallRequest {
            q,
            tid: Tid(1),
            call: FileCall::Write,
            args: [1, 2, 3, 0, 0, 0],
        };
        return Ok(book.number(call));
    }
    Ok(q)
}

fn fetch(book: &mut Book, q: Req) {
    if book.state(q) == Some(ReqState::Posted) {
        book.fetched(q);
    }
}

// A worker takes the oldest.
fn assign(book: &mut Book) -> Option<Req> {
    let q = book.oldest()?;
    if book.state(q) == Some(ReqState::Waiting) {
        book.assigned(q);
    }
    Some(q)
}

fn park(book: &mut Book, q: Req) {
    if book.state(q) == Some(ReqState::Held) {
        book.parked(q);
    }
}

fn unpark(book: &mut Book, q: Req) {
    if book.state(q) == Some(ReqState::Parked) {
        book.unparked(q);
    }
}

fn fault(book: &mut Book, q: Req) {
    if book.state(q) == Some(ReqState::Held) {
        book.faulted(q);
    }
}

fn answer(book: &mut Book, q: Req) {
    if book.state(q) == Some(ReqState::Faulted) {
        book.answered(q);
    }
}

fn end(book: &mut Book, q: Req) {
    match book.state(q) {
        Some(ReqState::Held) => book.ended(q),
        Some(ReqState::Faulted) => book.ended(q),
        _ => {}
    }
}

fn reply(book: &mut Book, q: Req) {
    if book.state(q) == Some(ReqState::Ended) {
        book.replied(q);
    }
}

fn requests_in_order_in(rt: &impl Abort, book: &mut Book) -> Result<(), Fail> {
    assert_eq!(rt; book.oldest(), None);
    for n in 1..4 {
        assert_eq!(rt; post(book)?, Req(n));
    }
    for n in [2, 1, 3] {
        fetch(book, Req(n));
    }
    assert_eq!(rt; assign(book), Some(Req(2)));
    assert_eq!(rt; book.oldest(), Some(Req(1)));
    park(book, Req(2));
    assert_eq!(rt; book.parked_from(Req(1)), Some(Req(2)));
    assert_eq!(rt; book.parked_from(Req(3)), None);
    assert_eq!(rt; assign(book), Some(Req(1)));
    unpark(book, Req(2));
    assert_eq!(rt; book.oldest(), Some(Req(3)));
    fault(book, Req(1));
    assert_eq!(rt; book.state(Req(1)), Some(ReqState::Faulted));
    answer(book, Req(1));
    end(book, Req(1));
    assert_eq!(rt; book.state(Req(1)), Some(ReqState::Ended));
    assert!(rt; book.call(Req(1)).is_some());
    reply(book, Req(1));
    assert_eq!(rt; book.state(Req(1)), Some(ReqState::Replied));
    assert_eq!(rt; book.call(Req(1)), None);
    assert_eq!(rt; book.state(Req(0)), None);
    assert_eq!(rt; book.state(Req(4)), None);
    assert_eq!(rt; post(book)?, Req(4));
    Ok(())
}

#[test]
fn requests_in_order(rt: HostRuntime) -> Result<(), Fail> {
    let mut book = Book::new(rt.alloc());
    requests_in_order_in(&rt, &mut book)
}
