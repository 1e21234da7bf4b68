// Unpark: a parked request that can go on waits for a worker again.
ghost use Rattle.hybrid_model.specs.Sides.{state_of};
ghost use Rattle.hybrid_model.specs.Unpark.{may_take_turn, may_unpark, turns_after_unpark, unpark};
ghost use Rattle.hybrid_model.specs.Workers.{is_parked};
ghost use Rattle.proxy_worker.specs.Shown.{HasTurnRoom, linux_of, turns_of};
ghost use Rattle.std.specs.Prelude.{◌≡◌, true};

use crate::proxy::Proxy;
use crate::standing::{is_file_step, is_parked, is_ready};
use crate::turns::Turns;
use file_calls::store::FileStore;
use mck_word::{Pid, Req};
use request_book::Book;

impl Proxy {
    /// Whether the request's step is ready, and no other request has the turn of that end.
    pub(crate) fn may_take_turn<S: FileStore>(
        &self,
        q: Req,
        files: &S,
        pid: Pid,
        turns: &Turns,
    ) -> bool
        ensures { result ≡ may_take_turn pid.0 (linux_of self.now) (S.files files.now) (turns_of turns.now) q.0 }
    {
        is_ready(self.next_kind(q, files)) && !turns.other_has_turn(pid, q, self.pipe_end(q, files))
    }

    /// Whether the parked request may wait for a worker again.
    pub fn may_unpark<S: FileStore>(
        &self,
        q: Req,
        book: &Book,
        files: &S,
        pid: Pid,
        turns: &Turns,
    ) -> bool
        ensures { result ≡ may_unpark pid.0 (linux_of self.now) book.now.requests (S.files files.now) (turns_of turns.now) q.0 }
    {
        is_parked(book.standing(q))
            && (self.is_interrupted(q)
                || is_file_step(self.next_kind(q, files))
                || self.may_take_turn(q, files, pid, turns))
    }

    /// A parked request waits for a worker again, behind the others.
    #[tactic(auto, unfolding(hybrid_model::specs::Unpark::unpark))]
    pub fn unpark(q: Req, book: &mut Book)
        requires { is_parked (state_of book.old.requests q.0) ≡ true }
        ensures { book.new.requests ≡ unpark book.old.requests q.0 }
    {
        book.unparked(q);
    }

    /// Gives the request, which is to wait for a worker again, the turn of its pipe's end, where its step is ready and
    /// no other has it.
    #[tactic(auto, unfolding(hybrid_model::specs::Unpark::turns_after_unpark))]
    pub fn take_turn<S: FileStore>(&self, q: Req, files: &S, pid: Pid, turns: &mut Turns)
        requires { HasTurnRoom turns.old }
        ensures { turns_of turns.new ≡ turns_after_unpark pid.0 (linux_of self.now) (S.files files.now) (turns_of turns.old) q.0 }
    {
        if self.may_take_turn(q, files, pid, turns) {
            turns.take(pid, q, self.pipe_end(q, files));
        }
    }
}
