// The turns at the ends of pipes.
ghost use Rattle.hybrid_model.specs.Turns.{is_turn_for, other_has_turn, turn_given_up, with_turn, without_turn};
ghost use Rattle.mck_word.specs.Maps.{at, cut, no_rows};
ghost use Rattle.proxy_worker.specs.Shown.{HasTurnRoom, linux_of, shown_turn, turns_of};
ghost use Rattle.std.specs.Prelude.{◌≡◌, IsSome, OnOk, option_map};

use crate::proxy::Proxy;
use file_calls::store::FileStore;
use key_rows::Rows;
use mck_word::{NoMemory, Pid, Req};
use std::alloc::Global;

/// The request that has the turn of a pipe's end, and its process.
#[derive(Clone, Copy, PartialEq, Eq, Debug)]
pub struct Turn {
    pub process: Pid,
    pub request: Req,
}

/// The turns by the end of a pipe: 2 k is the reading end of pipe k, 2 k + 1 its writing end.
#[derive(Drop)]
pub struct Turns {
    pub(crate) rows: Rows<Turn>,
}

#[tactic(auto, using(mck_word::specs::EachLaws::each_maps))]
impl Turns {
    /// No turns. Can't fail.
    pub fn new(alloc: Global) -> Turns
        ensures { turns_of result ≡ no_rows }
    {
        Turns {
            rows: Rows::new(alloc),
        }
    }

    /// Makes room for one turn. The turns stay, also where memory lacks.
    pub fn reserve(&mut self) -> Result<(), NoMemory>
        ensures same { turns_of self.new ≡ turns_of self.old }
        ensures room { OnOk result (HasTurnRoom self.new) }
    {
        self.rows.reserve(1)?;
        Ok(())
    }

    /// The turn of a pipe's end: None exactly where no request has it.
    pub fn look(&self, end: u64) -> Option<Turn>
        ensures { option_map shown_turn result ≡ at (turns_of self.now) end }
    {
        self.rows.get(end).copied()
    }

    /// Whether the request of the process has the turn of the end.
    fn is_for(&self, pid: Pid, request: Req, end: u64) -> bool
        ensures { result ≡ is_turn_for pid.0 request.0 (at (turns_of self.now) end) }
    {
        match self.look(end) {
            Some(turn) => turn.process.0 == pid.0 && turn.request.0 == request.0,
            None => false,
        }
    }

    /// Whether another request has the turn of the end.
    pub fn other_has_turn(&self, pid: Pid, request: Req, end: Option<u64>) -> bool
        ensures { result ≡ other_has_turn (turns_of self.now) end pid.0 request.0 }
    {
        match end {
            Some(end) => self.look(end).is_some() && !self.is_for(pid, request, end),
            None => false,
        }
    }

    /// Gives up the turn of the end, where the request has it.
    pub fn give_up(&mut self, pid: Pid, request: Req, end: Option<u64>)
        ensures { turns_of self.new ≡ without_turn pid.0 request.0 end (turns_of self.old) }
    {
        if let Some(end) = end {
            if self.is_for(pid, request, end) {
                self.drop_turn(end);
            }
        }
    }

    /// Drops the turn of an end that has one.
    fn drop_turn(&mut self, end: u64)
        requires { IsSome (at (turns_of self.old) end) }
        ensures { turns_of self.new ≡ cut (turns_of self.old) end }
    {
        let _ = self.rows.remove(end);
    }

    /// Gives the request the turn of the end.
    pub fn take(&mut self, pid: Pid, request: Req, end: Option<u64>)
        requires { HasTurnRoom self.old }
        ensures { turns_of self.new ≡ with_turn pid.0 request.0 end (turns_of self.old) }
    {
        if let Some(end) = end {
            self.rows.put(
                end,
                Turn {
                    process: pid,
                    request,
                },
            );
        }
    }
}

impl Proxy {
    /// Gives up the turn of the request that the worker serves.
    #[tactic(auto, unfolding(hybrid_model::specs::Turns::turn_given_up))]
    pub fn give_up_turn<S: FileStore>(&self, worker: u32, files: &S, pid: Pid, turns: &mut Turns)
        ensures { turns_of turns.new ≡ turn_given_up pid.0 (linux_of self.now) (S.files files.now) worker (turns_of turns.old) }
    {
        let q = self.serves(worker);
        turns.give_up(pid, q, self.pipe_end(q, files));
    }
}
