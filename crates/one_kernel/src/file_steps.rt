// The steps of a call on files and pages.
ghost use Rattle.kernel_model.specs.Steps.{after};
ghost use Rattle.kernel_model.specs.declared.steps.Step.TheVariants.{FileStep, Piece};
ghost use Rattle.one_kernel.specs.Parts.{one_of};
ghost use Rattle.one_kernel.specs.Ready.{Ready};
ghost use Rattle.one_kernel.specs.Rooms.{HasFileRoom, HasPieceRoom};
ghost use Rattle.std.specs.Prelude.{◌≡◌};

use crate::calls::stood;
use crate::parts::One;
use mck_word::Tid;

impl One {
    /// The call of the thread makes its next step, which is a file step.
    pub fn file_step(&mut self, t: Tid)
        requires ready { Ready (one_of self.old) (FileStep t) }
        requires room { HasFileRoom self.old t.0 }
        ensures { one_of self.new ≡ after (one_of self.old) (FileStep t) }
    {
        let p = self.node.process_of_thread(t);
        let own = self.own.row_mut(p.0 as u64);
        let call = own.calls.row_mut(t.0 as u64);
        let ended = call.progress.take_file_step(&mut self.files, p);
        call.standing = stood(ended);
    }

    /// The call of the thread moves its next piece.
    pub fn piece(&mut self, t: Tid)
        requires ready { Ready (one_of self.old) (Piece t) }
        requires room { HasPieceRoom self.old t.0 }
        ensures { one_of self.new ≡ after (one_of self.old) (Piece t) }
    {
        let p = self.node.process_of_thread(t);
        let own = self.own.row_mut(p.0 as u64);
        let call = own.calls.row_mut(t.0 as u64);
        let page = call.progress.next_piece().page;
        // The page is there, so its number is low.
        let _there = own.memory.has_right(call.progress.needed_access(), page);
        let bytes = own.memory.bytes_mut(page);
        let ended = call.progress.move_piece(&mut self.files, p, bytes);
        call.standing = stood(ended);
    }
}
