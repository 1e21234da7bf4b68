// Laws of instructions.
ghost use Rattle.std.specs.Prelude.{ℕ, ◌≡◌, ◌≢◌, ◌<◌, ◌^◌};
ghost use Rattle.mck_word.specs.declared.Regs.{Regs};
ghost use Rattle.isa_model.specs.Instr.{instr};
ghost use Rattle.rv64i_user.specs.Seen.{Extends, FaultIsKnown, DoesTheSame, RunFaultIsKnown, RunsTheSame};
ghost use Rattle.isa_model.specs.Memory.{Memory};
ghost use Rattle.isa_model.specs.declared.stops.Stop.TheVariants.{On};

/// An instruction that stops leaves registers and memory.
pub fn stops_change_nothing()
    ensures { (r : Regs) (m : Memory) → (instr r m).stop ≢ On
        → ((instr r m).regs ≡ r) × ((instr r m).memory ≡ m) }
{}

/// An instruction does the same on the pages that were seen and on all pages, unless it stops at one that wasn't seen.
pub fn seen_pages_decide()
    ensures { (r : Regs) (m w : Memory) → r.pc < 2 ^ 64 → Extends m w → FaultIsKnown r m w
        → DoesTheSame r m w }
{}

/// So do several instructions.
pub fn seen_pages_decide_runs()
    ensures { (n : ℕ) (r : Regs) (m w : Memory) → r.pc < 2 ^ 64 → Extends m w → RunFaultIsKnown n r m w
        → RunsTheSame n r m w }
{}
