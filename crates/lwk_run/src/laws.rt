// Laws of runs.
ghost use Rattle.hybrid_model.specs.OneProcess.{ran_last};
ghost use Rattle.hybrid_model.specs.Run.{executed_in_run, length_of_run, run, run_for};
ghost use Rattle.hybrid_model.specs.Pairs.{Here};
ghost use Rattle.isa_model.specs.Instr.{Outcome};
ghost use Rattle.isa_model.specs.Memory.{Memory};
ghost use Rattle.kernel_model.specs.Nodes.{Node, Thread};
ghost use Rattle.lwk_run.specs.Counts.{executed_count, node_after};
ghost use Rattle.lwk_run.specs.Lent.{StoredTo};
ghost use Rattle.lwk_space.specs.Frames.{frames_map};
ghost use Rattle.lwk_space.specs.Lacks.{memory};
ghost use Rattle.mck_word.specs.Maps.{at};
ghost use Rattle.rv64i_user.specs.Runs.{instrs};
ghost use Rattle.std.specs.Prelude.{◌≡◌, ◌≤◌, ℕ, List, Some};

/// A run of a thread leaves its registers and its memory as its instructions do, its does as their stop says, and counts them for its process.
pub fn a_run_is_the_nodes_run()
    ensures after { (n t : ℕ) (node : Node) (x : Thread) (m : Memory) → 1 ≤ n → at node.threads t ≡ Some x
        → run_for n t (record { node = node; memory = m }) ≡ record { node = node_after t (instrs n x.regs m) (executed_count n x.regs m) node; memory = (instrs n x.regs m).memory } }
    ensures count { (n t : ℕ) (node : Node) (x : Thread) (m : Memory) → at node.threads t ≡ Some x
        → length_of_run n t (record { node = node; memory = m }) ≡ executed_count n x.regs m }
{}

/// The event Run of a thread, where its registers and the frames were run from what stood there before to what stands there after.
pub fn a_run_is_the_event()
    ensures after { (n t : ℕ) (h : Here) (x : Thread) (before after : List (List ℕ)) (o : Outcome) → 1 ≤ n → at h.node.threads t ≡ Some x → h.frames ≡ frames_map before
        → StoredTo h.side.lwk.table before after → o ≡ instrs n x.regs (memory h.side.lwk.table before) → o.memory ≡ memory h.side.lwk.table after
        → run t n h ≡ ran_last t (record h { node = node_after t o (executed_count n x.regs (memory h.side.lwk.table before)) h.node; frames = frames_map after }) }
    ensures count { (n t : ℕ) (h : Here) (x : Thread) (before : List (List ℕ)) → at h.node.threads t ≡ Some x → h.frames ≡ frames_map before
        → executed_in_run t n h ≡ executed_count n x.regs (memory h.side.lwk.table before) }
{}
