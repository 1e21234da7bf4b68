// Laws of the events of the lightweight kernel.
ghost use Rattle.hybrid_laws.specs.OneProcess.{FramesOf, RingsHold, NodeHolds};
ghost use Rattle.hybrid_laws.specs.EventKinds.{is_quiet_lwk};
ghost use Rattle.hybrid_laws.specs.Simulated.{Simulated};
ghost use Rattle.hybrid_model.specs.Claims.{Holds, Runs};
ghost use Rattle.hybrid_model.specs.Coherence.{OfProcess};
ghost use Rattle.hybrid_model.specs.Events.{after, after_here, may, may_here};
ghost use Rattle.hybrid_model.specs.Globals.{Coherent};
ghost use Rattle.hybrid_model.specs.Images.{image};
ghost use Rattle.hybrid_model.specs.Answer.{answer_to};
ghost use Rattle.hybrid_model.specs.OneProcess.{space_here};
ghost use Rattle.hybrid_model.specs.Pairs.{Here, Pair, here, ring_of, side_of};
ghost use Rattle.hybrid_model.specs.Shown.{one};
ghost use Rattle.hybrid_model.specs.Sides.{Row, Side};
ghost use Rattle.hybrid_model.specs.Tallies.{Reads};
ghost use Rattle.hybrid_model.specs.declared.events.Event.{Event};
ghost use Rattle.hybrid_model.specs.declared.events.Event.TheVariants.{Answer, Intake, Reap, Trap};
ghost use Rattle.kernel_model.specs.Nodes.{thread_of};
ghost use Rattle.mck_word.specs.declared.Pid.{Pid};
ghost use Rattle.mck_word.specs.declared.Tid.{Tid};
ghost use Rattle.std.specs.Prelude.{◌≡◌, ◌≢◌, true, None, Some, length, ℕ};

/// Run, Deliver, Answer, BeginVm, Interrupt, Wait, Reap and Script, where they may happen in a coherent state.
pub fn every_quiet_lwk_event()
    ensures { (pair : Pair) (e : Event) → Coherent pair → is_quiet_lwk e ≡ true → may pair e ≡ true → Holds pair e }
{}

/// Intake of a Reply, of a Fault and of an Ack with any change: coherence is kept, and the image is a run of the one-kernel machine.
pub fn every_intake()
    ensures coherent { (pair : Pair) (q : Pid) → Coherent pair → may pair (Intake q) ≡ true → Coherent (after pair (Intake q)) }
    ensures simulated { (pair : Pair) (q : Pid) → Coherent pair → may pair (Intake q) ≡ true → Runs (one pair) (image pair (Intake q)) (one (after pair (Intake q))) }
{}

/// Every event, of either kernel, that may happen in a coherent state: coherence is kept, and the image is a run of the one-kernel machine.
pub fn every_event()
    ensures { (pair : Pair) (e : Event) → Coherent pair → may pair e ≡ true → Coherent (after pair e) × Runs (one pair) (image pair e) (one (after pair e)) }
{}

/// A trap, whatever it comes to: done at once, a process that begins, a delegated call, a change of the memory.
pub fn every_trap()
    ensures { (pair : Pair) (t : Tid) → Coherent pair → may pair (Trap t) ≡ true → Coherent (after pair (Trap t)) × Runs (one pair) (image pair (Trap t)) (one (after pair (Trap t))) }
{}

/// Any trap, also one that changes the memory at once or makes a process, on the process of its thread: what holds of it is kept, and so is
/// what holds of every other process; a process that begins holds too; and the one-kernel machine does the same.
pub fn every_trap_of_one_process()
    ensures own { (p workers : ℕ) (t : Tid) (h : Here) → may_here (Trap t) h ≡ true → (thread_of h.node t.0).process ≡ p → NodeHolds h.node → RingsHold h
        → OfProcess p h.side h.node workers (ring_of h) → OfProcess p (after_here (Trap t) p h).side (after_here (Trap t) p h).node workers (ring_of h) }
    ensures others { (p q workers : ℕ) (t : Tid) (h : Here) (side : Side) (ring : ℕ → ℕ) → may_here (Trap t) h ≡ true → (thread_of h.node t.0).process ≡ p → NodeHolds h.node
        → p ≢ q → q ≢ h.node.next_number → OfProcess q side h.node workers ring → OfProcess q side (after_here (Trap t) p h).node workers ring }
    ensures simulated { (p workers : ℕ) (t : Tid) (h : Here) (tables : ℕ → Reads Row) → may_here (Trap t) h ≡ true → (thread_of h.node t.0).process ≡ p → NodeHolds h.node
        → OfProcess p h.side h.node workers (ring_of h) → FramesOf tables p (space_here h) → h.born ≡ None → Simulated (Trap t) p h }
{}

/// Answer with a row and without one: coherence is kept, and the image is a run of the one-kernel machine.
pub fn every_answer()
    ensures with_row { (pair : Pair) (q : Pid) (w : ℕ) (row : Row) → Coherent pair → may pair (Answer q w) ≡ true → answer_to (side_of pair q.0) w ≡ Some row
        → Coherent (after pair (Answer q w)) × Runs (one pair) (image pair (Answer q w)) (one (after pair (Answer q w))) }
    ensures empty { (pair : Pair) (q : Pid) (w : ℕ) → Coherent pair → may pair (Answer q w) ≡ true → answer_to (side_of pair q.0) w ≡ None
        → Coherent (after pair (Answer q w)) × Runs (one pair) (image pair (Answer q w)) (one (after pair (Answer q w))) }
{}

/// Reap: coherence is kept, and the image is a run of the one-kernel machine.
pub fn every_reap()
    ensures { (pair : Pair) (q : Pid) → Coherent pair → may pair (Reap q) ≡ true → Coherent (after pair (Reap q)) × Runs (one pair) (image pair (Reap q)) (one (after pair (Reap q))) }
{}
