//! No atomic addition is lost: a doubleword into which threads store only by AMOADD.D has, after any stretch of any legal journal, its value
//! before and all that was added, modulo 2 ^ 64.
//!
//! A function here has no work to do: its contract is the law. The words stand in specs/Additions, the proofs in proofs/.
#![tactic(auto)]

ghost use Rattle.atomic_laws.specs.Additions.{HasWholePages, OnlyAdds, IsAmoadd, IsDoubleword, IsMore, PagesWhole, added, adds, doubleword, doubleword_of, only_adds, writes};
ghost use Rattle.hybrid_model.specs.Boot.{boot};
ghost use Rattle.hybrid_model.specs.Events.{after, may};
ghost use Rattle.hybrid_model.specs.Globals.{Coherent};
ghost use Rattle.hybrid_model.specs.Images.{image};
ghost use Rattle.hybrid_model.specs.Journals.{IsLegal, images, state};
ghost use Rattle.hybrid_model.specs.Pairs.{Pair};
ghost use Rattle.hybrid_model.specs.Shown.{one};
ghost use Rattle.hybrid_model.specs.declared.events.Event.{Event};
ghost use Rattle.isa_model.specs.Atomics.{AmIns};
ghost use Rattle.isa_model.specs.Instr.{instr};
ghost use Rattle.isa_model.specs.Memory.{Memory};
ghost use Rattle.isa_model.specs.Registers.{reg};
ghost use Rattle.job_model.specs.Prepared.{IsPrepared};
ghost use Rattle.job_model.specs.declared.image.Image.{Image};
ghost use Rattle.job_model.specs.declared.job.Job.{Job};
ghost use Rattle.mck_word.specs.declared.Regs.{Regs};
ghost use Rattle.std.specs.Prelude.{◌≡◌, ◌++◌, List, true, ℕ};

/// One instruction that stores into a doubleword only as an AMOADD.D there: it leaves the value before and what it adds. An AMOADD.D that
/// may read and write there adds the value of its second register.
pub fn one_instruction_adds()
    ensures adds { (a : ℕ) (r : Regs) (m : Memory) → IsDoubleword a → HasWholePages m → only_adds a (writes r m) ≡ true
        → IsMore (doubleword m a) (added a (writes r m)) (doubleword (instr r m).memory a) }
    ensures counts { (a : ℕ) (r : Regs) (m : Memory) (i : AmIns) → IsDoubleword a → IsAmoadd a r m i → added a (writes r m) ≡ reg r i.rs2 }
{}

/// An event of the two kernels, as a Run in which each instruction of the process that stores into the doubleword is an AMOADD.D there: after it
/// the doubleword has its value before and the sum of what these add. Pages have their 4,096 bytes in each state that a legal journal leaves.
pub fn one_event_adds()
    ensures adds { (pair : Pair) (e : Event) (p a : ℕ) → IsDoubleword a → Coherent pair → PagesWhole pair → may pair e ≡ true
        → OnlyAdds p a (one pair) (image pair e) → IsMore (doubleword_of pair p a) (adds p a (one pair) (image pair e)) (doubleword_of (after pair e) p a) }
    ensures whole { (pair : Pair) (e : Event) → Coherent pair → PagesWhole pair → may pair e ≡ true → PagesWhole (after pair e) }
    ensures always { (job : Job) (imgs : List Image) (journal : List Event) → IsPrepared job imgs → IsLegal job imgs journal
        → PagesWhole (state (boot job imgs) journal) }
{}

/// Any stretch of any legal journal, from the boot on or from later: where nothing changes a process's doubleword but the additions of its
/// threads, it has at the end the value that it had and the sum of all additions, modulo 2 ^ 64.
pub fn no_addition_is_lost()
    ensures { (job : Job) (imgs : List Image) (before during : List Event) (p a : ℕ) → IsDoubleword a → IsPrepared job imgs → IsLegal job imgs (before ++ during)
        → OnlyAdds p a (one (state (boot job imgs) before)) (images (state (boot job imgs) before) during)
        → IsMore (doubleword_of (state (boot job imgs) before) p a) (adds p a (one (state (boot job imgs) before)) (images (state (boot job imgs) before) during))
        (doubleword_of (state (boot job imgs) (before ++ during)) p a) }
{}
