// Partitions don't mix.
ghost use Rattle.ihk_parts.specs.Turns.{words_of};
ghost use Rattle.job_model.specs.declared.image.Image.{Image};
ghost use Rattle.job_model.specs.declared.job.Job.{Job};
ghost use Rattle.mck_word.specs.Maps.{at};
ghost use Rattle.node_parts.specs.Courses.{one_on};
ghost use Rattle.node_parts.specs.Instances.{turned_times};
ghost use Rattle.node_parts.specs.Keeping.{IsOwned, KeepsInstance};
ghost use Rattle.node_parts.specs.Partitions.{Booted, Partitions, boot, cpu, create, gone_on, mem};
ghost use Rattle.node_parts.specs.Partitions.{nothing_parted, released, stands, turned, turned_where, walked};
ghost use Rattle.run_model.specs.Walks.{start};
ghost use Rattle.std.specs.Option.{option_map};
ghost use Rattle.std.specs.Prelude.{◌≡◌, ◌≢◌, ◌+◌, ℕ, Bool, List, Ok};

/// A call on one instance leaves every other one as it was, with what it had; and a turn moves each booted instance by
/// its own walk alone, and gives and takes nothing: after n turns an instance stands behind the n next events of its
/// walk, or at its end. Each core and each frame has one owner at most by construction.
pub fn parts_do_not_mix()
    ensures create { (i j : ℕ) (s t : Partitions) → j ≢ i → create i s ≡ Ok t → KeepsInstance j s t }
    ensures cpu { (i j core : ℕ) (s t : Partitions) → j ≢ i → cpu i core s ≡ Ok t → KeepsInstance j s t }
    ensures mem { (i j n : ℕ) (s t : Partitions) → j ≢ i → mem i n s ≡ Ok t → KeepsInstance j s t }
    ensures boot { (i j order : ℕ) (job : Job) (images : List Image) (s t : Partitions) → j ≢ i
        → boot i job images order s ≡ Ok t → KeepsInstance j s t }
    ensures released { (i j : ℕ) (s : Partitions) → j ≢ i → KeepsInstance j s (released i s) }
    ensures turned { (j : ℕ) (s : Partitions)
        → at (turned s).instances j ≡ option_map (option_map gone_on) (at s.instances j) }
    ensures owners { (s : Partitions)
        → ((turned s).core_owners ≡ s.core_owners) × ((turned s).frame_owners ≡ s.frame_owners) }
    ensures own_walk { (b : Booted) → stands (gone_on b) ≡ one_on (words_of b.order) (stands b) }
    ensures turns { (n : ℕ) (b : Booted)
        → stands (turned_times n b) ≡ walked (words_of b.order) (b.made + n) (start b.job b.images) }
{}

/// Every owner is an instance that is there: so at first, and each call keeps it.
pub fn owners_are_there()
    ensures begins { (cores frames : ℕ) → IsOwned (nothing_parted cores frames) }
    ensures create { (i : ℕ) (s t : Partitions) → IsOwned s → create i s ≡ Ok t → IsOwned t }
    ensures cpu { (i core : ℕ) (s t : Partitions) → IsOwned s → cpu i core s ≡ Ok t → IsOwned t }
    ensures mem { (i n : ℕ) (s t : Partitions) → IsOwned s → mem i n s ≡ Ok t → IsOwned t }
    ensures boot { (i order : ℕ) (job : Job) (images : List Image) (s t : Partitions) → IsOwned s
        → boot i job images order s ≡ Ok t → IsOwned t }
    ensures turned { (passes : ℕ → Bool) (s : Partitions) → IsOwned s → IsOwned (turned_where passes s) }
    ensures released { (i : ℕ) (s : Partitions) → IsOwned s → IsOwned (released i s) }
{}
