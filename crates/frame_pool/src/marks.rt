// The tree of marks: node 1 is the root, node k has the children 2 k and 2 k + 1.
ghost use Rattle.frame_pool.specs.Trees.{IsMarked, marked};
ghost use Rattle.std.specs.Prelude.{◌≡◌, ◌≢◌, ℕ, ◌*◌, ◌^◌, ◌<◌, ◌≤◌, length, true, false};

/// Sets the mark of a leaf, and those of the nodes above it.
pub fn mark(nodes: &mut [bool], leaves: usize, leaf: usize, free: bool)
    requires size { length nodes.old ≡ 2 * leaves }
    requires small { leaves ≤ 2 ^ 32 }
    requires leaf { leaves ≤ leaf }
    requires inside { leaf < 2 * leaves }
    requires rule { IsMarked nodes.old leaves }
    ensures rule { IsMarked nodes.new leaves }
    ensures leaf { marked nodes.new leaf ≡ free }
    ensures size { length nodes.new ≡ length nodes.old }
    ensures others { (k : ℕ) → leaves ≤ k → k ≢ leaf → marked nodes.new k ≡ marked nodes.old k }
{
    nodes[leaf] = free;
    let mut k = leaf;
    while k > 1 {
        k /= 2;
        nodes[k] = nodes[2 * k] || nodes[2 * k + 1];
    }
}

/// The lowest leaf that is marked.
pub fn lowest(nodes: &[bool], leaves: usize, height: u32) -> usize
    requires size { length nodes.now ≡ 2 * leaves }
    requires small { leaves ≤ 2 ^ 32 }
    requires height { leaves ≡ 2 ^ height }
    requires rule { IsMarked nodes.now leaves }
    requires some { marked nodes.now 1 ≡ true }
    ensures leaf { leaves ≤ result }
    ensures inside { result < 2 * leaves }
    ensures set { marked nodes.now result ≡ true }
    ensures lowest { (k : ℕ) → leaves ≤ k → k < result → marked nodes.now k ≡ false }
{
    let mut k = 1usize;
    for _level in 0..height {
        k *= 2;
        if !nodes[k] {
            k += 1;
        }
    }
    k
}
