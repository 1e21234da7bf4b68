// What nobody names any more goes.
ghost use Rattle.std.specs.Prelude.{◌≡◌};
ghost use Rattle.file_model.specs.Files.{is_same_target, settled};
ghost use Rattle.file_model.specs.declared.descriptions.Target.TheVariants.{ReadEnd, WriteEnd};
ghost use Rattle.one_files.specs.Seen.{seen};
ghost use Rattle.one_files.specs.Used.{names_it, opens_to};

use crate::RowFiles;
use crate::descriptors::Descriptors;
use crate::node::FileNode;
use crate::open_file::OpenFile;
use crate::stream::Stream;
use file_model::Target;
use key_rows::{RowTest, Rows};

/// Whether the targets are the same.
fn is_same_target(a: Target, b: Target) -> bool
    ensures { result ≡ is_same_target a b }
{
    match (a, b) {
        (Target::OfNode(a), Target::OfNode(b)) => a == b,
        (Target::ReadEnd(a), Target::ReadEnd(b)) => a == b,
        (Target::WriteEnd(a), Target::WriteEnd(b)) => a == b,
        (Target::OfConsole(a), Target::OfConsole(b)) => a == b,
        _ => false,
    }
}

/// Whether the target is the read end of a pipe.
fn reads(target: Target, pipe: u64) -> bool
    ensures { result ≡ is_same_target target (ReadEnd pipe) }
{
    match target {
        Target::ReadEnd(p) => u64::from(p) == pipe,
        _ => false,
    }
}

/// Whether the target is the write end of a pipe.
fn writes(target: Target, pipe: u64) -> bool
    ensures { result ≡ is_same_target target (WriteEnd pipe) }
{
    match target {
        Target::WriteEnd(p) => u64::from(p) == pipe,
        _ => false,
    }
}

/// Whether a description is open on the target.
pub fn is_open(descriptions: &Rows<OpenFile>, target: Target) -> bool
    ensures { result ≡ opens_to descriptions.now.map target }
{
    let rows = descriptions.as_slice();
    rows.iter()
        .any(|row| is_same_target(row.1.get().target, target))
}

/// Whether the read end of a pipe is open.
fn is_read(descriptions: &Rows<OpenFile>, pipe: u64) -> bool
    ensures { result ≡ opens_to descriptions.now.map (ReadEnd pipe) }
{
    let rows = descriptions.as_slice();
    rows.iter().any(|row| reads(row.1.get().target, pipe))
}

/// Whether the write end of a pipe is open.
fn is_written(descriptions: &Rows<OpenFile>, pipe: u64) -> bool
    ensures { result ≡ opens_to descriptions.now.map (WriteEnd pipe) }
{
    let rows = descriptions.as_slice();
    rows.iter().any(|row| writes(row.1.get().target, pipe))
}

/// Whether a descriptor names the description.
fn is_named(descriptors: &Rows<Descriptors>, d: u64) -> bool
    ensures { result ≡ names_it descriptors.now.map d }
{
    let rows = descriptors.as_slice();
    rows.iter().any(|row| row.1.names(d))
}

/// The test of descriptions that a call holds or a descriptor names.
#[derive(Clone, Copy)]
struct UsedDescriptions<'a> {
    descriptors: &'a Rows<Descriptors>,
}

impl RowTest<OpenFile> for UsedDescriptions<'_> {
    ghost use Rattle.one_files.specs.Used.{is_used_description};

    ghost passes = { λ t. is_used_description t.descriptors.now.map };

    fn is_kept(&self, d: u64, file: &OpenFile) -> bool {
        file.get().calls > 0 || is_named(self.descriptors, d)
    }
}

/// The test of nodes that have a name, are open, or are the root.
#[derive(Clone, Copy)]
struct UsedNodes<'a> {
    descriptions: &'a Rows<OpenFile>,
}

impl RowTest<FileNode> for UsedNodes<'_> {
    ghost use Rattle.one_files.specs.Used.{is_used_node};

    ghost passes = { λ t. is_used_node t.descriptions.now.map };

    fn is_kept(&self, n: u64, node: &FileNode) -> bool {
        n == 1 || node.name().is_some() || is_open(self.descriptions, Target::OfNode(n))
    }
}

/// The test of pipes of which an end is open.
#[derive(Clone, Copy)]
struct UsedPipes<'a> {
    descriptions: &'a Rows<OpenFile>,
}

impl RowTest<Stream> for UsedPipes<'_> {
    ghost use Rattle.one_files.specs.Used.{is_used_pipe};

    ghost passes = { λ t. is_used_pipe t.descriptions.now.map };

    fn is_kept(&self, p: u64, _bytes: &Stream) -> bool {
        is_read(self.descriptions, p) || is_written(self.descriptions, p)
    }
}

impl RowFiles {
    /// First the descriptions that no descriptor names and no call holds go, then the unlinked nodes and the pipes that no
    /// description is open on.
    #[tactic(auto, unfolding(file_model::specs::Files::settled))]
    pub(crate) fn settle(&mut self)
        ensures { seen self.new ≡ settled (seen self.old) }
    {
        self.descriptions.retain(&UsedDescriptions {
            descriptors: &self.descriptors,
        });
        self.nodes.retain(&UsedNodes {
            descriptions: &self.descriptions,
        });
        self.pipes.retain(&UsedPipes {
            descriptions: &self.descriptions,
        });
    }
}
