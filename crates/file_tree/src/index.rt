// The nodes with names in the order of their directories and names.
ghost use Rattle.std.specs.Prelude.{◌≡◌, ◌≤◌, ◌<◌, ◌+◌, Some, None, T, IfSome, length, slice_get, ℕ};
ghost use Rattle.std.specs.FinMap.Entries.{find as look_up, is_sorted};
ghost use Rattle.std.specs.List.{AllByRecursion};
ghost use Rattle.std.specs.Option.{option_copied};
ghost use Rattle.std.specs.Ordering.{is_gt};
ghost use Rattle.file_tree.specs.Index.{IsIndex, IsListed, names_under, tagged};
ghost use Rattle.file_tree.specs.Tags.{is_tag, place, tag_at, tag_cmp};
ghost use Rattle.mck_word.specs.Maps.{at};

use crate::nodes::Nodes;
use std::cmp::Ordering;

/// A node with a name, and where it stands.
#[derive(Clone, Copy)]
pub struct Listed {
    pub node: u64,
    pub key: usize,
}

/// A directory with a name.
#[derive(Clone, Copy)]
pub struct TagRef<'a> {
    pub directory: u64,
    pub name: &'a [u8],
}

/// The directory of a listed node, and its name there.
pub fn tag_of(nodes: &Nodes, listed: Listed) -> TagRef<'_>
    ensures { at nodes.now.keys listed.node ≡ Some listed.key → (result.directory, result.name.now) ≡ tag_at nodes.now.map listed.node }
{
    match nodes.stored(listed.key) {
        Some(node) => TagRef {
            directory: node.parent(),
            name: node.name().unwrap_or(&[]),
        },
        None => TagRef {
            directory: 0,
            name: &[],
        },
    }
}

/// Whether a tag stands behind that of a listed node.
fn is_behind(nodes: &Nodes, tag: TagRef<'_>, listed: Listed) -> bool
    ensures { at nodes.now.keys listed.node ≡ Some listed.key → result ≡ is_gt (tag_cmp (tag.entry.directory, tag.entry.name.now) (tag_at nodes.now.map listed.node)) }
{
    let other = tag_of(nodes, listed);
    if tag.directory == other.directory {
        tag.name.cmp(other.name) == Ordering::Greater
    } else {
        tag.directory > other.directory
    }
}

/// How many listed nodes at the front have tags before a tag, found by halving.
pub fn place_of(nodes: &Nodes, rows: &[Listed], tag: TagRef<'_>) -> usize
    requires each { AllByRecursion (IsListed nodes.now.map nodes.now.keys) rows.now }
    requires rises { T (is_sorted tag_cmp (tagged nodes.now.map rows.now)) }
    ensures at { result ≡ place tag_cmp (tag.entry.directory, tag.entry.name.now) (tagged nodes.now.map rows.now) }
    ensures within { result ≤ length rows.now }
{
    let mut low = 0;
    let mut high = rows.len();
    while low < high {
        let middle = low + (high - low) / 2;
        if is_behind(nodes, tag, rows[middle]) {
            low = middle + 1;
        } else {
            high = middle;
        }
    }
    low
}

/// Whether a listed node has that tag.
fn has_tag(nodes: &Nodes, listed: Listed, tag: TagRef<'_>) -> bool
    ensures { at nodes.now.keys listed.node ≡ Some listed.key → result ≡ is_tag (tag_at nodes.now.map listed.node) tag.entry.directory tag.entry.name.now }
{
    let own = tag_of(nodes, listed);
    own.directory == tag.directory && own.name == tag.name
}

/// The node that is listed with that tag.
pub fn find(nodes: &Nodes, rows: &[Listed], tag: TagRef<'_>) -> Option<u64>
    requires { IsIndex nodes.now.map nodes.now.keys rows.now }
    ensures { result ≡ look_up tag_cmp (tag.entry.directory, tag.entry.name.now) (tagged nodes.now.map rows.now) }
{
    let i = place_of(nodes, rows, tag);
    if i >= rows.len() {
        return None;
    }
    if has_tag(nodes, rows[i], tag) {
        Some(rows[i].node)
    } else {
        None
    }
}

/// The k-th name of a directory, from 0 on.
pub fn name_at<'a>(nodes: &'a Nodes, rows: &[Listed], directory: u64, k: u64) -> Option<&'a [u8]>
    requires { IsIndex nodes.now.map nodes.now.keys rows.now }
    ensures name { option_copied result ≡ slice_get (names_under directory (tagged nodes.now.map rows.now)) k }
    ensures few { IfSome result (λ _. k < length rows.now) }
{
    let first = TagRef {
        directory,
        name: &[],
    };
    let start = place_of(nodes, rows, first);
    if k >= (rows.len() - start) as u64 {
        return None;
    }
    let tag = tag_of(nodes, rows[start + k as usize]);
    if tag.directory == directory {
        Some(tag.name)
    } else {
        None
    }
}
