// The paths of the tree.
ghost use Rattle.file_model.specs.Files.{node_of};
ghost use Rattle.file_model.specs.Paths.{path_of, path_up};
ghost use Rattle.file_summary.specs.Rows.{row_before, row_of, with_node};
ghost use Rattle.mck_word.specs.Lists.{insert_by};
ghost use Rattle.mck_word.specs.Maps.{keys};
ghost use Rattle.run_model.specs.Reports.{paths_in_order};
ghost use Rattle.run_summary.specs.Summaries.{path_row};
ghost use Rattle.std.specs.List.{position_or_len};
ghost use Rattle.std.specs.Prelude.{◌≡◌, ◌≤◌, ◌++◌, IfOk, OnOk, length, map, slice_get};

use file_calls::listing::Listing;
use file_model::PathRow;
use mck_word::{Bytes, Items, NoMemory};
use run_summary::Paths;
use std::alloc::Global;
use std::cmp::Ordering;

// ---- one node

// Adds the path of a node, in at most so many names.
fn add_path<F: Listing>(files: &F, node: u64, most: u64, text: &mut Bytes) -> Result<(), NoMemory>
    ensures { OnOk result (text.new ≡ text.old ++ path_up most (F.files files.now) node) }
{
    if most == 0 {
        return Ok(());
    }
    let Some(name) = files.name(node) else {
        return Ok(());
    };
    add_path(files, files.parent(node), most - 1, text)?;
    text.push(b'/')?;
    text.add(name)?;
    Ok(())
}

fn path_of<F: Listing>(alloc: Global, files: &F, node: u64) -> Result<Bytes, NoMemory>
    ensures { IfOk result (λ text. text ≡ path_of (F.files files.now) node) }
{
    let mut text = Bytes::new(alloc);
    add_path(files, node, files.node_count(), &mut text)?;
    Ok(text)
}

fn bytes_of<F: Listing>(alloc: Global, files: &F, node: u64) -> Result<Bytes, NoMemory>
    ensures { IfOk result (λ bytes. bytes ≡ (node_of (F.files files.now) node).bytes) }
{
    let mut bytes = vec![in alloc; 0; files.file_len(node) as usize]?;
    files.read_file(node, 0, &mut bytes);
    Ok(Bytes::from_vec(bytes))
}

// The row of a node. A directory has no bytes there.
fn row_of<F: Listing>(alloc: Global, files: &F, node: u64) -> Result<PathRow, NoMemory>
    ensures { IfOk result (λ row. row ≡ row_of (F.files files.now) node) }
{
    let path = path_of(alloc, files, node)?;
    let directory = files.is_directory(node);
    let bytes = if directory {
        Bytes::new(alloc)
    } else {
        bytes_of(alloc, files, node)?
    };
    Ok(PathRow {
        path,
        directory,
        bytes,
    })
}

// ---- rows in order

fn is_before(a: &PathRow, b: &PathRow) -> bool
    ensures { result ≡ row_before a.now b.now }
{
    a.path.as_slice().cmp(b.path.as_slice()) == Ordering::Less
}

// How many rows at the front the row isn't before.
fn place_of(rows: &[PathRow], row: &PathRow) -> usize
    ensures within { result ≤ length rows.now }
    ensures place { result ≡ position_or_len (row_before row.now) rows.now }
{
    let mut place = 0;
    let mut rest = rows;
    while let Some((other, more)) = rest.split_first() {
        if is_before(row, other) {
            break;
        }
        place += 1;
        rest = more;
    }
    place
}

// Puts a row into its place.
fn insert(rows: &mut Vec<PathRow>, row: PathRow) -> Result<(), NoMemory>
    ensures { OnOk result (rows.new.items ≡ insert_by row_before row rows.old.items) }
{
    let place = place_of(rows, &row);
    rows.insert(place, row)?;
    Ok(())
}

// Puts in the row of the node at a place among all, where it has a name.
fn add_node<F: Listing>(
    alloc: Global,
    files: &F,
    place: u64,
    rows: &mut Vec<PathRow>,
) -> Result<(), NoMemory>
    ensures { OnOk result (rows.new.items ≡ with_node (F.files files.now) (slice_get (keys (F.files files.now).nodes) place) rows.old.items) }
{
    let Some(node) = files.node_at(place) else {
        return Ok(());
    };
    if files.name(node).is_none() {
        return Ok(());
    }
    let row = row_of(alloc, files, node)?;
    insert(rows, row)
}

/// The paths in the order of their bytes, without the root, and each with its file's bytes.
pub fn paths<F: Listing>(alloc: Global, files: &F) -> Result<Paths, NoMemory>
    ensures { IfOk result (λ rows. rows ≡ map path_row (paths_in_order (F.files files.now))) }
{
    let mut rows = Vec::new(alloc);
    let mut left = files.node_count();
    // The last node first, since a row is put behind those of the same path.
    'nodes: while left > 0 {
        left -= 1;
        add_node(alloc, files, left, &mut rows)?;
    }
    Ok(Items::from_vec(rows))
}
