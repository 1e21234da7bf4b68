// Whether two stores show the same files.
use file_calls::listing::Listing;
use file_calls::store::FileStore;
use file_model::Target;
use mck_word::Pid;

/// The processes, descriptors, descriptions and pipes that are looked at: those with a number below these.
const PROCESSES: u32 = 8;

const DESCRIPTORS: u32 = 72;

const DESCRIPTIONS: u32 = 400;

const PIPES: u32 = 40;

/// How many bytes of a file are read at once.
const PIECE: u64 = 4096;

// Whether a file of both stores has the same bytes from an offset on, as many as are read at once.
fn same_piece<A: FileStore, B: FileStore>(a: &A, b: &B, node: u64, offset: u64) -> bool {
    let left = a.file_len(node).saturating_sub(offset);
    if b.file_len(node).saturating_sub(offset) != left {
        return false;
    }
    let len = left.min(PIECE) as usize;
    let mut ours = [0u8; PIECE as usize];
    let mut theirs = [0u8; PIECE as usize];
    let (our, _) = ours.split_at_mut(len);
    let (their, _) = theirs.split_at_mut(len);
    a.read_file(node, offset, our);
    b.read_file(node, offset, their);
    *our == *their
}

// Whether a file of both stores has the same bytes.
fn same_bytes<A: FileStore, B: FileStore>(a: &A, b: &B, node: u64) -> bool {
    let len = a.file_len(node);
    if b.file_len(node) != len {
        return false;
    }
    for piece in 0..len.div_ceil(PIECE) {
        if !same_piece(a, b, node, piece.saturating_mul(PIECE)) {
            return false;
        }
    }
    true
}

// Whether a node is the same in both stores.
fn same_node<A: Listing, B: Listing>(a: &A, b: &B, node: u64) -> bool {
    a.is_directory(node) == b.is_directory(node)
        && a.parent(node) == b.parent(node)
        && a.name(node) == b.name(node)
        && a.is_unlinked(node) == b.is_unlinked(node)
        && same_bytes(a, b, node)
}

// Whether both stores have the same nodes.
fn same_nodes<A: Listing, B: Listing>(a: &A, b: &B) -> bool {
    let count = a.node_count();
    if b.node_count() != count || b.next_node() != a.next_node() || b.all_bytes() != a.all_bytes() {
        return false;
    }
    for place in 0..count {
        let node = a.node_at(place);
        if b.node_at(place) != node {
            return false;
        }
        if let Some(node) = node {
            if !same_node(a, b, node) {
                return false;
            }
        }
    }
    true
}

// Whether a process has the same descriptors in both stores, and the same output.
fn same_process<A: FileStore, B: FileStore>(a: &A, b: &B, pid: Pid) -> bool {
    if a.descriptor_count(pid) != b.descriptor_count(pid) || a.output(pid) != b.output(pid) {
        return false;
    }
    for fd in 0..DESCRIPTORS {
        if a.named(pid, fd) != b.named(pid, fd) {
            return false;
        }
    }
    a.input_len(pid.0) == b.input_len(pid.0)
}

// Whether both stores have the same descriptions.
fn same_descriptions<A: FileStore, B: FileStore>(a: &A, b: &B) -> bool {
    for d in 0..DESCRIPTIONS {
        if a.description(d) != b.description(d) {
            return false;
        }
    }
    true
}

// Whether both stores have the same pipes, as far as their lengths and ends tell.
fn same_pipes<A: FileStore, B: FileStore>(a: &A, b: &B) -> bool {
    for pipe in 0..PIPES {
        let (reads, writes) = (Target::ReadEnd(pipe), Target::WriteEnd(pipe));
        if a.pipe_len(pipe) != b.pipe_len(pipe)
            || a.is_open(reads) != b.is_open(reads)
            || a.is_open(writes) != b.is_open(writes)
        {
            return false;
        }
    }
    true
}

/// Whether both stores answer the same to all questions.
pub fn alike<A: Listing, B: Listing>(a: &A, b: &B) -> bool {
    for pid in 0..PROCESSES {
        if !same_process(a, b, Pid(pid)) {
            return false;
        }
    }
    same_nodes(a, b) && same_descriptions(a, b) && same_pipes(a, b)
}
