// Paths of a job's files.
ghost use Rattle.std.specs.Prelude.{◌≡◌, ◌≤◌, ◌+◌, ◌==◌, count_by, drop, length};
ghost use Rattle.std.specs.List.{list_any, list_all};
ghost use Rattle.job_text.specs.Paths.{names_in, names_of, is_name, is_path, runs_through, goes_through, meets, is_taken};

use job_model::FileLine;

const MOST_NAMES: usize = 8;

const LONGEST_NAME: usize = 255;

fn is_name(name: &[u8]) -> bool
    ensures { result ≡ is_name name.now }
{
    !name.is_empty()
        && name.len() <= LONGEST_NAME
        && name != b".".as_slice()
        && name != b"..".as_slice()
}

fn are_names(text: &[u8]) -> bool
    ensures { result ≡ list_all is_name (names_in text.now) }
{
    text.split(|b| *b == b'/').all(|name| is_name(name))
}

fn count_slashes(text: &[u8]) -> usize
    ensures value { result ≡ count_by (λ b. b == 47) text.now }
    ensures bound { result ≤ length text.now }
{
    text.iter().filter(|b| **b == b'/').count()
}

fn count_names(text: &[u8]) -> usize
    ensures { result ≡ length (names_in text.now) }
{
    count_slashes(text) + 1
}

/// Whether the bytes are a path of 1 to 8 names behind a slash.
pub fn is_path(path: &[u8]) -> bool
    ensures { result ≡ is_path path.now }
{
    match path.split_first() {
        Some((first, text)) => {
            *first == b'/' && count_names(text) <= MOST_NAMES && are_names(text)
        }
        None => false,
    }
}

// The names behind the first slash, as text.
fn names_of(path: &[u8]) -> &[u8]
    ensures { result.now ≡ drop 1 path.now }
{
    match path.split_first() {
        Some((_, text)) => text,
        None => &[],
    }
}

// Whether the names of a text begin with those of another.
fn goes_through(text: &[u8], other: &[u8]) -> bool
    ensures { result ≡ goes_through text.now other.now }
{
    let mut rest = text;
    let mut left = other;
    while let Some((b, more)) = left.split_first() {
        match rest.split_first() {
            Some((a, behind)) if *a == *b => rest = behind,
            _ => return false,
        }
        left = more;
    }
    match rest.split_first() {
        Some((a, _)) => *a == b'/',
        None => true,
    }
}

fn runs_through(path: &[u8], other: &[u8]) -> bool
    ensures { result ≡ runs_through path.now other.now }
{
    goes_through(names_of(path), names_of(other))
}

fn meets(path: &[u8], other: &[u8]) -> bool
    ensures { result ≡ meets path.now other.now }
{
    runs_through(path, other) || runs_through(other, path)
}

/// Whether the path is, passes through or lies above the path of an earlier file.
pub fn is_taken(files: &[FileLine], path: &[u8]) -> bool
    ensures { result ≡ is_taken files.now path.now }
{
    files.iter().any(|f| meets(path, f.path.as_slice()))
}
