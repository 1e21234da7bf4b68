// The names of a path's text.
ghost use Rattle.std.specs.Prelude.{◌≡◌, ◌∷◌, [], ◌≤◌, ◌<◌, length, MatchOption, IfSome, bytes_eq, not, get_or, ◌-◌, ◌++◌, ◌≢◌, drop};
ghost use Rattle.file_calls.specs.Names.{run_length, first_name_at};
ghost use Rattle.file_model.specs.Paths.{dot, dot_dot, names_of, is_absolute, ends_with_slash, slash};

/// Whether the name is `.`.
pub fn is_dot(name: &[u8]) -> bool
    ensures { result ≡ bytes_eq name.now dot }
{
    name == b".".as_slice()
}

/// Whether the name is `..`.
pub fn is_dot_dot(name: &[u8]) -> bool
    ensures { result ≡ bytes_eq name.now dot_dot }
{
    name == b"..".as_slice()
}

/// How many bytes at the front are no slash.
fn run_len(text: &[u8]) -> usize
    ensures at { result ≡ run_length text.now }
    ensures within { result ≤ length text.now }
{
    let mut i = 0;
    while i < text.len() && text[i] != b'/' {
        i += 1;
    }
    i
}

/// How many bytes at the front are slashes.
fn slashes(text: &[u8]) -> usize
    ensures at { result ≡ first_name_at text.now }
    ensures within { result ≤ length text.now }
{
    let mut i = 0;
    while i < text.len() && text[i] == b'/' {
        i += 1;
    }
    i
}

/// The first name, and the text behind it; none where only slashes are left.
pub fn next_name(text: &[u8]) -> Option<(&[u8], &[u8])>
    ensures names { MatchOption result (names_of text.now ≡ []) (λ r. names_of text.now ≡ r.0.now ∷ names_of r.1.now) }
    ensures shorter { IfSome result (λ r. length r.1.now < length text.now) }
{
    let (_, rest) = text.split_at(slashes(text));
    let (name, after) = rest.split_at(run_len(rest));
    if name.is_empty() {
        return None;
    }
    let (_, next) = after.split_at(after.len().min(1));
    Some((name, next))
}

/// Whether a path starts at the root.
pub fn starts_at_root(text: &[u8]) -> bool
    ensures { result ≡ is_absolute text.now }
{
    !text.is_empty() && text[0] == b'/'
}

/// Whether the last byte of a path is a slash.
pub fn has_final_slash(text: &[u8]) -> bool
    ensures { result ≡ ends_with_slash text.now }
{
    !text.is_empty() && text[text.len() - 1] == b'/'
}

/// The text without the slashes at its end.
fn trimmed(text: &[u8]) -> &[u8]
    ensures names { names_of result.now ≡ names_of text.now }
    ensures last { 0 < length result.now → get_or result.now (length result.now - 1) 0 ≢ slash }
{
    let mut end = text.len();
    while end > 0 && text[end - 1] == b'/' {
        end -= 1;
    }
    text.split_at(end).0
}

/// Where the last run without a slash begins.
fn last_run(text: &[u8]) -> usize
    ensures within { result ≤ length text.now }
    ensures run { run_length (drop result text.now) ≡ length text.now - result }
    ensures cut { 0 < result → get_or text.now (result - 1) 0 ≡ slash }
{
    let mut at = text.len();
    while at > 0 && text[at - 1] != b'/' {
        at -= 1;
    }
    at
}

/// The last name with the text before it; none where there are only slashes.
pub fn last_name(text: &[u8]) -> Option<(&[u8], &[u8])>
    ensures { MatchOption result (names_of text.now ≡ []) (λ r. names_of text.now ≡ names_of r.0.now ++ r.1.now ∷ []) }
{
    let body = trimmed(text);
    if body.is_empty() {
        return None;
    }
    Some(body.split_at(last_run(body)))
}
