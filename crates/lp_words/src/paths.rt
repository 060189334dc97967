//! The folder of a path, and the name of its file there.
ghost use Rattle.std.specs.Prelude.{◌≡◌, ◌<◌, IfSome, length, slice_index};
ghost use Rattle.lp_words.specs.Paths.{file_in, folder_of, last_slash};

/// The place of the last slash of a path.
pub fn last_slash(path: &[u8]) -> Option<usize>
    ensures place { result ≡ last_slash path.now }
    ensures byte { IfSome result (λ at. (at < length path.now) × (slice_index path.now at ≡ 47)) }
{
    let mut end = path.len();
    while end > 0 {
        end -= 1;
        if path[end] == b'/' {
            return Some(end);
        }
    }
    None
}

/// The folder of a path, and the name of its file there: the folder is `.` if the path has no slash.
pub fn folder_and_file<'a>(path: &'a str) -> (&'a str, &'a str)
    ensures folder { result.0.now ≡ folder_of path.now }
    ensures file { result.1.now ≡ file_in path.now }
{
    match last_slash(path.as_bytes()) {
        Some(at) => (if at == 0 { "/" } else { &path[..at] }, &path[at + 1..]),
        None => (".", path),
    }
}
