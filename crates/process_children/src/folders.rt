//! The folders that a tree's paths lead through. Since the paths are in rising order, those of one folder
//! follow each other.

/// How many bytes two paths have in common at the front.
pub(crate) fn shared_bytes(before: &str, path: &str) -> usize {
    let pairs = before.as_bytes().iter().zip(path.as_bytes());
    pairs.take_while(|(a, b)| a == b).count()
}

/// The folder whose slash is at `at` in the path. `None` if no slash is there.
pub(crate) fn folder_at(path: &str, at: usize) -> Option<&str> {
    match path.as_bytes().get(at) {
        Some(b'/') => path.get(..at),
        _ => None,
    }
}
