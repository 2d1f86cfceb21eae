//! The parts of a path.
ghost use Rattle.std.specs.Prelude.{◌≡◌, None, Some, MatchOption};
ghost use Rattle.raft_env.specs.Directory.{after_folder, is_on_way, name_in, path_below};
ghost use Rattle.raft_env.specs.PathParts.{IsParent};

/// The folder of a path: the text before its last `/`, or the root.
pub fn parent(path: &str) -> &str
    ensures value { IsParent path.now result.now }
{
    match path.rsplit_once('/') {
        Some((folder, _)) => folder,
        None => "",
    }
}

/// Whether the folder is the path itself or one of its parents.
pub fn is_on_way(folder: &str, path: &str) -> bool
    ensures value { result ≡ is_on_way folder.now path.now }
{
    folder == path || after_folder(folder, path).is_some()
}

/// The name of a path that is directly in the folder.
pub fn name_in<'a>(folder: &str, path: &'a str) -> Option<&'a str>
    ensures value { MatchOption result (name_in folder.now path.now ≡ None)
        (λ name. name_in folder.now path.now ≡ Some name.now) }
{
    let name = below(folder, path)?;
    if name.as_bytes().contains(&b'/') {
        return None;
    }
    Some(name)
}

// What follows a folder's path. All paths are below the root.
fn below<'a>(folder: &str, path: &'a str) -> Option<&'a str>
    ensures value { MatchOption result (path_below folder.now path.now ≡ None)
        (λ rest. path_below folder.now path.now ≡ Some rest.now) }
{
    if folder.is_empty() {
        return Some(path);
    }
    after_folder(folder, path)
}

// What follows a folder's path and a slash.
fn after_folder<'a>(folder: &str, path: &'a str) -> Option<&'a str>
    ensures value { MatchOption result (after_folder folder.now path.now ≡ None)
        (λ rest. after_folder folder.now path.now ≡ Some rest.now) }
{
    path.strip_prefix(folder)?.strip_prefix('/')
}
