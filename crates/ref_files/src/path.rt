//! The parts of a path.
ghost use Rattle.std.specs.Prelude.{◌≡◌};
ghost use Rattle.ref_files.specs.Plain.{folder_of, last_name};

/// What is before the last slash of a path or a URI; nothing where it has none.
pub fn folder_of(path: &str) -> &str
    ensures value { result.now ≡ folder_of path.now }
{
    match path.rsplit_once('/') {
        Some((folder, _)) => folder,
        None => "",
    }
}

/// What is after the last slash of a path; all of it where it has none.
pub fn last_name(path: &str) -> &str
    ensures value { result.now ≡ last_name path.now }
{
    match path.rsplit_once('/') {
        Some((_, name)) => name,
        None => path,
    }
}
