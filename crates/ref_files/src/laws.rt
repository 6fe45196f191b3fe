//! What holds of the definitions in `specs/`. Each function is empty: its contract states the law.
ghost use Rattle.std.specs.Prelude.{◌≡◌, ◌==◌, ◌<◌, ℕ, List, ◌∷◌, All, Some};
ghost use Rattle.std.specs.List.{join_with_byte, slice_split};
ghost use Rattle.ref_files.specs.Plain.{slash, IsPlain, path_in, path_of};
ghost use Rattle.ref_files.specs.Meant.{path_after, uri_after, decoded_segments};
ghost use Rattle.ref_files.specs.Uris.{path_text};

/// A path of names is below its folder: it is what the names with a slash between each two mean in the folder, and cut at
/// its slashes this gives exactly the names, none of which leads up.
pub fn paths_of_names_stay_below()
    ensures path { (folder name : List ℕ) (names : List (List ℕ)) → All IsPlain (name ∷ names)
        → path_of folder (name ∷ names) ≡ path_in folder (join_with_byte slash (name ∷ names)) }
    ensures names { (name : List ℕ) (names : List (List ℕ)) → All IsPlain (name ∷ names)
        → slice_split (λ b. b == slash) (join_with_byte slash (name ∷ names)) ≡ name ∷ names }
{}

/// The URI of a file below a base has below this base the file's path as a URI has it, and its segments are decoded to
/// what the path has between its slashes: so the URI that a file is given means that file.
pub fn uris_lead_back()
    ensures path { (base path : List ℕ)
        → path_after base (uri_after base path) ≡ Some (path_text path) }
    ensures segments { (path : List ℕ) → All (λ b. b < 256) path
        → decoded_segments (path_text path) ≡ slice_split (λ b. b == slash) path }
{}
