//! How a text is written.
ghost use Rattle.std.specs.Prelude.{◌≡◌};
ghost use Rattle.ref_positions.specs.Formats.{format_of, name_of};

/// How a text is written.
#[derive(Clone, Copy, Debug, Drop, PartialEq, Eq)]
pub enum Format {
    /// JSON (RFC 8259).
    Json,
    /// YAML 1.2.2, one document.
    Yaml,
}

impl Format {
    /// The format of the file at a path: YAML where it ends in `.yaml` or `.yml`, and else JSON. A step for each of its last bytes.
    pub fn of_path(path: &str) -> Format
        ensures value { result ≡ format_of path.now }
    {
        if path.as_bytes().ends_with(b".yaml") || path.as_bytes().ends_with(b".yml") {
            Format::Yaml
        } else {
            Format::Json
        }
    }

    /// Its name.
    pub fn name(self) -> &'static str
        ensures value { result.now ≡ name_of self }
    {
        match self {
            Format::Json => "JSON",
            Format::Yaml => "YAML",
        }
    }
}
