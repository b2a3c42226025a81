// The formats of files.

ghost use Rattle.std.specs.Prelude.{◌≡◌};
ghost use Rattle.import_linker.specs.formats.Format.{is_json, format_of};

/// A format of files.
#[derive(Clone, Copy, PartialEq, Eq, Debug, Drop)]
pub enum Format {
    InText,
    InJson,
}

/// The format of the file at a path: JSON where the path ends in `.json`, and text anywhere else.
pub(crate) fn format_of(path: &[u8]) -> Format
    ensures { result ≡ format_of path.now }
{
    if is_json(path) {
        Format::InJson
    } else {
        Format::InText
    }
}

// Whether the path is that of a file in JSON.
fn is_json(path: &[u8]) -> bool
    ensures { result ≡ is_json path.now }
{
    path.ends_with(b".json")
}
