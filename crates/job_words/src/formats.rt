//! The format of a layer, by the end of its name.

ghost use Rattle.std.specs.Prelude.{◌≡◌};
ghost use Rattle.job_words.specs.Formats.{ends_in, format_by_name};

/// The formats of layers.
#[derive(Clone, Copy, Debug, PartialEq, Eq)]
pub enum Format {
    /// Well-known text, `.wkt`.
    Wkt,
    /// GeoJSON, `.geojson` or `.json`.
    GeoJson,
    /// An ASCII drawing, `.dxf`.
    Drawing,
}

/// Whether the last bytes of the name are this ending, in any letter case.
fn ends_in(ending: &str, name: &str) -> bool
    ensures { result ≡ ends_in ending.now name.now }
{
    let start = name.len().saturating_sub(ending.len());
    name.as_bytes()[start..].eq_ignore_ascii_case(ending.as_bytes())
}

/// The format of the layer of this name, or none where it ends as that of no format.
pub fn format_of(name: &str) -> Option<Format>
    ensures { result ≡ format_by_name name.now }
{
    if ends_in(".wkt", name) {
        return Some(Format::Wkt);
    }
    if ends_in(".geojson", name) || ends_in(".json", name) {
        return Some(Format::GeoJson);
    }
    if ends_in(".dxf", name) {
        return Some(Format::Drawing);
    }
    None
}
