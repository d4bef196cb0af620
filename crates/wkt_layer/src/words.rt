//! Words of well-known text, in which the case of letters means nothing.

ghost use Rattle.std.specs.Prelude.{◌≡◌};
ghost use Rattle.wkt_layer.specs.Tokens.{word_of};

/// The seven kinds of geometry.
#[derive(Clone, Copy)]
pub enum GeometryKind {
    Point,
    LineString,
    Polygon,
    MultiPoint,
    MultiLineString,
    MultiPolygon,
    Collection,
}

/// What a word is.
#[derive(Clone, Copy)]
pub enum LineWord {
    /// The tag of a kind.
    Tag(GeometryKind),
    /// EMPTY.
    Empty,
    Z,
    /// M or ZM.
    Height,
    Other,
}

impl LineWord {
    /// What the word of these letters is.
    #[inline(never)]
    pub fn of(text: &[u8]) -> LineWord
        ensures { result ≡ word_of text.now }
    {
        if text.eq_ignore_ascii_case(b"POINT") {
            LineWord::Tag(GeometryKind::Point)
        } else if text.eq_ignore_ascii_case(b"LINESTRING") {
            LineWord::Tag(GeometryKind::LineString)
        } else if text.eq_ignore_ascii_case(b"POLYGON") {
            LineWord::Tag(GeometryKind::Polygon)
        } else if text.eq_ignore_ascii_case(b"MULTIPOINT") {
            LineWord::Tag(GeometryKind::MultiPoint)
        } else if text.eq_ignore_ascii_case(b"MULTILINESTRING") {
            LineWord::Tag(GeometryKind::MultiLineString)
        } else if text.eq_ignore_ascii_case(b"MULTIPOLYGON") {
            LineWord::Tag(GeometryKind::MultiPolygon)
        } else if text.eq_ignore_ascii_case(b"GEOMETRYCOLLECTION") {
            LineWord::Tag(GeometryKind::Collection)
        } else if text.eq_ignore_ascii_case(b"EMPTY") {
            LineWord::Empty
        } else if text.eq_ignore_ascii_case(b"Z") {
            LineWord::Z
        } else if text.eq_ignore_ascii_case(b"M") || text.eq_ignore_ascii_case(b"ZM") {
            LineWord::Height
        } else {
            LineWord::Other
        }
    }
}
