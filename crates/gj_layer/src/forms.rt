//! What is wanted where a value is.

/// The types of objects (RFC 7946, section 1.4).
#[derive(Clone, Copy)]
pub enum GeoType {
    FeatureCollection,
    Feature,
    GeometryCollection,
    Point,
    MultiPoint,
    LineString,
    MultiLineString,
    Polygon,
    MultiPolygon,
}

/// Where an object is.
#[derive(Clone, Copy)]
pub enum Holder {
    /// It is the layer.
    Layer,
    /// It is a member of a list of features.
    Features,
    /// It is a feature's geometry, or a member of a list of geometries.
    Geometries,
}

/// Coordinates that are one path at most.
#[derive(Clone, Copy)]
pub enum Trace {
    /// A position, or an empty array.
    Point,
    Position,
    /// Positions that are joined in order.
    Line,
    /// Positions whose last one is the first again.
    Ring,
}

/// What the elements of an array are, where they are read one by one.
#[derive(Clone, Copy)]
pub enum Items {
    Features,
    Geometries,
    Positions,
    Lines,
    Rings,
    /// Arrays of rings.
    Polygons,
}

/// What is wanted where a value is.
#[derive(Clone, Copy)]
pub enum ValueForm {
    Object(Holder),
    /// A geometry, or null.
    Optional,
    Path(Trace),
    List(Items),
}

impl GeoType {
    ghost use Rattle.std.specs.Prelude.{◌≡◌};
    ghost use Rattle.gj_layer.specs.Objects.{content_key, content_form};

    /// The name of the member that has what an object of this type is made of.
    pub fn content_key(self) -> &'static [u8]
        ensures { result.now ≡ content_key self }
    {
        match self {
            GeoType::FeatureCollection => b"features",
            GeoType::Feature => b"geometry",
            GeoType::GeometryCollection => b"geometries",
            _ => b"coordinates",
        }
    }

    /// What that member's value is.
    pub fn content_form(self) -> ValueForm
        ensures { result ≡ content_form self }
    {
        match self {
            GeoType::FeatureCollection => ValueForm::List(Items::Features),
            GeoType::Feature => ValueForm::Optional,
            GeoType::GeometryCollection => ValueForm::List(Items::Geometries),
            GeoType::Point => ValueForm::Path(Trace::Point),
            GeoType::MultiPoint => ValueForm::List(Items::Positions),
            GeoType::LineString => ValueForm::Path(Trace::Line),
            GeoType::MultiLineString => ValueForm::List(Items::Lines),
            GeoType::Polygon => ValueForm::List(Items::Rings),
            GeoType::MultiPolygon => ValueForm::List(Items::Polygons),
        }
    }
}

impl Holder {
    ghost use Rattle.std.specs.Prelude.{◌≡◌};
    ghost use Rattle.gj_layer.specs.Objects.{is_allowed, has_crs};

    /// Whether an object of this type may be there.
    pub fn allows(self, kind: GeoType) -> bool
        ensures { result ≡ is_allowed self kind }
    {
        match self {
            Holder::Layer => true,
            Holder::Features => match kind {
                GeoType::Feature => true,
                _ => false,
            },
            Holder::Geometries => match kind {
                GeoType::FeatureCollection => false,
                GeoType::Feature => false,
                _ => true,
            },
        }
    }

    /// Whether the object may have a reference system.
    pub fn has_crs(self) -> bool
        ensures { result ≡ has_crs self }
    {
        match self {
            Holder::Layer => true,
            _ => false,
        }
    }
}

impl Items {
    ghost use Rattle.std.specs.Prelude.{◌≡◌};
    ghost use Rattle.gj_layer.specs.Documents.{item_form};

    /// What each element is.
    pub fn form(self) -> ValueForm
        ensures { result ≡ item_form self }
    {
        match self {
            Items::Features => ValueForm::Object(Holder::Features),
            Items::Geometries => ValueForm::Object(Holder::Geometries),
            Items::Positions => ValueForm::Path(Trace::Position),
            Items::Lines => ValueForm::Path(Trace::Line),
            Items::Rings => ValueForm::Path(Trace::Ring),
            Items::Polygons => ValueForm::List(Items::Rings),
        }
    }
}
