//! The type that is the `Layer` of each format. All modes take it from here.

ghost use Rattle.std.specs.Prelude.{◌≡◌, ◌^◌, ◌≤◌, IfOk, IfSome, Some, length};
ghost use Rattle.job_words.specs.Formats.{format_by_name};
ghost use Rattle.job_words.specs.JobFields.{HasFormat};
ghost use Rattle.layer_features.specs.Features.{AreInOrder};
ghost use Rattle.layer_features.specs.JsonFeatures.{asked_for};
ghost use Rattle.layer_formats.specs.LayerFeatures.{IsSomeLayer, HasFeatures};
ghost use Rattle.layer_formats.specs.LayerTexts.{is_drawing};

use job_words::{Format, format_of};
use layer_features::{Feature, drawing_features, json_features};
use sheet_base::Listed;
use std::alloc::{AllocError, Global};

/// Calls a function with the `Layer` of this format: `by_format!(format, read_as(alloc, bytes, how))`.
#[macro_export]
macro_rules! by_format {
    ($format:expr, $call:ident($($argument:expr),* $(,)?)) => {
        match $format {
            $crate::Format::Wkt => $call::<$crate::Wkt>($($argument),*),
            $crate::Format::GeoJson => $call::<$crate::GeoJson>($($argument),*),
            $crate::Format::Drawing => $call::<$crate::Dxf>($($argument),*),
        }
    };
}

/// Calls a law with the `Layer` of each format in turn: `in_each_format!(outcome_is_one())`.
#[macro_export]
macro_rules! in_each_format {
    ($law:ident()) => {
        $law::<$crate::Wkt>();
        $law::<$crate::GeoJson>();
        $law::<$crate::Dxf>();
    };
}

/// The format of a layer whose name ends as that of some format.
pub fn known_format(name: &str) -> Format
    requires { HasFormat name.now }
    ensures { format_by_name name.now ≡ Some result }
{
    match format_of(name) {
        Some(format) => format,
        None => unreachable!(),
    }
}

/// Whether layers of this format are drawings, whose extents a report names.
pub fn is_drawing(format: Format) -> bool
    ensures { result ≡ is_drawing format }
{
    match format {
        Format::Wkt | Format::GeoJson => false,
        Format::Drawing => true,
    }
}

/// The features of a layer of this format, which name its paths: those of GeoJSON, or the entities of a drawing. The
/// paths of well-known text have none, and their lines name them.
pub fn features_of(
    alloc: Global,
    format: Format,
    bytes: &[u8],
    asked: Option<&[u8]>,
) -> Result<Option<Listed<Feature>>, AllocError>
    requires within { length bytes.now ≤ 2 ^ 26 }
    requires layer { IsSomeLayer format bytes.now }
    ensures found { IfOk result (λ found. HasFeatures (asked_for asked.entry) format bytes.now found) }
    ensures order { IfOk result (λ found. IfSome found (λ features. AreInOrder 0 features)) }
{
    let _ = asked;
    match format {
        Format::Wkt => Ok(None),
        Format::GeoJson => match json_features(alloc, bytes, asked) {
            Ok(features) => Ok(Some(features)),
            Err(_) => Err(AllocError),
        },
        Format::Drawing => match drawing_features(alloc, bytes) {
            Ok(features) => Ok(Some(features)),
            Err(_) => Err(AllocError),
        },
    }
}
