//! A feature, and which one has a place.

ghost use Rattle.std.specs.Prelude.{◌≡◌, ◌≤◌, length, Option};
ghost use Rattle.layer_features.specs.Features.{AreInOrder, has_place, feature_at};

/// A part of a layer's text: from `start` to before `past`, in bytes from 0.
#[derive(Clone, Copy, Debug, PartialEq, Eq)]
pub struct TextPart {
    pub start: u32,
    pub past: u32,
}

/// What a feature is called.
#[derive(Clone, Copy, Debug, PartialEq, Eq)]
pub enum Label {
    /// Its number in a FeatureCollection, from 0; or the line at which an entity without a handle begins, from 1.
    Number { number: u32 },
    /// The handle of an entity.
    Handle { part: TextPart },
}

/// A feature of a layer: from the place `start` to before the place `past`. Places are bytes from 0, and in a drawing
/// lines from 1.
#[derive(Clone, Copy, Debug, PartialEq, Eq)]
pub struct Feature {
    pub start: u32,
    pub past: u32,
    pub label: Label,
    /// The value of its member `id`.
    pub id: Option<TextPart>,
    /// The value of the member of its properties that was asked for.
    pub name: Option<TextPart>,
}

// Whether the place is one of the feature's.
fn has_place(feature: Feature, at: u32) -> bool
    ensures { result ≡ has_place at feature }
{
    feature.start <= at && at < feature.past
}

// Where the feature is that has the place, if one has.
fn likely_number(features: &[Feature], at: u32) -> usize
    ensures { result ≤ length features.now }
{
    let mut from = 0;
    let mut past = features.len();
    while from < past {
        let middle = from + (past - from) / 2;
        if features[middle].past <= at {
            from = middle + 1;
        } else {
            past = middle;
        }
    }
    from
}

// The first feature that has the place.
fn first_feature(features: &[Feature], at: u32) -> Option<Feature>
    ensures { result ≡ feature_at features.now at }
{
    for feature in features {
        if has_place(*feature, at) {
            return Some(*feature);
        }
    }
    None
}

/// The feature that has the place. Where it is not where it is likely to be, all features are looked through.
pub fn feature_at(features: &[Feature], at: u32) -> Option<Feature>
    requires { AreInOrder 0 features.now }
    ensures { result ≡ feature_at features.now at }
{
    let likely = likely_number(features, at);
    if likely < features.len() {
        if has_place(features[likely], at) {
            return Some(features[likely]);
        }
    }
    first_feature(features, at)
}
