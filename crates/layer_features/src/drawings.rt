//! The entities of a drawing, as features.

ghost use Rattle.std.specs.Prelude.{◌≡◌, ◌<◌, ◌≤◌, ◌+◌, ◌^◌, length, take, drop, get_or, IfOk, IfErr, Option, Result};
ghost use Rattle.std.specs.List.{list_all};
ghost use Rattle.std.specs.Char.{is_ascii_hexdigit};
ghost use Rattle.dxf_pairs.specs.Laws.{Tile};
ghost use Rattle.dxf_pairs.specs.Pairs.{drawing, Stops};
ghost use Rattle.dxf_entities.specs.EntityViews.{entity_view};
ghost use Rattle.layer_features.specs.Features.{AreInOrder};
ghost use Rattle.layer_features.specs.DrawingFeatures.{begins_feature, next_line, is_hexadecimal, only_field, handle_label};
ghost use Rattle.layer_features.specs.DrawingFeatures.{label_of, entity_feature, pair_features, AreDrawingFeatures};

use crate::features::{Feature, Label, TextPart};
use dxf_entities::{Entity, field, has_code, pairs_before_head, value_in};
use dxf_pairs::{Pair, PairFault, read_pairs};
use sheet_base::Listed;
use std::alloc::{AllocError, Global};

// Whether an entity begins at the pair that is no vertex of a polyline.
fn begins_feature(bytes: &[u8], pair: &Pair) -> bool
    ensures { result ≡ begins_feature bytes.now pair.now }
{
    has_code(0, pair) && value_in(bytes, pair) != b"VERTEX".as_slice()
}

// The line at which the next one begins.
fn next_line(bytes: &[u8], pairs: &[Pair]) -> u32
    ensures { result ≡ next_line bytes.now pairs.now }
{
    for pair in pairs {
        if begins_feature(bytes, pair) {
            return pair.line;
        }
    }
    u32::MAX
}

// Whether the bytes are hexadecimal digits.
fn are_digits(text: &[u8]) -> bool
    ensures { result ≡ list_all is_ascii_hexdigit text.now }
{
    text.iter().all(|byte| byte.is_ascii_hexdigit())
}

// Whether there are some bytes, and all are hexadecimal digits.
fn is_hexadecimal(text: &[u8]) -> bool
    ensures { result ≡ is_hexadecimal text.now }
{
    text.len() >= 1 && are_digits(text)
}

// What an entity is called by that begins at this line and has this field.
fn handle_label(bytes: &[u8], line: u32, found: Option<Pair>) -> Label
    ensures { result ≡ handle_label bytes.now line found }
{
    match found {
        Some(pair) if is_hexadecimal(value_in(bytes, &pair)) => Label::Handle {
            part: TextPart {
                start: pair.value,
                past: pair.value_end,
            },
        },
        _ => Label::Number { number: line },
    }
}

// What an entity is called by.
fn label_of(bytes: &[u8], entity: &Entity) -> Label
    ensures { result ≡ label_of bytes.now (entity_view entity.now) }
{
    match field(5, entity) {
        Ok(found) => handle_label(bytes, entity.head.line, found),
        Err(_) => Label::Number {
            number: entity.head.line,
        },
    }
}

// The feature that begins at the pair, which these pairs follow.
fn entity_feature(bytes: &[u8], pair: &Pair, pairs: &[Pair]) -> Feature
    ensures { result ≡ entity_feature bytes.now pair.now pairs.now }
{
    let entity = Entity {
        head: *pair,
        pairs: pairs_before_head(pairs),
    };
    Feature {
        start: pair.line,
        past: next_line(bytes, pairs),
        label: label_of(bytes, &entity),
        id: None,
        name: None,
    }
}

// The features of pairs.
fn pair_features(alloc: Global, bytes: &[u8], pairs: &[Pair]) -> Result<Vec<Feature>, AllocError>
    ensures { IfOk result (λ features. features.items ≡ pair_features bytes.now pairs.now) }
{
    let mut features = Vec::new(alloc);
    for (number, pair) in pairs.iter().enumerate() {
        if begins_feature(bytes, pair) {
            features.push(entity_feature(bytes, pair, &pairs[number + 1..]))?;
        }
    }
    Ok(features)
}

/// The entities of a drawing as features, from the line at which each begins to before the line at which the next one
/// begins; the vertices of a polyline are parts of it. Each has its handle (group 5), or else its line.
pub fn drawing_features(alloc: Global, bytes: &[u8]) -> Result<Listed<Feature>, PairFault>
    requires { length bytes.now ≤ 2 ^ 26 }
    ensures are { IfOk result (λ features. AreDrawingFeatures bytes.now features) }
    ensures order { IfOk result (λ features. AreInOrder 0 features) }
    ensures refused { IfErr result (λ fault. Stops (drawing bytes.now) fault) }
{
    let pairs = read_pairs(alloc, bytes)?;
    Ok(Listed::of(pair_features(alloc, bytes, &pairs)?))
}
