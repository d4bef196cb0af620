//! Handles of entities.

ghost use Rattle.std.specs.Prelude.{◌≡◌};
ghost use Rattle.std.specs.List.{list_all};
ghost use Rattle.std.specs.Char.{is_ascii_hexdigit};
ghost use Rattle.dxf_entities.specs.EntityViews.{entity_view};
ghost use Rattle.dxf_entities.specs.Handles.{is_handle, handle};

use crate::entities::Entity;
use crate::fields::field;
use dxf_pairs::Pair;
use sheet_base::LayerFault;

/// The most digits of the next handle.
pub const MOST_DIGITS: usize = 15;

/// Whether the bytes are hexadecimal digits.
fn are_hexadecimal(text: &[u8]) -> bool
    ensures { result ≡ list_all is_ascii_hexdigit text.now }
{
    text.iter().all(|byte| byte.is_ascii_hexdigit())
}

/// Whether a text is a handle of one to `MOST_DIGITS` hexadecimal digits.
pub fn is_handle(text: &[u8]) -> bool
    ensures { result ≡ is_handle text.now }
{
    text.len() >= 1 && text.len() <= MOST_DIGITS && are_hexadecimal(text)
}

/// Refuses an entity with a handle where no next one is given.
pub fn check_handle(seed: Option<Pair>, entity: &Entity) -> Result<(), LayerFault>
    ensures { result ≡ handle seed (entity_view entity.now) }
{
    match field(5, entity)? {
        Some(pair) if seed.is_none() => Err(LayerFault::Seed {
            line: u64::from(pair.line),
        }),
        _ => Ok(()),
    }
}
