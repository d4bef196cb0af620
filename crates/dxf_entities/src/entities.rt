//! Entities.

ghost use Rattle.std.specs.Prelude.{◌≡◌, take_while};
ghost use Rattle.dxf_pairs.specs.Groups.{value_in as value_of};
ghost use Rattle.dxf_entities.specs.EntityViews.{entity_view};
ghost use Rattle.dxf_entities.specs.Entities.{is_coded, has_both, is_no_head, entity_end};

use dxf_pairs::Pair;
use sheet_base::between;

/// An entity: its pair of code 0, and the pairs up to the next code 0.
#[derive(Clone, Copy)]
pub struct Entity<'a> {
    pub head: Pair,
    pub pairs: &'a [Pair],
}

impl Entity<'_> {
    /// The place past the entity's last pair.
    pub fn end(&self) -> u32
        ensures { result ≡ entity_end (entity_view self.now) }
    {
        match self.pairs.last() {
            Some(pair) => pair.end,
            None => self.head.end,
        }
    }
}

/// The value of a pair.
pub fn value_in<'a>(bytes: &'a [u8], pair: &Pair) -> &'a [u8]
    ensures { result.now ≡ value_of bytes.now pair.now }
{
    between(bytes, pair.value as usize, pair.value_end as usize)
}

/// Whether the pair has this code.
pub fn has_code(code: i32, pair: &Pair) -> bool
    ensures { result ≡ is_coded code pair.now }
{
    pair.code == code
}

/// Whether the pair has this code and this value.
pub fn is_pair(bytes: &[u8], code: i32, value: &[u8], pair: &Pair) -> bool
    ensures { result ≡ has_both bytes.now code value.now pair.now }
{
    pair.code == code && value_in(bytes, pair) == value
}

/// The pairs before the first of code 0.
pub fn pairs_before_head(pairs: &[Pair]) -> &[Pair]
    ensures { result.now ≡ take_while is_no_head pairs.now }
{
    let mut count = 0;
    while count < pairs.len() && !has_code(0, &pairs[count]) {
        count += 1;
    }
    &pairs[..count]
}
