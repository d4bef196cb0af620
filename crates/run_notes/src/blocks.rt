//! What a drawing has in its blocks, and where it inserts them.

ghost use Rattle.std.specs.Prelude.{◌≤◌, length};
ghost use Rattle.runs.specs.declared.loads.TheConstants.{MOST_BYTES};

use dxf_pairs::{Pair, read_pairs};
use indexmap::IndexMap;
use mm_decimal::read_mm;
use std::alloc::{AllocError, Global};

/// The group code of what an entity is.
const KIND: i32 = 0;

/// The group code of a block's name.
const NAME: i32 = 2;

/// How many thousandths a factor of 1 has.
const ONE: u64 = 1000;

/// The greatest distance on an axis that is told apart from greater ones, in metres.
const MOST_METRES: u64 = 1 << 31;

/// What is read of a drawing so far.
#[derive(Drop)]
struct DrawingRead<'a> {
    /// What the entity is.
    kind: &'a [u8],
    /// The name of the block that is defined or inserted.
    name: &'a [u8],
    /// The base point of the block, in millimetres.
    base: [i64; 2],
    /// The last x, in millimetres.
    x: i64,
    /// The name of the block in whose definition the entity is, or none.
    block: Option<&'a [u8]>,
    /// How many metres the last point is from the base point.
    away: u64,
    /// How many metres the block's content is from its base point at most.
    reach: u64,
    /// The largest factor of the insert, in thousandths.
    factor: u64,
}

/// The blocks that a drawing inserts.
#[derive(Clone, Copy)]
pub(crate) struct Inserts {
    /// How many there are.
    pub(crate) count: u64,
    /// How many metres what is in one of them is from its place at most.
    pub(crate) reach: u64,
}

/// The value of a pair.
fn pair_value<'a>(bytes: &'a [u8], pair: &Pair) -> &'a [u8] {
    match bytes.get(pair.value as usize..pair.value_end as usize) {
        Some(value) => value,
        None => &[],
    }
}

/// The number that a value is, in thousandths, or none.
fn thousandths_in(value: &[u8]) -> i64 {
    match read_mm(value) {
        Ok(read) => read.mm,
        Err(_) => 0,
    }
}

/// How many metres two coordinates in millimetres are apart, rounded up.
fn metres_between(one: i64, other: i64) -> u64 {
    one.abs_diff(other).div_ceil(1000).min(MOST_METRES)
}

/// How many metres the point with this y is from the block's base point, rounded up.
fn distance(pass: &DrawingRead, y: i64) -> u64 {
    let [base_x, base_y] = pass.base;
    let across = metres_between(pass.x, base_x);
    let along = metres_between(y, base_y);
    let square = across
        .saturating_mul(across)
        .saturating_add(along.saturating_mul(along));
    square.saturating_sub(1).isqrt().saturating_add(1)
}

/// Takes a coordinate, a name or a factor of an entity.
fn take_value<'a>(pass: &mut DrawingRead<'a>, code: i32, value: &'a [u8]) {
    let is_line = pass.kind == b"LINE".as_slice();
    match code {
        NAME => pass.name = value,
        10 => pass.x = thousandths_in(value),
        11 if is_line => pass.x = thousandths_in(value),
        20 => take_point(pass, thousandths_in(value)),
        21 if is_line => take_point(pass, thousandths_in(value)),
        41 | 42 => pass.factor = pass.factor.max(thousandths_in(value).unsigned_abs()),
        _ => {}
    }
}

/// Takes the point with this y: a block's base point, or one of its content.
fn take_point(pass: &mut DrawingRead<'_>, y: i64) {
    if pass.kind == b"BLOCK".as_slice() {
        pass.base = [pass.x, y];
        return;
    }
    if pass.block.is_some() {
        pass.away = distance(pass, y);
        pass.reach = pass.reach.max(pass.away);
    }
}

/// Ends an insert: outside of blocks it is counted, and in one it adds what is in its own block, where that was defined
/// before.
fn end_insert(pass: &mut DrawingRead<'_>, reaches: &IndexMap<&[u8], u64>, inserts: &mut Inserts) {
    let reach = match reaches.get(&pass.name) {
        Some(reach) => reach.saturating_mul(pass.factor) / ONE,
        None => 0,
    };
    if pass.block.is_some() {
        pass.reach = pass.reach.max(pass.away.saturating_add(reach));
        return;
    }
    inserts.count = inserts.count.saturating_add(1);
    inserts.reach = inserts.reach.max(reach);
}

/// Ends an entity: the head of a block begins its definition, and its last entity ends that.
fn end_entity<'a>(
    pass: &mut DrawingRead<'a>,
    reaches: &mut IndexMap<&'a [u8], u64>,
    inserts: &mut Inserts,
) -> Result<(), AllocError> {
    if pass.kind == b"INSERT".as_slice() {
        end_insert(pass, reaches, inserts);
    }
    if pass.kind == b"BLOCK".as_slice() {
        pass.block = Some(pass.name);
        pass.reach = 0;
    }
    if pass.kind == b"ENDBLK".as_slice() {
        if let Some(name) = pass.block {
            if reaches.insert(name, pass.reach).is_err() {
                return Err(AllocError);
            }
        }
        pass.block = None;
    }
    Ok(())
}

/// The blocks that these pairs insert.
fn inserts_of(alloc: Global, bytes: &[u8], pairs: &[Pair]) -> Result<Inserts, AllocError> {
    let mut pass = DrawingRead {
        kind: &[],
        name: &[],
        base: [0, 0],
        x: 0,
        block: None,
        away: 0,
        reach: 0,
        factor: ONE,
    };
    let mut reaches = IndexMap::new(alloc);
    let mut inserts = Inserts { count: 0, reach: 0 };
    for pair in pairs {
        let value = pair_value(bytes, pair);
        if pair.code == KIND {
            end_entity(&mut pass, &mut reaches, &mut inserts)?;
            pass.kind = value;
            pass.factor = ONE;
        } else {
            take_value(&mut pass, pair.code, value);
        }
    }
    Ok(inserts)
}

/// The blocks that a drawing with these bytes inserts, where its pairs are read.
pub(crate) fn inserts_in(alloc: Global, bytes: &[u8]) -> Option<Inserts>
    requires { length bytes.now ≤ MOST_BYTES }
{
    let pairs = read_pairs(alloc, bytes).ok()?;
    inserts_of(alloc, bytes, &pairs).ok()
}

/// Whether the last entity of these pairs that begins on this line or before it inserts a block.
fn is_insert_among(bytes: &[u8], pairs: &[Pair], line: u64) -> bool {
    let head = pairs
        .iter()
        .rev()
        .find(|pair| pair.code == KIND && u64::from(pair.line) <= line);
    match head {
        Some(pair) => pair_value(bytes, pair) == b"INSERT".as_slice(),
        None => false,
    }
}

/// Whether the entity of a drawing with these bytes that is on this line inserts a block.
pub(crate) fn is_insert_at(alloc: Global, bytes: &[u8], line: u64) -> bool
    requires { length bytes.now ≤ MOST_BYTES }
{
    match read_pairs(alloc, bytes) {
        Ok(pairs) => is_insert_among(bytes, &pairs, line),
        Err(_) => false,
    }
}
