//! One call reads a layer, carries it and writes its bytes with the images in place of its points.

ghost use Rattle.std.specs.Prelude.{◌≡◌, ℕ, ◌*◌, ◌≤◌, ◌^◌, length, drop, vec_len, IfOk, OnOk, OnErr, IsErrOf};
ghost use Rattle.sheet_base.specs.declared.faults.LayerFault.{LayerFault};
ghost use Rattle.sheet_base.specs.declared.faults.LayerFault.TheVariants.{NoMemory};
ghost use Rattle.sheet_base.specs.Splices.{AreInOrder};
ghost use Rattle.sheet_pieces.specs.SheetSegments.{sheet_segments};
ghost use Rattle.carry_map.specs.declared.limits.TheConstants.{MOST_PIECES};
ghost use Rattle.carry_map.specs.Causes.{IsFirstOutside, IsFirstTooMany};
ghost use Rattle.carry_map.specs.Layers.{IsLayerCarried, IsLayerOutside, IsLayerTooMany, IsBackAsPieces, IsLayerKept, IsPlaced};
ghost use Rattle.carry_map.specs.InsideWrittenSheets.{IsSheetWritten};

use crate::{CarryFault, carry};
use sheet_base::{How, Images, Layer, LayerFault, Listed, Sheet};
use sheet_pieces::segment_total;
use std::alloc::{AllocError, Global};
use tin_base::Piece;
use tin_index::TinIndex;

/// A layer that was carried: its bytes with the images in place of its points, and how many paths, segments and pieces
/// it has, numbers that lost digits, and entities that are left out.
#[derive(Debug, Drop)]
pub struct Carried {
    pub text: Listed<u8>,
    pub paths: u32,
    pub segments: u32,
    pub pieces: u32,
    pub inexact: u64,
    pub dropped: u64,
}

/// A layer that was carried, with what it was read as and the images of that.
#[derive(Drop)]
pub struct Kept {
    pub carried: Carried,
    pub sheet: Sheet,
    pub images: Images,
}

/// How many paths.
fn path_count(sheet: &Sheet) -> u32
    ensures { result ≡ length sheet.now.paths }
{
    sheet.paths().len() as u32
}

/// The sheet of a layer, or why the layer is not carried: its first fault, or memory that runs out.
fn read_sheet<L: Layer>(alloc: Global, bytes: &[u8], how: How) -> Result<Sheet, CarryFault>
    requires { length bytes.now ≤ 2 ^ 26 }
    ensures sheet { IfOk result (λ sheet. L.reads how bytes.now sheet) }
    ensures edits { IfOk result (λ sheet. AreInOrder 0 sheet.edits (length bytes.now)) }
    ensures layer { (fault : LayerFault) → IsErrOf result (CarryFault.Layer fault) → L.refuses how bytes.now fault }
    ensures memory { ¬ IsErrOf result (CarryFault.Layer NoMemory) }
    ensures outside { (path segment : ℕ) → ¬ IsErrOf result (CarryFault.Outside path segment) }
    ensures too_many { ¬ IsErrOf result CarryFault.TooMany }
{
    match L::read(alloc, bytes, how) {
        Ok(sheet) => Ok(sheet),
        Err(LayerFault::NoMemory) => Err(CarryFault::NoMemory),
        Err(fault) => Err(CarryFault::Layer(fault)),
    }
}

/// Carries the sheet of a layer, and gives the layer's bytes with the images in place of its points, and the images.
/// After a refusal the pieces are as before.
fn carry_sheet<L: Layer>(
    alloc: Global,
    index: &TinIndex,
    bytes: &[u8],
    how: How,
    sheet: &Sheet,
    layer: u32,
    most: u32,
    pieces: &mut Vec<Piece>,
) -> Result<(Vec<u8>, Images), CarryFault>
    requires small { length bytes.now ≤ 2 ^ 26 }
    requires sheet { L.reads how bytes.now sheet.now }
    requires room { vec_len pieces.old ≤ most }
    requires most { most ≤ MOST_PIECES }
    ensures written { IfOk result (λ made. IsSheetWritten index.now bytes.now (L.text bytes.now how) layer sheet.now
        made.1 pieces.old.items pieces.new.items made.0.items) }
    ensures room { OnOk result (vec_len pieces.new ≤ most) }
    ensures few { IfOk result (λ made. length made.1.points ≤ 2 * MOST_PIECES) }
    ensures back { IfOk result (λ made. IsBackAsPieces index.now bytes.now (L.reads how) (L.reads_back how bytes.now)
        made.0.items (drop (vec_len pieces.old) pieces.new.items)) }
    ensures no_layer { (fault : LayerFault) → ¬ IsErrOf result (CarryFault.Layer fault) }
    ensures outside { (path segment : ℕ) → IsErrOf result (CarryFault.Outside path segment)
        → IsFirstOutside index.now layer (vec_len pieces.old) most (sheet_segments sheet.now) path segment }
    ensures too_many { IsErrOf result CarryFault.TooMany
        → IsFirstTooMany index.now layer (vec_len pieces.old) most (sheet_segments sheet.now) }
    ensures unchanged { OnErr result (pieces.new.items ≡ pieces.old.items) }
{
    let before = pieces.len();
    let images = carry(alloc, index, sheet, layer, most, pieces)?;
    match L::render(alloc, bytes, how, sheet, &images) {
        Ok(text) => Ok((text, images)),
        Err(AllocError) => {
            pieces.truncate(before);
            Err(CarryFault::NoMemory)
        }
    }
}

/// What is said of a layer that was carried to this text and this many pieces.
fn carried_of(sheet: &Sheet, text: Vec<u8>, pieces: u32) -> Carried
    ensures text { result.text ≡ text.items }
    ensures paths { result.paths ≡ length sheet.now.paths }
    ensures segments { result.segments ≡ length (sheet_segments sheet.now) }
    ensures pieces { result.pieces ≡ pieces }
    ensures inexact { result.inexact ≡ sheet.now.inexact }
    ensures dropped { result.dropped ≡ sheet.now.dropped }
{
    Carried {
        text: Listed::of(text),
        paths: path_count(sheet),
        segments: segment_total(sheet),
        pieces,
        inexact: sheet.inexact(),
        dropped: sheet.dropped(),
    }
}

/// As `carry_layer`, which drops what the layer was read as and the images: these are kept beside what was carried.
pub fn carry_kept<L: Layer>(
    alloc: Global,
    index: &TinIndex,
    bytes: &[u8],
    how: How,
    layer: u32,
    most: u32,
    pieces: &mut Vec<Piece>,
) -> Result<Kept, CarryFault>
    requires small { length bytes.now ≤ 2 ^ 26 }
    requires room { vec_len pieces.old ≤ most }
    requires most { most ≤ MOST_PIECES }
    // where it is carried
    ensures carried { IfOk result (λ kept. IsLayerCarried index.now bytes.now (L.reads how bytes.now)
        (L.text bytes.now how) layer pieces.old.items pieces.new.items kept.carried) }
    ensures kept { IfOk result (λ kept. IsLayerKept index.now (L.reads how bytes.now) kept.sheet kept.images) }
    ensures placed { IfOk result (λ kept. IsPlaced index.now kept.sheet kept.images) }
    ensures room { OnOk result (vec_len pieces.new ≤ most) }
    // what the written text is read as
    ensures back { IfOk result (λ kept. IsBackAsPieces index.now bytes.now (L.reads how) (L.reads_back how bytes.now)
        kept.carried.text (drop (vec_len pieces.old) pieces.new.items)) }
    // the cause of each refusal, and what holds after it
    ensures layer { (fault : LayerFault) → IsErrOf result (CarryFault.Layer fault) → L.refuses how bytes.now fault }
    ensures memory { ¬ IsErrOf result (CarryFault.Layer NoMemory) }
    ensures outside { (path segment : ℕ) → IsErrOf result (CarryFault.Outside path segment)
        → IsLayerOutside index.now (L.reads how bytes.now) layer (vec_len pieces.old) most path segment }
    ensures too_many { IsErrOf result CarryFault.TooMany
        → IsLayerTooMany index.now (L.reads how bytes.now) layer (vec_len pieces.old) most }
    ensures unchanged { OnErr result (pieces.new.items ≡ pieces.old.items) }
{
    let sheet = read_sheet::<L>(alloc, bytes, how)?;
    let before = pieces.len();
    sheet.recall();
    let (text, images) = carry_sheet::<L>(alloc, index, bytes, how, &sheet, layer, most, pieces)?;
    Ok(Kept {
        carried: carried_of(&sheet, text, (pieces.len() - before) as u32),
        sheet,
        images,
    })
}

/// Reads a layer, carries it and writes its bytes with the images in place of its points. Its pieces are appended in
/// order; `layer` is its number, and with its pieces there are to be at most `most`. A layer that the format refuses is
/// `Layer`, with its first fault; else each segment must be inside, and the pieces must find room, as `carry` asks.
/// Unless the format excepts what is written, the text is a layer again, and its segments in order are those between
/// the images of the ends of the appended pieces. After a refusal the pieces are as before.
///
/// Each answer but `NoMemory` comes exactly where its clause says, for every format: by the laws `layer_end_exists` and
/// `layer_end_is_one`, which rest on the laws `outcome_exists` and `outcome_is_one` of `Layer`, the bytes have one of
/// these ends, and no second one.
pub fn carry_layer<L: Layer>(
    alloc: Global,
    index: &TinIndex,
    bytes: &[u8],
    how: How,
    layer: u32,
    most: u32,
    pieces: &mut Vec<Piece>,
) -> Result<Carried, CarryFault>
    requires small { length bytes.now ≤ 2 ^ 26 }
    requires room { vec_len pieces.old ≤ most }
    requires most { most ≤ MOST_PIECES }
    // where it is carried
    ensures carried { IfOk result (λ carried. IsLayerCarried index.now bytes.now (L.reads how bytes.now)
        (L.text bytes.now how) layer pieces.old.items pieces.new.items carried) }
    ensures room { OnOk result (vec_len pieces.new ≤ most) }
    // what the written text is read as
    ensures back { IfOk result (λ carried. IsBackAsPieces index.now bytes.now (L.reads how) (L.reads_back how bytes.now)
        carried.text (drop (vec_len pieces.old) pieces.new.items)) }
    // the cause of each refusal, and what holds after it
    ensures layer { (fault : LayerFault) → IsErrOf result (CarryFault.Layer fault) → L.refuses how bytes.now fault }
    ensures memory { ¬ IsErrOf result (CarryFault.Layer NoMemory) }
    ensures outside { (path segment : ℕ) → IsErrOf result (CarryFault.Outside path segment)
        → IsLayerOutside index.now (L.reads how bytes.now) layer (vec_len pieces.old) most path segment }
    ensures too_many { IsErrOf result CarryFault.TooMany
        → IsLayerTooMany index.now (L.reads how bytes.now) layer (vec_len pieces.old) most }
    ensures unchanged { OnErr result (pieces.new.items ≡ pieces.old.items) }
{
    let kept = carry_kept::<L>(alloc, index, bytes, how, layer, most, pieces)?;
    Ok(kept.carried)
}
