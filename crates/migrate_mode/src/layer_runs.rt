//! What a run has of its layers, and one layer more.

ghost use Rattle.std.specs.Prelude.{◌≡◌, ◌+◌, ◌≤◌, [], ◌∷◌, ◌++◌, IfOk, IfErr, OnOk, map, drop, length, vec_len, string_bytes};
ghost use Rattle.carry_map.specs.declared.limits.TheConstants.{MOST_PIECES};
ghost use Rattle.job_words.specs.JobFields.{HasFormat};
ghost use Rattle.runs.specs.declared.loads.TheConstants.{MOST_BYTES};
ghost use Rattle.cert_check.specs.Certificates.{certificate_of};
ghost use Rattle.cert_check.specs.PieceLists.{lists_of};
ghost use Rattle.migrate_mode.specs.Names.{cert_name_in};
ghost use Rattle.migrate_mode.specs.Migrations.{certs_of};
ghost use Rattle.migrate_mode.specs.LayerOutcomes.{IsCarriedAs, IsCarried};
ghost use Rattle.runs.specs.Output.{file_of, name_in};
ghost use Rattle.migrate_mode.specs.RunContents.{IsUncarriedAs, IsUncarried};
ghost use Rattle.migrate_mode.specs.RunContents.{AddsLayer, AddsNone, AddsKept, KeepsBoth};
ghost use Rattle.carry_map.specs.Layers.{IsLayerKept, IsPlaced};
ghost use Rattle.layer_formats.specs.LayerOutcomes.{IsLayerText};

use crate::refusals::refuse_layer;
use crate::report::layer_row;
use carry_map::{Kept, MOST_PIECES, carry_kept};
use cert_check::write_cert;
use job_words::Format;
use layer_formats::{by_format, known_format};
use report_text::LayerRow;
use runs::{LayerFile, Refusal, output_name};
use sheet_base::{How, Images, Layer, Listed, Sheet};
use shelf_io::Name;
use std::alloc::{AllocError, Global};
use tin_base::Piece;
use tin_index::TinIndex;

/// What a run has of the layers that were carried: for each its file and its row of the report, and the pieces and
/// the bytes of all of them. Where sides of rings are asked for, it also has the sheet of each and its images.
#[derive(Drop)]
pub struct CarriedLayers {
    pub files: Vec<LayerFile>,
    pub rows: Vec<LayerRow>,
    pub pieces: Vec<Piece>,
    pub used: u64,
    /// Whether sheets and images are kept.
    pub sides: bool,
    pub sheets: Vec<Sheet>,
    pub images: Vec<Images>,
}

impl CarriedLayers {
    ghost use Rattle.std.specs.Prelude.{◌≡◌, [], false};

    /// A run that has no layer yet, and keeps no sheets.
    pub fn new(alloc: Global) -> CarriedLayers
        ensures files { result.files.items ≡ [] }
        ensures rows { result.rows.items ≡ [] }
        ensures pieces { result.pieces.items ≡ [] }
        ensures used { result.used ≡ 0 }
        ensures sides { result.sides ≡ false }
        ensures sheets { result.sheets.items ≡ [] }
        ensures images { result.images.items ≡ [] }
    {
        CarriedLayers {
            files: Vec::new(alloc),
            rows: Vec::new(alloc),
            pieces: Vec::new(alloc),
            used: 0,
            sides: false,
            sheets: Vec::new(alloc),
            images: Vec::new(alloc),
        }
    }
}

/// The layer of this number, which has the format `L`, carried through a triangulation. Its pieces are appended.
fn carry_as<L: Layer>(
    alloc: Global,
    index: &TinIndex,
    bytes: &[u8],
    how: How,
    number: u32,
    pieces: &mut Vec<Piece>,
) -> Result<Kept, Refusal>
    requires within { length bytes.now ≤ MOST_BYTES }
    requires room { vec_len pieces.old ≤ MOST_PIECES }
    ensures ok { IfOk result (λ layer. IsCarriedAs (L.reads how) (λ text sheet images edit. L.text text how sheet images edit)
        (L.reads_back how) index.now bytes.now number pieces.old.items pieces.new.items layer.carried) }
    ensures kept { IfOk result (λ layer. IsLayerKept index.now (L.reads how bytes.now) layer.sheet layer.images) }
    ensures placed { IfOk result (λ layer. IsPlaced index.now layer.sheet layer.images) }
    ensures room { vec_len pieces.new ≤ MOST_PIECES }
    ensures refused { IfErr result (λ refusal. IsUncarriedAs (L.reads how) (L.refuses how) index.now bytes.now number
        (length pieces.old.items) refusal) }
{
    match carry_kept::<L>(alloc, index, bytes, how, number, MOST_PIECES, pieces) {
        Ok(layer) => Ok(layer),
        Err(fault) => Err(refuse_layer(number, fault)),
    }
}

/// The layer of this number, which has this format, carried through a triangulation. Its pieces are appended.
fn carry_by_format(
    alloc: Global,
    format: Format,
    index: &TinIndex,
    bytes: &[u8],
    how: How,
    number: u32,
    pieces: &mut Vec<Piece>,
) -> Result<Kept, Refusal>
    requires within { length bytes.now ≤ MOST_BYTES }
    requires room { vec_len pieces.old ≤ MOST_PIECES }
    ensures ok { IfOk result (λ layer. IsCarried how index.now format bytes.now number pieces.old.items pieces.new.items layer.carried) }
    ensures kept { IfOk result (λ layer. IsLayerKept index.now (IsLayerText how format bytes.now) layer.sheet layer.images) }
    ensures placed { IfOk result (λ layer. IsPlaced index.now layer.sheet layer.images) }
    ensures room { vec_len pieces.new ≤ MOST_PIECES }
    ensures refused { IfErr result (λ refusal. IsUncarried how index.now format bytes.now number (length pieces.old.items) refusal) }
{
    by_format!(format, carry_as(alloc, index, bytes, how, number, pieces))
}

/// The file into which a layer is written that was carried.
fn layer_file(
    alloc: Global,
    out: &Name,
    name: &Name,
    text: Listed<u8>,
) -> Result<LayerFile, AllocError>
    ensures { IfOk result (λ file. file_of file ≡ (name_in out.now name.now, text)) }
{
    Ok(LayerFile {
        name: output_name(alloc, out.text(), name.text())?,
        text,
    })
}

/// The name of the file into which the certificate of a layer is written: that of the layer's file, and `.cert`.
pub fn cert_name(alloc: Global, out: &str, layer: &str) -> Result<String, AllocError>
    ensures { IfOk result (λ name. string_bytes name ≡ cert_name_in out.now layer.now) }
{
    let name = output_name(alloc, out, layer)?;
    let whole = format!(in alloc; "{name}.cert")?;
    Ok(whole)
}

/// The file into which the certificate of a layer is written that has these pieces.
fn cert_file(
    alloc: Global,
    out: &Name,
    name: &Name,
    pieces: &[Piece],
) -> Result<LayerFile, AllocError>
    ensures { IfOk result (λ file. file_of file ≡ (cert_name_in out.now name.now, certificate_of (lists_of pieces.now))) }
{
    Ok(LayerFile {
        name: cert_name(alloc, out.text(), name.text())?,
        text: Listed::of(write_cert(alloc, pieces)?),
    })
}

/// Puts the file of a layer's certificate after those that the run has, where it is wanted. The layer's pieces are
/// those after the first `before`.
fn add_cert(
    alloc: Global,
    cert: bool,
    folder: &Name,
    name: &Name,
    before: usize,
    run: &mut CarriedLayers,
) -> Result<(), AllocError>
    requires within { before ≤ length run.old.pieces.items }
    ensures files { OnOk result (map file_of run.new.files.items ≡ map file_of run.old.files.items ++ certs_of cert folder.now name.now
        (drop before run.old.pieces.items)) }
    ensures rows { run.new.rows ≡ run.old.rows }
    ensures pieces { run.new.pieces ≡ run.old.pieces }
    ensures used { run.new.used ≡ run.old.used }
    ensures sides { run.new.sides ≡ run.old.sides }
    ensures sheets { run.new.sheets ≡ run.old.sheets }
    ensures images { run.new.images ≡ run.old.images }
{
    if !cert {
        return Ok(());
    }
    let file = cert_file(alloc, folder, name, &run.pieces[before..])?;
    run.files.push(file)?;
    Ok(())
}

/// Puts a layer's file and its row after those that the run has.
fn add_layer(run: &mut CarriedLayers, file: LayerFile, row: LayerRow) -> Result<(), AllocError>
    ensures files { OnOk result (run.new.files.items ≡ run.old.files.items ++ file ∷ []) }
    ensures rows { OnOk result (run.new.rows.items ≡ run.old.rows.items ++ row ∷ []) }
    ensures pieces { run.new.pieces ≡ run.old.pieces }
    ensures used { run.new.used ≡ run.old.used }
    ensures sides { run.new.sides ≡ run.old.sides }
    ensures sheets { run.new.sheets ≡ run.old.sheets }
    ensures images { run.new.images ≡ run.old.images }
{
    run.files.push(file)?;
    run.rows.push(row)?;
    Ok(())
}

/// Puts a layer's sheet and its images after those that the run has, where it keeps them; else both are let go.
fn keep_sheet(run: &mut CarriedLayers, sheet: Sheet, images: Images) -> Result<(), AllocError>
    ensures kept { OnOk result (KeepsBoth run.old.sides sheet images run.old run.new) }
    ensures files { run.new.files ≡ run.old.files }
    ensures rows { run.new.rows ≡ run.old.rows }
    ensures pieces { run.new.pieces ≡ run.old.pieces }
    ensures used { run.new.used ≡ run.old.used }
    ensures sides { run.new.sides ≡ run.old.sides }
{
    if !run.sides {
        return Ok(());
    }
    run.sheets.push(sheet)?;
    run.images.push(images)?;
    Ok(())
}

/// Carries the layer of this number, name and bytes after those that the run has, where `cert` is set with its
/// certificate. Where the run keeps sheets it has the layer's, and its images, too.
pub fn carry_next(
    alloc: Global,
    folder: &Name,
    cert: bool,
    how: How,
    index: &TinIndex,
    number: u32,
    name: &Name,
    bytes: &[u8],
    run: &mut CarriedLayers,
) -> Result<(), Refusal>
    requires suffix { HasFormat name.now }
    requires within { run.old.used + length bytes.now ≤ MOST_BYTES }
    requires room { vec_len run.old.pieces ≤ MOST_PIECES }
    ensures ok { OnOk result (AddsLayer how index.now cert folder.now number name.now bytes.now run.old run.new) }
    ensures kept { OnOk result (AddsKept run.old.sides how index.now name.now bytes.now run.old run.new) }
    ensures sides { run.new.sides ≡ run.old.sides }
    ensures room { vec_len run.new.pieces ≤ MOST_PIECES }
    ensures refused { IfErr result (λ refusal. AddsNone how index.now number name.now bytes.now (length run.old.pieces.items) refusal) }
{
    let format = known_format(name.text());
    let before = run.pieces.len();
    let layer = carry_by_format(alloc, format, index, bytes, how, number, &mut run.pieces)?;
    let carried = layer.carried;
    keep_sheet(run, layer.sheet, layer.images)?;
    let row = layer_row(alloc, name, format, &carried)?;
    let file = layer_file(alloc, folder, name, carried.text)?;
    add_layer(run, file, row)?;
    add_cert(alloc, cert, folder, name, before, run)?;
    run.used += bytes.len() as u64;
    Ok(())
}
