//! A migrated layer against its certificate.

ghost use Rattle.std.specs.Prelude.{◌≡◌, ℕ, ◌≤◌, ◌<◌, ◌^◌, [], length, vec_len, IfSome, IfNone, IfOk, IfErr, OnOk};
ghost use Rattle.sheet_base.specs.ImageFits.{DoFit};
ghost use Rattle.sheet_base.specs.Sheets.{IsSheet};
ghost use Rattle.sheet_base.specs.Splices.{splice_of};
ghost use Rattle.sheet_pieces.specs.SheetSegments.{sheet_vertices, sheet_segments};
ghost use Rattle.sheet_pieces.specs.SheetImages.{AreImagesOf};
ghost use Rattle.cert_check.specs.Checks.{IsFirstDifference, IsMigrated, IsCertified, IsCertCause};
ghost use Rattle.cert_check.specs.Lines.{HasCount};
ghost use Rattle.cert_check.specs.InsideSheetLists.{HasLines, HasRightLists, AreImaged, IsStopCause, IsImageCause};
ghost use Rattle.cert_check.specs.InsideSheetLists.{IsSourceCause, IsCountCause, IsTextCause};

use crate::CertFault;
use crate::lines::{behind_head, list_count};
use crate::path_segments::NumberedPath;
use crate::paths::{ImagesAndRest, pass_path};
use sheet_base::{Heights, How, Images, Layer, LayerFault, Listed, Sheet};
use sheet_pieces::segment_total;
use std::alloc::Global;
use tin_base::SoundTin;

/// The images of a sheet by the lines of its segments.
fn pass_paths<'a>(
    alloc: Global,
    tin: &SoundTin,
    sheet: &Sheet,
    lines: &'a [u8],
) -> Result<ImagesAndRest<'a>, CertFault>
    requires lines { HasLines lines.now (length (sheet_segments sheet.now)) }
    requires few { length lines.now < 2 ^ 32 }
    ensures imaged { IfOk result (λ gathered. AreImaged tin.now (sheet_vertices sheet.now) [] gathered.points.items
        [] gathered.heights [] gathered.run.items lines.now gathered.rest.now) }
    ensures few { IfOk result (λ gathered. vec_len gathered.points < 2 ^ 32) }
    ensures cause { IfErr result (λ fault. IsStopCause tin.now (sheet_segments sheet.now) lines.now fault) }
{
    let points = sheet.points();
    let heights = sheet.heights();
    let mut numbers = Vec::new(alloc);
    let mut gathered = ImagesAndRest {
        points: Vec::with_capacity(alloc, points.len())?,
        heights: Heights::none(alloc, 0),
        run: Vec::with_capacity(alloc, points.len())?,
        rest: lines,
    };
    for (path, row) in sheet.paths().iter().enumerate() {
        let track = NumberedPath {
            row: *row,
            path: path as u32,
        };
        pass_path(tin, points, heights, track, &mut numbers, &mut gathered)?;
    }
    Ok(gathered)
}

/// The images of a sheet by a certificate that has a line for each of its segments.
fn images_by(alloc: Global, tin: &SoundTin, sheet: &Sheet, cert: &[u8]) -> Result<Images, CertFault>
    requires lists { HasCount cert.now (length (sheet_segments sheet.now)) }
    requires few { length cert.now < 2 ^ 32 }
    ensures images { IfOk result (λ images. AreImagesOf tin.now sheet.now images) }
    ensures fits { IfOk result (λ images. DoFit sheet.now images) }
    ensures right { OnOk result (HasRightLists tin.now (sheet_segments sheet.now) cert.now) }
    ensures cause { IfErr result (λ fault. IsImageCause tin.now (sheet_segments sheet.now) cert.now fault) }
{
    tin.show_soundness();
    sheet.recall();
    let Some(lines) = behind_head(cert) else {
        return Err(CertFault::Form { line: 1 });
    };
    match pass_paths(alloc, tin, sheet, lines) {
        Ok(gathered) => Ok(Images::of(
            Listed::of(gathered.points),
            gathered.heights,
            Listed::of(gathered.run),
        )),
        Err(fault) => Err(fault),
    }
}

/// The first place at which two texts differ; the end of either is a difference.
fn first_difference(text: &[u8], other: &[u8]) -> Option<u64>
    ensures some { IfSome result (λ at. IsFirstDifference text.now other.now at) }
    ensures none { IfNone result (text.now ≡ other.now) }
{
    let end = text.len().min(other.len());
    for at in 0..end {
        if text[at] != other[at] {
            return Some(at as u64);
        }
    }
    if text.len() == other.len() {
        return None;
    }
    Some(end as u64)
}

/// Whether the written bytes are the text.
fn compare(text: &[u8], written: &[u8]) -> Result<(), CertFault>
    ensures same { OnOk result (text.now ≡ written.now) }
    ensures cause { IfErr result (λ fault. IsTextCause text.now written.now fault) }
{
    match first_difference(text, written) {
        Some(at) => Err(CertFault::Differs { at }),
        None => Ok(()),
    }
}

/// The sheet of the source layer.
fn read_source<L: Layer>(alloc: Global, source: &[u8], how: How) -> Result<Sheet, CertFault>
    requires { length source.now ≤ 2 ^ 26 }
    ensures sheet { IfOk result (λ sheet. L.reads how source.now sheet) }
    ensures cause { IfErr result (λ fault. IsSourceCause (L.refuses how source.now) fault) }
{
    match L::read(alloc, source, how) {
        Ok(sheet) => Ok(sheet),
        Err(LayerFault::NoMemory) => Err(CertFault::NoMemory),
        Err(fault) => Err(CertFault::Layer(fault)),
    }
}

/// Whether the certificate has a line for each segment of the sheet.
fn count_lists(sheet: &Sheet, cert: &[u8]) -> Result<(), CertFault>
    requires { length cert.now < 2 ^ 32 }
    ensures counted { OnOk result (HasCount cert.now (length (sheet_segments sheet.now))) }
    ensures cause { IfErr result (λ fault. IsCountCause (length (sheet_segments sheet.now)) cert.now fault) }
{
    let lines = match list_count(cert) {
        Ok(lines) => lines,
        Err(line) => return Err(CertFault::Form { line }),
    };
    let segments = segment_total(sheet);
    if segments != lines {
        return Err(CertFault::Count { segments, lines });
    }
    Ok(())
}

/// Whether the written layer is the source with the images in place of the sheet's points.
fn compare_layer<L: Layer>(
    alloc: Global,
    source: &[u8],
    how: How,
    sheet: &Sheet,
    images: &Images,
    written: &[u8],
) -> Result<(), CertFault>
    requires small { length source.now ≤ 2 ^ 26 }
    requires sheet { L.reads how source.now sheet.now }
    requires fits { DoFit sheet.now images.now }
    ensures same { OnOk result (splice_of source.now (L.text source.now how sheet.now images.now) sheet.now.edits ≡ written.now) }
    ensures cause { IfErr result (λ fault. IsTextCause
        (splice_of source.now (L.text source.now how sheet.now images.now) sheet.now.edits) written.now fault) }
{
    let text = L::render(alloc, source, how, sheet, images)?;
    compare(&text, written)
}

/// Whether a sheet's layer was migrated as its certificate says, in the order of the refusals.
fn check_sheet<L: Layer>(
    alloc: Global,
    tin: &SoundTin,
    source: &[u8],
    written: &[u8],
    how: How,
    sheet: &Sheet,
    cert: &[u8],
) -> Result<(), CertFault>
    requires small { length source.now ≤ 2 ^ 26 }
    requires sheet { L.reads how source.now sheet.now }
    requires few { length cert.now < 2 ^ 32 }
    ensures certified { OnOk result (IsCertified tin.now source.now written.now (L.reads how source.now) (L.text source.now how) cert.now) }
    ensures cause { IfErr result (λ fault. IsCertCause tin.now source.now written.now (L.reads how source.now)
        (L.refuses how source.now) (L.text source.now how) cert.now fault) }
{
    tin.show_soundness();
    count_lists(sheet, cert)?;
    let images = images_by(alloc, tin, sheet, cert)?;
    compare_layer::<L>(alloc, source, how, sheet, &images, written)
}

/// Whether a layer was migrated as its certificate says: each segment of the source layer is inside, and the written
/// layer is its bytes with the images in place of its points. The refusals come in this order. The source is not read
/// (`Layer`). A line of the certificate is not of the form (`Form`). It has lines for another number of segments
/// (`Count`). The list of a segment is not right (`Segment`, the first one). The written layer is another (`Differs`,
/// from the first such place on). It takes no grid, index or walk.
pub fn check_cert<L: Layer>(
    alloc: Global,
    tin: &SoundTin,
    source: &[u8],
    written: &[u8],
    how: How,
    cert: &[u8],
) -> Result<(), CertFault>
    requires small { length source.now ≤ 2 ^ 26 }
    requires few { length cert.now < 2 ^ 32 }
    ensures migrated { OnOk result (IsMigrated tin.now source.now written.now (L.reads how source.now) (L.text source.now how)) }
    ensures certified { OnOk result (IsCertified tin.now source.now written.now (L.reads how source.now) (L.text source.now how) cert.now) }
    ensures cause { IfErr result (λ fault. IsCertCause tin.now source.now written.now (L.reads how source.now)
        (L.refuses how source.now) (L.text source.now how) cert.now fault) }
{
    let sheet = read_source::<L>(alloc, source, how)?;
    check_sheet::<L>(alloc, tin, source, written, how, &sheet, cert)
}
