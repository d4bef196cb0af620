//! What a layer's fault is, and what helps.

ghost use Rattle.std.specs.Prelude.{◌≡◌, option_copied};
ghost use Rattle.remarks.specs.LayerTables.{finding_of, cure_of, number_finding_of};
ghost use Rattle.remarks.specs.LayerTables.{number_cure_of};

use mm_decimal::NumFault;
use sheet_base::LayerFault;

/// What a number text is that is not read.
pub(crate) fn number_finding(fault: NumFault) -> &'static str
    ensures { result.now ≡ number_finding_of fault }
{
    match fault {
        NumFault::Form { .. } => "a number that is no numeral",
        NumFault::Long => "a number of more than 64 bytes",
        NumFault::Range => "a number past 10^12 metres, or with a power of ten past 99",
    }
}

/// What helps a number text that is not read.
pub(crate) fn number_cure(fault: NumFault) -> Option<&'static str>
    ensures { option_copied result ≡ number_cure_of fault }
{
    match fault {
        NumFault::Form { .. } => None,
        NumFault::Long => Some("write fewer digits: three behind the point are kept"),
        NumFault::Range => None,
    }
}

/// What is at the place of a layer's fault, for any text that has this fault.
pub fn finding(fault: LayerFault) -> &'static str
    ensures { result.now ≡ finding_of fault }
{
    match fault {
        LayerFault::Bad { .. } => "text that may not stand here",
        LayerFault::Deep { .. } => "nested more than 64 deep",
        LayerFault::Repeat { .. } => "a member that stands twice",
        LayerFault::Shape { .. } => "a member or a position that is missing or of another type",
        LayerFault::Kind { .. } => "a geometry of another kind",
        LayerFault::Height { .. } => "a measure, or the mark of one",
        LayerFault::Number { fault, .. } => number_finding(fault),
        LayerFault::Inexact { .. } => "a number with digits past the millimetre",
        LayerFault::Ring { .. } => "a ring that is not closed, or has fewer than four points",
        LayerFault::Binary => "a drawing in binary form",
        LayerFault::NoEof => "a drawing without its end (0, EOF): it is cut off",
        LayerFault::Code { .. } => "a line that is no group code",
        LayerFault::Odd { .. } => "a group code without a value: the drawing is cut off",
        LayerFault::Entity { .. } => "an entity of a kind that is not carried",
        LayerFault::Extrusion { .. } => "an entity in another plane than that of the map",
        LayerFault::Flags { .. } => "a polyline in space, a mesh, or one fitted to a curve",
        LayerFault::Count { .. } => {
            "a group that is missing, stands twice, or counts other vertices than there are"
        }
        LayerFault::Bulge { .. } => "a segment of a polyline that is an arc",
        LayerFault::Width { .. } => "a vertex with a width of its own",
        LayerFault::Attribs { .. } => "an insert with attributes",
        LayerFault::Seed { .. } => {
            "an entity with a handle in a drawing without a next handle ($HANDSEED)"
        }
        LayerFault::NoMemory => "memory ran out",
    }
}

/// What helps a layer with this fault, where something is known that does.
pub fn cure(fault: LayerFault) -> Option<&'static str>
    ensures { option_copied result ≡ cure_of fault }
{
    match fault {
        LayerFault::Bad { .. } => {
            Some(
                "a WKT file has one geometry a line, a GeoJSON file one object, a list of points three numbers a line",
            )
        }
        LayerFault::Deep { .. } => Some("take it apart"),
        LayerFault::Repeat { .. } => Some("remove one of the two"),
        LayerFault::Shape { .. } => None,
        LayerFault::Kind { .. } => {
            Some("curves are made straight by: ogr2ogr -nlt CONVERT_TO_LINEAR")
        }
        LayerFault::Height { .. } => Some(
            "heights are marked and measures left out by: ogr2ogr -dim XYZ",
        ),
        LayerFault::Number { fault, .. } => number_cure(fault),
        LayerFault::Inexact { .. } => Some("without --exact such a number is rounded"),
        LayerFault::Ring { .. } => Some("close it; or try: ogr2ogr -makevalid"),
        LayerFault::Binary => Some("save it as ASCII DXF"),
        LayerFault::NoEof => Some("save the drawing again"),
        LayerFault::Code { .. } => Some("save the drawing again"),
        LayerFault::Odd { .. } => Some("save the drawing again"),
        LayerFault::Entity { .. } => {
            Some("see recipes/readable_drawing.py, or leave such entities out by: --drop-other")
        }
        LayerFault::Extrusion { .. } => Some("flatten it in the drawing"),
        LayerFault::Flags { .. } => Some("see recipes/readable_drawing.py"),
        LayerFault::Count { .. } => Some("save the drawing again"),
        LayerFault::Bulge { .. } => Some("see recipes/readable_drawing.py"),
        LayerFault::Width { .. } => Some("set the width to 0"),
        LayerFault::Attribs { .. } => Some("recipes/readable_drawing.py makes texts of them"),
        LayerFault::Seed { .. } => Some("save the drawing again"),
        LayerFault::NoMemory => Some("carry smaller layers, or one a run"),
    }
}
