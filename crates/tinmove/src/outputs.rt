//! The names of the files that a run writes beside its report.

ghost use Rattle.std.specs.Prelude.{◌≡◌, ◌++◌, IfOk, flat_map, map, string_bytes};
ghost use Rattle.migrate_mode.specs.Names.{names_in};

use migrate_mode::cert_name;
use runs::output_name;
use shelf_io::Name;
use std::alloc::{AllocError, Global};

/// Appends the name of the file into which this layer is written, in the folder `out`, and with certificates that of
/// its certificate.
fn push_names(
    alloc: Global,
    outputs: &mut Vec<String>,
    out: &str,
    layer: &str,
    cert: bool,
) -> Result<(), AllocError>
    ensures { IfOk result (λ _. map string_bytes outputs.new.items
        ≡ map string_bytes outputs.old.items ++ names_in cert out.now layer.now) }
{
    outputs.push(output_name(alloc, out, layer)?)?;
    if cert {
        outputs.push(cert_name(alloc, out, layer)?)?;
    }
    Ok(())
}

/// The names of the files into which these layers, or lists of points, are written, in order, in the folder `out`. With
/// certificates each is followed by that of its certificate.
pub fn outputs_of(
    alloc: Global,
    out: &str,
    layers: &[Name],
    cert: bool,
) -> Result<Vec<String>, AllocError>
    ensures { IfOk result (λ names. map string_bytes names.items ≡ flat_map (names_in cert out.now) layers.now) }
{
    let mut outputs = Vec::new(alloc);
    for layer in layers {
        push_names(alloc, &mut outputs, out, layer.text(), cert)?;
    }
    Ok(outputs)
}
