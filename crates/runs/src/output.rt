//! What a run writes.

ghost use Rattle.std.specs.Prelude.{◌≡◌, IfOk, string_bytes};
ghost use Rattle.runs.specs.Output.{name_in};

use job_words::last_part;
use sheet_base::Listed;
use std::alloc::{AllocError, Global};

/// A layer's file that is to be written.
#[derive(Drop)]
pub struct LayerFile {
    /// The name of the file, with its folder.
    pub name: String,
    /// All bytes of the file.
    pub text: Listed<u8>,
}

/// What a run writes: the layers' files, where there are some, and then the text on standard output.
#[derive(Drop)]
pub struct RunOutput {
    /// The layers' files, in the order in which they are written.
    pub layers: Vec<LayerFile>,
    /// The bytes on standard output: a report, or the one line of a check, of a verification or of a list of points.
    pub said: Listed<u8>,
    /// Whether the report lists a change or, where sides are asked for, a change of sides.
    pub changed: bool,
}

/// The name of the file into which a layer is written: the last part of the layer's name, in the folder `out`.
pub fn output_name(alloc: Global, out: &str, layer: &str) -> Result<String, AllocError>
    ensures { IfOk result (λ name. string_bytes name ≡ name_in out.now layer.now) }
{
    let last = last_part(layer);
    let name = format!(in alloc; "{out}/{last}")?;
    Ok(name)
}
