//! The triangulation of a file, read for places or for heights.

ghost use Rattle.std.specs.Prelude.{◌≤◌, length};
ghost use Rattle.runs.specs.declared.loads.TheConstants.{MOST_BYTES};

use job_words::Job;
use sheet_base::How;
use std::alloc::Global;
use tin_base::Tin;
use tin_file::{read_tall, read_tin};

/// What a triangulation is read for.
#[derive(Clone, Copy)]
pub(crate) enum TinUse {
    /// To carry places: the file transforms horizontal coordinates.
    Places,
    /// To move points with heights: the file transforms heights, alone or too.
    Heights,
}

/// What a job reads its triangulation for.
pub(crate) fn use_of(job: &Job) -> TinUse {
    match job {
        Job::Heights { .. } => TinUse::Heights,
        Job::Migrate { .. } | Job::Check { .. } | Job::Make { .. } | Job::Verify { .. } =>
            TinUse::Places,
    }
}

/// The triangulation of these bytes, where it is read.
pub(crate) fn tin_in(alloc: Global, bytes: &[u8], how: How, use_of_tin: TinUse) -> Option<Tin>
    requires { length bytes.now ≤ MOST_BYTES }
{
    match use_of_tin {
        TinUse::Places => read_tin(alloc, bytes, how).ok(),
        TinUse::Heights => match read_tall(alloc, bytes, how) {
            Ok(tall) => Some(tall.tin),
            Err(_) => None,
        },
    }
}
