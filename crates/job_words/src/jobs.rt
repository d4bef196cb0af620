//! What words ask for.

use sheet_base::{How, Listed};
use shelf_io::Name;

/// What words ask for.
#[derive(Drop)]
pub enum Job {
    /// To carry layers through a triangulation into a folder.
    Migrate {
        /// The name of the triangulation's file.
        tin: Name,
        /// The name of the folder.
        out: Name,
        /// How the files are read.
        how: How,
        /// The triangulation's frames are exchanged before layers are carried.
        inverse: bool,
        /// Each layer's file is followed by that of its certificate.
        cert: bool,
        /// The report lists the changes of sides of rings.
        sides: bool,
        /// The names of the layers, at most `MOST_LAYERS`, in the order of the words. No two have the
        /// same last part.
        layers: Listed<Name>,
    },
    /// To check a triangulation.
    Check {
        /// The name of the triangulation's file.
        tin: Name,
        /// How the file is read.
        how: How,
    },
    /// To make a triangulation and a layer, and to migrate the layer.
    Make {
        /// The number of cells along one side, from 1 to `MOST_SIZE`.
        n: u32,
    },
    /// To verify a written layer by its certificate.
    Verify {
        /// The name of the triangulation's file.
        tin: Name,
        /// The name of the layer that was carried; its end says the format.
        source: Name,
        /// The name of the layer as it was written.
        written: Name,
        /// The name of the certificate's file.
        cert: Name,
        /// How the triangulation and the source are read.
        how: How,
        /// The triangulation's frames are exchanged first.
        inverse: bool,
    },
    /// To move points with heights through a triangulation into a folder.
    Heights {
        /// The name of the triangulation's file.
        tin: Name,
        /// The name of the folder.
        out: Name,
        /// How the files are read.
        how: How,
        /// The name of the points' file, which is layer 0.
        points: Name,
    },
}
