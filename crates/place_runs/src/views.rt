//! How changes are printed.

use shelf_io::Name;

/// How changes are printed.
#[derive(Drop)]
pub struct View {
    /// A change is drawn as its two written segments, and not as a point.
    pub lines: bool,
    /// A change of two pieces of one layer is left out.
    pub across: bool,
    /// The member of the properties of features whose value is printed for each side.
    pub member: Option<Name>,
}
