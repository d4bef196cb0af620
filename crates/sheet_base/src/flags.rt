//! The options by which a file is read.

/// How a file is read: what is refused, left out or passed over.
#[derive(Clone, Copy, Debug, PartialEq, Eq)]
pub struct How {
    /// A number text that loses digits past the thousandth is refused.
    pub exact: bool,
    /// An entity of a drawing that is of another kind is left out and counted.
    pub drop_other: bool,
    /// A fallback of a triangulation file other than `none` is accepted and not applied.
    pub inside_only: bool,
}
