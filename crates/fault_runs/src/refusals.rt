//! Why the faults of a triangulation are not printed.

use runs::Refusal;

/// Why the faults of a triangulation are not printed.
#[derive(Clone, Copy)]
pub enum FaultRefusal {
    /// As other runs are refused.
    Run(Refusal),
    /// There are more than `MOST_FAULTS`.
    TooManyFaults,
}
