//! Printing the line of a refusal. It takes no memory.

ghost use Rattle.std.specs.Prelude.{◌≡◌, [], IfSome, false};
ghost use Rattle.runs.specs.Counts.{LeavesPress};
ghost use Rattle.publication.specs.Fronts.{HasWritten};
ghost use Rattle.fault_runs.specs.Refusals.{line_file, status_of};

use crate::refusals::FaultRefusal;
use publication::say;
use runs::Status;
use shelf_io::Press;

/// Prints a refusal's line.
pub(crate) fn refuse<P: Press>(press: &mut P, refusal: FaultRefusal) -> Status
    requires free { P.at_hand press.old ≡ false }
    requires empty { IfSome (P.made press.old) (λ made. made ≡ []) }
    ensures written { HasWritten (line_file refusal) (status_of refusal) result (P.made press.new) }
    ensures press { LeavesPress (P.faults press.old) (P.faults press.new) (P.broken press.new) (P.at_hand press.new) result }
{
    match refusal {
        FaultRefusal::Run(refusal) => publication::refuse(press, refusal),
        FaultRefusal::TooManyFaults => say(press, b"limit: faults\n".as_slice(), Status::Limit),
    }
}
