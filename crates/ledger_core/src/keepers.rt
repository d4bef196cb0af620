//! What a keeper is: runs with their pairs and what was decided on them, with a count of the calls that failed.

ghost use Rattle.std.specs.Prelude.{◌≡◌, ◌≤◌, ◌<◌, ℕ, Option, Some, None, length, OnOk, OnErr, IfOk, IfSome};
ghost use Rattle.ledger_core.specs.declared.limits.TheConstants.{MOST_PAIRS};
ghost use Rattle.ledger_core.specs.declared.pairs.Verdict.TheVariants.{Undecided};
ghost use Rattle.ledger_core.specs.Kept.{Kept, Becomes, Stays, HasRoom, run_of, pair_at, verdict_at, next_open};
ghost use Rattle.ledger_core.specs.Kept.{with_new_run, with_decision, verdict_of};
ghost use Rattle.ledger_core.specs.Causes.{HasCause};

use crate::{KeepFault, Mark, PairRow, Seal, Totals};
use std::alloc::Global;
use tin_base::Change;

/// A keeper of runs and of their pairs. Whether it answers or not, `find`, `totals`, `pair` and `next` leave what it
/// keeps as it is, and so does every call that it does not answer.
pub trait Keeper {
    /// The runs and the pairs, where the keeper states them. Whether it does so never changes.
    ghost kept: { Self → Option Kept };

    /// How often a call has failed, up to the last u64. It never falls.
    ghost faults: { Self → ℕ };

    /// The least number of a run with this seal. `None`: there is none.
    fn find(&mut self, alloc: Global, seal: &Seal) -> Result<Option<u32>, KeepFault>
        ensures found { IfSome (kept self.old) (λ all. IfOk result (λ run. run ≡ run_of all.runs seal.now)) }
        ensures same { Stays (kept self.old) (kept self.new) }
        ensures cause { HasCause (faults self.old) (faults self.new) result };

    /// How many runs and pairs there are.
    fn totals(&mut self, alloc: Global) -> Result<Totals, KeepFault>
        ensures runs { IfSome (kept self.old) (λ all. IfOk result (λ totals. totals.runs ≡ length all.runs)) }
        ensures pairs { IfSome (kept self.old) (λ all. IfOk result (λ totals. totals.pairs ≡ length all.pairs)) }
        ensures same { Stays (kept self.old) (kept self.new) }
        ensures cause { HasCause (faults self.old) (faults self.new) result };

    /// Adds a run, whose pairs are undecided: all of it or nothing.
    fn enter(&mut self, alloc: Global, seal: &Seal, changes: &[Change]) -> Result<(), KeepFault>
        requires short { length changes.now ≤ MOST_PAIRS }
        requires new { IfSome (kept self.old) (λ all. run_of all.runs seal.now ≡ None) }
        requires room { IfSome (kept self.old) (λ all. HasRoom all changes.now) }
        ensures ok { OnOk result (Becomes (with_new_run seal.now changes.now) (kept self.old) (kept self.new)) }
        ensures err { OnErr result (Stays (kept self.old) (kept self.new)) }
        ensures cause { HasCause (faults self.old) (faults self.new) result };

    /// The pair at this place of the run. `None`: there is none.
    fn pair(&mut self, alloc: Global, run: u32, place: u32) -> Result<Option<PairRow>, KeepFault>
        ensures found { IfSome (kept self.old) (λ all. IfOk result (λ row. row ≡ pair_at all.pairs run place)) }
        ensures same { Stays (kept self.old) (kept self.new) }
        ensures cause { HasCause (faults self.old) (faults self.new) result };

    /// Notes what was decided on an undecided pair, and changes nothing else.
    fn decide(&mut self, alloc: Global, run: u32, place: u32, mark: Mark) -> Result<(), KeepFault>
        requires undecided { IfSome (kept self.old) (λ all. verdict_at all.pairs run place ≡ Some Undecided) }
        ensures ok { OnOk result (Becomes (with_decision run place (verdict_of mark)) (kept self.old) (kept self.new)) }
        ensures err { OnErr result (Stays (kept self.old) (kept self.new)) }
        ensures cause { HasCause (faults self.old) (faults self.new) result };

    /// The first undecided pair of the run whose place is at least `from`. `None`: there is none.
    fn next(&mut self, alloc: Global, run: u32, from: u32) -> Result<Option<PairRow>, KeepFault>
        ensures found { IfSome (kept self.old) (λ all. IfOk result (λ row. row ≡ next_open all.pairs run from)) }
        ensures within { IfOk result (λ found. IfSome found (λ row. (from ≤ row.place) × (row.place < MOST_PAIRS))) }
        ensures same { Stays (kept self.old) (kept self.new) }
        ensures cause { HasCause (faults self.old) (faults self.new) result };
}
