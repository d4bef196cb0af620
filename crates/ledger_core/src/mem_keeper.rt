//! A keeper in memory, for tests: calls of chosen numbers fail.

ghost use Rattle.std.specs.Prelude.{◌≡◌, ◌↔◌, ◌<◌, ◌≤◌, ◌+◌, [], ◌∷◌, ◌++◌, length, map, position, Contains, IsTrue};
ghost use Rattle.std.specs.Prelude.{IsErrOf, IfOk, IfSome, OnOk, OnErr, Some, None, if◌then◌else◌};
ghost use Rattle.shelf_io.specs.Count.{count_after};
ghost use Rattle.ledger_core.specs.declared.limits.TheConstants.{MOST_PAIRS};
ghost use Rattle.ledger_core.specs.declared.pairs.Verdict.TheVariants.{Undecided};
ghost use Rattle.ledger_core.specs.Kept.{Becomes, Stays, HasRoom, run_of, pair_at, verdict_at, next_open, with_new_run};
ghost use Rattle.ledger_core.specs.Kept.{with_decision, verdict_of, undecided_from, with_verdict, has_seal, is_pair};
ghost use Rattle.ledger_core.specs.Kept.{is_open, is_undecided};
ghost use Rattle.ledger_core.specs.Causes.{HasCause};
ghost use Rattle.ledger_core.specs.MemoryKeeper.{after_fault, after_call};
ghost use Rattle.ledger_core.specs.declared.faults.KeepFault.TheVariants.{Failed, NoMemory};

use crate::mem_runs::MemRuns;
use crate::{KeepFault, Keeper, Mark, PairRow, Seal, Totals};
use std::alloc::{AllocError, Global};
use std::marker::Model;
use tin_base::Change;

/// A keeper in memory, whose calls can be made to fail by their numbers, counted from 0 over its six functions.
#[derive(Drop)]
pub struct MemKeeper {
    kept: MemRuns,
    fail: Vec<u64>,
    calls: u64,
    faults: u64,
}

impl Model for MemKeeper {
    ghost use Rattle.ledger_core.specs.MemoryKeeper.{MemoryKeeper};

    ghost Value = { MemoryKeeper };

    ghost use Rattle.ledger_core.specs.MemoryKeeperFields.{keeper_of};

    ghost view = { keeper_of };
}

impl MemKeeper {
    ghost use Rattle.ledger_core.specs.MemoryKeeper.{empty_keeper};

    /// A keeper of nothing. It takes no memory.
    pub fn new(alloc: Global) -> Self
        ensures { result ≡ empty_keeper }
    {
        MemKeeper {
            kept: MemRuns::new(alloc),
            fail: Vec::new(alloc),
            calls: 0,
            faults: 0,
        }
    }

    /// Lets the call of this number fail.
    pub fn fail_at(&mut self, call: u64) -> Result<(), AllocError>
        ensures ok { OnOk result (self.new ≡ record self.old { fail = self.old.fail ++ call ∷ [] }) }
        ensures err { OnErr result (self.new ≡ self.old) }
    {
        self.fail.push(call)?;
        Ok(())
    }

    /// How many calls have failed.
    pub fn faults(&self) -> u64
        ensures { result ≡ self.now.faults }
    {
        self.faults
    }

    /// Counts a call, which fails where its number is listed.
    fn call(&mut self) -> Result<(), KeepFault>
        ensures listed { IsErrOf result Failed ↔ Contains self.old.fail self.old.calls }
        ensures ok { OnOk result (self.new ≡ after_call self.old.kept self.old) }
        ensures err { OnErr result (self.new ≡ after_fault self.old) }
        ensures cause { HasCause self.old.faults self.new.faults result }
    {
        let fails = self.fail.contains(&self.calls);
        self.calls = self.calls.saturating_add(1);
        if fails {
            self.faults = self.faults.saturating_add(1);
            return Err(KeepFault::Failed);
        }
        Ok(())
    }
}

impl Keeper for MemKeeper {
    ghost kept = { λ k. Some k.kept };

    ghost faults = { λ k. k.faults };

    fn find(&mut self, _alloc: Global, seal: &Seal) -> Result<Option<u32>, KeepFault>
        ensures found { IfSome (Some self.old.kept) (λ all. IfOk result (λ run. run ≡ run_of all.runs seal.now)) }
        ensures same { Stays (Some self.old.kept) (Some self.new.kept) }
        ensures cause { HasCause self.old.faults self.new.faults result }

        // Exactly the calls whose numbers are listed fail, and each is counted.
        ensures listed { IsErrOf result Failed ↔ Contains self.old.fail self.old.calls }
        ensures called { OnOk result (self.new ≡ after_call self.old.kept self.old) }
        ensures failed { OnErr result (self.new ≡ after_fault self.old) }
    {
        self.call()?;
        Ok(self.kept.find(seal))
    }

    fn totals(&mut self, _alloc: Global) -> Result<Totals, KeepFault>
        ensures runs { IfSome (Some self.old.kept) (λ all. IfOk result (λ totals. totals.runs ≡ length all.runs)) }
        ensures pairs { IfSome (Some self.old.kept) (λ all. IfOk result (λ totals. totals.pairs ≡ length all.pairs)) }
        ensures same { Stays (Some self.old.kept) (Some self.new.kept) }
        ensures cause { HasCause self.old.faults self.new.faults result }

        ensures listed { IsErrOf result Failed ↔ Contains self.old.fail self.old.calls }
        ensures called { OnOk result (self.new ≡ after_call self.old.kept self.old) }
        ensures failed { OnErr result (self.new ≡ after_fault self.old) }
    {
        self.call()?;
        Ok(self.kept.totals())
    }

    fn enter(&mut self, alloc: Global, seal: &Seal, changes: &[Change]) -> Result<(), KeepFault>
        requires short { length changes.now ≤ MOST_PAIRS }
        requires new { IfSome (Some self.old.kept) (λ all. run_of all.runs seal.now ≡ None) }
        requires room { IfSome (Some self.old.kept) (λ all. HasRoom all changes.now) }
        ensures ok { OnOk result (Becomes (with_new_run seal.now changes.now) (Some self.old.kept) (Some self.new.kept)) }
        ensures err { OnErr result (Stays (Some self.old.kept) (Some self.new.kept)) }
        ensures cause { HasCause self.old.faults self.new.faults result }

        ensures listed { IsErrOf result Failed ↔ Contains self.old.fail self.old.calls }
        ensures called { OnOk result (self.new ≡ after_call (with_new_run seal.now changes.now self.old.kept) self.old) }
        ensures failed { IsErrOf result Failed → self.new ≡ after_fault self.old }
        ensures memory { IsErrOf result NoMemory → self.new ≡ after_call self.old.kept self.old }
    {
        self.call()?;
        self.kept.enter(alloc, seal, changes)?;
        Ok(())
    }

    fn pair(&mut self, _alloc: Global, run: u32, place: u32) -> Result<Option<PairRow>, KeepFault>
        ensures found { IfSome (Some self.old.kept) (λ all. IfOk result (λ row. row ≡ pair_at all.pairs run place)) }
        ensures same { Stays (Some self.old.kept) (Some self.new.kept) }
        ensures cause { HasCause self.old.faults self.new.faults result }

        ensures listed { IsErrOf result Failed ↔ Contains self.old.fail self.old.calls }
        ensures called { OnOk result (self.new ≡ after_call self.old.kept self.old) }
        ensures failed { OnErr result (self.new ≡ after_fault self.old) }
    {
        self.call()?;
        Ok(self.kept.pair(run, place))
    }

    fn decide(&mut self, _alloc: Global, run: u32, place: u32, mark: Mark) -> Result<(), KeepFault>
        requires undecided { IfSome (Some self.old.kept) (λ all. verdict_at all.pairs run place ≡ Some Undecided) }
        ensures ok { OnOk result (Becomes (with_decision run place (verdict_of mark)) (Some self.old.kept) (Some self.new.kept)) }
        ensures err { OnErr result (Stays (Some self.old.kept) (Some self.new.kept)) }
        ensures cause { HasCause self.old.faults self.new.faults result }

        ensures listed { IsErrOf result Failed ↔ Contains self.old.fail self.old.calls }
        ensures called { OnOk result (self.new ≡ after_call (with_decision run place (verdict_of mark) self.old.kept) self.old) }
        ensures failed { OnErr result (self.new ≡ after_fault self.old) }
    {
        self.call()?;
        self.kept.decide(run, place, mark.verdict());
        Ok(())
    }

    fn next(&mut self, _alloc: Global, run: u32, from: u32) -> Result<Option<PairRow>, KeepFault>
        ensures found { IfSome (Some self.old.kept) (λ all. IfOk result (λ row. row ≡ next_open all.pairs run from)) }
        ensures within { IfOk result (λ found. IfSome found (λ row. (from ≤ row.place) × (row.place < MOST_PAIRS))) }
        ensures same { Stays (Some self.old.kept) (Some self.new.kept) }
        ensures cause { HasCause self.old.faults self.new.faults result }

        ensures listed { IsErrOf result Failed ↔ Contains self.old.fail self.old.calls }
        ensures called { OnOk result (self.new ≡ after_call self.old.kept self.old) }
        ensures failed { OnErr result (self.new ≡ after_fault self.old) }
    {
        self.call()?;
        Ok(self.kept.next(run, from))
    }
}
