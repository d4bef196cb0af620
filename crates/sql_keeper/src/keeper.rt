//! The keeper over a connection.

ghost use Rattle.std.specs.Prelude.{◌≡◌, ◌≤◌, ◌<◌, None, IfOk, IfSome};
ghost use Rattle.ledger_core.specs.declared.limits.TheConstants.{MOST_PAIRS};
ghost use Rattle.ledger_core.specs.Causes.{HasCause};

use crate::statements::{decide, enter, find, make_tables, next, pair, totals};
use ledger_core::{KeepFault, Keeper, MOST_PAIRS, Mark, PairRow, Seal, Totals};
use sqlite::{Alter, Connection};
use std::alloc::Global;
use std::marker::Model;
use tin_base::Change;

/// A keeper over a connection to a database, or over one that could not be made: then no call gives an answer. It
/// states nothing of what it keeps.
pub struct SqlKeeper<S: Alter> {
    conn: Result<Connection<S>, KeepFault>,
    made: bool,
    /// How many runs and pairs there are, where they were counted: no other program changes the file while it is open.
    totals: Option<Totals>,
    faults: u64,
}

impl<S: Alter + Drop> Drop for SqlKeeper<S> {
    fn drop(self) {
        let SqlKeeper {
            conn: _,
            made: _,
            totals: _,
            faults: _,
        } = self;
    }
}

impl<S: Alter> Model for SqlKeeper<S> {
    ghost use Rattle.std.specs.Prelude.{ℕ};

    // how often a call has failed
    ghost Value = { ℕ };

    ghost view = { λ k. k.faults };
}

impl<S: Alter> SqlKeeper<S> {
    /// A keeper over this connection. It takes no memory.
    pub fn new(conn: Result<Connection<S>, KeepFault>) -> Self
        ensures { result ≡ 0 }
    {
        SqlKeeper {
            conn,
            made: false,
            totals: None,
            faults: 0,
        }
    }

    /// Gives the connection back, so that it can be closed. The fault is the one that the keeper was made with.
    pub fn into_connection(self) -> Result<Connection<S>, KeepFault> {
        let SqlKeeper {
            conn,
            made: _,
            totals: _,
            faults: _,
        } = self;
        conn
    }

    /// Counts a fault.
    fn count<T>(&mut self, answer: Result<T, KeepFault>) -> Result<T, KeepFault>
        ensures same { result ≡ answer }
        ensures cause { HasCause self.old self.new result }
    {
        if let Err(KeepFault::Failed) = &answer {
            self.faults = self.faults.saturating_add(1);
        }
        answer
    }
}

/// Makes the tables at the first call.
fn make<S: Alter>(conn: &mut Connection<S>, made: &mut bool) -> Result<(), KeepFault> {
    if !*made {
        make_tables(conn)?;
        *made = true;
    }
    Ok(())
}

/// The pair, where its place is one that may be there.
fn within(found: Option<PairRow>, from: u32) -> Result<Option<PairRow>, KeepFault>
    ensures { IfOk result (λ found. IfSome found (λ row. (from ≤ row.place) × (row.place < MOST_PAIRS))) }
{
    match found {
        Some(row) => {
            if from <= row.place && row.place < MOST_PAIRS {
                Ok(Some(row))
            } else {
                Err(KeepFault::Failed)
            }
        }
        None => Ok(None),
    }
}

impl<S: Alter> SqlKeeper<S> {
    fn find_run(&mut self, seal: &Seal) -> Result<Option<u32>, KeepFault>
        ensures { self.new ≡ self.old }
    {
        match &mut self.conn {
            Ok(conn) => {
                make(conn, &mut self.made)?;
                find(conn, seal)
            }
            Err(fault) => Err(*fault),
        }
    }

    fn count_all(&mut self) -> Result<Totals, KeepFault>
        ensures { self.new ≡ self.old }
    {
        if let Some(totals) = self.totals {
            return Ok(totals);
        }
        let conn = match &mut self.conn {
            Ok(conn) => conn,
            Err(fault) => return Err(*fault),
        };
        make(conn, &mut self.made)?;
        let totals = totals(conn)?;
        self.totals = Some(totals);
        Ok(totals)
    }

    fn enter_run(&mut self, alloc: Global, seal: &Seal, changes: &[Change]) -> Result<(), KeepFault>
        ensures { self.new ≡ self.old }
    {
        let totals = self.count_all()?;
        let conn = match &mut self.conn {
            Ok(conn) => conn,
            Err(fault) => return Err(*fault),
        };
        self.totals = None;
        let more = enter(alloc, conn, totals, seal, changes)?;
        self.totals = Some(more);
        Ok(())
    }

    fn find_pair(&mut self, run: u32, place: u32) -> Result<Option<PairRow>, KeepFault>
        ensures { self.new ≡ self.old }
    {
        match &mut self.conn {
            Ok(conn) => {
                make(conn, &mut self.made)?;
                pair(conn, run, place)
            }
            Err(fault) => Err(*fault),
        }
    }

    fn note(&mut self, run: u32, place: u32, mark: Mark) -> Result<(), KeepFault>
        ensures { self.new ≡ self.old }
    {
        match &mut self.conn {
            Ok(conn) => {
                make(conn, &mut self.made)?;
                decide(conn, run, place, mark)
            }
            Err(fault) => Err(*fault),
        }
    }

    fn find_open(&mut self, run: u32, from: u32) -> Result<Option<PairRow>, KeepFault>
        ensures same { self.new ≡ self.old }
        ensures within { IfOk result (λ found. IfSome found (λ row. (from ≤ row.place) × (row.place < MOST_PAIRS))) }
    {
        match &mut self.conn {
            Ok(conn) => {
                make(conn, &mut self.made)?;
                within(next(conn, run, from)?, from)
            }
            Err(fault) => Err(*fault),
        }
    }
}

impl<S: Alter> Keeper for SqlKeeper<S> {
    ghost kept = { λ _. None };

    ghost faults = { λ k. k };

    fn find(&mut self, _alloc: Global, seal: &Seal) -> Result<Option<u32>, KeepFault> {
        let found = self.find_run(seal);
        self.count(found)
    }

    fn totals(&mut self, _alloc: Global) -> Result<Totals, KeepFault> {
        let totals = self.count_all();
        self.count(totals)
    }

    fn enter(&mut self, alloc: Global, seal: &Seal, changes: &[Change]) -> Result<(), KeepFault> {
        let entered = self.enter_run(alloc, seal, changes);
        self.count(entered)
    }

    fn pair(&mut self, _alloc: Global, run: u32, place: u32) -> Result<Option<PairRow>, KeepFault> {
        let found = self.find_pair(run, place);
        self.count(found)
    }

    fn decide(
        &mut self,
        _alloc: Global,
        run: u32,
        place: u32,
        mark: Mark,
    ) -> Result<(), KeepFault> {
        let noted = self.note(run, place, mark);
        self.count(noted)
    }

    fn next(&mut self, _alloc: Global, run: u32, from: u32) -> Result<Option<PairRow>, KeepFault> {
        let found = self.find_open(run, from);
        self.count(found)
    }
}
