//! The database of a keeper, from before its opening on, and what it tells of its rows.

ghost use Rattle.std.specs.Prelude.{◌≡◌, ◌≤◌, true, false, length, take, is_err, is_some, All, IfOk, IfSome, OnErr, OnOk};
ghost use Rattle.std.specs.declared.option.Option.TheVariants.{None};
ghost use Rattle.wef_keeper.specs.Keeping.{Follows, Stays, row_at};
ghost use Rattle.wef_keeper.specs.Rows.{applied, is_after, rows_after};
ghost use Rattle.wef_keeper.specs.declared.keys.Row as the_row;
ghost use Rattle.wef_sqlite.specs.Telling.{AreTold, IsAlive};

use crate::opening::{Opens, Origin};
use crate::place::Place;
use crate::refusal::Refusal;
use crate::seen::Seen;
use sqlite::Connection;
use std::marker::Model;
use wef_base::List;
use wef_keeper::{Change, Key, Row};

/// The database of a keeper.
///
/// From its first opening on it tells its rows, as long as the disk returns what was written to it, and
/// where each row of the table was one of ours. Once its connection is shut and it is opened anew, it
/// tells nothing more: what another opening of a file finds is not known here.
#[derive(Drop)]
pub struct Database<S: Opens> {
    place: Place<S>,
    seen: Option<Seen<S>>,
    in_doubt: bool,
}

impl<S: Opens> Model for Database<S> {
    ghost use Rattle.wef_sqlite.specs.Places.{has_connection};
    ghost use Rattle.wef_sqlite.specs.Telling.{AreTold, Known, held_in, known_code, told_at};

    ghost Value = { Known S };

    ghost coded = { known_code S.code };

    ghost view = { λ d. record { held = held_in d.place; told = told_at S.Store d.place d.seen d.in_doubt; doubt = d.in_doubt; connected = has_connection d.place } };

    ghost invariant = { λ d. AreTold S.Store (held_in d.place) (told_at S.Store d.place d.seen d.in_doubt) d.in_doubt };
}

impl<S: Opens> Database<S> {
    /// One that isn't opened yet.
    pub fn unopened() -> Database<S>
        ensures { result ≡ record { held = None; told = None; doubt = false; connected = false } }
    {
        Database {
            place: Place::Unopened,
            seen: None,
            in_doubt: false,
        }
    }

    /// One that is opened over a connection, by its first call.
    pub fn over(connection: Connection<S>) -> Database<S>
        ensures { result ≡ record { held = None; told = None; doubt = false; connected = true } }
    {
        Database {
            place: Place::Given(connection),
            seen: None,
            in_doubt: false,
        }
    }

    /// The connection, where there is one.
    pub fn into_connection(self) -> Option<Connection<S>>
        ensures { is_some result ≡ self.connected }
    {
        let Database {
            place,
            seen: _,
            in_doubt: _,
        } = self;
        place.into_connection()
    }

    /// Whether a commit failed, and nobody has looked yet what it left.
    pub fn is_in_doubt(&self) -> bool
        ensures { result ≡ self.now.doubt }
    {
        self.in_doubt
    }

    /// What is told is so, of the connection and of whatever an opening after a crash may find of it.
    pub fn tells(&self)
        ensures { AreTold S.Store self.now.held self.now.told self.now.doubt }
    {
        let _ = &self.place;
    }

    /// Opens the database where it isn't open. The first opening begins to tell what it finds.
    #[tactic(auto, using(crate::proofs::DatabaseLemmas::held_if_open))]
    pub fn open(&mut self, origin: &Option<Origin>, is_first: bool) -> Result<(), Refusal>
        ensures stays { is_first ≡ false → Stays self.old.told self.new.told }
        ensures doubt { self.new.doubt ≡ self.old.doubt }
        ensures ready { OnOk result (is_some self.new.held ≡ true) }
        ensures alive { IsAlive S.Store self.old.held → OnOk result (IsAlive S.Store self.new.held) }
    {
        if self.place.is_open() {
            return Ok(());
        }
        self.seen = None;
        self.place.open(origin)?;
        if is_first {
            self.seen = self.place.seen();
        }
        Ok(())
    }

    /// The row of a key, or none where there is none. Failed where the table isn't open.
    pub fn get(&mut self, key: &Key) -> Result<Option<Row>, Refusal>
        ensures row { IfSome self.new.told (λ told. IfOk result (λ row. row ≡ row_at key.now told.rows)) }
        ensures stays { Stays self.old.told self.new.told }
        ensures doubt { self.new.doubt ≡ self.old.doubt }
    {
        self.place.get(key)
    }

    /// The first `max` rows whose keys are greater than `after`, in the order of their keys. Failed where
    /// the table isn't open.
    pub fn page(&mut self, after: &Key, max: u32) -> Result<List<Row>, Refusal>
        requires { 1 ≤ max }
        ensures page { IfSome self.new.told (λ told. IfOk result (λ page. page ≡ take max (rows_after after.now told.rows))) }
        ensures size { IfOk result (λ page. length page ≤ max) }
        ensures behind { IfOk result (All (λ (row : the_row.Row). is_after after.now row.key ≡ true)) }
        ensures stays { Stays self.old.told self.new.told }
        ensures doubt { self.new.doubt ≡ self.old.doubt }
    {
        self.place.page(after, max)
    }

    /// Makes all changes in one transaction, in order, or none. A failure begins a doubt.
    pub fn commit(&mut self, changes: &List<Change>) -> Result<(), Refusal>
        requires { self.old.doubt ≡ false }
        ensures done { OnOk result (Follows self.old.told self.new.told (λ before now. now.rows ≡ applied changes.now before.rows)) }
        ensures failed { OnErr result (Follows self.old.told self.new.told (λ before now. (now.rows ≡ before.rows) × (now.changed ≡ applied changes.now before.rows))) }
        ensures doubt { self.new.doubt ≡ is_err result }
    {
        let done = self.place.commit(&mut self.seen, changes);
        self.in_doubt = done.is_err();
        done
    }

    /// A commit failed before the table was open: nothing is known of its rows.
    pub fn begin_doubt(&mut self)
        ensures { self.new ≡ record self.old { told = None; doubt = true } }
    {
        self.seen = None;
        self.in_doubt = true;
    }

    /// Opens the database where it isn't open, or where a failure may have shut its connection, and ends
    /// the doubt with the rows that the connection shows. Failed where one is shut that has no path.
    pub fn reopen(
        &mut self,
        origin: &Option<Origin>,
        is_first: bool,
        may_be_shut: bool,
    ) -> Result<(), Refusal>
        ensures found { is_first ≡ false → OnOk result (Follows self.old.told self.new.told (λ before now. now.rows ≡ before.rows)) }
        ensures kept { is_first ≡ false → OnErr result (Stays self.old.told self.new.told) }
        ensures ended { OnOk result (self.new.doubt ≡ false) }
        ensures doubt { OnErr result (self.new.doubt ≡ self.old.doubt) }
        ensures ready { OnOk result (is_some self.new.held ≡ true) }
        ensures alive { may_be_shut ≡ true → OnOk result (IsAlive S.Store self.new.held) }
    {
        if may_be_shut || self.in_doubt {
            self.leave_shut(origin)?;
        }
        self.open(origin, is_first)?;
        self.end_doubt();
        Ok(())
    }

    /// Lets a connection go that an earlier failure shut. Failed where there is no origin to open it
    /// from.
    fn leave_shut(&mut self, origin: &Option<Origin>) -> Result<(), Refusal>
        ensures stays { Stays self.old.told self.new.told }
        ensures doubt { self.new.doubt ≡ self.old.doubt }
        ensures alive { OnOk result (IsAlive S.Store self.new.held) }
    {
        self.place.leave_shut(origin)
    }

    /// Ends the doubt, where no failure shut the connection.
    fn end_doubt(&mut self)
        requires { self.old.doubt ≡ true → IsAlive S.Store self.old.held }
        ensures rows { Follows self.old.told self.new.told (λ before now. now.rows ≡ before.rows) }
        ensures ended { self.new.doubt ≡ false }
        ensures held { self.new.held ≡ self.old.held }
    {
        self.in_doubt = false;
    }
}
