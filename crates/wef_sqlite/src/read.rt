//! The statements that read.

ghost use Rattle.sqlite.specs.Given.{IsPlain};
ghost use Rattle.sqlite.specs.Held.{state};
ghost use Rattle.sqlite.specs.Listing.{understood};
ghost use Rattle.sqlite.specs.State.{HasCleanDisk, KeepsCommit, Shown, Survives};
ghost use Rattle.sqlite.specs.Values.{bound};
ghost use Rattle.std.specs.Prelude.{◌≡◌, ◌<◌, ◌≤◌, true, [], ◌∷◌, ◌++◌, ◌+◌, ◌-◌, min, pos, length, take, All, IfOk, IsTrue, OnOk};
ghost use Rattle.std.specs.declared.option.Option.TheVariants.{None};
ghost use Rattle.wef_base.specs.declared.numbers.TheConstants.{MAX};
ghost use Rattle.wef_keeper.specs.Rows.{is_after, rows_after};
ghost use Rattle.wef_keeper.specs.declared.keys.Row as the_row;
ghost use Rattle.wef_keeper.specs.Keeping.{row_at};
ghost use Rattle.wef_sqlite.specs.Contents.{AreReadAt, rows_in, table_in};
ghost use Rattle.wef_sqlite.specs.Paging.{GoesOn, GoesThrough, OnRows, SayRows, rows_behind, sections};
ghost use Rattle.wef_sqlite.specs.Schema.{kept_schema};
ghost use Rattle.wef_sqlite.specs.Statements.{key_values, next_bytes, text_behind, values_behind};
ghost use Rattle.wef_sqlite.specs.States.{Rests};

use crate::columns::{kept_number, key_values, said_row};
use crate::refusal::Refusal;
use crate::schema::is_kept;
use sqlite::{Alter, Connection, Row as Columns, params};
use sqlite_value::value::ValueRef;
use std::alloc::AllocError;
use wef_base::numbers::MAX;
use wef_base::{List, Text};
use wef_keeper::{Key, Row};

const GET: &str =
    "SELECT kind, sub, source, channel, number, value, body FROM kept WHERE kind = ?1 AND sub = ?2 AND source = ?3 AND channel = ?4 AND number = ?5";

const BEHIND_NUMBER: &str =
    "SELECT kind, sub, source, channel, number, value, body FROM kept WHERE kind = ?1 AND sub = ?2 AND source = ?3 AND channel = ?4 AND number > ?5 ORDER BY kind, sub, source, channel, number LIMIT ?6";

const BEHIND_CHANNEL: &str =
    "SELECT kind, sub, source, channel, number, value, body FROM kept WHERE kind = ?1 AND sub = ?2 AND source = ?3 AND channel >= ?4 ORDER BY kind, sub, source, channel, number LIMIT ?5";

const BEHIND_SOURCE: &str =
    "SELECT kind, sub, source, channel, number, value, body FROM kept WHERE kind = ?1 AND sub = ?2 AND source >= ?3 ORDER BY kind, sub, source, channel, number LIMIT ?4";

const BEHIND_SUB: &str =
    "SELECT kind, sub, source, channel, number, value, body FROM kept WHERE kind = ?1 AND sub >= ?2 ORDER BY kind, sub, source, channel, number LIMIT ?3";

const BEHIND_KIND: &str =
    "SELECT kind, sub, source, channel, number, value, body FROM kept WHERE kind >= ?1 ORDER BY kind, sub, source, channel, number LIMIT ?2";

/// The first part of a key in which the rows of a section differ from it. They are greater there, and
/// share the parts before it.
#[derive(Clone, Copy, Debug, PartialEq, Eq)]
pub enum Section {
    Number,
    Channel,
    Source,
    Sub,
    Kind,
}

/// The row of a key, or none where there is none. No row has a number above `MAX`. Failed where a row
/// of the table says the key and is none of ours.
pub fn get<S: Alter>(conn: &mut Connection<S>, key: &Key) -> Result<Option<Row>, Refusal>
    requires { conn.old.schema ≡ kept_schema }
    ensures found { HasCleanDisk (state S.Store conn.new) → IfOk result (λ row. row ≡ row_at key.now (rows_in (table_in (state S.Store conn.new).now.trees))) }
    ensures reads { HasCleanDisk (state S.Store conn.new) → OnOk result (AreReadAt key.now (table_in (state S.Store conn.new).now.trees)) }
    ensures rests { HasCleanDisk (state S.Store conn.new) → OnOk result (Rests (state S.Store conn.old) (state S.Store conn.new)) }
    ensures beyond { MAX < key.now.number → IfOk result (λ row. row ≡ None) }
    ensures alive { HasCleanDisk (state S.Store conn.new) → key.now.number ≤ MAX → OnOk result (IsTrue (state S.Store conn.new).is_open) }
    ensures keeps { KeepsCommit (state S.Store conn.old) (state S.Store conn.new) }
    ensures survives { Survives (state S.Store conn.old) (state S.Store conn.new) (λ _. ⊥) }
{
    let Some(number) = kept_number(key.number) else {
        return Ok(None);
    };
    let rows = rows_of(conn, key, number)?;
    match rows.as_slice() {
        [] => Ok(None),
        [row] => Ok(Some(said_row(row)?)),
        _ => Err(Refusal::Failed),
    }
}

#[tactic(auto, using(crate::proofs::Plain::get_plain))]
fn rows_of<S: Alter>(
    conn: &mut Connection<S>,
    key: &Key,
    number: i64,
) -> Result<Vec<Columns>, Refusal>
    requires kept { conn.old.schema ≡ kept_schema }
    requires number { number ≡ pos key.now.number }
    ensures shows { HasCleanDisk (state S.Store conn.new) → IfOk result (λ rows. Shown GET.now (key_values key.now) (state S.Store conn.old) (state S.Store conn.new) rows.items) }
    ensures rests { HasCleanDisk (state S.Store conn.new) → OnOk result (Rests (state S.Store conn.old) (state S.Store conn.new)) }
    ensures alive { HasCleanDisk (state S.Store conn.new) → OnOk result (IsTrue (state S.Store conn.new).is_open) }
    ensures keeps { KeepsCommit (state S.Store conn.old) (state S.Store conn.new) }
    ensures survives { Survives (state S.Store conn.old) (state S.Store conn.new) (λ _. ⊥) }
{
    ask(conn, GET, &key_values(key, number))
}

/// The first `max` rows whose keys are greater than `after`, in the order of their keys: section by
/// section from the innermost outwards. Failed where a row that is read is none of ours.
#[tactic(auto, using(crate::proofs::Keeping::keeps_reads))]
pub fn page<S: Alter>(conn: &mut Connection<S>, after: &Key, max: u32) -> Result<List<Row>, Refusal>
    ensures rests { HasCleanDisk (state S.Store conn.new) → OnOk result (Rests (state S.Store conn.old) (state S.Store conn.new)) }
    ensures alive { HasCleanDisk (state S.Store conn.new) → 1 ≤ max → OnOk result (IsTrue (state S.Store conn.new).is_open) }
    ensures keeps { KeepsCommit (state S.Store conn.old) (state S.Store conn.new) }
    ensures survives { Survives (state S.Store conn.old) (state S.Store conn.new) (λ _. ⊥) }
    ensures size { IfOk result (λ page. length page ≤ max) }
    ensures behind { IfOk result (All (λ (row : the_row.Row). is_after after.now row.key ≡ true)) }
    ensures read { HasCleanDisk (state S.Store conn.new) → IfOk result (GoesThrough S.Store sections after.now max conn.old conn.new []) }
    ensures given { IfOk result (λ page. OnRows (state S.Store conn.new) (λ rows. page ≡ take max (rows_after after.now rows))) }
{
    let mut page = List::new(after.sub.alloc());
    fill(conn, &mut page, Section::Number, after, max)?;
    fill(conn, &mut page, Section::Channel, after, max)?;
    fill(conn, &mut page, Section::Source, after, max)?;
    fill(conn, &mut page, Section::Sub, after, max)?;
    fill(conn, &mut page, Section::Kind, after, max)?;
    Ok(page)
}

/// Goes on with a page by the rows of a section, as long as there is room. Failed where one of them is
/// none of ours.
fn fill<S: Alter>(
    conn: &mut Connection<S>,
    page: &mut List<Row>,
    section: Section,
    after: &Key,
    max: u32,
) -> Result<(), Refusal>
    ensures rests { HasCleanDisk (state S.Store conn.new) → OnOk result (Rests (state S.Store conn.old) (state S.Store conn.new)) }
    ensures alive { HasCleanDisk (state S.Store conn.new) → length page.old < max → OnOk result (IsTrue (state S.Store conn.new).is_open) }
    ensures keeps { KeepsCommit (state S.Store conn.old) (state S.Store conn.new) }
    ensures survives { Survives (state S.Store conn.old) (state S.Store conn.new) (λ _. ⊥) }
    ensures size { OnOk result (length page.old ≤ max → length page.new ≤ max) }
    ensures behind { OnOk result (All (λ (row : the_row.Row). is_after after.now row.key ≡ true) page.old → All (λ (row : the_row.Row). is_after after.now row.key ≡ true) page.new) }
    ensures read { HasCleanDisk (state S.Store conn.new) → OnOk result (GoesOn section after.now (max - length page.old) (state S.Store conn.old) (state S.Store conn.new) page.old page.new) }
    ensures given { HasCleanDisk (state S.Store conn.new) → OnOk result (OnRows (state S.Store conn.new) (λ rows. page.new ≡ page.old ++ take (max - length page.old) (rows_behind section after.now rows))) }
{
    let room = room_in(page, max);
    if room == 0 {
        return Ok(());
    }
    let rows = rows_behind(conn, section, after, room)?;
    for columns in rows.as_slice() {
        push_behind(page, said_row(columns)?, after, max)?;
    }
    Ok(())
}

/// How many rows a page may still take.
fn room_in(page: &List<Row>, max: u32) -> u32
    ensures { result ≡ max - length page.now }
{
    match u32::try_from(page.len()) {
        Ok(count) => max.saturating_sub(count),
        Err(_) => 0,
    }
}

/// Puts a row at the end of a page. Failed where the page has no room, or the row isn't behind `after`.
fn push_behind(page: &mut List<Row>, row: Row, after: &Key, max: u32) -> Result<(), Refusal>
    ensures pushed { OnOk result (page.new ≡ page.old ++ row ∷ []) }
    ensures size { OnOk result (length page.new ≤ max) }
    ensures behind { OnOk result (All (λ (row : the_row.Row). is_after after.now row.key ≡ true) page.old → All (λ (row : the_row.Row). is_after after.now row.key ≡ true) page.new) }
{
    if page.len() >= max as usize || !is_behind(after, &row.key) {
        return Err(Refusal::Failed);
    }
    page.push(row)?;
    Ok(())
}

/// The rows that a statement shows, which leaves the database as it is.
fn ask<S: Alter>(
    conn: &mut Connection<S>,
    sql: &str,
    values: &[ValueRef<'_>],
) -> Result<Vec<Columns>, Refusal>
    requires { IsPlain (understood conn.old.schema sql.now) }
    ensures shows { HasCleanDisk (state S.Store conn.new) → IfOk result (λ rows. Shown sql.now (bound values.now) (state S.Store conn.old) (state S.Store conn.new) rows.items) }
    ensures rests { HasCleanDisk (state S.Store conn.new) → OnOk result (Rests (state S.Store conn.old) (state S.Store conn.new)) }
    ensures alive { HasCleanDisk (state S.Store conn.new) → OnOk result (IsTrue (state S.Store conn.new).is_open) }
    ensures keeps { KeepsCommit (state S.Store conn.old) (state S.Store conn.new) }
    ensures survives { Survives (state S.Store conn.old) (state S.Store conn.new) (λ _. ⊥) }
{
    Ok(conn.query_all(sql, values)?)
}

/// Whether a key is greater than another.
fn is_behind(after: &Key, key: &Key) -> bool
    ensures { result ≡ is_after after.now key.now }
{
    after.cmp(key).is_lt()
}

/// The rows of a section behind a key, where the database has our table.
fn rows_behind<S: Alter>(
    conn: &mut Connection<S>,
    section: Section,
    after: &Key,
    room: u32,
) -> Result<Vec<Columns>, Refusal>
    ensures rests { HasCleanDisk (state S.Store conn.new) → OnOk result (Rests (state S.Store conn.old) (state S.Store conn.new)) }
    ensures alive { HasCleanDisk (state S.Store conn.new) → OnOk result (IsTrue (state S.Store conn.new).is_open) }
    ensures keeps { KeepsCommit (state S.Store conn.old) (state S.Store conn.new) }
    ensures survives { Survives (state S.Store conn.old) (state S.Store conn.new) (λ _. ⊥) }
    ensures shown { HasCleanDisk (state S.Store conn.new) → IfOk result (λ answer. Shown (text_behind section) (values_behind section after.now room) (state S.Store conn.old) (state S.Store conn.new) answer.items) }
    ensures shows { HasCleanDisk (state S.Store conn.new) → IfOk result (λ answer. OnRows (state S.Store conn.new) (λ rows. SayRows answer.items (take room (rows_behind section after.now rows)))) }
{
    if !is_kept(conn.schema()) {
        return Err(Refusal::Failed);
    }
    ask_behind(conn, section, after, room)
}

/// The rows of a section behind a key, by the statement of the section.
#[tactic(auto, using(crate::proofs::Plain::behind_plain))]
fn ask_behind<S: Alter>(
    conn: &mut Connection<S>,
    section: Section,
    after: &Key,
    room: u32,
) -> Result<Vec<Columns>, Refusal>
    requires { conn.old.schema ≡ kept_schema }
    ensures shows { HasCleanDisk (state S.Store conn.new) → IfOk result (λ rows. Shown (text_behind section) (values_behind section after.now room) (state S.Store conn.old) (state S.Store conn.new) rows.items) }
    ensures rests { HasCleanDisk (state S.Store conn.new) → OnOk result (Rests (state S.Store conn.old) (state S.Store conn.new)) }
    ensures alive { HasCleanDisk (state S.Store conn.new) → OnOk result (IsTrue (state S.Store conn.new).is_open) }
    ensures keeps { KeepsCommit (state S.Store conn.old) (state S.Store conn.new) }
    ensures survives { Survives (state S.Store conn.old) (state S.Store conn.new) (λ _. ⊥) }
{
    let sql = statement_of(section);
    let kind = u32::from(after.kind);
    let sub = after.sub.as_str();
    let source = after.source.as_str();
    match section {
        Section::Number => {
            let channel = after.channel.as_str();
            let number = bounded_number(after.number);
            ask(conn, sql, params![kind, sub, source, channel, number, room])
        }
        Section::Channel => {
            let channel = next_text(&after.channel)?;
            ask(
                conn,
                sql,
                params![kind, sub, source, channel.as_str(), room],
            )
        }
        Section::Source => {
            let source = next_text(&after.source)?;
            ask(conn, sql, params![kind, sub, source.as_str(), room])
        }
        Section::Sub => {
            let sub = next_text(&after.sub)?;
            ask(conn, sql, params![kind, sub.as_str(), room])
        }
        Section::Kind => ask(conn, sql, params![next_kind(after.kind), room]),
    }
}

/// The statement that shows the rows of a section behind a key.
fn statement_of(section: Section) -> &'static str
    ensures { result.now ≡ text_behind section }
{
    match section {
        Section::Number => BEHIND_NUMBER,
        Section::Channel => BEHIND_CHANNEL,
        Section::Source => BEHIND_SOURCE,
        Section::Sub => BEHIND_SUB,
        Section::Kind => BEHIND_KIND,
    }
}

/// A number as a column keeps it, or the greatest that one keeps: no row has a number above it.
fn bounded_number(number: u64) -> i64
    ensures { result ≡ pos (min number MAX) }
{
    number.min(MAX) as i64
}

/// The kind behind a kind, which is 256 behind the greatest.
fn next_kind(kind: u8) -> u32
    ensures { result ≡ kind + 1 }
{
    u32::from(kind) + 1
}

/// The least text that is greater, by its bytes: it has a zero byte more.
fn next_text(text: &Text) -> Result<Text, AllocError>
    ensures { IfOk result (λ next. next ≡ next_bytes text.now) }
{
    let mut next = text.clone()?;
    next.push('\0')?;
    Ok(next)
}
