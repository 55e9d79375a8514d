//! Rows as the columns of an answer.

ghost use Rattle.sqlite.specs.Values.{bound};
ghost use Rattle.sqlite_value.specs.Order.{column};
ghost use Rattle.std.specs.Option.{option_map};
ghost use Rattle.std.specs.Prelude.{◌≡◌, ◌<◌, pos, MatchOption};
ghost use Rattle.wef_base.specs.declared.numbers.TheConstants.{MAX};
ghost use Rattle.wef_keeper.specs.Rows.{row_of};
ghost use Rattle.wef_sqlite.specs.Columns.{Reads, entry_in, key_in, kind_in, number_in, text_in, wrapped_in};
ghost use Rattle.wef_sqlite.specs.Statements as statements;

use crate::refusal::Refusal;
use sqlite::Row as Columns;
use sqlite::types::ToSql;
use sqlite_value::value::ValueRef;
use wef_base::Text;
use wef_base::numbers::MAX;
use wef_keeper::{Key, Row};

/// A number as a column keeps it. None above `MAX`, which no column keeps.
pub fn kept_number(number: u64) -> Option<i64>
    ensures { MatchOption result (MAX < number) (λ kept. kept ≡ pos number) }
{
    if number > MAX {
        return None;
    }
    Some(number as i64)
}

/// A kind as a column keeps it.
pub fn kind_number(kind: u8) -> u32
    ensures value { result ≡ kind }
    ensures small { kind < 256 }
{
    u32::from(kind)
}

/// The values of a key for a statement, with its number as a column keeps it.
pub fn key_values(key: &Key, number: i64) -> [ValueRef<'_>; 5]
    requires { number ≡ pos key.now.number }
    ensures { bound result ≡ statements.key_values key.now }
{
    [
        u32::from(key.kind).to_sql(),
        key.sub.as_str().to_sql(),
        key.source.as_str().to_sql(),
        key.channel.as_str().to_sql(),
        number.to_sql(),
    ]
}

/// The row that columns say, in the order of the table. Failed where they say none: a column of
/// another type, a kind outside 0 to 255, a negative number.
pub fn said_row(columns: &Columns) -> Result<Row, Refusal>
    ensures { Reads (option_map row_of (entry_in columns.now)) result }
{
    Ok(Row {
        key: said_key(columns)?,
        value: said_value(columns)?,
        body: said_text(columns, 6)?,
    })
}

/// The key in the first five columns.
pub fn said_key(columns: &Columns) -> Result<Key, Refusal>
    ensures { Reads (key_in columns.now) result }
{
    Ok(Key {
        kind: said_kind(columns)?,
        sub: said_text(columns, 1)?,
        source: said_text(columns, 2)?,
        channel: said_text(columns, 3)?,
        number: said_number(columns)?,
    })
}

fn said_kind(columns: &Columns) -> Result<u8, Refusal>
    ensures { Reads (kind_in columns.now) result }
{
    let kind: u32 = columns.get(0)?;
    u8::try_from(kind).map_err(|_| Refusal::Failed)
}

fn said_number(columns: &Columns) -> Result<u64, Refusal>
    ensures { Reads (number_in columns.now) result }
{
    let kept: i64 = columns.get(4)?;
    u64::try_from(kept).map_err(|_| Refusal::Failed)
}

/// A negative value is read as itself plus 2^64.
fn said_value(columns: &Columns) -> Result<u64, Refusal>
    ensures { Reads (wrapped_in (column columns.now 5)) result }
{
    let kept: i64 = columns.get(5)?;
    Ok(kept.cast_unsigned())
}

fn said_text(columns: &Columns, at: usize) -> Result<Text, Refusal>
    ensures { Reads (text_in (column columns.now at)) result }
{
    let string: String = columns.get(at)?;
    Ok(Text::from_string(string)?)
}
