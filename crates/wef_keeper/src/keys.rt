//! What stands in the rows, and how a section of them is named.

ghost use Rattle.std.specs.Prelude.{◌≡◌, IfOk};
ghost use Rattle.wef_keeper.specs.Rows.{cell_of_row};
ghost use Rattle.wef_keeper.specs.Sections.{is_under};

use std::alloc::AllocError;
use wef_base::Text;

/// The key of a row. Keys go by kind, then by the bytes of subscription, source and channel, then by
/// number. A part that a kind of row doesn't name is empty, or 0.
#[derive(Debug, PartialEq, Eq, PartialOrd, Ord)]
pub struct Key {
    pub kind: u8,
    pub sub: Text,
    pub source: Text,
    pub channel: Text,
    pub number: u64,
}

/// One call for whoever lets a key go, whatever it holds.
impl Drop for Key {
    fn drop(self) {
        match self {
            Key {
                kind: _,
                sub: _,
                source: _,
                channel: _,
                number: _,
            } => {}
        }
    }
}

impl Key {
    /// A copy of the key, which shares its texts.
    pub fn clone(&self) -> Result<Key, AllocError>
        ensures { IfOk result (λ copy. copy ≡ self.now) }
    {
        Ok(Key {
            kind: self.kind,
            sub: self.sub.clone()?,
            source: self.source.clone()?,
            channel: self.channel.clone()?,
            number: self.number,
        })
    }
}

/// What stands at a key.
#[derive(Debug, Drop)]
pub struct Cell {
    pub value: u64,
    pub body: Text,
}

/// A key and what stands at it.
#[derive(Debug, Drop)]
pub struct Row {
    pub key: Key,
    pub value: u64,
    pub body: Text,
}

impl Row {
    /// What stands at the row's key, which shares the row's text.
    pub(crate) fn to_cell(&self) -> Result<Cell, AllocError>
        ensures { IfOk result (λ cell. cell ≡ cell_of_row self.now) }
    {
        Ok(Cell {
            value: self.value,
            body: self.body.clone()?,
        })
    }

    /// A copy of the row, which shares its texts.
    pub fn clone(&self) -> Result<Row, AllocError>
        ensures { IfOk result (λ copy. copy ≡ self.now) }
    {
        let key = self.key.clone()?;
        let body = self.body.clone()?;
        Ok(Row {
            key,
            value: self.value,
            body,
        })
    }
}

/// One change of the rows: what stands at a key from now on, or that nothing does.
#[derive(Debug)]
pub enum Change {
    Put(Row),
    Delete(Key),
}

/// One call for whoever lets a change go, whatever it holds.
impl Drop for Change {
    fn drop(self) {
        match self {
            Change::Put(_) | Change::Delete(_) => {}
        }
    }
}

impl Change {
    /// A copy of the change, which shares its texts.
    pub fn clone(&self) -> Result<Change, AllocError>
        ensures { IfOk result (λ copy. copy ≡ self.now) }
    {
        Ok(match self {
            Change::Put(row) => Change::Put(row.clone()?),
            Change::Delete(key) => Change::Delete(key.clone()?),
        })
    }
}

/// How many parts of a key all rows of a section share.
#[derive(Clone, Copy, Debug, PartialEq, Eq)]
pub enum Depth {
    Kind,
    Sub,
    Source,
    Channel,
}

impl Depth {
    /// Whether a key shares its parts with another down to this depth.
    pub fn is_shared(self, of: &Key, key: &Key) -> bool
        ensures { result ≡ is_under self of.now key.now }
    {
        let kind = of.kind == key.kind;
        match self {
            Depth::Kind => kind,
            Depth::Sub => kind && of.sub == key.sub,
            Depth::Source => kind && of.sub == key.sub && of.source == key.source,
            Depth::Channel => {
                kind && of.sub == key.sub && of.source == key.source && of.channel == key.channel
            }
        }
    }
}
