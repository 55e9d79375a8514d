//! The register of the kinds of rows: each kind that an end keeps, its number and its owner. A new kind
//! takes the number behind the last, whichever end owns it.

ghost use Rattle.std.specs.Prelude.{◌≡◌};
ghost use Rattle.wef_keeper.specs.Kinds.{number_of, owner_of};

/// A kind of rows: its key, and what stands there. A part of the key that isn't named is empty or 0, and
/// so is the value or the body.
#[derive(Clone, Copy, Debug, PartialEq, Eq)]
pub enum RowKind {
    /// A subscription, by its name. The value is 0 while it is live and 1 once it has ended, the body its
    /// document.
    Subscription,
    /// How far a channel was read, by subscription, source and channel. The value is the number.
    Bookmark,
    /// A held event, by subscription, source, channel and number. The body is its text.
    Held,
    /// A range of records that were dropped, by subscription, source, channel and the first. The value
    /// is the last.
    Mark,
    /// A range in which records were dropped, which ones isn't known, by subscription, source, channel
    /// and the first. The value is the last, the body how many were dropped, in digits.
    Loose,
    /// When a source was last heard, by subscription and source. The value is the moment, in
    /// milliseconds from 1970 on.
    Heard,
    /// How long a source that was asked for its events goes on sending them, by subscription and source.
    /// The value is the moment at which that ends, as in `Heard`, the body the identifier that the source
    /// gave.
    Lease,
    /// The collector's boot number, the value.
    CollectorBoot,
    /// A record of a source's log, by channel and number. The body is its text.
    Record,
    /// The last number of a channel in the log, by channel. The value is the number.
    LastNumber,
    /// How many records of a channel the log keeps, the value.
    Capacity,
    /// The source's boot number, the value.
    SourceBoot,
}

/// The end in whose store rows of a kind stand.
#[derive(Clone, Copy, Debug, PartialEq, Eq)]
pub enum Owner {
    Collector,
    Source,
}

impl RowKind {
    /// The number that stands for the kind in keys.
    pub fn number(self) -> u8
        ensures { result ≡ number_of self }
    {
        match self {
            RowKind::Subscription => 1,
            RowKind::Bookmark => 2,
            RowKind::Held => 3,
            RowKind::Mark => 4,
            RowKind::Loose => 5,
            RowKind::Heard => 6,
            RowKind::Lease => 7,
            RowKind::CollectorBoot => 8,
            RowKind::Record => 9,
            RowKind::LastNumber => 10,
            RowKind::Capacity => 11,
            RowKind::SourceBoot => 12,
        }
    }

    /// The end that keeps rows of the kind.
    pub fn owner(self) -> Owner
        ensures { result ≡ owner_of self }
    {
        match self {
            RowKind::Subscription
            | RowKind::Bookmark
            | RowKind::Held
            | RowKind::Mark
            | RowKind::Loose
            | RowKind::Heard
            | RowKind::Lease
            | RowKind::CollectorBoot => Owner::Collector,
            RowKind::Record | RowKind::LastNumber | RowKind::Capacity | RowKind::SourceBoot => {
                Owner::Source
            }
        }
    }
}
