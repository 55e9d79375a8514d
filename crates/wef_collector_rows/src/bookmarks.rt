//! The kept bookmark of a subscription and a source.

ghost use Rattle.std.specs.FinMap as map;
ghost use Rattle.std.specs.List.{filter, list_all};
ghost use Rattle.std.specs.Prelude.{◌≡◌, [], ◌∷◌, true, false, IfOk, IfSome, OnOk};
ghost use Rattle.wef_collector_rows.specs.Bookmarks as spec;
ghost use Rattle.wef_collector_rows.specs.Forms.{AreFormed, is_bookmark_row};
ghost use Rattle.wef_collector_rows.specs.Judged.{AreAllFormed, IsFormedAt};
ghost use Rattle.wef_collector_rows.specs.Keys as keys;
ghost use Rattle.wef_keeper.specs.Access as access;

use crate::forms::{CollectorForm, bookmark_channel};
use crate::keys::{bookmark_key, bookmarks_start};
use crate::numbers::number_at;
use std::alloc::Global;
use wef_base::{ChannelName, List, SourceName, SubId, Text};
use wef_bookmark::Bookmark;
use wef_keeper::access::section;
use wef_keeper::forms::formed_section;
use wef_keeper::{Depth, Keeper, Row, StoreFault};

/// How far a source's channel was served.
pub fn bookmark_at<K: Keeper>(
    keeper: &mut K,
    sub: &SubId,
    source: &SourceName,
    channel: &ChannelName,
) -> Result<u64, StoreFault>
    requires { access.IsReady (K.store keeper.old) }
    ensures number { IfSome (K.store keeper.new).rows (λ rows. IfOk result (λ number. number ≡ spec.bookmark_at rows sub.now source.now channel.now)) }
    ensures judged { IfSome (K.store keeper.new).rows (λ rows. OnOk result (IsFormedAt (keys.bookmark_key sub.now source.now channel.now) rows)) }
    ensures reads { access.Reads AreFormed (access.fails result) (K.store keeper.old) (K.store keeper.new) }
{
    let key = bookmark_key(sub.as_text(), source.as_text(), channel.as_text())?;
    number_at(keeper, &key)
}

/// The bookmark of a subscription and a source.
pub fn bookmark_of<K: Keeper>(
    keeper: &mut K,
    sub: &SubId,
    source: &SourceName,
) -> Result<Bookmark, StoreFault>
    requires { access.IsReady (K.store keeper.old) }
    ensures bookmark { IfSome (K.store keeper.new).rows (λ rows. IfOk result (λ bookmark. bookmark ≡ spec.bookmark_of rows sub.now source.now)) }
    ensures judged { IfSome (K.store keeper.new).rows (λ rows. OnOk result (AreAllFormed (spec.bookmark_rows rows sub.now source.now))) }
    ensures reads { access.Reads AreFormed (access.fails result) (K.store keeper.old) (K.store keeper.new) }
{
    let start = bookmarks_start(sub.as_text(), source.as_text())?;
    let kept = section(keeper, &start, Depth::Source)?;
    bookmark_by(sub.as_text().alloc(), kept.as_slice())
}

/// The bookmark rows of a subscription and a source, in the order of the channels' names.
pub fn bookmark_rows<K: Keeper>(
    keeper: &mut K,
    sub: &Text,
    source: &Text,
) -> Result<List<Row>, StoreFault>
    requires { access.IsReady (K.store keeper.old) }
    ensures rows { IfSome (K.store keeper.new).rows (λ rows. IfOk result (λ found. found ≡ spec.bookmark_rows rows sub.now source.now)) }
    ensures formed { IfOk result AreAllFormed }
    ensures reads { access.Reads AreFormed (access.fails result) (K.store keeper.old) (K.store keeper.new) }
{
    let start = bookmarks_start(sub, source)?;
    formed_section::<CollectorForm, K>(keeper, &start, Depth::Source)
}

/// The bookmark that rows make. It fails where one isn't of its form.
fn bookmark_by(alloc: Global, rows: &[Row]) -> Result<Bookmark, StoreFault>
    ensures value { IfOk result (λ bookmark. bookmark ≡ spec.raised_by_rows map.empty (filter spec.has_channel rows.now)) }
    ensures formed { OnOk result (list_all is_bookmark_row rows.now ≡ true) }
    ensures failed { access.fails result ≡ true → list_all is_bookmark_row rows.now ≡ false }
{
    let mut bookmark = Bookmark::new(alloc);
    for row in rows {
        raise_by(&mut bookmark, row)?;
    }
    Ok(bookmark)
}

fn raise_by(bookmark: &mut Bookmark, row: &Row) -> Result<(), StoreFault>
    ensures value { OnOk result (bookmark.new ≡ spec.raised_by_rows bookmark.old (filter spec.has_channel (row.now ∷ []))) }
    ensures formed { OnOk result (is_bookmark_row row.now ≡ true) }
    ensures failed { access.fails result ≡ true → is_bookmark_row row.now ≡ false }
{
    let Some(channel) = bookmark_channel(row)? else {
        return Err(StoreFault::Failed);
    };
    match bookmark.raise(&channel, row.value) {
        Ok(()) => Ok(()),
        Err(_) => Err(StoreFault::NoMemory),
    }
}
