//! What is true of the batches that sources build, as contracts.

ghost use Rattle.wef_building.specs.Laws.{BuiltBatchesFit, BuiltBookmarksReach, BuiltItemsAreInFront, BuiltItemsAreMost, BuiltItemsFillTheirRoom, BuiltItemsKeepTheirRoom, EmptyMeansNothingToSend};

/// A batch that is built above a session's positions fits above every bookmark that is at least there.
pub fn built_batches_fit()
    ensures { BuiltBatchesFit }
{}

/// A batch that is built from a window says in its bookmark how far it reads each channel.
pub fn built_bookmarks_reach()
    ensures { BuiltBookmarksReach }
{}

/// A batch has as many candidates, from the first on, as its limits allow.
pub fn built_items_are_the_longest_row()
    ensures front { BuiltItemsAreInFront }
    ensures most { BuiltItemsAreMost }
{}

/// The items of a batch have at most as many bytes in a written message as its session has room for;
/// where a candidate is left, it would pass the room or the count.
pub fn built_items_keep_their_room()
    ensures kept { BuiltItemsKeepTheirRoom }
    ensures filled { BuiltItemsFillTheirRoom }
{}

/// A batch has an item wherever there is something to send.
pub fn empty_batches_mean_nothing_to_send()
    ensures { EmptyMeansNothingToSend }
{}
