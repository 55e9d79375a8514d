//! Laws of the order of bookmarks, each the contract of a function that does nothing.

ghost use Rattle.wef_bookmark.specs.Laws.{RaisedIsGreater, RaisedHas, JoinedIsGreater, JoinedHas};

/// Raising is the greater number at one channel, and changes no other.
pub fn raising_is_the_greater()
    ensures number { RaisedIsGreater }
    ensures has { RaisedHas }
{}

/// Joining is the greater number at each channel.
pub fn joining_is_the_greater()
    ensures number { JoinedIsGreater }
    ensures has { JoinedHas }
{}
