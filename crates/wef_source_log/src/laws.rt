//! Laws of windows, as contracts.

ghost use Rattle.wef_source_log.specs.Laws.{FormsStay, NothingIsEmpty, StartsKeep, WindowsRead};

/// What a window's rows give: the capacity, the boot number, and of each channel the last number,
/// the first one, and the records of its history from there on. No rows have the window of no
/// history, and a start keeps the window.
pub fn windows_read()
    ensures nothing { NothingIsEmpty }
    ensures starts { StartsKeep }
    ensures reads { WindowsRead }
{}

/// Rows that are all of their form stay so: where there is none, over a start, and over a write.
pub fn forms_stay()
    ensures { FormsStay }
{}
