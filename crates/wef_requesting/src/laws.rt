//! Laws of requests over a link, each the contract of a function that does nothing.

ghost use Rattle.wef_requesting.specs.ByRows.{RequestsGoByRows};

/// Over a collector whose store was opened, a request goes by rows: from any rows that an opening may find
/// behind it, back to some that one could find before it. It is the one that these rows call for, and the
/// rows then are those with what the answer changes, or, where the store failed, with it or without.
pub fn requests_go_by_rows()
    ensures { RequestsGoByRows }
{}
