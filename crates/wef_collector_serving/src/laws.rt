//! Laws of connections that were served for a collector, each the contract of a function that does
//! nothing.

ghost use Rattle.wef_collector_serving.specs.Clocks.{ClocksDecideNothingElse};
ghost use Rattle.wef_collector_serving.specs.Laws.{ConnectionsGoByRows, FaultsNeverFall, InternalErrorsRaiseFaults, RequestsGoByRows};

/// Over a connection the count of the store's faults never falls. Where it doesn't rise, no request of
/// the connection is answered with `InternalError`, as far as rows are told and of their form.
pub fn internal_errors_raise_faults()
    ensures later { FaultsNeverFall }
    ensures calm { InternalErrorsRaiseFaults }
{}

/// Over a collector whose store was opened, a connection goes by rows: from any rows that an opening
/// may find behind it, back to some that one could find before it. Each request got the answer that
/// the rows give then, or, where the store failed, one that says so, and the rows are as they were or
/// with what the request changes. The same of requests whatever the bytes that they came in. Over rows
/// of their form no more answers say that the store failed than its faults were counted.
pub fn connections_go_by_rows()
    ensures served { ConnectionsGoByRows }
    ensures answered { RequestsGoByRows }
{}

/// Of a connection the clock decides the moments at which sources were heard, and nothing else: over rows
/// that are alike, whatever two clocks tell, the same bytes are answered with the same bytes, with the
/// same memory, and the rows then are alike. This holds where neither the store nor the port fails and memory
/// isn't short. One choice is left, which no clock decides: a head that is cut off, and that nothing could
/// make good, may be refused, or end the connection as one that was cut short.
pub fn clocks_decide_nothing_else()
    ensures { ClocksDecideNothingElse }
{}
