//! Laws of heads, each the contract of a function that does nothing.

ghost use Rattle.wef_http_heads.specs.Laws.{HeadsEnd, ManagerIsFound, OneHead};

/// A head that bytes begin with ends with the first empty line behind its first line.
pub fn heads_end()
    ensures { HeadsEnd }
{}

/// Bytes begin with the head of at most one good message, and where they do there is no reason in
/// them to refuse it. So each refusal comes exactly where its reason is.
pub fn one_head_is_read()
    ensures { OneHead }
{}

/// A collector takes a request to its manager's path as one for the manager.
pub fn manager_is_found()
    ensures { ManagerIsFound }
{}
