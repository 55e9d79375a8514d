//! Documents that stand in lines.

ghost use Rattle.std.specs.Prelude.{◌≡◌, IfOk, IfSome};
ghost use Rattle.wef_base.specs.declared.tree.Charset.TheVariants.{Utf8};
ghost use Rattle.wef_lines.specs.Documents as documents;
ghost use Rattle.wef_tree_reading.specs.Documents.{tree_of};
ghost use Rattle.wef_xml.specs.Good.{IsGoodTree};

use std::alloc::{AllocError, Global};
use wef_base::Charset;
use wef_query::{QueryFault, QueryList, read_query};
use wef_tree_reading::read_told_tree;
use wef_xml::{ToldTree, TreeFault};

/// The tree of the document that a text is; none where it is none.
pub fn tree_in(alloc: Global, text: &[u8]) -> Result<Option<ToldTree>, AllocError>
    ensures tree { IfOk result (λ tree. tree ≡ tree_of Utf8 text.now) }
    ensures good { IfOk result (λ tree. IfSome tree IsGoodTree) }
{
    match read_told_tree(alloc, text, Charset::Utf8) {
        Ok(tree) => Ok(Some(tree)),
        Err(TreeFault::NoMemory) => Err(AllocError),
        Err(_) => Ok(None),
    }
}

/// The list of queries that a text says; none where it says none.
#[tactic(auto, unfolding(crate::specs::Documents::list_in))]
pub fn list_in(alloc: Global, text: &[u8]) -> Result<Option<QueryList>, AllocError>
    ensures { IfOk result (λ list. list ≡ documents.list_in text.now) }
{
    let Some(tree) = tree_in(alloc, text)? else {
        return Ok(None);
    };
    match read_query(tree.root()) {
        Ok(list) => Ok(Some(list)),
        Err(QueryFault::NoMemory) => Err(AllocError),
        Err(_) => Ok(None),
    }
}
