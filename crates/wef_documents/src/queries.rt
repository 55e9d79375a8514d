//! The queries of a document.

ghost use Rattle.wef_base.specs.declared.tree.Charset.TheVariants.{Utf8};
ghost use Rattle.wef_documents.specs.Reading.{queries_at, queries_in, queries_of, queries_said};
ghost use Rattle.wef_documents.specs.Steps.{Reads};
ghost use Rattle.wef_tree_reading.specs.Documents.{tree_of};

use crate::children::child;
use crate::faults::{DocumentFault, Part};
use wef_base::{Charset, Element, Text};
use wef_elements::{element_at, said_in};
use wef_query::{QueryFault, QueryList, read_query};
use wef_tree::{TreeFault, read_tree};

/// The list of queries in the element Query.
pub(crate) fn queries_in(root: &Element) -> Result<QueryList, DocumentFault>
    ensures { Reads result (queries_in root.now) }
{
    let Some(element) = child("Query", root) else {
        return Err(DocumentFault::BadDocument(Part::Query));
    };
    queries_of(element)
}

/// The list that is the first element in an element Query, or where there is none the document that
/// its text is.
fn queries_of(element: &Element) -> Result<QueryList, DocumentFault>
    ensures { Reads result (queries_of element.now) }
{
    match element_at(element.children.as_slice(), 0) {
        Some(list) => queries_said(list),
        None => queries_spelt(&said_in(element)?),
    }
}

fn queries_spelt(text: &Text) -> Result<QueryList, DocumentFault>
    ensures { Reads result (queries_at (tree_of Utf8 text.now)) }
{
    match read_tree(text.alloc(), text.as_str().as_bytes(), Charset::Utf8) {
        Ok(root) => queries_said(&root),
        Err(TreeFault::NoMemory) => Err(DocumentFault::NoMemory),
        Err(_) => Err(DocumentFault::BadDocument(Part::Query)),
    }
}

fn queries_said(list: &Element) -> Result<QueryList, DocumentFault>
    ensures { Reads result (queries_said list.now) }
{
    match read_query(list) {
        Ok(queries) => Ok(queries),
        Err(QueryFault::NoMemory) => Err(DocumentFault::NoMemory),
        Err(_) => Err(DocumentFault::BadDocument(Part::Query)),
    }
}
