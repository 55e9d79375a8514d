//! Reads the document of the input as a tree. Where a word is `write` it writes the tree again, and
//! where it is `within` it does so up to the length of an event, so that all of it can be measured.

ghost use Rattle.wef_xml.specs.Good.{IsGoodTree};

use std::alloc::Global;
use std::env;
use std::io::{self, Read};
use wef_base::Charset;
use wef_tree::{ToldTree, TreeFault, read_told_tree, write_told_tree, write_told_tree_within};

/// The most bytes that an event's text has.
const LIMIT: usize = 1_048_576;

/// Reads the tree, writes it again where a word says so, and prints how long its text is.
pub fn measure(rt: &HostRuntime) -> io::Result<()> {
    let alloc = rt.alloc();
    let mut bytes = Vec::new(alloc);
    rt.stdin().lock().read_to_end(&mut bytes)?;
    let writes = has_word(rt, "write")?;
    let writes_within = has_word(rt, "within")?;
    let done = match read_told_tree(alloc, bytes.as_slice(), Charset::Utf8) {
        Ok(tree) if writes => written(alloc, &tree),
        Ok(tree) if writes_within => written_within(alloc, &tree),
        Ok(_) => Ok(0),
        Err(fault) => Err(fault),
    };
    match done {
        Ok(length) => println!(rt; "read, and {length} bytes written"),
        Err(fault) => println!(rt; "{fault}"),
    }
}

/// Whether a word stands on the command line.
fn has_word(rt: &HostRuntime, wanted: &str) -> io::Result<bool> {
    Ok(env::args(rt)?.skip(1).any(|word| word.as_str() == wanted))
}

/// How many bytes the text of a tree has.
fn written(alloc: Global, tree: &ToldTree) -> Result<usize, TreeFault>
    requires { IsGoodTree tree.now }
{
    Ok(write_told_tree(alloc, tree, Charset::Utf8)?.len())
}

/// How many bytes the text of a tree has, 0 where that are more than an event may have.
fn written_within(alloc: Global, tree: &ToldTree) -> Result<usize, TreeFault>
    requires { IsGoodTree tree.now }
{
    match write_told_tree_within(alloc, tree, Charset::Utf8, LIMIT)? {
        Some(bytes) => Ok(bytes.len()),
        None => Ok(0),
    }
}
