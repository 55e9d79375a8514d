//! A delivery, and how requests differ from it.

use crate::escapes::unescaped;
use std::alloc::{AllocError, Global};
use wef_base::{Bytes, Text};

/// A batch of one event, whose source wants to be told.
const DELIVERY: &str =
    "<s:Envelope xmlns:s=\"http://www.w3.org/2003/05/soap-envelope\" xmlns:a=\"http://schemas.xmlsoap.org/ws/2004/08/addressing\" xmlns:w=\"http://schemas.dmtf.org/wbem/wsman/1/wsman.xsd\"><s:Header><a:Action s:mustUnderstand=\"true\">http://schemas.dmtf.org/wbem/wsman/1/wsman/Events</a:Action><a:MessageID>uuid:0A0B0C0D-0000-0000-0000-000000000001</a:MessageID><w:Bookmark><BookmarkList><Bookmark Channel=\"Application\" RecordId=\"9\" IsCurrent=\"true\"/></BookmarkList></w:Bookmark><w:AckRequested/></s:Header><s:Body><w:Events><w:Event Action=\"http://schemas.dmtf.org/wbem/wsman/1/wsman/Event\"><![CDATA[<Event><System><EventRecordID>8</EventRecordID><Channel>Application</Channel></System></Event>]]></w:Event></w:Events></s:Body></s:Envelope>";

/// The delivery with these edits.
pub fn edited(alloc: Global, edits: &str) -> Result<Bytes, AllocError> {
    edited_from(alloc, DELIVERY, edits)
}

/// A document with edits, each `OLD => NEW`, with ` | ` between them; `as it is` for none. Where an edit's text isn't
/// there, the line is no test, and nothing answers it.
pub fn edited_from(alloc: Global, document: &str, edits: &str) -> Result<Bytes, AllocError> {
    let mut document = Text::from_str(alloc, document)?;
    if edits != "as it is" {
        for edit in edits.split(" | ") {
            document = edited_once(alloc, document.as_str(), edit)?;
        }
    }
    unescaped(alloc, document.as_str())
}

fn edited_once(alloc: Global, document: &str, edit: &str) -> Result<Text, AllocError> {
    let (old, new) = edit.split_once(" => ").unwrap_or((edit, ""));
    let Some((before, after)) = document.split_once(old) else {
        return Err(AllocError);
    };
    let mut text = Text::from_str(alloc, before)?;
    text.push_str(new)?;
    text.push_str(after)?;
    Ok(text)
}
