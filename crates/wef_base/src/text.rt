//! Text in UTF-8, which contracts see as the list of its bytes.

ghost use Rattle.std.specs.Prelude.{◌≡◌, ◌<◌, ◌==◌, List, [], ◌++◌, length, IfOk, OnOk, OnErr, encode_utf8, encode_utf8_all};
ghost use Rattle.std.specs.Fmt.{decimal};
ghost use Rattle.std.specs.Cmp.{partial_equiv_from_equiv};
ghost use Rattle.std.specs.Cmp.Lexicographic.{pointwise, slice_cmp, nat_list_eq_equiv, nat_list_cmp_total, texts_po};
ghost use Rattle.std.specs.Ordering.{nat_cmp};
ghost use Rattle.std.specs.Prelude.{ℕ, nat_eq, refl, string_bytes};
ghost use Rattle.std.specs.declared.option.Option.TheVariants.{Some};
ghost use Rattle.std.specs.Str.{IsUtf8, chars};
ghost use Rattle.wef_base.specs.Names.{trimmed};
ghost use Rattle.wef_base.specs.Printed.{printed};

use crate::names::trim;
use crate::printed::push_printed;
use std::alloc::{AllocError, Global};
use std::cmp::Ordering;
use std::fmt;
use std::marker::Model;
use std::rc::Rc;

/// A text in UTF-8. Two texts compare by their bytes, which is the order of their characters.
///
/// All copies of a text share its bytes; one that is changed gets bytes of its own first, where it
/// isn't their only owner.
#[derive(Debug)]
pub struct Text {
    alloc: Global,
    shared: Option<Rc<String>>,
}

impl Model for Text {
    ghost use Rattle.std.specs.Prelude.{ℕ, List, [], string_bytes};
    ghost use Rattle.std.specs.Option.{option_map_or};

    ghost Value = { List ℕ };

    ghost view = { λ t. option_map_or (λ s. string_bytes s.value) t.shared [] };
}

impl Drop for Text {
    fn drop(self) {
        let Text { alloc: _, shared } = self;
        drop(shared);
    }
}

impl Text {
    /// The empty text. It takes no memory.
    pub fn new(alloc: Global) -> Text
        ensures { result ≡ [] }
    {
        Text {
            alloc,
            shared: None,
        }
    }

    /// A copy of a text.
    pub fn from_str(alloc: Global, text: &str) -> Result<Text, AllocError>
        ensures { IfOk result (λ t. t ≡ text.now) }
    {
        Text::from_string(String::from_str(alloc, text)?)
    }

    /// The text of a string, which keeps the room that is set aside in it.
    pub fn from_string(string: String) -> Result<Text, AllocError>
        ensures { IfOk result (λ t. t ≡ string_bytes string) }
    {
        let alloc = *string.allocator();
        Ok(Text {
            alloc,
            shared: Some(Rc::new(alloc, string)?),
        })
    }

    /// The text of characters. None takes no memory.
    pub fn from_chars(alloc: Global, characters: &[char]) -> Result<Text, AllocError>
        ensures { IfOk result (λ t. t ≡ encode_utf8_all characters.now) }
    {
        if characters.is_empty() {
            return Ok(Text::new(alloc));
        }
        Text::from_string(string_of(alloc, characters)?)
    }

    /// The text, as a string slice. It takes no memory.
    pub fn as_str(&self) -> &str
        ensures { result.now ≡ self.now }
    {
        match &self.shared {
            Some(shared) => shared.as_str(),
            None => "",
        }
    }

    /// The length in bytes.
    pub fn len(&self) -> usize
        ensures { result ≡ length self.now }
    {
        self.as_str().len()
    }

    /// Whether there is no character.
    pub fn is_empty(&self) -> bool
        ensures { result ≡ (length self.now == 0) }
    {
        self.as_str().len() == 0
    }

    /// The allocator that the text was made with.
    pub fn alloc(&self) -> Global {
        self.alloc
    }

    /// Appends a text.
    pub fn push_str(&mut self, more: &str) -> Result<(), AllocError>
        ensures ok { OnOk result (self.new ≡ self.old ++ more.now) }
        ensures err { OnErr result (self.new ≡ self.old) }
    {
        match &mut self.shared {
            Some(shared) => append(self.alloc, shared, more),
            None => {
                *self = Text::from_str(self.alloc, more)?;
                Ok(())
            }
        }
    }

    /// Appends a character.
    pub fn push(&mut self, character: char) -> Result<(), AllocError>
        ensures ok { OnOk result (self.new ≡ self.old ++ encode_utf8 character) }
        ensures err { OnErr result (self.new ≡ self.old) }
    {
        self.push_str(character.encode_utf8(&mut [0; 4]))
    }

    /// Appends characters.
    pub fn push_chars(&mut self, characters: &[char]) -> Result<(), AllocError>
        ensures ok { OnOk result (self.new ≡ self.old ++ encode_utf8_all characters.now) }
        ensures err { OnErr result (self.new ≡ self.old) }
    {
        if self.shared.is_none() {
            *self = Text::from_chars(self.alloc, characters)?;
            return Ok(());
        }
        let more = string_of(self.alloc, characters)?;
        self.push_str(more.as_str())
    }

    /// Appends a number in decimal digits, without leading zeros.
    pub fn push_number(&mut self, number: u64) -> Result<(), AllocError>
        ensures ok { OnOk result (self.new ≡ self.old ++ decimal number) }
        ensures err { OnErr result (self.new ≡ self.old) }
    {
        let digits = number.to_string(self.alloc())?;
        self.push_str(digits.as_str())
    }

    /// Appends a name as printed lines show it: every byte below 0x21 or above 0x7E, `%` and `:` as
    /// `%` and two capital hexadecimal digits.
    pub fn push_printed(&mut self, name: &Text) -> Result<(), AllocError>
        ensures ok { OnOk result (self.new ≡ self.old ++ printed name.now) }
        ensures err { OnErr result (self.new ≡ self.old) }
    {
        let mut shown = String::new(self.alloc);
        push_printed(&mut shown, name.as_str())?;
        self.push_str(shown.as_str())
    }

    /// The text without the spaces at both ends (XML 1.0, rule S).
    pub fn trimmed(&self) -> Result<Text, AllocError>
        ensures { IfOk result (λ t. t ≡ trimmed self.now) }
    {
        let characters = self.characters()?;
        Text::from_chars(self.alloc(), trim(characters.as_slice()))
    }

    /// The characters, in a vector.
    #[tactic(auto, using(std::proofs::lemmas::Str::chars_from_encodes))]
    pub fn characters(&self) -> Result<Vec<char>, AllocError>
        ensures value { IfOk result (λ cs. cs.items ≡ chars self.now) }
        ensures utf8 { IsUtf8 self.now }
    {
        self.as_str().chars().collect(self.alloc())
    }

    /// The same text again, which shares the bytes.
    pub fn clone(&self) -> Result<Text, AllocError>
        ensures { IfOk result (λ copy. copy ≡ self.now) }
    {
        match &self.shared {
            Some(shared) => Ok(Text {
                alloc: self.alloc,
                shared: Some(shared.clone()?),
            }),
            None => Ok(Text::new(self.alloc)),
        }
    }
}

/// The string of characters, with room for one byte of each.
fn string_of(alloc: Global, characters: &[char]) -> Result<String, AllocError>
    ensures { IfOk result (λ s. string_bytes s ≡ encode_utf8_all characters.now) }
{
    let mut string = String::with_capacity(alloc, characters.len())?;
    for character in characters {
        string.push(*character)?;
    }
    Ok(string)
}

/// Appends to a string that others may share: where they do, to one of its own.
fn append(alloc: Global, shared: &mut Rc<String>, more: &str) -> Result<(), AllocError>
    ensures ok { OnOk result (string_bytes shared.new.value ≡ string_bytes shared.old.value ++ more.now) }
    ensures err { OnErr result (string_bytes shared.new.value ≡ string_bytes shared.old.value) }
{
    if let Some(string) = Rc::get_mut(shared) {
        return string.push_str(more);
    }
    *shared = appended(alloc, shared.as_str(), more)?;
    Ok(())
}

/// A string of its own with one text and another behind it.
fn appended(alloc: Global, text: &str, more: &str) -> Result<Rc<String>, AllocError>
    ensures { IfOk result (λ shared. string_bytes shared.value ≡ text.now ++ more.now) }
{
    let mut string = String::from_str(alloc, text)?;
    string.push_str(more)?;
    Ok(Rc::new(alloc, string)?)
}

impl fmt::Display for Text {
    ghost output = { λ t. Some t };

    fn fmt<W: fmt::Write>(&self, f: &mut fmt::Formatter<W>) -> fmt::Result {
        f.write_str(self.as_str())
    }
}

impl PartialEq for Text {
    ghost eq = { pointwise nat_eq };

    ghost laws = { partial_equiv_from_equiv nat_list_eq_equiv };

    fn eq(&self, other: &Text) -> bool {
        self.as_str() == other.as_str()
    }
}

impl Eq for Text {
    ghost laws = { nat_list_eq_equiv };
}

impl PartialOrd for Text {
    ghost partial_cmp = { λ x y. Some (slice_cmp nat_cmp x y) };

    ghost laws = { texts_po };

    fn partial_cmp(&self, other: &Text) -> Option<Ordering> {
        Some(self.cmp(other))
    }
}

impl Ord for Text {
    ghost use Rattle.std.specs.Cmp.Lexicographic.{texts_ties};

    ghost cmp = { slice_cmp nat_cmp };

    ghost total = { nat_list_cmp_total };

    ghost matches_partial_cmp = { λ x y. refl };

    ghost matches_eq = { texts_ties };

    // Equal texts, as most parts of two keys are, are seen to be so many bytes at a time.
    fn cmp(&self, other: &Text) -> Ordering {
        if self == other {
            return Ordering::Equal;
        }
        self.as_str().cmp(other.as_str())
    }
}
