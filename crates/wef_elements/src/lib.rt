//! What an element says: its text, its attributes, and the elements in it by their qualified names.
#![tactic(auto)]

pub mod children;
pub mod spaces;
pub mod texts;
pub mod values;

pub use children::{
    copy_elements, element_at, element_of, first_called, has_words, is_called, is_words,
    with_attributes, with_elements, with_text,
};
pub use spaces::{is_management, management, profile, profile_value};
pub use texts::{said_in, text_inside};
pub use values::{digits, number_said, value_of, with_value};
