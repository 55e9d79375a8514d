//! Answers to a row of like questions.

use std::alloc::{AllocError, Global};
use wef_base::Text;

/// Answers one after the other, of which each that is new is printed with its number.
#[derive(Drop)]
pub struct Runs {
    last: Text,
}

impl Runs {
    pub fn new(alloc: Global) -> Runs {
        Runs {
            last: Text::new(alloc),
        }
    }

    /// Prints an answer where it isn't the one before.
    pub fn add(&mut self, shown: &mut Text, number: u64, answer: Text) -> Result<(), AllocError> {
        if answer != self.last {
            shown.push_str(if self.last.is_empty() {
                "from "
            } else {
                "\n    from "
            })?;
            shown.push_number(number)?;
            shown.push_str(": ")?;
            shown.push_str(answer.as_str())?;
            self.last = answer;
        }
        Ok(())
    }
}
