//! What comes of a line for one number after the other.

use std::alloc::{AllocError, Global};
use wef_base::{List, Text};

/// Begins what comes of a number, on a line of its own.
pub fn push_numbered(shown: &mut Text, number: u64) -> Result<(), AllocError> {
    shown.push_str(if number > 1 { "\n    " } else { "" })?;
    shown.push_number(number)?;
    shown.push_str(": ")
}

/// The number alone.
pub fn list_of(alloc: Global, number: u64) -> Result<List<u64>, AllocError> {
    let mut numbers = List::new(alloc);
    numbers.push(number)?;
    Ok(numbers)
}
