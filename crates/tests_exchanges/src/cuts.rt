//! Bytes that end early.

use std::alloc::AllocError;
use tests_tasks::runs::Runs;
use wef_base::Text;

/// What comes of each front of bytes, where it isn't what came of the one before.
pub(crate) fn push_fronts(
    shown: &mut Text,
    bytes: &[u8],
    push: fn(&mut Text, &[u8]) -> Result<(), AllocError>,
) -> Result<(), AllocError>
    requires { IsAlwaysCallable push }
{
    let mut runs = Runs::new(shown.alloc());
    for cut in 0..=bytes.len() {
        let (front, _) = bytes.split_at(cut.min(bytes.len()));
        let mut told = Text::new(shown.alloc());
        push(&mut told, front)?;
        runs.add(shown, cut as u64, told)?;
    }
    Ok(())
}
