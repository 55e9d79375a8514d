//! The scripts that run this program as `wef`.

use std::path::Path;
use std::process::{Command, ExitStatus};
use std::{env, io};

/// Runs a script, and tells whether it went well.
pub fn run(rt: &HostRuntime, name: &str) -> io::Result<bool> {
    let program = env::current_exe(rt)?;
    Ok(status_of(rt, name, program.as_path())?.success())
}

fn status_of(rt: &HostRuntime, name: &str, program: Path<'_>) -> io::Result<ExitStatus> {
    let mut shell = Command::new(rt.alloc(), "sh")?;
    shell.arg(name)?.arg(program)?;
    shell.status(rt)
}
