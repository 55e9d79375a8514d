//! What clap is told of the command line: a subcommand for each command, and a required argument for
//! each word that stands behind its name.

ghost use Rattle.clap.specs.Simple.{app_of, new_app, with_subcommand};
ghost use Rattle.clap.specs.Walk.{rule_of, texts};
ghost use Rattle.std.specs.Prelude.{◌≡◌, [], ◌∷◌, false, IfOk};
ghost use Rattle.wef_command_line.specs.App as spec;

use clap::error::ErrorKind;
use clap::{Arg, ArgMatches, Command};
use std::alloc::{AllocError, Global};

/// What clap finds in words: the command that they name, and the words behind its name. None where it
/// refuses them.
pub fn parsed<'a>(alloc: Global, words: &'a [&'a str]) -> Result<Option<ArgMatches<'a>>, AllocError>
    ensures { IfOk result (spec.Parses (texts words.now)) }
{
    match app(alloc)?.try_get_matches_from(words) {
        Ok(found) => Ok(Some(found)),
        Err(error) => match error.kind() {
            ErrorKind::OutOfMemory => Err(AllocError),
            _ => Ok(None),
        },
    }
}

/// All commands.
#[tactic(auto, unfolding(crate::specs::App::app))]
fn app<'a>(alloc: Global) -> Result<Command<'a>, AllocError>
    ensures { IfOk result (λ app. app_of app ≡ spec.app) }
{
    let app = with_schedules(alloc, start(alloc))?;
    let app = with_calls(alloc, app)?;
    let app = with_reports(alloc, app)?;
    let app = with_fronts(alloc, app)?;
    with_links(alloc, app)
}

/// The program, without a command.
fn start<'a>(alloc: Global) -> Command<'a>
    ensures { app_of result ≡ spec.start }
{
    Command::new(alloc, "wef")
        .no_binary_name(true)
        .disable_help_flag(true)
        .disable_help_subcommand(true)
        .disable_version_flag(true)
        .subcommand_required(true)
}

/// The commands that leave the store alone.
fn with_schedules<'a>(alloc: Global, app: Command<'a>) -> Result<Command<'a>, AllocError>
    ensures { IfOk result (λ more. app_of more ≡ spec.with_all spec.schedules (app_of app.entry)) }
{
    let app = with_alone(alloc, app, "replay")?;
    let app = with_alone(alloc, app, "check")?;
    with_two(alloc, app, "made", "SEED", "SIZE")
}

/// The commands that change what the store keeps.
fn with_calls<'a>(alloc: Global, app: Command<'a>) -> Result<Command<'a>, AllocError>
    ensures { IfOk result (λ more. app_of more ≡ spec.with_all spec.calls (app_of app.entry)) }
{
    let app = with_alone(alloc, app, "add")?;
    let app = with_one(alloc, app, "remove", "NAME")?;
    with_alone(alloc, app, "write")
}

/// The commands that tell what the store keeps.
fn with_reports<'a>(alloc: Global, app: Command<'a>) -> Result<Command<'a>, AllocError>
    ensures { IfOk result (λ more. app_of more ≡ spec.with_all spec.reports (app_of app.entry)) }
{
    let app = with_alone(alloc, app, "list")?;
    let app = with_alone(alloc, app, "show")?;
    let app = with_one(alloc, app, "status", "NAME")?;
    with_three(alloc, app, "events", "NAME", "SOURCE", "CHANNEL")
}

/// The commands that take connections.
fn with_fronts<'a>(alloc: Global, app: Command<'a>) -> Result<Command<'a>, AllocError>
    ensures { IfOk result (λ more. app_of more ≡ spec.with_all spec.fronts (app_of app.entry)) }
{
    let app = with_two(alloc, app, "collect", "ADDRESS", "N")?;
    with_three(alloc, app, "serve", "ADDRESS", "SOURCE", "N")
}

/// The commands that make connections alone.
fn with_links<'a>(alloc: Global, app: Command<'a>) -> Result<Command<'a>, AllocError>
    ensures { IfOk result (λ more. app_of more ≡ spec.with_all spec.links (app_of app.entry)) }
{
    let app = with_two(alloc, app, "request", "ADDRESS", "N")?;
    with_three(alloc, app, "forward", "ADDRESS", "SOURCE", "N")
}

/// One command more, which is its name alone.
fn with_alone<'a>(alloc: Global, app: Command<'a>, name: &'a str) -> Result<Command<'a>, AllocError>
    ensures { IfOk result (λ more. app_of more ≡ with_subcommand (app_of app.entry) (spec.command name.now [])) }
{
    app.subcommand(alone(alloc, name))
}

/// One command more, of a name and a word.
fn with_one<'a>(
    alloc: Global,
    app: Command<'a>,
    name: &'a str,
    word: &'a str,
) -> Result<Command<'a>, AllocError>
    ensures { IfOk result (λ more. app_of more ≡ with_subcommand (app_of app.entry) (spec.command name.now (word.now ∷ []))) }
{
    app.subcommand(of_one(alloc, name, word)?)
}

/// One command more, of a name and two words.
fn with_two<'a>(
    alloc: Global,
    app: Command<'a>,
    name: &'a str,
    first: &'a str,
    second: &'a str,
) -> Result<Command<'a>, AllocError>
    ensures { IfOk result (λ more. app_of more ≡ with_subcommand (app_of app.entry) (spec.command name.now (first.now ∷ second.now ∷ []))) }
{
    app.subcommand(of_two(alloc, name, first, second)?)
}

/// One command more, of a name and three words.
fn with_three<'a>(
    alloc: Global,
    app: Command<'a>,
    name: &'a str,
    first: &'a str,
    second: &'a str,
    third: &'a str,
) -> Result<Command<'a>, AllocError>
    ensures { IfOk result (λ more. app_of more ≡ with_subcommand (app_of app.entry) (spec.command name.now (first.now ∷ second.now ∷ third.now ∷ []))) }
{
    app.subcommand(of_three(alloc, name, first, second, third)?)
}

/// A command that is its name alone.
fn alone<'a>(alloc: Global, name: &'a str) -> Command<'a>
    ensures app { app_of result ≡ new_app name.now }
    ensures local { spec.IsLocal result }
{
    Command::new(alloc, name)
}

/// A command of a name and one word.
fn of_one<'a>(alloc: Global, name: &'a str, word: &'a str) -> Result<Command<'a>, AllocError>
    ensures app { IfOk result (λ command. app_of command ≡ spec.alone name.now (word.now ∷ [])) }
    ensures local { IfOk result spec.IsLocal }
{
    alone(alloc, name).arg(required(alloc, word))
}

/// A command of a name and two words.
fn of_two<'a>(
    alloc: Global,
    name: &'a str,
    first: &'a str,
    second: &'a str,
) -> Result<Command<'a>, AllocError>
    ensures app { IfOk result (λ command. app_of command ≡ spec.alone name.now (first.now ∷ second.now ∷ [])) }
    ensures local { IfOk result spec.IsLocal }
{
    of_one(alloc, name, first)?.arg(required(alloc, second))
}

/// A command of a name and three words.
fn of_three<'a>(
    alloc: Global,
    name: &'a str,
    first: &'a str,
    second: &'a str,
    third: &'a str,
) -> Result<Command<'a>, AllocError>
    ensures app { IfOk result (λ command. app_of command ≡ spec.alone name.now (first.now ∷ second.now ∷ third.now ∷ [])) }
    ensures local { IfOk result spec.IsLocal }
{
    of_two(alloc, name, first, second)?.arg(required(alloc, third))
}

/// A word that can't be left out.
fn required<'a>(alloc: Global, word: &'a str) -> Arg<'a>
    ensures rule { rule_of result ≡ spec.required word.now }
    ensures local { result.global ≡ false }
{
    Arg::new(alloc, word).required(true)
}
