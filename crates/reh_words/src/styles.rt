// How the program shows what it says.
ghost use Rattle.std.specs.Prelude.{◌≡◌, option_map};
ghost use Rattle.reh_words.specs.Styles as model;

use clap::{Arg, ArgAction, ArgMatches, Command};
use reh_colors::Color;
use std::alloc::{AllocError, Global};

/// How the program shows what it says: with `quiet`, standard error has nothing but faults.
#[derive(Clone, Copy)]
pub struct Style {
    pub quiet: bool,
    pub color: Color,
}

/// Where the arguments stand in help: after all others.
const LAST: usize = 900;

/// What `--color` may be.
const COLORS: &[&str] = &["auto", "always", "never"];

/// The command with the arguments for how it shows what it says, which each of its subcommands has too.
pub(crate) fn with_style<'a>(
    alloc: Global,
    command: Command<'a>,
) -> Result<Command<'a>, AllocError> {
    command.arg(quiet_arg(alloc))?.arg(color_arg(alloc))
}

/// The flag for as little as possible on standard error.
fn quiet_arg<'a>(alloc: Global) -> Arg<'a> {
    global_arg(alloc, "quiet", LAST)
        .short('q')
        .action(ArgAction::SetTrue)
        .help("Nothing but faults on standard error: no progress, no prompt")
}

/// The argument for when colours are shown.
fn color_arg<'a>(alloc: Global) -> Arg<'a> {
    global_arg(alloc, "color", LAST + 1)
        .value_name("WHEN")
        .value_parser(COLORS)
        .help("Refusals and verdicts in colour; by default auto: on a terminal")
}

/// An argument of each command, at this place in help.
fn global_arg<'a>(alloc: Global, name: &'a str, place: usize) -> Arg<'a> {
    Arg::new(alloc, name)
        .long(name)
        .global(true)
        .display_order(place)
}

/// How these matches ask for it.
pub(crate) fn asked_style(given: &ArgMatches<'_>) -> Style
    ensures { model.IsStyle given.now result }
{
    Style {
        quiet: given.get_flag("quiet"),
        color: asked_color(given.get_str("color")),
    }
}

/// The colour that a word asks for. The parser lets no other word through than the three.
fn asked_color(word: Option<&str>) -> Color
    ensures { result ≡ model.color_of (option_map (λ word. word.now) word.entry) }
{
    match word {
        Some(word) if word.as_bytes() == "always".as_bytes() => Color::Always,
        Some(word) if word.as_bytes() == "never".as_bytes() => Color::Never,
        _ => Color::Auto,
    }
}
