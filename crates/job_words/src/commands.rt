//! The commands by which `clap` reads the words of the modes, and those of `tinplaces`.

ghost use Rattle.std.specs.Prelude.{◌≡◌, false, true, map, IfOk, codes};
ghost use Rattle.clap.specs.Walk.{rule_of};
ghost use Rattle.clap.specs.Simple.{app_of};
ghost use Rattle.job_words.specs.Commands.{choice_rule, command_for, flag_rule, option_rule, places_command, places_rules};
ghost use Rattle.job_words.specs.Commands.{rules_for, word_rule, words_rule};
ghost use Rattle.job_words.specs.InsideCommands.{bare_command, nameless, rule_in, with_rules};
ghost use Rattle.job_words.specs.Modes.{spelling};

use crate::modes::Mode;
use clap::{Arg, ArgAction, Command};
use std::alloc::{AllocError, Global};

/// `--ID VALUE`, exactly once.
fn option<'a>(alloc: Global, id: &'a str) -> Arg<'a>
    ensures rule { rule_of result ≡ option_rule id.entry.now }
    ensures local { result.global ≡ false }
{
    Arg::new(alloc, id)
        .long(id)
        .action(ArgAction::Set)
        .required(true)
}

/// `--ID VALUE`, once at most.
fn choice<'a>(alloc: Global, id: &'a str) -> Arg<'a>
    ensures rule { rule_of result ≡ choice_rule id.entry.now }
    ensures local { result.global ≡ false }
{
    Arg::new(alloc, id).long(id).action(ArgAction::Set)
}

/// `--ID`, once at most.
fn flag<'a>(alloc: Global, id: &'a str) -> Arg<'a>
    ensures rule { rule_of result ≡ flag_rule id.entry.now }
    ensures local { result.global ≡ false }
{
    Arg::new(alloc, id).long(id).action(ArgAction::SetTrue)
}

/// A required word, which is no option.
fn word<'a>(alloc: Global, id: &'a str) -> Arg<'a>
    ensures rule { rule_of result ≡ word_rule id.entry.now }
    ensures local { result.global ≡ false }
{
    Arg::new(alloc, id).action(ArgAction::Set).required(true)
}

/// One word or more, each no option. Options may be among them.
fn words<'a>(alloc: Global, id: &'a str) -> Arg<'a>
    ensures rule { rule_of result ≡ words_rule id.entry.now }
    ensures local { result.global ≡ false }
{
    Arg::new(alloc, id)
        .num_args(1..)
        .action(ArgAction::Append)
        .required(true)
}

/// How the words give an argument.
#[derive(Clone, Copy)]
enum ArgForm {
    /// `--ID VALUE`.
    Valued,
    /// `--ID VALUE`, or nothing.
    Choice,
    /// `--ID`.
    Flag,
    /// A word.
    Word,
    /// One word or more.
    Words,
}

/// A form and a name.
type Argument<'a> = (ArgForm, &'a str);

/// The argument of this form and name.
fn arg_of<'a>(alloc: Global, form: ArgForm, id: &'a str) -> Arg<'a>
    ensures rule { rule_of result ≡ rule_in form id.entry.now }
    ensures local { result.global ≡ false }
{
    match form {
        ArgForm::Valued => option(alloc, id),
        ArgForm::Choice => choice(alloc, id),
        ArgForm::Flag => flag(alloc, id),
        ArgForm::Word => word(alloc, id),
        ArgForm::Words => words(alloc, id),
    }
}

/// The command with each of these arguments.
fn with_arguments<'a>(
    alloc: Global,
    command: Command<'a>,
    arguments: &[Argument<'a>],
) -> Result<Command<'a>, AllocError>
    ensures { IfOk result (λ made. app_of made ≡ with_rules (app_of command.entry)
        (map (λ argument. rule_in argument.0 argument.1.now) arguments.now)) }
{
    let mut made = command;
    for argument in arguments {
        made = made.arg(arg_of(alloc, argument.0, argument.1))?;
    }
    Ok(made)
}

/// The command of this name, without an option for help.
fn bare<'a>(alloc: Global, name: &'a str) -> Command<'a>
    ensures { app_of result ≡ bare_command name.entry.now }
{
    Command::new(alloc, name).disable_help_flag(true)
}

/// The arguments of a mode, in the order in which its usage has them.
fn arguments_of<'a>(mode: Mode) -> &'a [Argument<'a>]
    ensures { map (λ argument. rule_in argument.0 argument.1.now) result.now ≡ rules_for mode }
{
    match mode {
        Mode::Migrate => &[
            (ArgForm::Valued, "tin"),
            (ArgForm::Valued, "out"),
            (ArgForm::Flag, "inverse"),
            (ArgForm::Flag, "exact"),
            (ArgForm::Flag, "inside-only"),
            (ArgForm::Flag, "drop-other"),
            (ArgForm::Flag, "cert"),
            (ArgForm::Flag, "sides"),
            (ArgForm::Words, "layer"),
        ],
        Mode::Check => &[
            (ArgForm::Valued, "tin"),
            (ArgForm::Flag, "exact"),
            (ArgForm::Flag, "inside-only"),
        ],
        Mode::Make => &[(ArgForm::Word, "n")],
        Mode::Verify => &[
            (ArgForm::Valued, "tin"),
            (ArgForm::Valued, "source"),
            (ArgForm::Valued, "written"),
            (ArgForm::Valued, "cert"),
            (ArgForm::Flag, "inverse"),
            (ArgForm::Flag, "exact"),
            (ArgForm::Flag, "inside-only"),
            (ArgForm::Flag, "drop-other"),
        ],
        Mode::Heights => &[
            (ArgForm::Valued, "tin"),
            (ArgForm::Valued, "out"),
            (ArgForm::Flag, "exact"),
            (ArgForm::Flag, "inside-only"),
            (ArgForm::Word, "points"),
        ],
    }
}

/// The word that asks for a mode.
fn word_for<'a>(mode: Mode) -> &'a str
    ensures { result.now ≡ spelling mode }
{
    match mode {
        Mode::Migrate => "migrate",
        Mode::Check => "check",
        Mode::Make => "make",
        Mode::Verify => "verify",
        Mode::Heights => "heights",
    }
}

/// The command of a mode.
pub fn command_of<'a>(alloc: Global, mode: Mode) -> Result<Command<'a>, AllocError>
    ensures { IfOk result (λ command. app_of command ≡ command_for mode) }
{
    with_arguments(alloc, bare(alloc, word_for(mode)), arguments_of(mode))
}

/// The arguments of `tinplaces`, in the order in which its usage has them.
fn places_arguments<'a>() -> &'a [Argument<'a>]
    ensures { map (λ argument. rule_in argument.0 argument.1.now) result.now ≡ places_rules }
{
    &[
        (ArgForm::Valued, "tin"),
        (ArgForm::Flag, "inverse"),
        (ArgForm::Flag, "exact"),
        (ArgForm::Flag, "inside-only"),
        (ArgForm::Flag, "drop-other"),
        (ArgForm::Flag, "cert"),
        (ArgForm::Flag, "sides"),
        (ArgForm::Flag, "lines"),
        (ArgForm::Flag, "across"),
        (ArgForm::Choice, "name"),
        (ArgForm::Words, "layer"),
    ]
}

/// The command of `tinplaces` without options and words. Its words begin with the first one after the program's name.
fn bare_places<'a>(alloc: Global) -> Command<'a>
    ensures { app_of result ≡ nameless (bare_command (codes "tinplaces")) }
{
    bare(alloc, "tinplaces").no_binary_name(true)
}

/// The command of `tinplaces`.
pub fn places_command<'a>(alloc: Global) -> Result<Command<'a>, AllocError>
    ensures { IfOk result (λ command. app_of command ≡ places_command) }
{
    with_arguments(alloc, bare_places(alloc), places_arguments())
}
