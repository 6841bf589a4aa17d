//! The words of a command line as options.
ghost use Rattle.std.specs.Prelude.{◌≡◌, ◌⊎◌, ◌≤◌, ◌<◌, ◌*◌, ◌^◌, ℕ, true, map, Some, None, IfOk, IfErr};
ghost use Rattle.std.specs.Prelude.{string_bytes as string_text};
ghost use Rattle.pgs_world.specs.Options.{most_held, options_of, where_fitting};
ghost use Rattle.pgs_world.specs.Parts.{HasOptions, Takes};
ghost use Rattle.clap.specs.declared.builder.action.ArgAction.TheVariants.{Set, SetTrue};
ghost use Rattle.clap.specs.declared.builder.value_parser.ValueParser.TheVariants as parser;

use clap::builder::ValueParser;
use clap::error::ErrorKind;
use clap::{Arg, ArgAction, Command};
use std::alloc::{AllocError, Global};
use thiserror::Error;

/// How many bytes the contexts of each session may hold where `--space` isn't given.
pub const DEFAULT_SPACE: u32 = 16_777_216;

/// How many sessions a run has where `--sessions` isn't given.
pub const DEFAULT_SESSIONS: u8 = 1;

/// How many descriptors each session has for its open files where `--descriptors` isn't given.
pub const DEFAULT_DESCRIPTORS: u8 = 16;

/// The most bytes that the contexts of all sessions together may hold.
pub const MOST_HELD: u64 = 1 << 31;

/// What the words of the command line ask for.
#[derive(Clone, Copy, Debug, PartialEq, Eq)]
pub struct Options {
    /// `--space`: how many bytes the contexts of each session may hold, 131,072 to 1,073,741,824.
    pub space: u32,
    /// `--sessions`: how many sessions the run has, 1 to 64.
    pub sessions: u8,
    /// `--descriptors`: how many descriptors each session has, 8 to 64: so many of its open files can have one at once.
    pub descriptors: u8,
    /// `--fail`: which fallible call of the run fails, counted from 1; 0 is none.
    pub fail: u32,
    /// `--generate`: how many rounds the script has that the run makes itself, at most 10,000; 0 is none: it reads one.
    pub generate: u16,
    /// `--sweep`: whether the script that is read runs once for each of its fallible calls, which fails then.
    pub sweep: bool,
}

/// Why words give no options.
#[derive(Clone, Copy, Debug, PartialEq, Eq, Error)]
pub enum OptionsError {
    /// They aren't options with values in their ranges, each at most once, or the sessions may hold more together than all of them may.
    #[error("the words are refused")]
    Refused,
    /// Memory was refused.
    #[error("no memory")]
    Memory,
}

/// The options that the words of a command line ask for; the program's name isn't among the words.
///
/// An option is given as two words, `--fail 5`, or as one, `--fail=5`, and at most once; there is no help flag, no version
/// flag and no word without an option. A number has digits alone, perhaps behind a `+`. `Refused` comes exactly where the words
/// aren't such options with numbers in their ranges, where `--sessions` times `--space` is over 2,147,483,648, or where `--sweep`
/// stands with a `--fail` or `--generate` other than 0; `Memory` may come in place of any answer.
pub fn read_options<'a>(alloc: Global, words: &'a [String]) -> Result<Options, OptionsError>
    ensures options { IfOk result (λ o. options_of (map string_text words.entry.now) ≡ Some o) }
    ensures space { IfOk result (λ o. (131072 ≤ o.space) × (o.space ≤ 1073741824)) }
    ensures sessions { IfOk result (λ o. (1 ≤ o.sessions) × (o.sessions ≤ 64)) }
    ensures descriptors { IfOk result (λ o. (8 ≤ o.descriptors) × (o.descriptors ≤ 64)) }
    ensures generate { IfOk result (λ o. o.generate ≤ 10000) }
    ensures held { IfOk result (λ o. o.sessions * o.space ≤ most_held) }
    ensures read { IfOk result (λ o. o.sweep ≡ true → o.generate ≡ 0) }
    ensures refused { IfErr result (λ e. (e ≡ OptionsError.Memory) ⊎ ((e ≡ OptionsError.Refused) × (options_of (map string_text words.entry.now) ≡ None))) }
{
    let Ok(command) = command(alloc) else {
        return Err(OptionsError::Memory);
    };
    match command.try_get_matches_from(words) {
        Ok(matches) => fitting(Options {
            space: matches.get_one::<u32>("space").unwrap_or(DEFAULT_SPACE),
            sessions: matches
                .get_one::<u8>("sessions")
                .unwrap_or(DEFAULT_SESSIONS),
            descriptors: matches
                .get_one::<u8>("descriptors")
                .unwrap_or(DEFAULT_DESCRIPTORS),
            fail: matches.get_one::<u32>("fail").unwrap_or(0),
            generate: matches.get_one::<u16>("generate").unwrap_or(0),
            sweep: matches.get_flag("sweep"),
        }),
        Err(error) if error.kind() == ErrorKind::OutOfMemory => Err(OptionsError::Memory),
        Err(_) => Err(OptionsError::Refused),
    }
}

/// The options, where the sessions' shares of the space aren't too much together, and a sweep has every call fail of a script that is read.
fn fitting(options: Options) -> Result<Options, OptionsError>
    ensures fitting { IfOk result (λ o. (o ≡ options) × (where_fitting options ≡ Some o)) }
    ensures held { IfOk result (λ o. o.sessions * o.space ≤ most_held) }
    ensures read { IfOk result (λ o. o.sweep ≡ true → o.generate ≡ 0) }
    ensures refused { IfErr result (λ e. (e ≡ OptionsError.Refused) × (where_fitting options ≡ None)) }
{
    if options.sessions as u64 * options.space as u64 > MOST_HELD {
        return Err(OptionsError::Refused);
    }
    if options.sweep && (options.fail > 0 || options.generate > 0) {
        return Err(OptionsError::Refused);
    }
    Ok(options)
}

/// The command line: one simple command. It has no help flag and no version flag.
fn command<'a>(alloc: Global) -> Result<Command<'a>, AllocError>
    ensures { IfOk result HasOptions }
{
    let space = number(alloc, "space", 131_072, 1_073_741_824);
    let sessions = number(alloc, "sessions", 1, 64);
    let descriptors = number(alloc, "descriptors", 8, 64);
    let fail = number(alloc, "fail", 0, u32::MAX as u64);
    let generate = number(alloc, "generate", 0, 10_000);
    let sweep = option(alloc, "sweep", ArgAction::SetTrue, ValueParser::Bool);
    Command::new(alloc, "pgscript")
        .no_binary_name(true)
        .disable_help_flag(true)
        .disable_version_flag(true)
        .arg(space)?
        .arg(sessions)?
        .arg(descriptors)?
        .arg(fail)?
        .arg(generate)?
        .arg(sweep)
}

/// An option that takes a number within bounds.
fn number<'a>(alloc: Global, name: &'a str, least: u64, most: u64) -> Arg<'a>
    ensures { Takes name.entry.now Set (parser.Unsigned least most) result }
{
    option(
        alloc,
        name,
        ArgAction::Set,
        ValueParser::unsigned(least, most),
    )
}

/// An option with its name, what it does, and how its value is read.
fn option<'a>(alloc: Global, name: &'a str, action: ArgAction, parser: ValueParser<'a>) -> Arg<'a>
    ensures { Takes name.entry.now action parser.entry result }
{
    Arg::new(alloc, name)
        .long(name)
        .action(action)
        .value_parser(parser)
}
