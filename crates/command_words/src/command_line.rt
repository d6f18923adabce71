//! The words of a command line, as clap reads them.
ghost use Rattle.std.specs.Prelude.{◌≡◌, ℕ, ◌<◌, ◌^◌, List, length, map, IfOk, IfErr, IsSome, string_bytes, codes};
ghost use Rattle.clap.specs.Words.{app_of, first_value, found_of, kind_of};
ghost use Rattle.command_words.specs.Grammar.{command_app};
ghost use Rattle.command_words.specs.CommandLine.{NoDashes, line_of, words_of};

use clap::error::ErrorKind;
use clap::{Arg, ArgAction, ArgMatches, Command, Error};
use std::alloc::{AllocError, Global};
use std::marker::Model;

/// The command and the values after it.
#[derive(Drop)]
pub struct CommandLine<'a> {
    matches: ArgMatches<'a>,
}

impl<'a> Model for CommandLine<'a> {
    ghost use Rattle.std.specs.Prelude.{IsSome, codes};
    ghost use Rattle.clap.specs.Words.{first_value, found_of};
    ghost use Rattle.command_words.specs.CommandLine.{Line, line_of};

    ghost Value = { Line };

    ghost view = { λ l. line_of l.matches };

    ghost invariant = { λ l. IsSome (first_value (found_of l.matches) (codes "command")) };
}

impl<'a> CommandLine<'a> {
    /// Reads words of which none begins with a dash. Only lack of memory is an error.
    pub fn read(alloc: Global, words: &'a [String]) -> Result<CommandLine<'a>, AllocError>
        requires some { 0 < length words.now }
        requires plain { NoDashes (map string_bytes words.now) }
        ensures { IfOk result (λ line. words_of line ≡ map string_bytes words.entry.now) }
    {
        match matches(alloc, words) {
            Ok(matches) => Ok(CommandLine { matches }),
            Err(error) => match error.kind() {
                ErrorKind::OutOfMemory => Err(AllocError),
                _ => unreachable!(),
            },
        }
    }

    /// The first word.
    pub fn command(&self) -> &'a str
        ensures { result.now ≡ self.now.command }
    {
        self.matches.get_str("command").unwrap()
    }

    /// The other words.
    pub fn values(&self) -> &[&'a str]
        ensures { map (λ v. v.now) result.now ≡ self.now.values }
    {
        self.matches.get_raw("values").unwrap_or_default()
    }
}

// What clap finds. It fails for lack of memory alone.
fn matches<'a>(alloc: Global, words: &'a [String]) -> Result<ArgMatches<'a>, Error>
    requires some { 0 < length words.now }
    requires plain { NoDashes (map string_bytes words.now) }
    ensures found { IfOk result (λ m. IsSome (first_value (found_of m) (codes "command"))
        × (words_of (line_of m) ≡ map string_bytes words.entry.now)) }
    ensures memory { length words.entry.now < 2 ^ 64 → IfErr result (λ e. kind_of e ≡ ErrorKind.OutOfMemory) }
{
    grammar(alloc)?.try_get_matches_from(words)
}

// A required word, and any number of values.
fn grammar<'a>(alloc: Global) -> Result<Command<'a>, AllocError>
    ensures { IfOk result (λ command. app_of command ≡ command_app) }
{
    let command = Arg::new(alloc, "command")
        .required(true)
        .action(ArgAction::Set);
    let values = Arg::new(alloc, "values")
        .num_args(0..)
        .action(ArgAction::Append);
    Command::new(alloc, "tc")
        .no_binary_name(true)
        .disable_help_flag(true)
        .arg(command)?
        .arg(values)
}
