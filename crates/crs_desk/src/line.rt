ghost use Rattle.std.specs.Prelude.{◌≡◌, [], map, IfOk, IfErr, IsOkAnd, IsSome, Some, false, option_and_then};
ghost use Rattle.clap.specs.Built.{AddsArg, AddsSubcommand};
ghost use Rattle.clap.specs.Words.{app_of, fault_of, rule_of, shape_of, subcommand_rows_of};
ghost use Rattle.clap.specs.Simple.{new_shape};
ghost use Rattle.clap.specs.declared.builder.command.Command.TheViews.{out-Command as fields_of};
ghost use Rattle.crs_desk.specs.CommandLine.{IsRefusal, asked, desk, lone_desk, operand, spelling_shape};
ghost use Rattle.crs_desk.specs.inner.HandedOn.{HandsOn};
ghost use Rattle.crs_desk.specs.CommandLine.{check_shape, explain_shape, file_operands, first_option, flag, is_verbose, name_flag};
ghost use Rattle.crs_desk.specs.CommandLine.{group_shape, level_option, rules_option, rules_shape, same_shape, spare_operand, used_option, verbose_flag};
ghost use Rattle.crs_desk.specs.Requests.{request_of};

pub(crate) mod job;
pub(crate) mod matches;
mod reading;
pub(crate) mod requests;
pub(crate) mod word;

use crate::{Request, RequestFault, request_of_matches};
use clap::error::ErrorKind;
use clap::{Arg, ArgAction, ArgMatches, Command};
use std::alloc::{AllocError, Global};

// The version that `--version` prints.
const VERSION: &str = "0.3.0";

// What help says of the commands that read files or standard input.
const CANON_ABOUT: &str = "Writes the canonical text of each file's text";

const DIGEST_ABOUT: &str =
    "Writes the SHA-256 of the canonical text of each file's text: a short key";

const CHECK_ABOUT: &str = "Tells what kind of CRS each file's text spells, or where it is refused";

const GROUP_ABOUT: &str =
    "Groups lines, or with --files whole files, a text each, by the CRSs that they spell";

const EXPLAIN_ABOUT: &str =
    "Tells what a text spells or why it is refused, or lists the parts in which two texts differ";

const SAME_ABOUT: &str = "Compares two texts, and names the first part in which their CRSs differ";

const RULES_ABOUT: &str =
    "Tells how many statements and names a rules file has, or where it is refused and why";

// What help says of the operands of `same` and `explain`.
const FIRST_HELP: &str = "The first text itself; with --files the name of its file";

const SPARE_FIRST_HELP: &str =
    "The first text itself; with --files the name of its file [default: standard input]";

const SECOND_HELP: &str = "The second text, or its file";

// What help says of the files of the other commands.
const FILE_HELP: &str = "A file to read; `-` is standard input [default: standard input]";

const RULES_FILE_HELP: &str =
    "A rules file, judged by itself; `-` is standard input [default: standard input]";

// What help says of flags.
const JSON_HELP: &str = "Writes objects of JSON, one per line";

const LINES_HELP: &str = "Takes each line as a text";

const REPEATED_HELP: &str = "Writes only groups of two texts or more";

const NAMES_HELP: &str =
    "Takes the front of each line, up to a tab, as its name, and writes names for numbers";

const FILES_HELP: &str = "Takes A and B as names of files; `-` is standard input";

const WHOLE_HELP: &str = "Takes each file as a text, and groups the files by their names";

const WITH_NAME_HELP: &str = "Begins each line with the file's name, also of one file";

const VERBOSE_HELP: &str = "Also writes the reason of a fault, in lines of its own";

// What help says of the options `--level`, `--first` and `--rules`.
const LEVEL_HELP: &str =
    "What counts: full, or definition, without identifiers, usages and remarks [default: full]";

const ORDER_HELP: &str =
    "Writes the parts first whose paths have these words, with commas between them: axis,datum";

const RULES_HELP: &str = "Counts as the same what the rules in a file say; repeat for more files";

const USED_HELP: &str =
    "Also writes which statements match nothing in the texts of a file, one text or one per line; repeat for more files";

// What the help of a command says last: its statuses.
const CANON_STATUS: &str = "Status: 0 and the canonical text, 1 and the refusal, 2 for a fault.";

const DIGEST_STATUS: &str = "Status: 0 and the digest, 1 and the refusal, 2 for a fault.";

const CHECK_STATUS: &str = "Status: 0 and the kind, 1 and the refusal, 2 for a fault.";

const GROUP_STATUS: &str = "Status: 0, 1 if a text is refused, 2 for a fault.";

const EXPLAIN_STATUS: &str = "Status: 0, 1 for a refusal or a difference, 2 for a fault.";

const SAME_STATUS: &str =
    "Status: 0 and `same`, 1 and the first part that differs, or a refusal, 2 for a fault.";

const RULES_STATUS: &str = "Status: 0 and the counts, 1 and the first fault, 2 for a fault.";

/// What the words of a command line ask for. The first word is the program's name. `Line`: `clap` refuses the words, or
/// help or the version is asked for. `Memory`: memory ran out.
pub fn request<'a>(alloc: Global, words: &'a [&'a str]) -> Result<Request, RequestFault>
    ensures ok { IfOk result (λ found. asked (map (λ word. word.now) words.entry.now) ≡ Some found) }
    ensures faultless { IfOk result (λ found. fault_of desk (map (λ word. word.now) words.entry.now) ≡ []) }
    ensures refused { IfErr result (IsRefusal (map (λ word. word.now) words.entry.now)) }
{
    let command = desk_command(alloc).map_err(RequestFault::Memory)?;
    let matches = matches_by(command, words)?;
    request_of_matches(alloc, &matches).map_err(RequestFault::Memory)
}

/// Whether the words behind the program's name, which may be no UTF-8, ask for the reasons of faults: a word before the
/// first `--` is `-v` or `--verbose`.
pub fn is_verbose(words: &[Vec<u8>]) -> bool
    ensures { result ≡ is_verbose (map (λ word. word.items) words.now) }
{
    for word in words {
        let word = word.as_slice();
        if word == b"--".as_slice() {
            return false;
        }
        if word == b"-v".as_slice() || word == b"--verbose".as_slice() {
            return true;
        }
    }
    false
}

fn matches_by<'a>(
    command: Command<'a>,
    words: &'a [&'a str],
) -> Result<ArgMatches<'a>, RequestFault>
    requires { app_of command ≡ desk }
    ensures ok { IfOk result (λ matches. asked (map (λ word. word.now) words.entry.now)
        ≡ option_and_then request_of (subcommand_rows_of matches)) }
    ensures some { IfOk result (λ matches. IsSome (option_and_then request_of (subcommand_rows_of matches))) }
    ensures faultless { IfOk result (λ matches. fault_of desk (map (λ word. word.now) words.entry.now) ≡ []) }
    ensures refused { IfErr result (IsRefusal (map (λ word. word.now) words.entry.now)) }
{
    match command.try_get_matches_from(words) {
        Ok(matches) => Ok(matches),
        Err(error) => Err(refusal(error)),
    }
}

fn desk_command<'a>(alloc: Global) -> Result<Command<'a>, AllocError>
    ensures shape { IfOk result (λ command. app_of command ≡ desk) }
    ensures globals { IfOk result (λ command. (fields_of command).has_globals ≡ false) }
{
    let command = with_argument(Ok(desk_alone(alloc)), verbose_argument(alloc));
    let canon = spelling_command(alloc, "canon", CANON_ABOUT, CANON_STATUS);
    let command = with_command(command, canon);
    let digest = spelling_command(alloc, "digest", DIGEST_ABOUT, DIGEST_STATUS);
    let command = with_command(command, digest);
    let command = with_command(command, check_command(alloc));
    let command = with_command(command, group_command(alloc));
    let command = with_command(command, same_command(alloc));
    let command = with_command(command, explain_command(alloc));
    with_command(command, rules_command(alloc))
}

// A command with one more below it, where there is memory for both.
fn with_command<'a>(
    command: Result<Command<'a>, AllocError>,
    added: Result<Command<'a>, AllocError>,
) -> Result<Command<'a>, AllocError>
    ensures { IfOk result (λ whole. IsOkAnd command.entry (λ old. IsOkAnd added.entry (λ part. AddsSubcommand old part whole))) }
{
    let command = command?;
    command.subcommand(added?)
}

// A command with one argument more, where there is memory for both.
fn with_argument<'a>(
    command: Result<Command<'a>, AllocError>,
    argument: Arg<'a>,
) -> Result<Command<'a>, AllocError>
    ensures { IfOk result (λ whole. IsOkAnd command.entry (λ old. AddsArg old argument.entry whole)) }
{
    command?.arg(argument)
}

// `canon` or `digest`.
fn spelling_command<'a>(
    alloc: Global,
    name: &'a str,
    about: &'a str,
    status: &'a str,
) -> Result<Command<'a>, AllocError>
    ensures shape { IfOk result (λ command. shape_of command ≡ spelling_shape name.entry.now) }
    ensures globals { IfOk result (λ command. (fields_of command).has_globals ≡ false) }
{
    let alone = lone_command(alloc, name, about, status);
    let command = alone.arg(level_argument(alloc));
    let command = with_argument(command, rules_argument(alloc));
    let command = with_argument(command, flag_argument(alloc, "lines", LINES_HELP));
    let command = with_argument(command, name_argument(alloc));
    let command = with_argument(command, file_argument(alloc));
    with_argument(command, verbose_argument(alloc))
}

fn check_command<'a>(alloc: Global) -> Result<Command<'a>, AllocError>
    ensures shape { IfOk result (λ command. shape_of command ≡ check_shape) }
    ensures globals { IfOk result (λ command. (fields_of command).has_globals ≡ false) }
{
    let alone = lone_command(alloc, "check", CHECK_ABOUT, CHECK_STATUS);
    let command = alone.arg(flag_argument(alloc, "json", JSON_HELP));
    let command = with_argument(command, flag_argument(alloc, "lines", LINES_HELP));
    let command = with_argument(command, name_argument(alloc));
    let command = with_argument(command, file_argument(alloc));
    with_argument(command, verbose_argument(alloc))
}

fn group_command<'a>(alloc: Global) -> Result<Command<'a>, AllocError>
    ensures shape { IfOk result (λ command. shape_of command ≡ group_shape) }
    ensures globals { IfOk result (λ command. (fields_of command).has_globals ≡ false) }
{
    let alone = lone_command(alloc, "group", GROUP_ABOUT, GROUP_STATUS);
    let command = alone.arg(level_argument(alloc));
    let command = with_argument(command, rules_argument(alloc));
    let command = with_argument(command, flag_argument(alloc, "json", JSON_HELP));
    let command = with_argument(command, flag_argument(alloc, "repeated", REPEATED_HELP));
    let command = with_argument(command, flag_argument(alloc, "names", NAMES_HELP));
    let command = with_argument(command, flag_argument(alloc, "files", WHOLE_HELP));
    let command = with_argument(command, name_argument(alloc));
    let command = with_argument(command, file_argument(alloc));
    with_argument(command, verbose_argument(alloc))
}

fn rules_command<'a>(alloc: Global) -> Result<Command<'a>, AllocError>
    ensures shape { IfOk result (λ command. shape_of command ≡ rules_shape) }
    ensures globals { IfOk result (λ command. (fields_of command).has_globals ≡ false) }
{
    let alone = lone_command(alloc, "rules", RULES_ABOUT, RULES_STATUS);
    let command = alone.arg(used_argument(alloc));
    let command = with_argument(command, name_argument(alloc));
    let command = with_argument(command, rules_file_argument(alloc));
    with_argument(command, verbose_argument(alloc))
}

// A command before its words are added, what help says of it, and what it says last.
fn lone_command<'a>(alloc: Global, name: &'a str, about: &'a str, status: &'a str) -> Command<'a>
    ensures shape { shape_of result ≡ new_shape name.entry.now }
    ensures globals { (fields_of result).has_globals ≡ false }
{
    Command::new(alloc, name).about(about).after_help(status)
}

fn desk_alone<'a>(alloc: Global) -> Command<'a>
    ensures shape { app_of result ≡ lone_desk }
    ensures globals { (fields_of result).has_globals ≡ false }
{
    Command::new(alloc, "crsdesk")
        .about("Reads, compares and spells coordinate reference systems in WKT2 (ISO 19162:2019)")
        .version(VERSION)
        .subcommand_required(true)
}

fn same_command<'a>(alloc: Global) -> Result<Command<'a>, AllocError>
    ensures shape { IfOk result (λ command. shape_of command ≡ same_shape) }
    ensures globals { IfOk result (λ command. (fields_of command).has_globals ≡ false) }
{
    let alone = lone_command(alloc, "same", SAME_ABOUT, SAME_STATUS);
    let command = alone.arg(needed_word(alloc, "first", "A", FIRST_HELP));
    let command = with_argument(command, needed_word(alloc, "second", "B", SECOND_HELP));
    let command = with_argument(command, level_argument(alloc));
    let command = with_argument(command, rules_argument(alloc));
    let command = with_argument(command, flag_argument(alloc, "files", FILES_HELP));
    let command = with_argument(command, flag_argument(alloc, "json", JSON_HELP));
    with_argument(command, verbose_argument(alloc))
}

fn explain_command<'a>(alloc: Global) -> Result<Command<'a>, AllocError>
    ensures shape { IfOk result (λ command. shape_of command ≡ explain_shape) }
    ensures globals { IfOk result (λ command. (fields_of command).has_globals ≡ false) }
{
    let alone = lone_command(alloc, "explain", EXPLAIN_ABOUT, EXPLAIN_STATUS);
    let command = alone.arg(spare_word(alloc, "first", "A", SPARE_FIRST_HELP));
    let command = with_argument(command, spare_word(alloc, "second", "B", SECOND_HELP));
    let command = with_argument(command, flag_argument(alloc, "json", JSON_HELP));
    let command = with_argument(command, first_argument(alloc));
    let command = with_argument(command, level_argument(alloc));
    let command = with_argument(command, rules_argument(alloc));
    let command = with_argument(command, flag_argument(alloc, "files", FILES_HELP));
    with_argument(command, verbose_argument(alloc))
}

// An operand that must be given, what help calls it, and what help says of it.
fn needed_word<'a>(alloc: Global, id: &'a str, shown: &'a str, help: &'a str) -> Arg<'a>
    ensures rule { rule_of result ≡ operand id.entry.now }
    ensures local { result.global ≡ false }
{
    spare_word(alloc, id, shown, help).required(true)
}

// An operand that may be left out, or the word of an option, what help calls it, and what help says of it.
fn spare_word<'a>(alloc: Global, id: &'a str, shown: &'a str, help: &'a str) -> Arg<'a>
    ensures rule { rule_of result ≡ spare_operand id.entry.now }
    ensures local { result.global ≡ false }
{
    Arg::new(alloc, id).value_name(shown).help(help)
}

fn file_argument<'a>(alloc: Global) -> Arg<'a>
    ensures rule { rule_of result ≡ file_operands }
    ensures local { result.global ≡ false }
{
    spare_word(alloc, "file", "FILE", FILE_HELP).action(ArgAction::Append)
}

fn flag_argument<'a>(alloc: Global, name: &'a str, help: &'a str) -> Arg<'a>
    ensures rule { rule_of result ≡ flag name.entry.now }
    ensures local { result.global ≡ false }
{
    Arg::new(alloc, name)
        .long(name)
        .action(ArgAction::SetTrue)
        .help(help)
}

fn verbose_argument<'a>(alloc: Global) -> Arg<'a>
    ensures rule { rule_of result ≡ verbose_flag }
    ensures local { result.global ≡ false }
{
    flag_argument(alloc, "verbose", VERBOSE_HELP).short('v')
}

fn name_argument<'a>(alloc: Global) -> Arg<'a>
    ensures rule { rule_of result ≡ name_flag }
    ensures local { result.global ≡ false }
{
    flag_argument(alloc, "with-name", WITH_NAME_HELP).short('H')
}

fn level_argument<'a>(alloc: Global) -> Arg<'a>
    ensures rule { rule_of result ≡ level_option }
    ensures local { result.global ≡ false }
{
    spare_word(alloc, "level", "LEVEL", LEVEL_HELP).long("level")
}

fn first_argument<'a>(alloc: Global) -> Arg<'a>
    ensures rule { rule_of result ≡ first_option }
    ensures local { result.global ≡ false }
{
    spare_word(alloc, "order", "WORDS", ORDER_HELP)
        .action(ArgAction::Append)
        .long("first")
}

fn rules_argument<'a>(alloc: Global) -> Arg<'a>
    ensures rule { rule_of result ≡ rules_option }
    ensures local { result.global ≡ false }
{
    spare_word(alloc, "rules", "FILE", RULES_HELP)
        .action(ArgAction::Append)
        .long("rules")
}

fn used_argument<'a>(alloc: Global) -> Arg<'a>
    ensures rule { rule_of result ≡ used_option }
    ensures local { result.global ≡ false }
{
    spare_word(alloc, "used", "TEXT", USED_HELP)
        .action(ArgAction::Append)
        .long("used")
}

fn rules_file_argument<'a>(alloc: Global) -> Arg<'a>
    ensures rule { rule_of result ≡ file_operands }
    ensures local { result.global ≡ false }
{
    spare_word(alloc, "file", "FILE", RULES_FILE_HELP).action(ArgAction::Append)
}

fn refusal(error: clap::Error) -> RequestFault
    ensures { HandsOn error result }
{
    if error.kind() == ErrorKind::OutOfMemory {
        return RequestFault::Memory(AllocError);
    }
    RequestFault::Line(error)
}
