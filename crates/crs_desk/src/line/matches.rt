//! The request of a command line, read of the matches that `clap` gives.
ghost use Rattle.std.specs.Prelude.{◌≡◌, IfOk, IsSome, None, Some, option_and_then};
ghost use Rattle.clap.specs.Words.{found_of, rows_of, subcommand_rows_of};
ghost use Rattle.crs_desk.specs.Requests.{asked_for, explain_operands, explain_work, file_work, over_files};
ghost use Rattle.crs_desk.specs.Requests.{or_standard, pair_of, request_for, request_of, rules_work, same_of};
ghost use Rattle.crs_desk.specs.declared.line.requests.Comparison.TheVariants as comparisons;
ghost use Rattle.crs_desk.specs.declared.line.requests.Task.TheVariants as tasks;
ghost use Rattle.crs_desk.specs.declared.line.requests.Work.TheVariants as works;

use crate::line::reading::{
    flag_asked, layout, level_word, listing, manner, word_kind, words_named,
};
use crate::{
    Comparison, Layout, LinePair, LineWord, LineWords, Listing, Manner, Request, Task, WordKind,
    Work,
};
use clap::ArgMatches;
use std::alloc::{AllocError, Global};

const STANDARD: &str = "-";

/// The request of a command line, by its matches. `AllocError`: memory ran out.
pub fn request_of_matches(alloc: Global, matches: &ArgMatches) -> Result<Request, AllocError>
    requires { IsSome (option_and_then request_of (subcommand_rows_of matches.now)) }
    ensures { IfOk result (λ found. option_and_then request_of (subcommand_rows_of matches.now) ≡ Some found) }
{
    match matches.subcommand() {
        Some((name, options)) => request_named(alloc, name, options),
        None => unreachable!(),
    }
}

// The request of a command, by its name and its matches.
fn request_named(alloc: Global, name: &str, options: &ArgMatches) -> Result<Request, AllocError>
    requires { IsSome (request_of (name.now, rows_of (found_of options.now))) }
    ensures { IfOk result (λ found. request_of (name.now, rows_of (found_of options.now)) ≡ Some found) }
{
    match name {
        "canon" => over_files(alloc, options, Task::Canon(layout(options))),
        "digest" => over_files(alloc, options, Task::Digest(layout(options))),
        "check" => {
            let task = Task::Check(layout(options), manner(options));
            over_files(alloc, options, task)
        }
        "same" => same_request(alloc, options),
        "group" => over_files(alloc, options, Task::Group(listing(options))),
        "rules" => asked_for(alloc, options, rules_work(alloc, options)?),
        "explain" => asked_for(alloc, options, explain_work(alloc, options)?),
        _ => unreachable!(),
    }
}

// The rules files that a command names, or standard input where it names none, are judged.
fn rules_work(alloc: Global, options: &ArgMatches) -> Result<Work, AllocError>
    ensures { IfOk result (λ work. work ≡ rules_work (rows_of (found_of options.now))) }
{
    let names = words_named(alloc, options, "file")?;
    let used = words_named(alloc, options, "used")?;
    Ok(Work::Rules {
        names: or_standard(alloc, names)?,
        used,
        named: flag_asked(options, "with-name"),
    })
}

fn or_standard(alloc: Global, names: LineWords) -> Result<LineWords, AllocError>
    ensures { IfOk result (λ all. all ≡ or_standard names) }
{
    if names.is_empty() {
        return LineWords::of(alloc, &[STANDARD]);
    }
    Ok(names)
}

// A task over the files that a command names, or over standard input where it names none.
fn over_files(alloc: Global, options: &ArgMatches, task: Task) -> Result<Request, AllocError>
    ensures { IfOk result (λ found. found ≡ over_files task (rows_of (found_of options.now))) }
{
    let names = words_named(alloc, options, "file")?;
    let rules = words_named(alloc, options, "rules")?;
    let named = flag_asked(options, "with-name");
    let work = file_work(alloc, task, named, names, rules)?;
    asked_for(alloc, options, work)
}

// A task over files, or over standard input where there are none, under rules where there are some; with names of files
// or without.
fn file_work(
    alloc: Global,
    task: Task,
    named: bool,
    names: LineWords,
    rules: LineWords,
) -> Result<Work, AllocError>
    ensures { IfOk result (λ work. work ≡ file_work task named names rules) }
{
    if !names.is_empty() {
        return Ok(Work::Files {
            task,
            names,
            rules,
            named,
        });
    }
    if rules.is_empty() && !named {
        return Ok(Work::Standard(task));
    }
    let names = LineWords::of(alloc, &[STANDARD])?;
    Ok(Work::Files {
        task,
        names,
        rules,
        named,
    })
}

fn same_request(alloc: Global, operands: &ArgMatches) -> Result<Request, AllocError>
    requires { IsSome (same_of (rows_of (found_of operands.now))) }
    ensures { IfOk result (λ found. same_of (rows_of (found_of operands.now)) ≡ Some found) }
{
    match (operands.get_str("first"), operands.get_str("second")) {
        (Some(first), Some(second)) => {
            let pair = pair_of(alloc, operands, first, second)?;
            let comparison = Comparison::Same(manner(operands));
            asked_for(alloc, operands, Work::Pair(comparison, pair))
        }
        _ => unreachable!(),
    }
}

// What is explained: standard input or a file, a text, or the difference of two.
fn explain_work(alloc: Global, operands: &ArgMatches) -> Result<Work, AllocError>
    ensures { IfOk result (λ work. work ≡ explain_work (rows_of (found_of operands.now))) }
{
    match (operands.get_str("first"), operands.get_str("second")) {
        (None, _) => nothing_work(alloc, operands),
        (Some(first), None) => one_work(alloc, operands, first),
        (Some(first), Some(second)) => {
            let pair = pair_of(alloc, operands, first, second)?;
            Ok(Work::Pair(Comparison::Explain(manner(operands)), pair))
        }
    }
}

fn nothing_work(alloc: Global, operands: &ArgMatches) -> Result<Work, AllocError>
    ensures { IfOk result (λ work. work ≡ explain_operands (rows_of (found_of operands.now)) None None) }
{
    let names = LineWords::of(alloc, &[])?;
    let rules = words_named(alloc, operands, "rules")?;
    file_work(alloc, Task::Explain(manner(operands)), false, names, rules)
}

fn one_work(alloc: Global, operands: &ArgMatches, word: &str) -> Result<Work, AllocError>
    ensures { IfOk result (λ work. work ≡ explain_operands (rows_of (found_of operands.now)) (Some word.now) None) }
{
    let how = manner(operands);
    let rules = words_named(alloc, operands, "rules")?;
    if flag_asked(operands, "files") {
        let names = LineWords::of(alloc, &[word])?;
        let task = Task::Explain(how);
        let named = false;
        return Ok(Work::Files {
            task,
            names,
            rules,
            named,
        });
    }
    let text = LineWord::new(alloc, word)?;
    Ok(Work::Text { how, text, rules })
}

fn pair_of(
    alloc: Global,
    operands: &ArgMatches,
    first: &str,
    second: &str,
) -> Result<LinePair, AllocError>
    ensures { IfOk result (λ pair. pair ≡ pair_of (rows_of (found_of operands.now)) first.now second.now) }
{
    Ok(LinePair {
        kind: word_kind(operands),
        first: LineWord::new(alloc, first)?,
        second: LineWord::new(alloc, second)?,
        rules: words_named(alloc, operands, "rules")?,
    })
}

// The request for some work, at the level of a line and with its words of paths.
fn asked_for(alloc: Global, options: &ArgMatches, work: Work) -> Result<Request, AllocError>
    ensures { IfOk result (λ found. found ≡ asked_for work (rows_of (found_of options.now))) }
{
    let level = level_word(alloc, options)?;
    let order = words_named(alloc, options, "order")?;
    Ok(request_for(level, order, work))
}

fn request_for(level: LineWord, order: LineWords, work: Work) -> Request
    ensures { result ≡ request_for level order work }
{
    match work {
        Work::Standard(task) => standard_for(level, order, task),
        Work::Pair(Comparison::Same(how), pair) => same_for(level, order, how, pair),
        work => Request::Other { level, order, work },
    }
}

fn standard_for(level: LineWord, order: LineWords, task: Task) -> Request
    ensures { result ≡ request_for level order (works.Standard task) }
{
    match task {
        Task::Canon(Layout::OneText) => Request::Canon(level),
        Task::Check(Layout::OneText, Manner::Lines) => Request::Check,
        Task::Group(listing) => group_for(level, order, listing),
        task => {
            let work = Work::Standard(task);
            Request::Other { level, order, work }
        }
    }
}

fn group_for(level: LineWord, order: LineWords, listing: Listing) -> Request
    ensures { result ≡ request_for level order (works.Standard (tasks.Group listing)) }
{
    if listing.repeated || listing.names || listing.files || listing.json {
        let work = Work::Standard(Task::Group(listing));
        return Request::Other { level, order, work };
    }
    Request::Group(level)
}

fn same_for(level: LineWord, order: LineWords, how: Manner, pair: LinePair) -> Request
    ensures { result ≡ request_for level order (works.Pair (comparisons.Same how) pair) }
{
    if matches!(how, Manner::Lines)
        && matches!(pair.kind, WordKind::Text)
        && pair.rules.is_empty()
    {
        return Request::Same(pair.first, pair.second, level);
    }
    let work = Work::Pair(Comparison::Same(how), pair);
    Request::Other { level, order, work }
}
