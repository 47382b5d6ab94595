//! The runs of the commands: over standard input, texts and files, with rules, which are read first, or without.
use crate::fault::Fault;
use crate::input::{Input, Opener, STANDARD};
use crate::messages::{is_marked, is_verbose_line, tell, tell_of};
use crate::output::Output;
use crs_desk::{
    CanonText, CheckText, Comparison, DigestText, ExplainText, ExplainedForms, FileTask, Filling,
    ForText, InALine, Inputs, Job, Layout, Level, LinePair, LineWord, LineWords, Listing, Manner,
    OfLine, PairAnswer, Rules, RulesFault, RulesReader, RunFault, SameForms, Sink, Source, Spelled,
    Stream, Summary, Task, Told, Under, Used, WordKind, Work, blank_told, kind_of_text, read_text,
    run_canon, run_check, run_files, run_group_files, run_lines, run_same, run_text, write_answer,
};
use crs_group::pieces::{ByCanon, ByForm};
use crs_group::run_group_listing;
use std::io::IsTerminal;
use std::path::Path;
use std::{env, str};

// The number of the refusal of a text that ends before it is complete.
const UNEXPECTED_END: u8 = 7;

// The answer of a run with these words over standard input, taken as one text or line by line, and standard output.
macro_rules! over_standard {
    ($rt:ident, $from:ident => $run:ident($($word:expr),*) $(.map($status:expr))?) => {{
        let mut input = Input::standard($rt);
        let mut output = Output::new($rt);
        let answer = $run(
            $rt.alloc(),
            $($word,)*
            &mut reader!($from input),
            &mut Sink::new(&mut output),
        );
        answered(answer$(.map($status))?, &input, &output)
    }};
}

// The answer of a run with these words over standard output.
macro_rules! to_standard {
    ($rt:ident, $run:ident($($word:expr),*)) => {{
        let mut output = Output::new($rt);
        let answer = $run($rt.alloc(), $($word,)* &mut Sink::new(&mut output));
        written(answer, &output)
    }};
}

macro_rules! reader {
    (text $input:ident) => { Source::new(Filling::new(&mut $input)) };
    (lines $input:ident) => { Stream::new(&mut $input) };
}

/// Does a job. Its rules are read before all else.
pub fn answer(rt: &HostRuntime, job: &Job) -> Result<u8, Fault> {
    match &job.work {
        Work::Standard(task) => hinted(rt, *task, &[], over_input(rt, job.level, *task)),
        Work::Text { how, text, rules } => over_text(rt, *how, text, rules),
        Work::Pair(comparison, pair) => over_pair(rt, job, *comparison, pair),
        Work::Files {
            task,
            names,
            rules,
            named,
        } => {
            let files = TaskFiles {
                rt,
                level: job.level,
                task: *task,
                names: names.as_slice(),
                named: *named,
            };
            files.under_rules_of(rules)
        }
        Work::Rules { names, used, named } => over_rules(rt, names.as_slice(), used, *named),
    }
}

fn over_text(
    rt: &HostRuntime,
    how: Manner,
    text: &LineWord,
    rules: &LineWords,
) -> Result<u8, Fault> {
    rules_of(rt, rules)?;
    let command = ExplainText { how };
    let text = text_of(rt, text)?;
    to_standard!(rt, write_answer(&ForText { command, text }))
}

fn over_pair(
    rt: &HostRuntime,
    job: &Job,
    comparison: Comparison,
    pair: &LinePair,
) -> Result<u8, Fault> {
    let rules = rules_of(rt, &pair.rules)?;
    let rules = rules.as_ref();
    let comparing = Comparing {
        rt,
        job,
        comparison,
        rules,
    };
    comparing.words(pair)
}

// A task over files. Rules are lent: a function that owns them is slow to prove.
#[derive(Clone, Copy)]
struct TaskFiles<'r, 'n> {
    rt: &'r HostRuntime,
    level: Level,
    task: Task,
    names: &'n [LineWord],
    named: bool,
}

impl TaskFiles<'_, '_> {
    fn under_rules_of(self, names: &LineWords) -> Result<u8, Fault> {
        let rules = rules_of(self.rt, names)?;
        self.under(rules.as_ref())
    }

    fn under(self, rules: Option<&Rules>) -> Result<u8, Fault> {
        hold_standard(self.names, &[])?;
        match self.task {
            Task::Group(listing) if listing.files => {
                over_groups(self.rt, self.level, listing, self.names, rules)
            }
            task => hinted(self.rt, task, self.names, self.each(rules)),
        }
    }

    fn each(self, rules: Option<&Rules>) -> Result<u8, Fault> {
        let rt = self.rt;
        let each = file_task(self.task, self.level, rules);
        let files = Opener { rt: *rt };
        to_standard!(rt, run_files(each, self.named, self.names, &files))
    }
}

fn over_rules(
    rt: &HostRuntime,
    names: &[LineWord],
    used: &LineWords,
    named: bool,
) -> Result<u8, Fault> {
    hold_standard(names, used.as_slice())?;
    let used = used_in(rt, used)?;
    judge_rules(rt, names, used.as_ref(), named)
}

fn judge_rules(
    rt: &HostRuntime,
    names: &[LineWord],
    used: Option<&Used>,
    named: bool,
) -> Result<u8, Fault> {
    let each = FileTask::Rules(used);
    let files = Opener { rt: *rt };
    to_standard!(rt, run_files(each, named, names, &files))
}

// Standard input is read once.
fn hold_standard(names: &[LineWord], others: &[LineWord]) -> Result<(), Fault> {
    let is_standard = |name: &&LineWord| name.as_str() == STANDARD;
    let all = names.iter().chain(others.iter());
    if all.filter(is_standard).count() > 1 {
        return Err(Fault::Twice);
    }
    Ok(())
}

// The answer of a task, with a hint where a text is refused.
fn hinted(
    rt: &HostRuntime,
    task: Task,
    names: &[LineWord],
    answer: Result<u8, Fault>,
) -> Result<u8, Fault> {
    if let Ok(1) = answer {
        hint(rt, task, names);
    }
    answer
}

// What a user may have meant whose texts are refused: a file whose first line is no whole text, and all of which is one,
// was meant as one. On a terminal `check` names the command that explains.
fn hint(rt: &HostRuntime, task: Task, names: &[LineWord]) {
    match task {
        Task::Group(_) => {
            if let Some(name) = names.iter().find(|name| is_one_text(rt, name.as_str())) {
                tell_of(
                    rt,
                    name.as_str(),
                    "this is one text; with --files it is grouped as one",
                );
            }
        }
        Task::Check(..) if rt.stderr().is_terminal() => {
            let _ = eprintln!(rt; "crsdesk: explain tells why a text is refused");
        }
        _ => {}
    }
}

// Whether the first line of a file is no whole text, and the file is one.
fn is_one_text(rt: &HostRuntime, name: &str) -> bool {
    if !Path::new(name).is_file(rt) {
        return false;
    }
    let Ok(input) = Input::open(rt, name) else {
        return false;
    };
    let Ok(text) = read_text(rt.alloc(), &mut Source::new(Filling::new(input))) else {
        return false;
    };
    let first = text.iter().take_while(|byte| **byte != b'\n').count();
    is_cut(rt, text.get(..first).unwrap_or(b""))
        && matches!(kind_of_text(rt.alloc(), &text), Ok(Ok(_)))
}

fn is_cut(rt: &HostRuntime, text: &[u8]) -> bool {
    match kind_of_text(rt.alloc(), text) {
        Ok(Err(refusal)) => refusal.number() == UNEXPECTED_END,
        _ => false,
    }
}

// Whole files in groups.
fn over_groups(
    rt: &HostRuntime,
    level: Level,
    listing: Listing,
    names: &[LineWord],
    rules: Option<&Rules>,
) -> Result<u8, Fault> {
    let files = Opener { rt: *rt };
    match rules {
        Some(rules) => {
            let adding = ByForm(Under { level, rules });
            to_standard!(rt, run_group_files(&adding, listing, names, &files))
        }
        None => to_standard!(rt, run_group_files(&ByCanon(level), listing, names, &files)),
    }
}

// A task over standard input. A catalogue has status 1 where a line was refused.
fn over_input(rt: &HostRuntime, level: Level, task: Task) -> Result<u8, Fault> {
    match task {
        Task::Canon(Layout::OneText) => over_standard!(rt, text => run_canon(level)),
        Task::Canon(Layout::Lines) => {
            let (command, blank) = (CanonText { level }, b"".as_slice());
            over_standard!(rt, lines => run_lines(&OfLine { command, blank }))
        }
        Task::Digest(Layout::OneText) => {
            let by = Spelled::Canonical(level);
            over_standard!(rt, text => run_text(DigestText { by }))
        }
        Task::Digest(Layout::Lines) => {
            let by = Spelled::Canonical(level);
            let (command, blank) = (DigestText { by }, b"".as_slice());
            over_standard!(rt, lines => run_lines(&OfLine { command, blank }))
        }
        Task::Check(Layout::OneText, Manner::Lines) => over_standard!(rt, text => run_check()),
        Task::Check(Layout::OneText, how) => {
            over_standard!(rt, text => run_text(CheckText { how }))
        }
        Task::Check(Layout::Lines, how) => {
            let (command, blank) = (CheckText { how }, blank_told(how));
            over_standard!(rt, lines => run_lines(&OfLine { command, blank }))
        }
        Task::Group(listing) if listing.files => {
            let names = LineWords::of(rt.alloc(), &[STANDARD])?;
            over_groups(rt, level, listing, names.as_slice(), None)
        }
        Task::Group(listing) => {
            let status = |summary: Summary| u8::from(summary.refused > 0);
            over_standard!(rt, text => run_group_listing(level, listing).map(status))
        }
        Task::Explain(how) => over_standard!(rt, text => run_text(ExplainText { how })),
    }
}

// What a task asks of each file, under rules where there are some that bear on it.
fn file_task(task: Task, level: Level, rules: Option<&Rules>) -> FileTask<'_> {
    match (task, rules) {
        (Task::Canon(Layout::OneText), None) => FileTask::Canon(level),
        (Task::Canon(Layout::OneText), Some(rules)) => FileTask::Form(level, rules),
        (Task::Canon(Layout::Lines), None) => FileTask::CanonLines(level),
        (Task::Canon(Layout::Lines), Some(rules)) => FileTask::FormLines(level, rules),
        (Task::Digest(Layout::OneText), rules) => FileTask::Digest(spelled(level, rules)),
        (Task::Digest(Layout::Lines), rules) => FileTask::DigestLines(spelled(level, rules)),
        (Task::Check(Layout::OneText, how), _) => FileTask::Check(how),
        (Task::Check(Layout::Lines, how), _) => FileTask::CheckLines(how),
        (Task::Group(listing), None) => FileTask::Group(level, listing),
        (Task::Group(listing), Some(rules)) => FileTask::FormGroup(level, listing, rules),
        (Task::Explain(how), _) => FileTask::Explain(how),
    }
}

// By which bytes texts are known, under rules where there are some.
fn spelled(level: Level, rules: Option<&Rules>) -> Spelled<'_> {
    match rules {
        Some(rules) => Spelled::Form(level, rules),
        None => Spelled::Canonical(level),
    }
}

// How a job compares two texts. Rules are lent: a function that owns them is slow to prove.
#[derive(Clone, Copy)]
struct Comparing<'r, 'j, 'u> {
    rt: &'r HostRuntime,
    job: &'j Job,
    comparison: Comparison,
    rules: Option<&'u Rules>,
}

impl Comparing<'_, '_, '_> {
    // The answer for two words; reports the faults of both files.
    fn words(self, pair: &LinePair) -> Result<u8, Fault> {
        let (rt, first, second) = (self.rt, &pair.first, &pair.second);
        match pair.kind {
            WordKind::Text => { self.texts(&pair.rules, text_of(rt, first)?, text_of(rt, second)?) }
            WordKind::FileName => {
                if first.as_str() == STANDARD && second.as_str() == STANDARD {
                    return Err(Fault::Twice);
                }
                let first = file_text(rt, first.as_str());
                let second = file_text(rt, second.as_str());
                self.texts(&pair.rules, &first?, &second?)
            }
        }
    }

    // The answer for two texts, and with `--verbose` what the rules of these files don't match in them.
    fn texts(self, rules: &LineWords, a: &[u8], b: &[u8]) -> Result<u8, Fault> {
        let answer = self.compared(a, b);
        if matches!(self.comparison, Comparison::Explain(_)) && is_verbose_line(self.rt) {
            tell_unmatched(self.rt, rules.as_slice(), a, b);
        }
        answer
    }

    fn compared(self, a: &[u8], b: &[u8]) -> Result<u8, Fault> {
        let (rt, level, words) = (self.rt, self.job.level, self.job.order.as_slice());
        match (self.comparison, self.rules) {
            (Comparison::Same(Manner::Lines), None) => to_standard!(rt, run_same(level, a, b)),
            (Comparison::Same(how), None) => {
                let told = InALine { how };
                to_standard!(rt, write_answer(&PairAnswer { told, level, a, b }))
            }
            (Comparison::Same(how), Some(rules)) => {
                let under = Under { level, rules };
                to_standard!(rt, write_answer(&SameForms { how, under, a, b }))
            }
            (Comparison::Explain(how), None) => {
                let told = Told { how, words };
                to_standard!(rt, write_answer(&PairAnswer { told, level, a, b }))
            }
            (Comparison::Explain(how), Some(rules)) => {
                let (told, under) = (Told { how, words }, Under { level, rules });
                to_standard!(rt, write_answer(&ExplainedForms { told, under, a, b }))
            }
        }
    }
}

// The text of a file; reports its fault.
fn file_text(rt: &HostRuntime, name: &str) -> Result<Vec<u8>, Fault> {
    let files = Opener { rt: *rt };
    let Some(mut input) = files.open(name) else {
        return Err(Fault::Told);
    };
    let read = read_text(rt.alloc(), &mut Source::new(Filling::new(&mut input)));
    match read {
        Ok(text) => Ok(text),
        Err(RunFault::Memory) => Err(Fault::Run(RunFault::Memory)),
        Err(fault) => {
            files.tell(name, &input, &fault);
            Err(Fault::Told)
        }
    }
}

// The answer of a run over standard input and output.
fn answered(answer: Result<u8, RunFault>, input: &Input, output: &Output) -> Result<u8, Fault> {
    match (answer, input.failure()) {
        (Err(RunFault::ReadFailed), Some(error)) => Err(Fault::Read(error)),
        (answer, _) => written(answer, output),
    }
}

// The answer of a run over standard output.
fn written(answer: Result<u8, RunFault>, output: &Output) -> Result<u8, Fault> {
    match (answer, output.failure()) {
        (Err(RunFault::WriteFailed), Some(error)) => {
            if output.is_closed() {
                return Err(Fault::Told);
            }
            Err(Fault::Write(error))
        }
        (answer, _) => Ok(answer?),
    }
}

// The text that a word is: one with an opening delimiter. Another that names a file most likely meant that file's text.
fn text_of<'w>(rt: &HostRuntime, word: &'w LineWord) -> Result<&'w [u8], Fault> {
    let name = word.as_str();
    if is_marked(name) {
        return Err(Fault::Word);
    }
    if !name.contains(['[', '(']) && Path::new(name).is_file(rt) {
        tell_of(rt, name, "this is a file; with --files its text is read");
    }
    Ok(name.as_bytes())
}

// The texts of these files; none where there are no files.
fn used_in(rt: &HostRuntime, names: &LineWords) -> Result<Option<Used>, Fault> {
    if names.is_empty() {
        return Ok(None);
    }
    let mut used = Used::new(rt.alloc());
    for name in names.as_slice() {
        let text = file_text(rt, name.as_str())?;
        tell_refused(rt, name.as_str(), used.add(&text)?);
    }
    Ok(Some(used))
}

// How many texts of a file are refused, and so used nowhere.
fn tell_refused(rt: &HostRuntime, name: &str, refused: usize) {
    match refused {
        0 => {}
        1 => tell_of(rt, name, "1 text is refused, and left out"),
        _ => {
            if let Ok(told) = format!(in rt.alloc(); "{refused} texts are refused, and left out") {
                tell_of(rt, name, told);
            }
        }
    }
}

// The rules of these files together, of which one that is named twice counts once; none where there are no files. Reports the fault of the first that has one.
fn rules_of(rt: &HostRuntime, names: &LineWords) -> Result<Option<Rules>, Fault> {
    if names.is_empty() {
        return Ok(None);
    }
    let mut reader = RulesReader::new(rt.alloc());
    let names = names.as_slice();
    for place in 0..names.len() {
        let name = names[place].as_str();
        if !names[..place].iter().any(|other| other.as_str() == name) {
            read_rules(rt, name, &mut reader)?;
        }
    }
    Ok(Some(reader.into_rules()))
}

fn read_rules(rt: &HostRuntime, name: &str, reader: &mut RulesReader) -> Result<(), Fault> {
    let text = rules_text(rt, name)?;
    match reader.read(rt.alloc(), &text) {
        Ok(()) => Ok(()),
        Err(RulesFault::Memory(_)) => Err(Fault::Run(RunFault::Memory)),
        Err(refused) => {
            tell(rt, name, ", ", refused);
            Err(Fault::Told)
        }
    }
}

// Where rules are from the program's folder: in a prefix, and among the sources.
const RULES_FOLDERS: [&str; 2] = ["../share/crsdesk/rules", "../../../rules"];

// The text of a rules file: of the file that is so called, or else of one that is installed or shipped.
fn rules_text(rt: &HostRuntime, name: &str) -> Result<Vec<u8>, Fault> {
    match shipped(rt, name) {
        Some(path) => file_text(rt, path.as_str()),
        None => file_text(rt, name),
    }
}

// The path of rules that are installed or shipped, by their name, with its end or without; `None` where a file is so called.
fn shipped(rt: &HostRuntime, name: &str) -> Option<String> {
    if name == STANDARD || is_marked(name) || name.contains('/') || Path::new(name).exists(rt) {
        return None;
    }
    let program = env::current_exe(rt).ok()?;
    let folder = program.as_path().parent()?.as_str();
    for below in RULES_FOLDERS {
        for end in ["", ".rules"] {
            let path = format!(in rt.alloc(); "{folder}/{below}/{name}{end}").ok()?;
            if Path::new(path.as_str()).is_file(rt) {
                return Some(path);
            }
        }
    }
    None
}

// Tells what the statements of rules files don't match in two texts; of standard input, which is read once, nothing.
fn tell_unmatched(rt: &HostRuntime, names: &[LineWord], a: &[u8], b: &[u8]) {
    let mut used = Used::new(rt.alloc());
    if used.add(a).is_err() || used.add(b).is_err() {
        return;
    }
    for place in 0..names.len() {
        let name = names[place].as_str();
        if name != STANDARD && !names[..place].iter().any(|other| other.as_str() == name) {
            tell_unmatched_in(rt, name, &used);
        }
    }
}

fn tell_unmatched_in(rt: &HostRuntime, name: &str, used: &Used) {
    let Ok(text) = rules_text(rt, name) else {
        return;
    };
    let Ok(lines) = used.unmatched(rt.alloc(), &text) else {
        return;
    };
    let Ok(lines) = str::from_utf8(&lines) else {
        return;
    };
    for line in lines.lines() {
        tell(rt, name, ", ", line);
    }
}
