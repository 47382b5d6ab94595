//! Laws of the definitions, as contracts of functions that do nothing.
ghost use Rattle.std.specs.Prelude.{◌≡◌, ◌≢◌, ◌<◌, ℕ, Bool, [], ◌∷◌, ◌++◌, List, Some, IsSome, true, false, codes, decimal};
ghost use Rattle.std.specs.List.{list_all};
ghost use Rattle.clap.specs.Words.{Text, takes};
ghost use Rattle.crs_same.specs.Paths.{step_text};
ghost use Rattle.crs_same.specs.declared.step.Step.TheVariants.{Axis};
ghost use Rattle.crs_desk.specs.Requests.{request_for, standard, word_of};
ghost use Rattle.crs_group.specs.GroupOutput.{plain};
ghost use Rattle.crs_desk.specs.CommandLine.{asked, desk, if_asked, is_plain_word};
ghost use Rattle.crs_desk.specs.declared.line.requests.Layout.TheVariants.{Lines, OneText};
ghost use Rattle.crs_desk.specs.declared.line.requests.Request.TheVariants.{Canon, Check, Same, Group, Other};
ghost use Rattle.crs_desk.specs.declared.line.requests.Task.TheVariants as task;
ghost use Rattle.crs_desk.specs.declared.line.requests.Work.TheVariants as work;
ghost use Rattle.crs_desk.specs.declared.line.requests.Comparison.TheVariants as comparison;
ghost use Rattle.crs_desk.specs.declared.runs.manner.Manner.TheVariants as manner;
ghost use Rattle.crs_desk.specs.declared.line.word.WordKind.TheVariants.{Text as OfText, FileName};

/// A line that the command takes asks for something: no text of `same` is missing there.
#[tactic(auto, using(crate::proofs::CommandLemmas::taken_asks))]
pub fn taken_line_asks()
    ensures { (words : List Text) → takes desk words ≡ true → IsSome (asked words) }
{}

/// The two words after `same` are the texts if neither is a flag. The level is `full` then. The word after `--level` is
/// the level of `same`, before the two texts and after them, if no word is a flag. `same` isn't accepted without words,
/// nor with one word. A first word that begins as a flag, a hyphen (45) and an ASCII character, but for `--`, is no
/// text of `same`.
pub fn same_takes_two_texts()
    ensures plain { (program first second : Text) → is_plain_word first ≡ true → is_plain_word second ≡ true →
        asked (program ∷ codes "same" ∷ first ∷ second ∷ []) ≡ Some (Same first second (codes "full")) }
    ensures before { (program level first second : Text) → is_plain_word level ≡ true →
        is_plain_word first ≡ true → is_plain_word second ≡ true →
        asked (program ∷ codes "same" ∷ codes "--level" ∷ level ∷ first ∷ second ∷ [])
        ≡ Some (Same first second level) }
    ensures after { (program level first second : Text) → is_plain_word level ≡ true →
        is_plain_word first ≡ true → is_plain_word second ≡ true →
        asked (program ∷ codes "same" ∷ first ∷ second ∷ codes "--level" ∷ level ∷ [])
        ≡ Some (Same first second level) }
    ensures none { (program : Text) → takes desk (program ∷ codes "same" ∷ []) ≡ false }
    ensures one { (program word : Text) → takes desk (program ∷ codes "same" ∷ word ∷ []) ≡ false }
    ensures flag { (program rest second : Text) (byte : ℕ) → byte < 128 → 45 ∷ byte ∷ rest ≢ codes "--" →
        takes desk (program ∷ codes "same" ∷ (45 ∷ byte ∷ rest) ∷ second ∷ []) ≡ false }
{}

/// The word after `--level` is the level of `canon` and of `group`, if it is no flag. Without words `canon` and `group`
/// are at the level `full`. `check` has no level. `--level` is neither given twice nor without a level.
pub fn the_level_is_a_word()
    ensures canon { (program level : Text) → is_plain_word level ≡ true →
        asked (program ∷ codes "canon" ∷ codes "--level" ∷ level ∷ []) ≡ Some (Canon level) }
    ensures group { (program level : Text) → is_plain_word level ≡ true →
        asked (program ∷ codes "group" ∷ codes "--level" ∷ level ∷ []) ≡ Some (Group level) }
    ensures usual_canon { (program : Text) → asked (program ∷ codes "canon" ∷ []) ≡ Some (Canon (codes "full")) }
    ensures usual_group { (program : Text) → asked (program ∷ codes "group" ∷ []) ≡ Some (Group (codes "full")) }
    ensures check { (program level : Text) →
        takes desk (program ∷ codes "check" ∷ codes "--level" ∷ level ∷ []) ≡ false }
    ensures once { (program one other : Text) →
        takes desk (program ∷ codes "canon" ∷ (codes "--level=" ++ one) ∷ (codes "--level=" ++ other) ∷ []) ≡ false }
    ensures whole { (program : Text) → takes desk (program ∷ codes "canon" ∷ codes "--level" ∷ []) ≡ false }
{}

/// `-v` or `--verbose` changes no request: before a command with any words, and behind one.
pub fn verbose_changes_no_request()
    ensures canon { (program : Text) (words : List Text) →
        asked (program ∷ codes "-v" ∷ codes "canon" ∷ words) ≡ asked (program ∷ codes "canon" ∷ words) }
    ensures check { (program : Text) (words : List Text) →
        asked (program ∷ codes "-v" ∷ codes "check" ∷ words) ≡ asked (program ∷ codes "check" ∷ words) }
    ensures group { (program : Text) (words : List Text) →
        asked (program ∷ codes "-v" ∷ codes "group" ∷ words) ≡ asked (program ∷ codes "group" ∷ words) }
    ensures same { (program : Text) (words : List Text) →
        asked (program ∷ codes "-v" ∷ codes "same" ∷ words) ≡ asked (program ∷ codes "same" ∷ words) }
    ensures explain { (program : Text) (words : List Text) →
        asked (program ∷ codes "-v" ∷ codes "explain" ∷ words) ≡ asked (program ∷ codes "explain" ∷ words) }
    ensures word { (program : Text) → asked (program ∷ codes "--verbose" ∷ codes "check" ∷ []) ≡ Some Check }
    ensures behind_canon { (program : Text) →
        asked (program ∷ codes "canon" ∷ codes "--verbose" ∷ []) ≡ Some (Canon (codes "full")) }
    ensures behind_check { (program : Text) → asked (program ∷ codes "check" ∷ codes "-v" ∷ []) ≡ Some Check }
    ensures behind_group { (program : Text) →
        asked (program ∷ codes "group" ∷ codes "-v" ∷ []) ≡ Some (Group (codes "full")) }
    ensures behind_same { (program first second : Text) → is_plain_word first ≡ true → is_plain_word second ≡ true →
        asked (program ∷ codes "same" ∷ first ∷ codes "-v" ∷ second ∷ []) ≡ Some (Same first second (codes "full")) }
    ensures behind_explain { (program first : Text) → is_plain_word first ≡ true →
        asked (program ∷ codes "explain" ∷ first ∷ codes "--verbose" ∷ [])
        ≡ Some (Other (codes "full") [] (work.Text manner.Lines first [])) }
{}

/// With `--repeated` `group` writes the groups of two lines or more, with `--names` names, with `--files` the names of
/// files, with `--json` objects: each choice of these flags asks for its listing.
pub fn group_has_flags()
    ensures each { (program : Text) (json repeated names files : Bool) → asked (program ∷ codes "group"
        ∷ if_asked json (codes "--json") (if_asked repeated (codes "--repeated") (if_asked names (codes "--names")
        (if_asked files (codes "--files") []))))
        ≡ Some (request_for (codes "full") []
        (work.Standard (task.Group (record { repeated = repeated; names = names; files = files; json = json })))) }
    ensures both { (program : Text) → asked (program ∷ codes "group" ∷ codes "--names" ∷ codes "--repeated" ∷ [])
        ≡ Some (Other (codes "full") [] (work.Standard (task.Group (record { repeated = true; names = true; files = false; json = false })))) }
    ensures before { (program level : Text) → is_plain_word level ≡ true →
        asked (program ∷ codes "group" ∷ codes "--repeated" ∷ codes "--level" ∷ level ∷ [])
        ≡ Some (Other level [] (work.Standard (task.Group (record { repeated = true; names = false; files = false; json = false })))) }
    ensures after { (program level : Text) → is_plain_word level ≡ true →
        asked (program ∷ codes "group" ∷ codes "--level" ∷ level ∷ codes "--repeated" ∷ [])
        ≡ Some (Other level [] (work.Standard (task.Group (record { repeated = true; names = false; files = false; json = false })))) }
{}

/// The text of a step to an axis is its word, which `--first` takes, and the axis's position.
pub fn axes_have_one_word()
    ensures { (position : ℕ) → step_text (Axis position) ≡ word_of (Axis position) ++ decimal position }
{}

/// With `--lines`, before the level or after it, `canon` takes each line as a text. `check` takes each line as a text
/// if `--lines` is there, and one text else. It is never given twice, or with a value; `group` has no such flag.
pub fn canon_and_check_have_lines()
    ensures canon { (program : Text) →
        asked (program ∷ codes "canon" ∷ codes "--lines" ∷ []) ≡ Some (Other (codes "full") [] (work.Standard (task.Canon Lines))) }
    ensures before { (program level : Text) → is_plain_word level ≡ true →
        asked (program ∷ codes "canon" ∷ codes "--lines" ∷ codes "--level" ∷ level ∷ [])
        ≡ Some (Other level [] (work.Standard (task.Canon Lines))) }
    ensures after { (program level : Text) → is_plain_word level ≡ true →
        asked (program ∷ codes "canon" ∷ codes "--level" ∷ level ∷ codes "--lines" ∷ [])
        ≡ Some (Other level [] (work.Standard (task.Canon Lines))) }
    ensures check { (program : Text) →
        asked (program ∷ codes "check" ∷ codes "--lines" ∷ []) ≡ Some (Other (codes "full") [] (work.Standard (task.Check Lines manner.Lines))) }
    ensures check_alone { (program : Text) → asked (program ∷ codes "check" ∷ []) ≡ Some Check }
    ensures canon_twice { (program : Text) →
        takes desk (program ∷ codes "canon" ∷ codes "--lines" ∷ codes "--lines" ∷ []) ≡ false }
    ensures check_twice { (program : Text) →
        takes desk (program ∷ codes "check" ∷ codes "--lines" ∷ codes "--lines" ∷ []) ≡ false }
    ensures bare { (program value : Text) →
        takes desk (program ∷ codes "canon" ∷ (codes "--lines=" ++ value) ∷ []) ≡ false }
    ensures group { (program : Text) → takes desk (program ∷ codes "group" ∷ codes "--lines" ∷ []) ≡ false }
{}

/// A line asks for `explain` of standard input, of one text or of two, if no word is a flag. The level is `full` then.
/// The word after `--level` is the level of `explain`, without texts, before two texts and after them, if no word is a
/// flag. `--json` asks for JSON. The words after each `--first=` say what is written first.
pub fn explain_takes_texts_and_options()
    ensures alone { (program : Text) →
        asked (program ∷ codes "explain" ∷ []) ≡ Some (Other (codes "full") [] (work.Standard (task.Explain manner.Lines))) }
    ensures one { (program first : Text) → is_plain_word first ≡ true → asked (program ∷ codes "explain" ∷ first ∷ [])
        ≡ Some (Other (codes "full") [] (work.Text manner.Lines first [])) }
    ensures two { (program first second : Text) → is_plain_word first ≡ true → is_plain_word second ≡ true →
        asked (program ∷ codes "explain" ∷ first ∷ second ∷ [])
        ≡ Some (Other (codes "full") [] (work.Pair (comparison.Explain manner.Lines) (record { kind = OfText; first = first; second = second; rules = [] }))) }
    ensures level { (program level : Text) → is_plain_word level ≡ true →
        asked (program ∷ codes "explain" ∷ codes "--level" ∷ level ∷ [])
        ≡ Some (Other level [] (work.Standard (task.Explain manner.Lines))) }
    ensures before { (program level first second : Text) → is_plain_word level ≡ true →
        is_plain_word first ≡ true → is_plain_word second ≡ true →
        asked (program ∷ codes "explain" ∷ codes "--level" ∷ level ∷ first ∷ second ∷ [])
        ≡ Some (Other level [] (work.Pair (comparison.Explain manner.Lines) (record { kind = OfText; first = first; second = second; rules = [] }))) }
    ensures after { (program level first second : Text) → is_plain_word level ≡ true →
        is_plain_word first ≡ true → is_plain_word second ≡ true →
        asked (program ∷ codes "explain" ∷ first ∷ second ∷ codes "--level" ∷ level ∷ [])
        ≡ Some (Other level [] (work.Pair (comparison.Explain manner.Lines) (record { kind = OfText; first = first; second = second; rules = [] }))) }
    ensures json { (program : Text) → asked (program ∷ codes "explain" ∷ codes "--json" ∷ [])
        ≡ Some (Other (codes "full") [] (work.Standard (task.Explain manner.Objects))) }
    ensures once { (program word : Text) → asked (program ∷ codes "explain" ∷ (codes "--first=" ++ word) ∷ [])
        ≡ Some (Other (codes "full") (word ∷ []) (work.Standard (task.Explain manner.Lines))) }
    ensures twice { (program one other : Text) →
        asked (program ∷ codes "explain" ∷ (codes "--first=" ++ one) ∷ (codes "--first=" ++ other) ∷ [])
        ≡ Some (Other (codes "full") (one ∷ other ∷ []) (work.Standard (task.Explain manner.Lines))) }
{}

/// The words after `canon`, `check` and `group` are files, however many, if no word is a flag; the level is `full`
/// then. So are the two words after `same --files`, and one or two after `explain --files`, if none is a flag.
pub fn words_are_files()
    ensures canon { (program name : Text) (names : List Text) → list_all is_plain_word (name ∷ names) ≡ true →
        asked (program ∷ codes "canon" ∷ name ∷ names) ≡ Some (Other (codes "full") [] (work.Files (task.Canon OneText) (name ∷ names) [] false)) }
    ensures check { (program name : Text) (names : List Text) → list_all is_plain_word (name ∷ names) ≡ true →
        asked (program ∷ codes "check" ∷ name ∷ names) ≡ Some (Other (codes "full") [] (work.Files (task.Check OneText manner.Lines) (name ∷ names) [] false)) }
    ensures group { (program name : Text) (names : List Text) → list_all is_plain_word (name ∷ names) ≡ true →
        asked (program ∷ codes "group" ∷ name ∷ names)
        ≡ Some (Other (codes "full") [] (work.Files (task.Group plain) (name ∷ names) [] false)) }
    ensures same { (program first second : Text) → is_plain_word first ≡ true → is_plain_word second ≡ true →
        asked (program ∷ codes "same" ∷ codes "--files" ∷ first ∷ second ∷ [])
        ≡ Some (Other (codes "full") [] (work.Pair (comparison.Same manner.Lines) (record { kind = FileName; first = first; second = second; rules = [] }))) }
    ensures one { (program first : Text) → is_plain_word first ≡ true →
        asked (program ∷ codes "explain" ∷ codes "--files" ∷ first ∷ [])
        ≡ Some (Other (codes "full") [] (work.Files (task.Explain manner.Lines) (first ∷ []) [] false)) }
    ensures two { (program first second : Text) → is_plain_word first ≡ true → is_plain_word second ≡ true →
        asked (program ∷ codes "explain" ∷ codes "--files" ∷ first ∷ second ∷ [])
        ≡ Some (Other (codes "full") [] (work.Pair (comparison.Explain manner.Lines)
        (record { kind = FileName; first = first; second = second; rules = [] }))) }
{}

/// After `--` each word is a file of `canon`, `check` and `group`, a text of `same` and `explain`, and a file of these
/// with `--files`, even if it begins with a hyphen. The level is `full` then.
pub fn hyphens_end_options()
    ensures canon { (program name : Text) (names : List Text) →
        asked (program ∷ codes "canon" ∷ codes "--" ∷ name ∷ names)
        ≡ Some (Other (codes "full") [] (work.Files (task.Canon OneText) (name ∷ names) [] false)) }
    ensures check { (program name : Text) (names : List Text) →
        asked (program ∷ codes "check" ∷ codes "--" ∷ name ∷ names)
        ≡ Some (Other (codes "full") [] (work.Files (task.Check OneText manner.Lines) (name ∷ names) [] false)) }
    ensures group { (program name : Text) (names : List Text) →
        asked (program ∷ codes "group" ∷ codes "--" ∷ name ∷ names)
        ≡ Some (Other (codes "full") [] (work.Files (task.Group plain) (name ∷ names) [] false)) }
    ensures same { (program first second : Text) →
        asked (program ∷ codes "same" ∷ codes "--" ∷ first ∷ second ∷ []) ≡ Some (Same first second (codes "full")) }
    ensures same_files { (program first second : Text) →
        asked (program ∷ codes "same" ∷ codes "--files" ∷ codes "--" ∷ first ∷ second ∷ [])
        ≡ Some (Other (codes "full") [] (work.Pair (comparison.Same manner.Lines)
        (record { kind = FileName; first = first; second = second; rules = [] }))) }
    ensures one { (program first : Text) → asked (program ∷ codes "explain" ∷ codes "--" ∷ first ∷ [])
        ≡ Some (Other (codes "full") [] (work.Text manner.Lines first [])) }
    ensures one_file { (program first : Text) →
        asked (program ∷ codes "explain" ∷ codes "--files" ∷ codes "--" ∷ first ∷ [])
        ≡ Some (Other (codes "full") [] (work.Files (task.Explain manner.Lines) (first ∷ []) [] false)) }
    ensures two { (program first second : Text) →
        asked (program ∷ codes "explain" ∷ codes "--" ∷ first ∷ second ∷ [])
        ≡ Some (Other (codes "full") [] (work.Pair (comparison.Explain manner.Lines)
        (record { kind = OfText; first = first; second = second; rules = [] }))) }
    ensures two_files { (program first second : Text) →
        asked (program ∷ codes "explain" ∷ codes "--files" ∷ codes "--" ∷ first ∷ second ∷ [])
        ≡ Some (Other (codes "full") [] (work.Pair (comparison.Explain manner.Lines)
        (record { kind = FileName; first = first; second = second; rules = [] }))) }
{}

/// The words after each `--rules` are rules files, if no word is a flag: a task over standard input, if the line names
/// no file, over files, over a text or over two is under their rules. `check` has none.
pub fn rules_are_named()
    ensures canon { (program file : Text) → is_plain_word file ≡ true →
        asked (program ∷ codes "canon" ∷ codes "--rules" ∷ file ∷ [])
        ≡ Some (Other (codes "full") [] (work.Files (task.Canon OneText) standard (file ∷ []) false)) }
    ensures twice { (program one other : Text) →
        asked (program ∷ codes "canon" ∷ (codes "--rules=" ++ one) ∷ (codes "--rules=" ++ other) ∷ [])
        ≡ Some (Other (codes "full") [] (work.Files (task.Canon OneText) standard (one ∷ other ∷ []) false)) }
    ensures same { (program file first second : Text) → is_plain_word file ≡ true →
        is_plain_word first ≡ true → is_plain_word second ≡ true →
        asked (program ∷ codes "same" ∷ codes "--rules" ∷ file ∷ first ∷ second ∷ [])
        ≡ Some (Other (codes "full") [] (work.Pair (comparison.Same manner.Lines)
        (record { kind = OfText; first = first; second = second; rules = file ∷ [] }))) }
    ensures file { (program file name : Text) → is_plain_word file ≡ true → is_plain_word name ≡ true →
        asked (program ∷ codes "canon" ∷ codes "--rules" ∷ file ∷ name ∷ [])
        ≡ Some (Other (codes "full") [] (work.Files (task.Canon OneText) (name ∷ []) (file ∷ []) false)) }
    ensures group { (program file : Text) → is_plain_word file ≡ true →
        asked (program ∷ codes "group" ∷ codes "--rules" ∷ file ∷ [])
        ≡ Some (Other (codes "full") [] (work.Files (task.Group plain) standard (file ∷ []) false)) }
    ensures same_files { (program file first second : Text) → is_plain_word file ≡ true →
        is_plain_word first ≡ true → is_plain_word second ≡ true →
        asked (program ∷ codes "same" ∷ codes "--files" ∷ codes "--rules" ∷ file ∷ first ∷ second ∷ [])
        ≡ Some (Other (codes "full") [] (work.Pair (comparison.Same manner.Lines)
        (record { kind = FileName; first = first; second = second; rules = file ∷ [] }))) }
    ensures explain { (program file : Text) → is_plain_word file ≡ true →
        asked (program ∷ codes "explain" ∷ codes "--rules" ∷ file ∷ [])
        ≡ Some (Other (codes "full") [] (work.Files (task.Explain manner.Lines) standard (file ∷ []) false)) }
    ensures one { (program file first : Text) → is_plain_word file ≡ true → is_plain_word first ≡ true →
        asked (program ∷ codes "explain" ∷ codes "--rules" ∷ file ∷ first ∷ [])
        ≡ Some (Other (codes "full") [] (work.Text manner.Lines first (file ∷ []))) }
    ensures one_file { (program file first : Text) → is_plain_word file ≡ true → is_plain_word first ≡ true →
        asked (program ∷ codes "explain" ∷ codes "--files" ∷ codes "--rules" ∷ file ∷ first ∷ [])
        ≡ Some (Other (codes "full") [] (work.Files (task.Explain manner.Lines) (first ∷ []) (file ∷ []) false)) }
    ensures two { (program file first second : Text) → is_plain_word file ≡ true →
        is_plain_word first ≡ true → is_plain_word second ≡ true →
        asked (program ∷ codes "explain" ∷ codes "--rules" ∷ file ∷ first ∷ second ∷ [])
        ≡ Some (Other (codes "full") [] (work.Pair (comparison.Explain manner.Lines)
        (record { kind = OfText; first = first; second = second; rules = file ∷ [] }))) }
    ensures two_files { (program file first second : Text) → is_plain_word file ≡ true →
        is_plain_word first ≡ true → is_plain_word second ≡ true →
        asked (program ∷ codes "explain" ∷ codes "--files" ∷ codes "--rules" ∷ file ∷ first ∷ second ∷ [])
        ≡ Some (Other (codes "full") [] (work.Pair (comparison.Explain manner.Lines)
        (record { kind = FileName; first = first; second = second; rules = file ∷ [] }))) }
    ensures check { (program file : Text) → takes desk (program ∷ codes "check" ∷ codes "--rules" ∷ file ∷ []) ≡ false }
{}

/// `digest` takes what `canon` takes: a level, `--lines`, rules and files. `-H` or `--with-name` asks `canon`, `digest`,
/// `check` and `group` for the names of files, and `--json` asks `check` and `same` for objects.
pub fn digests_names_and_objects()
    ensures digest { (program : Text) →
        asked (program ∷ codes "digest" ∷ []) ≡ Some (Other (codes "full") [] (work.Standard (task.Digest OneText))) }
    ensures level { (program level : Text) → is_plain_word level ≡ true →
        asked (program ∷ codes "digest" ∷ codes "--lines" ∷ codes "--level" ∷ level ∷ [])
        ≡ Some (Other level [] (work.Standard (task.Digest Lines))) }
    ensures rules { (program file name : Text) → is_plain_word file ≡ true → is_plain_word name ≡ true →
        asked (program ∷ codes "digest" ∷ codes "--rules" ∷ file ∷ name ∷ [])
        ≡ Some (Other (codes "full") [] (work.Files (task.Digest OneText) (name ∷ []) (file ∷ []) false)) }
    ensures named_digest { (program name : Text) → is_plain_word name ≡ true →
        asked (program ∷ codes "digest" ∷ codes "-H" ∷ name ∷ [])
        ≡ Some (Other (codes "full") [] (work.Files (task.Digest OneText) (name ∷ []) [] true)) }
    ensures named_canon { (program name : Text) → is_plain_word name ≡ true →
        asked (program ∷ codes "canon" ∷ codes "--with-name" ∷ name ∷ [])
        ≡ Some (Other (codes "full") [] (work.Files (task.Canon OneText) (name ∷ []) [] true)) }
    ensures named_check { (program name : Text) → is_plain_word name ≡ true →
        asked (program ∷ codes "check" ∷ codes "-H" ∷ name ∷ [])
        ≡ Some (Other (codes "full") [] (work.Files (task.Check OneText manner.Lines) (name ∷ []) [] true)) }
    ensures named_group { (program name : Text) → is_plain_word name ≡ true →
        asked (program ∷ codes "group" ∷ codes "-H" ∷ name ∷ [])
        ≡ Some (Other (codes "full") [] (work.Files (task.Group plain) (name ∷ []) [] true)) }
    ensures named_input { (program : Text) → asked (program ∷ codes "check" ∷ codes "-H" ∷ [])
        ≡ Some (Other (codes "full") [] (work.Files (task.Check OneText manner.Lines) standard [] true)) }
    ensures check { (program : Text) → asked (program ∷ codes "check" ∷ codes "--json" ∷ [])
        ≡ Some (Other (codes "full") [] (work.Standard (task.Check OneText manner.Objects))) }
    ensures same { (program first second : Text) → is_plain_word first ≡ true → is_plain_word second ≡ true →
        asked (program ∷ codes "same" ∷ codes "--json" ∷ first ∷ second ∷ [])
        ≡ Some (Other (codes "full") [] (work.Pair (comparison.Same manner.Objects)
        (record { kind = OfText; first = first; second = second; rules = [] }))) }
{}

/// A line asks for `rules` of files or of standard input, with names of files after `-H`. The word after each `--used` is
/// a file of texts, where it is no flag. `rules` takes neither a level nor rules.
pub fn rules_are_judged()
    ensures alone { (program : Text) → asked (program ∷ codes "rules" ∷ [])
        ≡ Some (Other (codes "full") [] (work.Rules standard [] false)) }
    ensures one { (program name : Text) → is_plain_word name ≡ true → asked (program ∷ codes "rules" ∷ name ∷ [])
        ≡ Some (Other (codes "full") [] (work.Rules (name ∷ []) [] false)) }
    ensures two { (program name other : Text) → is_plain_word name ≡ true → is_plain_word other ≡ true →
        asked (program ∷ codes "rules" ∷ name ∷ other ∷ [])
        ≡ Some (Other (codes "full") [] (work.Rules (name ∷ other ∷ []) [] false)) }
    ensures named { (program name : Text) → is_plain_word name ≡ true → asked (program ∷ codes "rules" ∷ codes "-H" ∷ name ∷ [])
        ≡ Some (Other (codes "full") [] (work.Rules (name ∷ []) [] true)) }
    ensures used { (program texts name : Text) → is_plain_word texts ≡ true → is_plain_word name ≡ true →
        asked (program ∷ codes "rules" ∷ codes "--used" ∷ texts ∷ name ∷ [])
        ≡ Some (Other (codes "full") [] (work.Rules (name ∷ []) (texts ∷ []) false)) }
    ensures twice { (program one other : Text) →
        asked (program ∷ codes "rules" ∷ (codes "--used=" ++ one) ∷ (codes "--used=" ++ other) ∷ [])
        ≡ Some (Other (codes "full") [] (work.Rules standard (one ∷ other ∷ []) false)) }
    ensures level { (program level : Text) → takes desk (program ∷ codes "rules" ∷ codes "--level" ∷ level ∷ []) ≡ false }
    ensures rules { (program file : Text) → takes desk (program ∷ codes "rules" ∷ codes "--rules" ∷ file ∷ []) ≡ false }
{}
