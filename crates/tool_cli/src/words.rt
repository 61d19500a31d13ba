//! The words of the command line.
ghost use Rattle.std.specs.Prelude.{ℕ, ◌≡◌, ◌≤◌, ◌<◌, pos, IfOk, codes, Bool, false, map, Some, ◌∷◌, [], fold};
ghost use Rattle.clap.specs.Words.{app_of, found_of, rows_of, rule_of, shape_of, subcommand_rows, with_subcommand};
ghost use Rattle.clap.specs.declared.builder.value_parser.ValueParser.{ValueParser as ParserValue};
ghost use Rattle.clap.specs.declared.builder.value_parser.ValueParser.TheVariants.{Signed};
ghost use Rattle.clap.specs.declared.builder.command.Command.TheViews.{out-Command as fields_of};
ghost use Rattle.clap.specs.declared.parser.matches.ArgMatches.TheViews.{out-ArgMatches};
ghost use Rattle.term_text.specs.Canonical.{shows_strings};
ghost use Rattle.term_text.specs.declared.write.Form.{Form as FormValue};
ghost use Rattle.tool_scan.specs.declared.options.ScanKind.{ScanKind as KindValue};
ghost use Rattle.tool_cli.specs.Words.{asked, Reads, bare_app, option_rule, rule_for, shape_with, command_shape, tool_app};
ghost use Rattle.tool_cli.specs.Words.{kind, number, nothing, plain_commands, to_shell, to_scan, to_explain, Optioned, name_of, is_explained, shell_for};
ghost use Rattle.tool_cli.specs.Words.{IsKindOf, IsKindParser, IsReadOf, IsFlagOf, AreRead, IsRequestOf, IsReadAs, IsEntered};
ghost use Rattle.tool_cli.specs.declared.words.Detail.{Detail as DetailValue};
ghost use Rattle.tool_cli.specs.declared.words.Invocation.{Invocation as InvocationValue};
ghost use Rattle.tool_cli.specs.declared.words.Request.{Request as RequestValue};

use clap::builder::ValueParser;
use clap::{Arg, ArgAction, ArgMatches, Command, Error, value_parser};
use std::alloc::{AllocError, Global};
use std::convert::AsStr;
use term_text::Form;
use tool_scan::{ScanKind, ScanOptions};

/// What the program is to do.
#[derive(Clone, Copy, Debug, PartialEq, Eq)]
pub enum Request {
    /// Answer a specification or a code file on objects, in texts of this form.
    Run(Form),
    /// Show the outcome of each object, in texts of this form.
    Test(Form),
    /// Write the code file of a specification.
    Compile,
    /// Show the bounds of the code in a code file.
    Verify,
    /// Reply to commands on tables.
    Script,
    /// Reply to commands on tables as they arrive.
    Shell,
    /// Reply to commands on tables as they arrive, for a person: with a prompt, and with what an error means.
    Prompt,
    /// Answer a specification on objects that are inserted into a table, with several threads.
    Scan(ScanOptions),
    /// Show the code of a specification or of a code file, and which objects a walk by it visits in a table with this
    /// key position, counted from 1.
    Explain(u16),
}

/// How much of a fault is reported.
#[derive(Clone, Copy, Debug, PartialEq, Eq)]
pub enum Detail {
    /// The error line.
    Line,
    /// The error line, followed by what the fault means.
    Explained,
}

/// What words request: a command, and how much of a fault is reported.
#[derive(Clone, Copy, Debug, PartialEq, Eq)]
pub struct Invocation {
    /// What the program is to do.
    pub request: Request,
    /// How much is reported of a fault.
    pub detail: Detail,
}

/// What `--version` shows after the program's name.
const VERSION: &str = "0.1.0";

const ABOUT: &str = "Runs match specifications of ets over terms.";

const EXAMPLE: &str = "\
A text is terms, each followed by a dot. A refusal is one line on standard
error, as `error E16 0 3`: the number of the refusal and its arguments. Behind
--why, an option of each command, what that means follows the line.
A code file is a term too: a binary, as `compile` writes it.

Status:
  0   done
  2   the input was refused
  3   no memory
  4   the input could not be read, or the output not written
  64  these words were not understood

Example:
  printf \"[{{'\\$1','\\$2'},[{'>','\\$1',1}],['\\$2']}]. {1,a}. {2,b}.\" | ets_tool run
writes
  b.";

const RUN_ABOUT: &str =
    "Reads a specification or a code file and then objects, and writes each answer";

const RUN_EXAMPLE: &str = "\
Reads from standard input, as term text: a match specification, or a code file
as a binary, then the objects, each term followed by a dot.
Writes to standard output: for each object that the specification answers on
the answer, a dot and a line feed, in the order of the objects. Where the
input is refused nothing is written. With --strings lists and binaries of
printable characters stand between double quotes.

Example:
  printf \"[{{'\\$1','\\$1'},[],['\\$_']}]. {1,1}. {1,2}.\" | ets_tool run
writes
  {1,1}.";

const TEST_ABOUT: &str =
    "Reads a specification and then objects, and writes how each object comes out";

const TEST_EXAMPLE: &str = "\
Reads from standard input, as term text: a match specification, then the
objects, each term followed by a dot.
Writes to standard output, for each object in their order: {ok,A}. where the
specification answers A, and false. where it answers nothing. Where the input
is refused nothing is written. With --strings lists and binaries of printable
characters stand between double quotes.

Example:
  printf \"[{{'\\$1','\\$2'},[{'>','\\$1',1}],['\\$2']}]. {1,a}. {2,b}.\" | ets_tool test
writes
  false.
  {ok,b}.";

const COMPILE_ABOUT: &str = "Reads a specification and writes its code file";

const COMPILE_EXAMPLE: &str = "\
Reads from standard input, as term text: one match specification and a dot.
Writes to standard output: its code file as a binary, a dot and a line feed,
which `verify` and `run` read: of version 1, since its code has no routines.
Where the input is refused nothing is written.

Example:
  printf \"[{'_',[],[true]}].\" | ets_tool compile
writes
  <<69,77,83,67,0,1,0,0,0,1,2,0,4,116,114,117,101,0,3,2,0,0,24,25,0,1,0,2,0,0,0,0,0,0>>.";

const VERIFY_ABOUT: &str = "Reads a code file and writes what it takes";

const VERIFY_EXAMPLE: &str = "\
Reads from standard input, as term text: one code file as a binary and a dot,
of version 1, or of version 2, which has routines.
Writes to standard output, where the file is code that can be run, {ok,B,D}.
with B the most instructions that a run executes and D the greatest depth of
its stack, with those of routines. Where the input is refused nothing is
written.

Example:
  printf \"[{'_',[],[true]}].\" | ets_tool compile | ets_tool verify
writes
  {ok,2,1}.";

const SCRIPT_ABOUT: &str = "Reads commands on tables, and writes the reply to each";

const SCRIPT_EXAMPLE: &str = "\
Reads from standard input, as term text: commands, each followed by a dot.
Writes to standard output: for each command its reply, a dot and a line feed.
A command that is refused is replied {error,N}., and the script goes on. Where
the text can't be read nothing is written.

Commands, with S the number of a session from 0:
  {open,Kind,KeyPos,Parts,Sessions}  opens a table of Kind set, ordered_set,
      bag or duplicate_bag, whose key is element KeyPos (1 to 65535), with 1 to
      64 parts and 1 to 16 sessions; an ordered set has one part
  {insert,S,T} {insert_new,S,T} {delete_object,S,T}       of an object T
  {lookup,S,K} {member,S,K} {delete,S,K} {take,S,K} {next,S,K}   of a key K
  {first,S} {fix,S} {unfix,S} {leave,S}
  {select,S,Spec} {select_count,S,Spec} {select_delete,S,Spec}
      by a match specification Spec: answers, how many objects are answered
      true, and these are deleted
  {select,S,Spec,Limit} {more,S,C}  at most Limit answers, and those behind
      them by the number C that was replied
  {close}  replies the objects

Example:
  printf \"{open,set,1,1,1}. {insert,0,{1,a}}. {lookup,0,1}.\" | ets_tool script
writes
  true.
  true.
  [{1,a}].";

const SHELL_ABOUT: &str = "Reads commands on tables, and writes the reply to each while they come";

const SHELL_EXAMPLE: &str = "\
Reads from standard input, as term text: commands, as `script` reads them, line
by line. What is begun is looked at when a line has a dot before white space, %
or its end. Where it is terms each is replied; where it ends too early it goes
on in the next line. An empty line, or the end of the input, gives up what is
begun.
Writes to standard output: for each command its reply as `script` writes it,
and for what is begun and can't be read {error,N,At}., with the number of the
refusal and the byte where it is met; none of its commands is obeyed then, and
the next line begins anew. Replies are written before more is waited for.
With --prompt, for a person: `> ` in front of a line, `| ` in front of one that
goes on, \"ab\" in the place of [97,98], and what a refusal means in comments.

Example:
  printf \"{open,set,1,1,1}.\\n{lookup,0,1.\\n{lookup,0,1}.\\n\" | ets_tool shell
writes
  true.
  {error,5,11}.
  [].";

const SCAN_ABOUT: &str =
    "Reads a specification and then objects, and writes each answer by threads";

const SCAN_EXAMPLE: &str = "\
Reads from standard input, as term text: a match specification, then the
objects, each term followed by a dot. The objects are put into a table in their
order; each is a tuple with an element at the place of the key. The table is of
the kind that --kind names, and a set if none is given: of objects with one key
a set keeps the last, a bag those that differ, and a duplicate_bag all. Each
thread has its share of the table's parts.
Writes to standard output: for each object in the table that the specification
answers on the answer, a dot and a line feed, in the order of the table, which
is the same whatever the number of threads. Where the input is refused nothing
is written.

Example:
  printf \"[{{'\\$1'},[],['\\$1']}]. {1}. {2}. {3}. {4}.\" | ets_tool scan --parts 2 --workers 2
writes
  2.
  4.
  1.
  3.";

const EXPLAIN_ABOUT: &str =
    "Reads a specification or a code file and writes what it looks at and its code";

const EXPLAIN_EXAMPLE: &str = "\
Reads from standard input, as term text: one match specification, or one code
file as a binary, and a dot.
Writes to standard output: which objects a walk looks at in a table with this
place of the key, the keys that are looked up or all objects; the most
instructions that a run executes and the greatest depth of its stack; and a
line for each instruction, with its number, its name, its operand and where it
leads where it fails. Constants stand as they are, slots as the variables of
the specification, and as #0 in a code file. Where the input is refused nothing
is written.

Example:
  printf \"[{{a,'\\$1'},[],['\\$1']}].\" | ets_tool explain
writes
  walk at keypos 1: 1 looked up: a
  instructions of a run at most 12, stack at most 3
      0  load
      1  tuple       2                 else 12
      2  dup
      3  field       1
      4  const       a
      5  equal                         else 12
      6  dup
      7  field       2
      8  bind        $1
      9  drop
     10  get         $1
     11  answer
     12  no_answer";

const KINDS: &[&str] = &["set", "bag", "duplicate_bag"];

const KIND_HELP: &str = "The kind of the table";

const KEYPOS_HELP: &str = "The element of an object that is its key: 1 to 65535";

const PARTS_HELP: &str = "How many parts the keys are spread over: 1 to 64";

const WORKERS_HELP: &str = "How many threads answer: 1 to 16";

const PROMPT_HELP: &str = "Show a prompt, write texts as such, and say what a refusal means";

const WHY_HELP: &str = "Say what a refusal means, behind its line";

const STRINGS_HELP: &str = "Write printable text between double quotes";

/// Returns the program without its commands, one of which it requires.
fn tool<'a>(alloc: Global) -> Command<'a>
    ensures { app_of result ≡ bare_app }
{
    Command::new(alloc, "ets_tool")
        .version(VERSION)
        .about(ABOUT)
        .after_help(EXAMPLE)
        .subcommand_required(true)
}

/// Returns a command without options, with its help texts.
fn command<'a>(alloc: Global, name: &'a str, about: &'a str, example: &'a str) -> Command<'a>
    ensures shape { (p : ParserValue) → shape_of result ≡ shape_with p name.entry.now [] }
    ensures local { (fields_of result).has_globals ≡ false }
{
    Command::new(alloc, name).about(about).after_help(example)
}

/// Returns a command whose only option is `--why`.
fn plain_command<'a>(
    alloc: Global,
    name: &'a str,
    about: &'a str,
    example: &'a str,
) -> Result<Command<'a>, AllocError>
    ensures shape { IfOk result (λ command. (p : ParserValue)
        → shape_of command ≡ shape_with p name.entry.now ((codes "why", nothing) ∷ [])) }
    ensures local { IfOk result (λ command. (fields_of command).has_globals ≡ false) }
{
    command(alloc, name, about, example).arg(why(alloc))
}

/// Returns a command whose options are `--strings` and `--why`.
fn answering_command<'a>(
    alloc: Global,
    name: &'a str,
    about: &'a str,
    example: &'a str,
) -> Result<Command<'a>, AllocError>
    ensures shape { IfOk result (λ command. (p : ParserValue) → shape_of command
        ≡ shape_with p name.entry.now ((codes "strings", nothing) ∷ (codes "why", nothing) ∷ [])) }
    ensures local { IfOk result (λ command. (fields_of command).has_globals ≡ false) }
{
    command(alloc, name, about, example)
        .arg(flag(alloc, "strings", STRINGS_HELP))?
        .arg(why(alloc))
}

/// Returns an option with a value, which is `default` if it is not given.
fn option<'a>(
    alloc: Global,
    name: &'a str,
    about: &'a str,
    value_name: &'a str,
    default: &'a str,
    values: ValueParser<'a>,
) -> Arg<'a>
    ensures rule { rule_of result ≡ option_rule name.entry.now default.entry.now values.entry }
    ensures local { result.global ≡ false }
{
    Arg::new(alloc, name)
        .long(name)
        .help(about)
        .value_name(value_name)
        .default_value(default)
        .value_parser(values)
}

/// Returns a flag, an option without a value.
fn flag<'a>(alloc: Global, name: &'a str, about: &'a str) -> Arg<'a>
    ensures rule { (p : ParserValue) → rule_of result ≡ rule_for p name.entry.now nothing }
    ensures local { result.global ≡ false }
{
    Arg::new(alloc, name)
        .long(name)
        .help(about)
        .action(ArgAction::SetTrue)
}

/// Returns the flag `--why`: a fault is explained.
fn why<'a>(alloc: Global) -> Arg<'a>
    ensures rule { (p : ParserValue) → rule_of result ≡ rule_for p (codes "why") nothing }
    ensures local { result.global ≡ false }
{
    flag(alloc, "why", WHY_HELP)
}

/// Returns the flag `--prompt`: a shell is for a person.
fn prompt<'a>(alloc: Global) -> Arg<'a>
    ensures rule { (p : ParserValue) → rule_of result ≡ rule_for p (codes "prompt") nothing }
    ensures local { result.global ≡ false }
{
    flag(alloc, "prompt", PROMPT_HELP)
}

/// Returns the parser of kind names.
fn kind_names<'a>() -> ValueParser<'a>
    ensures { IsKindParser result }
{
    ValueParser::Names(KINDS)
}

/// Returns the option `--kind`: the kind of the table, a set if it is not given.
fn kind<'a>(alloc: Global) -> Arg<'a>
    ensures rule { (p : ParserValue) × IsKindParser p × (rule_of result ≡ rule_for p (codes "kind") kind) }
    ensures local { result.global ≡ false }
{
    option(alloc, "kind", KIND_HELP, "KIND", "set", kind_names())
}

/// Returns the option `--keypos`: the key position, 1 to 65,535.
fn keypos<'a>(alloc: Global) -> Arg<'a>
    ensures rule { (p : ParserValue) → rule_of result ≡ rule_for p (codes "keypos") (number 65535) }
    ensures local { result.global ≡ false }
{
    let numbers = value_parser!(u16).range(1..=65_535);
    option(alloc, "keypos", KEYPOS_HELP, "N", "1", numbers)
}

/// Returns the option `--parts`: the number of parts, 1 to 64.
fn parts<'a>(alloc: Global) -> Arg<'a>
    ensures rule { (p : ParserValue) → rule_of result ≡ rule_for p (codes "parts") (number 64) }
    ensures local { result.global ≡ false }
{
    let numbers = value_parser!(u16).range(1..=64);
    option(alloc, "parts", PARTS_HELP, "N", "1", numbers)
}

/// Returns the option `--workers`: the number of workers, 1 to 16.
fn workers<'a>(alloc: Global) -> Arg<'a>
    ensures rule { (p : ParserValue) → rule_of result ≡ rule_for p (codes "workers") (number 16) }
    ensures local { result.global ≡ false }
{
    let numbers = value_parser!(u16).range(1..=16);
    option(alloc, "workers", WORKERS_HELP, "N", "1", numbers)
}

/// Returns the command `shell`, with its options.
fn shell_command<'a>(alloc: Global) -> Result<Command<'a>, AllocError>
    ensures shape { IfOk result (λ command. (p : ParserValue) → shape_of command ≡ command_shape p to_shell) }
    ensures local { IfOk result (λ command. (fields_of command).has_globals ≡ false) }
{
    command(alloc, "shell", SHELL_ABOUT, SHELL_EXAMPLE)
        .arg(prompt(alloc))?
        .arg(why(alloc))
}

/// Returns the command `scan`, with its options.
fn scan_command<'a>(alloc: Global) -> Result<Command<'a>, AllocError>
    ensures shape { IfOk result (λ command. (p : ParserValue) × IsKindParser p
        × (shape_of command ≡ command_shape p to_scan)) }
    ensures local { IfOk result (λ command. (fields_of command).has_globals ≡ false) }
{
    command(alloc, "scan", SCAN_ABOUT, SCAN_EXAMPLE)
        .arg(kind(alloc))?
        .arg(keypos(alloc))?
        .arg(parts(alloc))?
        .arg(workers(alloc))?
        .arg(why(alloc))
}

/// Returns the command `explain`, with its options.
fn explain_command<'a>(alloc: Global) -> Result<Command<'a>, AllocError>
    ensures shape { IfOk result (λ command. (p : ParserValue) → shape_of command ≡ command_shape p to_explain) }
    ensures local { IfOk result (λ command. (fields_of command).has_globals ≡ false) }
{
    command(alloc, "explain", EXPLAIN_ABOUT, EXPLAIN_EXAMPLE)
        .arg(keypos(alloc))?
        .arg(why(alloc))
}

/// Returns the program with one more command, whose only option is `--why`.
fn with_plain<'a>(
    alloc: Global,
    program: Command<'a>,
    name: &'a str,
    about: &'a str,
    example: &'a str,
) -> Result<Command<'a>, AllocError>
    ensures { IfOk result (λ new. (p : ParserValue)
        → app_of new ≡ with_subcommand (app_of program.entry) (shape_with p name.entry.now ((codes "why", nothing) ∷ []))) }
{
    program.subcommand(plain_command(alloc, name, about, example)?)
}

/// Returns the program with one more command, whose options are `--strings` and `--why`.
fn with_answering<'a>(
    alloc: Global,
    program: Command<'a>,
    name: &'a str,
    about: &'a str,
    example: &'a str,
) -> Result<Command<'a>, AllocError>
    ensures { IfOk result (λ new. (p : ParserValue) → app_of new ≡ with_subcommand (app_of program.entry)
        (shape_with p name.entry.now ((codes "strings", nothing) ∷ (codes "why", nothing) ∷ []))) }
{
    program.subcommand(answering_command(alloc, name, about, example)?)
}

/// Returns the program with the commands whose only options are `--why` and, for some, `--strings`.
fn plain_program<'a>(alloc: Global) -> Result<Command<'a>, AllocError>
    ensures { IfOk result (λ command. (p : ParserValue) → app_of command
        ≡ fold with_subcommand bare_app (map (command_shape p) plain_commands)) }
{
    let program = with_answering(alloc, tool(alloc), "run", RUN_ABOUT, RUN_EXAMPLE)?;
    let program = with_answering(alloc, program, "test", TEST_ABOUT, TEST_EXAMPLE)?;
    let program = with_plain(alloc, program, "compile", COMPILE_ABOUT, COMPILE_EXAMPLE)?;
    let program = with_plain(alloc, program, "verify", VERIFY_ABOUT, VERIFY_EXAMPLE)?;
    with_plain(alloc, program, "script", SCRIPT_ABOUT, SCRIPT_EXAMPLE)
}

/// Returns the program with its commands, as `clap` reads them.
fn program<'a>(alloc: Global) -> Result<Command<'a>, AllocError>
    ensures { IfOk result (λ command. (p : ParserValue) × IsKindParser p × (app_of command ≡ tool_app p)) }
{
    plain_program(alloc)?
        .subcommand(shell_command(alloc)?)?
        .subcommand(scan_command(alloc)?)?
        .subcommand(explain_command(alloc)?)
}

/// Returns the kind that was entered or is the default.
fn kind_in(matches: &ArgMatches<'_>) -> ScanKind
    requires { (k : KindValue) × IsKindOf k (rows_of (found_of matches.now)) }
    ensures { (k : KindValue) → IsKindOf k (rows_of (found_of matches.now)) → result ≡ k }
{
    match matches.get_one::<ScanKind>("kind") {
        Some(kind) => kind,
        None => unreachable!(),
    }
}

/// Returns the number of an option, entered or the default.
fn number(matches: &ArgMatches<'_>, name: &str) -> u16
    requires { (most : ℕ) × (n : ℕ) × (most < 65536) × IsReadOf name.now most n (rows_of (found_of matches.now)) }
    ensures { (most n : ℕ) → most < 65536 → IsReadOf name.now most n (rows_of (found_of matches.now))
        → (result ≡ n) × (n ≤ most) }
{
    match matches.get_one::<u16>(name) {
        Some(number) => number,
        None => unreachable!(),
    }
}

/// Returns the options of `scan`.
fn scan_options(matches: &ArgMatches<'_>) -> ScanOptions
    requires { (o : ScanOptions) × AreRead o (rows_of (found_of matches.now)) }
    ensures { (o : ScanOptions) → AreRead o (rows_of (found_of matches.now)) → result ≡ o }
{
    ScanOptions {
        kind: kind_in(matches),
        keypos: number(matches, "keypos"),
        parts: number(matches, "parts") as u8,
        workers: number(matches, "workers") as u8,
    }
}

/// Returns how much of a fault is reported: an explanation if `--why` was given.
fn detail_in(matches: &ArgMatches<'_>) -> Detail
    requires { (d : DetailValue) × IsFlagOf (codes "why") (is_explained d) (rows_of (found_of matches.now)) }
    ensures { (d : DetailValue) → IsFlagOf (codes "why") (is_explained d) (rows_of (found_of matches.now)) → result ≡ d }
{
    if matches.get_flag("why") {
        Detail::Explained
    } else {
        Detail::Line
    }
}

/// Returns the form in which answers are written: readable if `--strings` was given.
fn form_in(matches: &ArgMatches<'_>) -> Form
    requires { (f : FormValue) × IsFlagOf (codes "strings") (shows_strings f) (rows_of (found_of matches.now)) }
    ensures { (f : FormValue) → IsFlagOf (codes "strings") (shows_strings f) (rows_of (found_of matches.now)) → result ≡ f }
{
    if matches.get_flag("strings") {
        Form::Readable
    } else {
        Form::Canonical
    }
}

/// Returns the request for a shell: for a person if `--prompt` was given.
fn shell_request(matches: &ArgMatches<'_>) -> Request
    requires { (b : Bool) × IsFlagOf (codes "prompt") b (rows_of (found_of matches.now)) }
    ensures { (b : Bool) → IsFlagOf (codes "prompt") b (rows_of (found_of matches.now)) → result ≡ shell_for b }
{
    if matches.get_flag("prompt") {
        Request::Prompt
    } else {
        Request::Shell
    }
}

/// Returns the request of the command with this name and these options.
fn request_in(name: &str, matches: &ArgMatches<'_>) -> Request
    requires { (which : Optioned) × (r : RequestValue) × (name.now ≡ name_of which)
        × IsRequestOf which r (rows_of (found_of matches.now)) }
    ensures { (which : Optioned) (r : RequestValue) → name.now ≡ name_of which
        → IsRequestOf which r (rows_of (found_of matches.now)) → result ≡ r }
{
    match name {
        "test" => Request::Test(form_in(matches)),
        "compile" => Request::Compile,
        "verify" => Request::Verify,
        "script" => Request::Script,
        "shell" => shell_request(matches),
        "scan" => Request::Scan(scan_options(matches)),
        "explain" => Request::Explain(number(matches, "keypos")),
        _ => Request::Run(form_in(matches)),
    }
}

/// Returns the command that was entered, with its options.
fn entered(matches: &ArgMatches<'_>) -> Invocation
    requires { (i : InvocationValue) × IsEntered i (subcommand_rows (out-ArgMatches matches.now).subcommand) }
    ensures { (i : InvocationValue) → IsEntered i (subcommand_rows (out-ArgMatches matches.now).subcommand) → result ≡ i }
{
    match matches.subcommand() {
        Some((name, matches)) => Invocation {
            request: request_in(name, matches),
            detail: detail_in(matches),
        },
        None => unreachable!(),
    }
}

/// Returns what the words request; the first word is the program's name. Fails with the error of `clap` if the words
/// are not understood, or request help or the version.
pub fn read_words<'a, S: AsStr>(alloc: Global, words: &'a [S]) -> Result<Invocation, Error>
    ensures { Reads (asked (map S.text words.entry.now)) result }
{
    let matches = program(alloc)?.try_get_matches_from(words)?;
    Ok(entered(&matches))
}
