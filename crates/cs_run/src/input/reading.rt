// Reads the files that a command names.

ghost use Rattle.std.specs.Prelude.{◌≡◌, ◌≤◌, [], IfErr, IfOk, IsTrue, length};
ghost use Rattle.cs_lex.specs.Reading.File.{HasTokensOf};
ghost use Rattle.cs_run.specs.Input.Files.{IsMeantFor, IsNoFile};
ghost use Rattle.cs_run.specs.Input.Refusal.{CanBeTold, FileStops, FilesStop};
ghost use Rattle.cs_run.specs.Input.Read.{AreMeant, HasItsTokens, HasTokensOfItsFile, IsFormOf, IsGrammarIn, IsPairIn, IsTextIn, ReadsFile};
ghost use Rattle.cs_run.specs.Input.Read as spec;
ghost use Rattle.cs_words.specs.Commands.{taken_of};
ghost use Rattle.cs_words.specs.Words.{texts};
ghost use Rattle.cs_words.specs.Requests.{Fit, IsFitting, Names, files_in, files_named, one_named, plain_request, three_named, two_named};

use crate::input::judging::{
    Meant, Pair, PairAndText, judge_grammar, judge_pair, judge_text, most_of,
};
use crate::input::refusal::Stop;
use cs_io::{Desk, DeskError};
use cs_words::{Arguments, Command, Request, Role};
use cs_yacc::YaccFile;
use std::alloc::Global;

/// What the files of a request mean, or why they aren't given: one can't be read, they are refused, or want of memory. All
/// are read before any is judged, each by one call, and behind one that can't be read no other is asked for.
pub fn read_files<D: Desk>(
    alloc: Global,
    request: &Request<'_>,
    desk: &mut D,
) -> Result<Meant, Stop>
    requires { IsFitting (plain_request request.now) }
    ensures read { IfOk result (AreMeant (D.files desk.old) (files_in request.now)) }
    ensures form { IfOk result (IsFormOf request.now) }
    ensures tokens { IfOk result HasItsTokens }
    ensures stops { IfErr result (FilesStop D.Desk desk.old desk.new (files_in request.now)) }
    ensures told { IfErr result CanBeTold }
    ensures failed { ¬ (D.faults desk.new ≡ D.faults desk.old) → IsNoFile result }
    ensures steady { IsTrue (D.steady desk.old) → D.faults desk.new ≡ D.faults desk.old }
    ensures same_files { D.files desk.new ≡ D.files desk.old }
    ensures same_steady { D.steady desk.new ≡ D.steady desk.old }
    ensures no_files { files_in request.now ≡ [] → desk.new ≡ desk.old }
{
    match request.arguments {
        Arguments::Seed(_) => Ok(Meant::Nothing),
        Arguments::Files(names) => read_named(alloc, request.command, names, desk),
    }
}

// What the files of these names mean to a command.
fn read_named<D: Desk>(
    alloc: Global,
    command: Command,
    names: &[String],
    desk: &mut D,
) -> Result<Meant, Stop>
    requires { Fit (taken_of command) (Names (texts names.now)) }
    ensures read { IfOk result (AreMeant (D.files desk.old) (files_named command names.now)) }
    ensures form { IfOk result (IsMeantFor (taken_of command) (Names (texts names.now))) }
    ensures tokens { IfOk result HasItsTokens }
    ensures stops { IfErr result
        (FilesStop D.Desk desk.old desk.new (files_named command names.now)) }
    ensures told { IfErr result CanBeTold }
    ensures failed { ¬ (D.faults desk.new ≡ D.faults desk.old) → IsNoFile result }
    ensures steady { IsTrue (D.steady desk.old) → D.faults desk.new ≡ D.faults desk.old }
    ensures same_files { D.files desk.new ≡ D.files desk.old }
    ensures same_steady { D.steady desk.new ≡ D.steady desk.old }
    ensures some { ¬ (files_named command names.now ≡ []) }
{
    match names {
        [yacc] => match read_grammar(alloc, yacc.as_str(), desk) {
            Ok(file) => Ok(Meant::Grammar(file)),
            Err(stop) => Err(stop),
        },
        [yacc, lex] => match read_pair(alloc, yacc.as_str(), lex.as_str(), desk) {
            Ok(pair) => Ok(Meant::Pair(pair)),
            Err(stop) => Err(stop),
        },
        [yacc, lex, text] => {
            let role = third_role(command);
            match read_text(
                alloc,
                yacc.as_str(),
                lex.as_str(),
                role,
                text.as_str(),
                desk,
            ) {
                Ok(beside) => Ok(Meant::Text(beside)),
                Err(stop) => Err(stop),
            }
        }
        _ => unreachable!(),
    }
}

// The yacc file of that name.
fn read_grammar<D: Desk>(alloc: Global, name: &str, desk: &mut D) -> Result<YaccFile, Stop>
    ensures read { IfOk result (IsGrammarIn (D.files desk.old) name.now) }
    ensures stops { IfErr result (FilesStop D.Desk desk.old desk.new (one_named name.now)) }
    ensures told { IfErr result CanBeTold }
    ensures failed { ¬ (D.faults desk.new ≡ D.faults desk.old) → IsNoFile result }
    ensures steady { IsTrue (D.steady desk.old) → D.faults desk.new ≡ D.faults desk.old }
    ensures same_files { D.files desk.new ≡ D.files desk.old }
    ensures same_steady { D.steady desk.new ≡ D.steady desk.old }
{
    let bytes = read_file(alloc, name, Role::Yacc, desk)?;
    judge_grammar(alloc, &bytes)
}

// The yacc file and the lex file of these names. Both are read before either is judged.
fn read_pair<D: Desk>(alloc: Global, yacc: &str, lex: &str, desk: &mut D) -> Result<Pair, Stop>
    ensures read { IfOk result (IsPairIn (D.files desk.old) yacc.now lex.now) }
    ensures tokens { IfOk result (λ pair. HasTokensOf (length pair.yacc.token_names) pair.lex) }
    ensures stops { IfErr result
        (FilesStop D.Desk desk.old desk.new (two_named yacc.now lex.now)) }
    ensures told { IfErr result CanBeTold }
    ensures failed { ¬ (D.faults desk.new ≡ D.faults desk.old) → IsNoFile result }
    ensures steady { IsTrue (D.steady desk.old) → D.faults desk.new ≡ D.faults desk.old }
    ensures same_files { D.files desk.new ≡ D.files desk.old }
    ensures same_steady { D.steady desk.new ≡ D.steady desk.old }
{
    let bytes = read_file(alloc, yacc, Role::Yacc, desk)?;
    match read_file(alloc, lex, Role::Lex, desk) {
        Ok(more) => judge_pair(alloc, &bytes, &more),
        Err(stop) => Err(stop),
    }
}

// What the third file is to a command that takes three.
fn third_role(command: Command) -> Role
    ensures { result ≡ spec.third_role command }
{
    match command {
        Command::Check => Role::Manifest,
        Command::OfGrammar(_) | Command::OfPair(_) | Command::Member | Command::Gen => Role::Text,
    }
}

// The yacc file, the lex file and the third file of these names. All are read before any is judged.
fn read_text<D: Desk>(
    alloc: Global,
    yacc: &str,
    lex: &str,
    role: Role,
    text: &str,
    desk: &mut D,
) -> Result<PairAndText, Stop>
    ensures read { IfOk result (IsTextIn role (D.files desk.old) yacc.now lex.now text.now) }
    ensures tokens { IfOk result HasTokensOfItsFile }
    ensures stops { IfErr result
        (FilesStop D.Desk desk.old desk.new (three_named role yacc.now lex.now text.now)) }
    ensures told { IfErr result CanBeTold }
    ensures failed { ¬ (D.faults desk.new ≡ D.faults desk.old) → IsNoFile result }
    ensures steady { IsTrue (D.steady desk.old) → D.faults desk.new ≡ D.faults desk.old }
    ensures same_files { D.files desk.new ≡ D.files desk.old }
    ensures same_steady { D.steady desk.new ≡ D.steady desk.old }
{
    let bytes = read_file(alloc, yacc, Role::Yacc, desk)?;
    let more = read_file(alloc, lex, Role::Lex, desk)?;
    match read_file(alloc, text, role, desk) {
        Ok(text) => judge_text(alloc, &bytes, &more, role, text),
        Err(stop) => Err(stop),
    }
}

// The first bytes of a file, one more than it may have.
fn read_file<D: Desk>(alloc: Global, name: &str, role: Role, desk: &mut D) -> Result<Vec<u8>, Stop>
    ensures read { IfOk result (ReadsFile role (D.files desk.old) name.now) }
    ensures calm { IfOk result (λ _. D.faults desk.new ≡ D.faults desk.old) }
    ensures stops { IfErr result (FileStops D.Desk desk.old desk.new role name.now) }
    ensures told { IfErr result CanBeTold }
    ensures faults_never_fall { D.faults desk.old ≤ D.faults desk.new }
    ensures steady { IsTrue (D.steady desk.old) → D.faults desk.new ≡ D.faults desk.old }
    ensures same_files { D.files desk.new ≡ D.files desk.old }
    ensures same_steady { D.steady desk.new ≡ D.steady desk.old }
{
    match desk.read(alloc, name, most_of(role) + 1) {
        Ok(bytes) => Ok(bytes),
        Err(DeskError::Memory) => Err(Stop::Memory),
        Err(_) => Err(Stop::NoFile(role)),
    }
}
