// What words ask for.

ghost use Rattle.std.specs.Prelude.{◌≡◌, ◌≤◌, ◌<◌, [], IfErr, IfNone, IfOk, IfSome, drop, length, take};
ghost use Rattle.cs_words.specs.Words.{IsAccepted, IsFirstBad, is_name, texts};
ghost use Rattle.cs_words.specs.Commands.{Files, Seed, taken_of};
ghost use Rattle.cs_words.specs.Requests.{AskForIt, IsFitting, all_words, plain_request};
ghost use Rattle.cs_words.specs.Options.{AreNew, AreOptions};
ghost use Rattle.cs_words.specs.Steps.{AreNames, BeginsWithSeed, IsChosenFor, IsTakenFrom, LacksAt, LacksName, LacksSeed, StopsAt, has_second_name};

use crate::command::{Command, Role};
use crate::given::Given;
use crate::options::Options;
use crate::setting::read_option;
use crate::values::read_seed;

/// What words ask for.
#[derive(Drop)]
pub struct Request<'w> {
    pub command: Command,
    pub arguments: Arguments<'w>,
    /// The options of the command, with the defaults for those that no word gives.
    pub options: Options,
}

/// What a command takes.
#[derive(Clone, Copy)]
pub enum Arguments<'w> {
    /// Names of files, in the order of the command's roles.
    Files(&'w [String]),
    /// The number that two files are made of.
    Seed(u64),
}

/// The place, from 0, of the first word that can't stand where it stands; where one is missing, the number of words.
#[derive(Clone, Copy, Debug, PartialEq, Eq)]
pub struct BadWord {
    pub at: usize,
}

/// What the words ask for, or the first that can't stand where it stands. The words are the program's arguments without
/// its own name.
pub fn read_words(words: &[String]) -> Result<Request<'_>, BadWord>
    ensures accepted { IfOk result (λ _. IsAccepted (texts words.now)) }
    ensures asked { IfOk result (AskForIt (texts words.now)) }
    ensures fitting { IfOk result (λ request. IsFitting (plain_request request)) }
    ensures bad { IfErr result (λ bad. IsFirstBad (texts words.now) bad.at) }
{
    match words {
        [] => Err(BadWord { at: 0 }),
        [first, rest @ ..] => match Command::named(first.as_str(), has_second_name(rest)) {
            Some(command) => read_behind(command, rest),
            None => Err(BadWord { at: 0 }),
        },
    }
}

// Whether a second name stands there.
fn has_second_name(words: &[String]) -> bool
    ensures { result ≡ has_second_name (texts words.now) }
{
    match words {
        [_, second, ..] => may_be_name(second.as_str()),
        _ => false,
    }
}

// What a command and the words behind it ask for.
fn read_behind<'w>(command: Command, words: &'w [String]) -> Result<Request<'w>, BadWord>
    requires chosen { IsChosenFor command (texts words.now) }
    ensures accepted { IfOk result (λ _. IsAccepted (all_words command words.now)) }
    ensures asked { IfOk result (AskForIt (all_words command words.now)) }
    ensures fitting { IfOk result (λ request. IsFitting (plain_request request)) }
    ensures bad { IfErr result (λ bad. IsFirstBad (all_words command words.now) bad.at) }
{
    let taken = match read_arguments(command, words) {
        Ok(taken) => taken,
        Err(at) => return Err(BadWord { at: 1 + at }),
    };
    match read_options(command, taken.rest) {
        Ok(options) => Ok(Request {
            command,
            arguments: taken.arguments,
            options,
        }),
        Err(at) => Err(BadWord {
            at: 1 + taken.count + at,
        }),
    }
}

// What a command takes, how many words that are, and the words behind them.
#[derive(Clone, Copy)]
struct Taken<'w> {
    arguments: Arguments<'w>,
    count: usize,
    rest: &'w [String],
}

// What the command takes in front of the words, or the place of the first word that it doesn't.
fn read_arguments<'w>(command: Command, words: &'w [String]) -> Result<Taken<'w>, usize>
    ensures begins { IfOk result (IsTakenFrom command words.now) }
    ensures lacks { IfErr result (LacksAt command (texts words.now)) }
{
    match command.roles() {
        Some(roles) => read_names(command, roles, words),
        None => read_number(command, words),
    }
}

// The names of files in front, one for each role.
fn read_names<'w>(command: Command, roles: &[Role], words: &'w [String]) -> Result<Taken<'w>, usize>
    requires { taken_of command ≡ Files roles.now }
    ensures begins { IfOk result (IsTakenFrom command words.now) }
    ensures lacks { IfErr result (LacksAt command (texts words.now)) }
{
    let count = count_names(words, roles.len());
    if count < roles.len() {
        return Err(count);
    }
    let (names, rest) = words.split_at(count);
    Ok(Taken {
        arguments: Arguments::Files(names),
        count,
        rest,
    })
}

// How many words in front may be names, but at most so many.
fn count_names(words: &[String], most: usize) -> usize
    ensures within { result ≤ length (texts words.now) }
    ensures few { result ≤ most }
    ensures names { AreNames (take result (texts words.now)) }
    ensures stops { result < most → LacksName (drop result (texts words.now)) }
{
    for (place, word) in words.iter().enumerate() {
        if place == most || !may_be_name(word.as_str()) {
            return place;
        }
    }
    words.len()
}

// The seed in front.
fn read_number<'w>(command: Command, words: &'w [String]) -> Result<Taken<'w>, usize>
    requires { taken_of command ≡ Seed }
    ensures begins { IfOk result (IsTakenFrom command words.now) }
    ensures lacks { IfErr result (LacksAt command (texts words.now)) }
{
    match front_seed(words) {
        Some((seed, rest)) => Ok(Taken {
            arguments: Arguments::Seed(seed),
            count: 1,
            rest,
        }),
        None => Err(0),
    }
}

// The seed in front, and the words behind it.
fn front_seed(words: &[String]) -> Option<(u64, &[String])>
    ensures some { IfSome result
        (λ pair. BeginsWithSeed (texts words.now) pair.0 (texts pair.1.now)) }
    ensures none { IfNone result (LacksSeed (texts words.now)) }
{
    match words {
        [] => None,
        [word, rest @ ..] => Some((read_seed(word.as_bytes())?, rest)),
    }
}

// The options of the command, or the place of the first that can't stand where it stands.
fn read_options(command: Command, words: &[String]) -> Result<Options, usize>
    ensures stand { IfOk result (λ _. AreNew command [] (texts words.now)) }
    ensures options { IfOk result (AreOptions (texts words.now)) }
    ensures stops { IfErr result (StopsAt command (texts words.now)) }
{
    let mut given = Given::new();
    for (place, word) in words.iter().enumerate() {
        let Some(setting) = read_option(word.as_str()) else {
            return Err(place);
        };
        if !command.may_have(setting.kind()) {
            return Err(place);
        }
        if !given.set(setting) {
            return Err(place);
        }
    }
    Ok(given.options())
}

fn may_be_name(word: &str) -> bool
    ensures { result ≡ is_name word.now }
{
    match word.as_bytes() {
        [] => false,
        [first, ..] => *first != b'-',
    }
}
