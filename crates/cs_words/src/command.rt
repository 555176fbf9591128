// The commands: their words, what they take, and which options they may have.

ghost use Rattle.std.specs.Prelude.{◌≡◌, IfNone, IfSome};
ghost use Rattle.cs_words.specs.Commands.{Files, Seed, command_word, grammar_word, may_have, pair_may_have, pair_word, taken_of};
ghost use Rattle.cs_words.specs.Steps.{IsChosenBy};
ghost use Rattle.cs_words.specs.declared.command.Command.{Command};
ghost use Rattle.cs_words.specs.declared.command.GrammarCommand.{GrammarCommand};
ghost use Rattle.cs_words.specs.declared.command.PairCommand.{PairCommand};

use crate::setting::Kind;

/// A command, by what it takes.
#[derive(Clone, Copy, Debug, PartialEq, Eq)]
pub enum Command {
    /// A yacc file.
    OfGrammar(GrammarCommand),
    /// A yacc file and a lex file.
    OfPair(PairCommand),
    /// A yacc file, a lex file and a text: whether it is a sentence, with a derivation.
    Member,
    /// A yacc file, a lex file and a manifest: whether it holds what it claims.
    Check,
    /// A number: the summary of the two files that it stands for.
    Gen,
}

/// What is asked for by a yacc file.
#[derive(Clone, Copy, Debug, PartialEq, Eq)]
pub enum GrammarCommand {
    /// The rule goals.
    Rules,
    /// The rules under rules under rules.
    Chains,
}

/// What is asked for by a yacc file and a lex file.
#[derive(Clone, Copy, Debug, PartialEq, Eq)]
pub enum PairCommand {
    /// The suite.
    Suite,
    /// What each rule of the lex file takes, and in what each two of them overlap.
    Lexical,
    /// A text for each rule of the lex file, in which it is spelled.
    Spell,
    /// The edits outside of the language that hold no pair which no sentence has.
    Deep,
    /// The rules under rules under rules, with texts.
    Chains,
    /// The lists outside of the language that slips of one rule let through.
    Wrong,
}

/// What a file is to a command.
#[derive(Clone, Copy, Debug, PartialEq, Eq)]
pub enum Role {
    Yacc,
    Lex,
    /// A text that is to be scanned.
    Text,
    /// A manifest that is to be checked.
    Manifest,
}

impl GrammarCommand {
    // The command of that word.
    fn named(word: &str) -> Option<GrammarCommand>
        ensures some { IfSome result (λ command. word.now ≡ grammar_word command) }
        ensures none { IfNone result
            ((command : GrammarCommand) → ¬ (word.now ≡ grammar_word command)) }
    {
        if word == "rules" {
            return Some(GrammarCommand::Rules);
        }
        if word == "chains" {
            return Some(GrammarCommand::Chains);
        }
        None
    }
}

impl PairCommand {
    // The command of that word.
    fn named(word: &str) -> Option<PairCommand>
        ensures some { IfSome result (λ command. word.now ≡ pair_word command) }
        ensures none { IfNone result
            ((command : PairCommand) → ¬ (word.now ≡ pair_word command)) }
    {
        if word == "suite" {
            return Some(PairCommand::Suite);
        }
        if word == "lexical" {
            return Some(PairCommand::Lexical);
        }
        if word == "spell" {
            return Some(PairCommand::Spell);
        }
        if word == "deep" {
            return Some(PairCommand::Deep);
        }
        if word == "chains" {
            return Some(PairCommand::Chains);
        }
        if word == "wrong" {
            return Some(PairCommand::Wrong);
        }
        None
    }

    // Whether it may have options of that kind.
    fn may_have(self, kind: Kind) -> bool
        ensures { result ≡ pair_may_have self kind }
    {
        match (self, kind) {
            (PairCommand::Suite, Kind::Slips) => false,
            (PairCommand::Suite, _) => true,
            (PairCommand::Deep, Kind::Format | Kind::Slips | Kind::First) => false,
            (PairCommand::Deep, _) => true,
            (PairCommand::Wrong, Kind::Slips | Kind::Separator | Kind::Weigh) => true,
            (PairCommand::Spell | PairCommand::Chains, Kind::Separator | Kind::Weigh) => true,
            (_, _) => false,
        }
    }
}

impl Command {
    /// The command of that word. Of two with one word it is the one that takes a lex file, where a name stands for that.
    pub(crate) fn named(word: &str, has_second_name: bool) -> Option<Command>
        ensures some { IfSome result (λ command. word.now ≡ command_word command) }
        ensures chosen { IfSome result (IsChosenBy has_second_name) }
        ensures none { IfNone result ((command : Command) → ¬ (word.now ≡ command_word command)) }
    {
        if has_second_name {
            if let Some(command) = PairCommand::named(word) {
                return Some(Command::OfPair(command));
            }
        }
        if let Some(command) = GrammarCommand::named(word) {
            return Some(Command::OfGrammar(command));
        }
        if let Some(command) = PairCommand::named(word) {
            return Some(Command::OfPair(command));
        }
        if word == "member" {
            return Some(Command::Member);
        }
        if word == "check" {
            return Some(Command::Check);
        }
        if word == "gen" {
            return Some(Command::Gen);
        }
        None
    }

    /// What the files are that it takes, in the order of their names; `None` for a command that takes a seed.
    pub fn roles(self) -> Option<&'static [Role]>
        ensures files { IfSome result (λ roles. taken_of self ≡ Files roles.now) }
        ensures seed { IfNone result (taken_of self ≡ Seed) }
    {
        match self {
            Command::OfGrammar(_) => Some(&[Role::Yacc]),
            Command::OfPair(_) => Some(&[Role::Yacc, Role::Lex]),
            Command::Member => Some(&[Role::Yacc, Role::Lex, Role::Text]),
            Command::Check => Some(&[Role::Yacc, Role::Lex, Role::Manifest]),
            Command::Gen => None,
        }
    }

    /// Whether it may have options of that kind.
    pub(crate) fn may_have(self, kind: Kind) -> bool
        ensures { result ≡ may_have self kind }
    {
        match self {
            Command::OfPair(command) => command.may_have(kind),
            Command::OfGrammar(_) | Command::Member | Command::Check | Command::Gen => false,
        }
    }
}
