// Laws of slips, their lists and the text.

ghost use Rattle.std.specs.Prelude.{List};
ghost use Rattle.cs_grammar.specs.Grammar.{PlainGrammar};
ghost use Rattle.cs_grammar.specs.Weights.{Weighed};
ghost use Rattle.cs_wrong.specs.Classes.Classes.{IsNoSentence};
ghost use Rattle.cs_wrong.specs.Slips.Lists.{HasOneList};
ghost use Rattle.cs_wrong.specs.Slips.Slips.{HasEachSlip, HasNoSlipTwice};
ghost use Rattle.cs_wrong.specs.Writing.Text.{AddsUp, HasOneWrongText, HasSomeWrongText, SlipEntry};
ghost use Rattle.cs_wrong.specs.Writing.Text.{WritesEachOnce, WritesNoSentence};
ghost use Rattle.cs_choices.specs.declared.slips.Slips.{Slips};
ghost use Rattle.cs_wrong.specs.declared.slips.slip.Slip.{Slip};
ghost use Rattle.cs_yacc.specs.Reading.File.{File};

use cs_manifest::one_text;
use cs_scanner::some_list_of_lexemes;
use cs_texts::some_rendering;

/// Each slip of a grammar stands in the list of its slips once, and nothing else stands there.
pub fn each_slip_once()
    ensures once { (g : PlainGrammar) (chosen : Slips) → HasNoSlipTwice g chosen }
    ensures all { (g : PlainGrammar) (chosen : Slips) → HasEachSlip g chosen }
{}

/// A slip has at most one list.
pub fn one_list_of_slip()
    ensures { (v : Weighed) (slip : Slip) → HasOneList v slip }
{}

/// A list that is written is no sentence: no tree of the start symbol yields it.
pub fn wrong_lists_are_no_sentences()
    ensures slips { (v : Weighed) (earlier : List Slip) (slip : Slip)
        → IsNoSentence v earlier slip }
    ensures texts { (file : File) (chosen : Slips) → WritesNoSentence file chosen }
{}

/// Each list of a slip that has a poisoned pair, or has at most 2,000 tokens and is no sentence, is written, and none is
/// written twice.
pub fn each_wrong_list_once()
    ensures { (file : File) (chosen : Slips) → WritesEachOnce file chosen }
{}

/// The counts of the six classes add up to that of the slips.
pub fn slips_add_up()
    ensures { (entries : List SlipEntry) → AddsUp entries }
{}

/// A file has at most one text of `wrong` with the chosen kinds of slips.
pub fn one_wrong_text()
    ensures { (file : File) (chosen : Slips) → HasOneWrongText file chosen }
{
    one_text();
}

/// No file is without a text of `wrong`.
pub fn some_wrong_text()
    ensures { (file : File) (chosen : Slips) → HasSomeWrongText file chosen }
{
    some_list_of_lexemes();
    some_rendering();
}
