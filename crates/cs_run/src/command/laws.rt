// The law of what `run` promises: there is one text at most that it speaks of.

ghost use Rattle.std.specs.Prelude.{Option, Result, ℕ};
ghost use Rattle.cs_words.specs.Requests.{PlainRequest};
ghost use Rattle.cs_run.specs.Ending.Texts.{HasOneText};
ghost use Rattle.cs_io.specs.Desk.{Files};

use cs_chain_text::one_chains_text;
use cs_check_text::one_check_text;
use cs_deep::one_deep;
use cs_lexical::one_lexical_text;
use cs_manifest::one_manifest;
use cs_spell::one_spelling;
use cs_wrong::one_wrong_text;

/// Where a desk tells its files, or none are asked for, at most one text is asked for; but for `member`, which may tell of a
/// sentence by each of its derivations.
pub fn one_asked_text()
    ensures { (asked : Result PlainRequest ℕ) (files : Option Files) → HasOneText asked files }
{
    one_manifest();
    one_lexical_text();
    one_spelling();
    one_deep();
    one_chains_text();
    one_wrong_text();
    one_check_text();
}
