// Laws of renderings.

ghost use Rattle.std.specs.Prelude.{ℕ, List};
ghost use Rattle.cs_scanner.specs.Scan.Scan.{Scanning};
ghost use Rattle.cs_texts.specs.Rendering.Laws.{HasOneRendering, HasSomeRendering};

use cs_scanner::{one_scan, some_scan};

/// A list of tokens has at most one rendering, whatever the lexemes and the separator.
pub fn one_rendering()
    ensures { (s : Scanning) (tokens : List ℕ) → HasOneRendering s tokens }
{
    some_scan();
}

/// A list of tokens has a rendering, whatever the lexemes and the separator: that it has none leads to a contradiction.
pub fn some_rendering()
    ensures { (s : Scanning) (tokens : List ℕ) → HasSomeRendering s tokens }
{
    one_scan();
    some_scan();
}
