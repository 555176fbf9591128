// Laws of matches.

ghost use Rattle.std.specs.Prelude.{ℕ, List};
ghost use Rattle.cs_pattern_parts.specs.Tree.Pattern.{Regex};
ghost use Rattle.cs_scanner.specs.Scan.Scan.{AreOneMatch, AreOneScan, AreOneStop, HasScan, IsStopOrWhole, Scanning, StopsThere, StopsThereAlone};

use crate::scanning::scanner::Scanner;

/// A text has at most one match at its front.
pub fn one_match()
    ensures { (patterns : List Regex) (text : List ℕ) → AreOneMatch patterns text }
{}

/// A text has at most one scan.
pub fn one_scan()
    ensures { (s : Scanning) (text : List ℕ) → AreOneScan s text }
{}

/// A text has a scan: that it has none leads to a contradiction.
pub fn some_scan()
    ensures { (s : Scanning) (text : List ℕ) → HasScan s text }
{}

/// A scan stops at no more than one place.
pub fn one_stop()
    ensures { (s : Scanning) (text : List ℕ) → AreOneStop s text }
{}

/// A scan that doesn't cover its text stops at a place, and one that covers it stops at none.
pub fn stop_or_whole()
    ensures { (s : Scanning) (text : List ℕ) → IsStopOrWhole s text }
{}

/// A scan stops where nothing matches, at a match that is C's alone, and at one by a byte whose literal isn't in use. Where each
/// pattern has a kind it stops nowhere else: that it does leads to a contradiction.
pub fn three_stops()
    ensures there { (s : Scanning) (text : List ℕ) → StopsThere s text }
    ensures alone { (s : Scanning) (text : List ℕ) → StopsThereAlone s text }
{}

// Takes what threads may share.
fn take_shared<T: Sync>(_value: &T) {}

/// Threads may share a scanner, and so its automaton with its patterns, and its kinds.
pub fn shared_scanner(scanner: &Scanner<'_>) {
    take_shared(scanner);
}
