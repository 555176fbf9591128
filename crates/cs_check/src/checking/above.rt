// What the lines above have told, and the next line.

ghost use Rattle.std.specs.Prelude.{◌≡◌, ◌<◌, ◌^◌, [], length, MatchOption};
ghost use Rattle.cs_scanner.specs.Scan.Compared.{scanning};
ghost use Rattle.cs_check.specs.Checking.Running.{IsUnended, IsEnded};

use crate::checking::entries::Entries;
use crate::checking::head::Head;
use crate::checking::part::{Part, may_follow, part_of};
use crate::passing::ClaimFault;
use cs_lines::{Line, read_line};
use cs_scanner::Scanner;
use cs_yacc::YaccFile;
use std::alloc::{AllocError, Global};

/// Where a line stands: in the head, behind it, or nowhere, since it may not come.
#[derive(Clone, Copy, Debug, PartialEq, Eq)]
pub(crate) enum Place {
    InHead,
    Behind,
    Nowhere,
}

/// What the lines above have told.
#[derive(Drop)]
pub(crate) struct Above<'a, 'm> {
    pub(crate) head: Head,
    pub(crate) part: Part,
    pub(crate) entries: Entries<'a, 'm>,
}

// The text in front of the newline, if there is one.
fn text_of(bytes: &[u8]) -> Option<&[u8]>
    ensures { MatchOption result (IsUnended bytes.now) (λ text. IsEnded bytes.now text.now) }
{
    match bytes {
        [text @ .., b'\n'] => Some(text),
        _ => None,
    }
}

impl<'a, 'm> Above<'a, 'm> {
    ghost use Rattle.cs_check.specs.Checking.Head.{HasWholeSets};
    ghost use Rattle.cs_check.specs.Checking.Running.{IsShort, KnowsAbove};
    ghost use Rattle.cs_check.specs.Checking.Running.{TellsInside, TellsPast, TellsFollowing, TellsPlace};
    ghost use Rattle.cs_check.specs.Checking.Running.{JudgesInside, JudgesBehind, JudgesLine, JudgesPiece};

    /// What no line has told.
    pub(crate) fn new(alloc: Global, yacc: &'a YaccFile) -> Above<'a, 'm>
        ensures knows { KnowsAbove yacc.now [] result }
        ensures whole { HasWholeSets yacc.now.grammar result.head }
    {
        Above {
            head: Head::new(alloc),
            part: Part::InHead,
            entries: Entries::new(alloc, yacc),
        }
    }

    // Whether the line stands in the head.
    fn is_inside(&self, yacc: &YaccFile, line: &Line<'_>) -> bool
        ensures { TellsInside yacc.now self.now line.now result }
    {
        match self.part {
            Part::InHead => self.head.has_next(yacc.grammar(), line),
            _ => false,
        }
    }

    // Whether the head is at its end.
    fn is_past(&self, yacc: &YaccFile) -> bool
        ensures { TellsPast yacc.now self.now result }
    {
        match self.part {
            Part::InHead => self.head.is_ended(yacc.grammar()),
            _ => true,
        }
    }

    // Whether the line may come behind the last one, where the head is at its end.
    fn has_following(&self, line: &Line<'_>) -> bool
        ensures { TellsFollowing self.now line.now result }
    {
        if !may_follow(self.part, part_of(self.part, line)) {
            return false;
        }
        self.entries.is_numbered(line)
    }

    // The place of the next line.
    fn place(&self, yacc: &YaccFile, line: &Line<'_>) -> Place
        ensures { TellsPlace yacc.now self.now line.now result }
    {
        if self.is_inside(yacc, line) {
            return Place::InHead;
        }
        if !self.is_past(yacc) {
            return Place::Nowhere;
        }
        if self.has_following(line) {
            Place::Behind
        } else {
            Place::Nowhere
        }
    }

    // Takes a line of the head.
    fn take_inside(
        &mut self,
        alloc: Global,
        yacc: &YaccFile,
        line: Line<'_>,
    ) -> Result<Option<ClaimFault>, AllocError>
        requires { HasWholeSets yacc.now.grammar self.old.head }
        ensures whole { HasWholeSets yacc.now.grammar self.new.head }
        ensures judged { JudgesInside yacc.now self.old line.entry self.new result }
    {
        self.head.take(alloc, yacc, &line)
    }

    // Takes a line behind the head.
    fn take_behind(
        &mut self,
        alloc: Global,
        yacc: &YaccFile,
        scanner: &Scanner<'_>,
        line: Line<'m>,
    ) -> Result<Option<ClaimFault>, AllocError>
        requires { IsShort line }
        ensures same { self.new.head ≡ self.old.head }
        ensures judged { JudgesBehind yacc.now (scanning scanner.now)
            self.old line.entry self.new result }
    {
        self.part = part_of(self.part, &line);
        self.entries.take(alloc, yacc, scanner, &self.head, line)
    }

    // Takes a line.
    fn take_line(
        &mut self,
        alloc: Global,
        yacc: &YaccFile,
        scanner: &Scanner<'_>,
        line: Line<'m>,
    ) -> Result<Option<ClaimFault>, AllocError>
        requires short { IsShort line }
        requires whole { HasWholeSets yacc.now.grammar self.old.head }
        ensures whole { HasWholeSets yacc.now.grammar self.new.head }
        ensures judged { JudgesLine yacc.now (scanning scanner.now)
            self.old line.entry self.new result }
    {
        match self.place(yacc, &line) {
            Place::InHead => self.take_inside(alloc, yacc, line),
            Place::Behind => self.take_behind(alloc, yacc, scanner, line),
            Place::Nowhere => Ok(Some(ClaimFault::Form)),
        }
    }

    /// Takes the next line, which is given with its newline: what is wrong with it, if anything.
    pub(crate) fn take(
        &mut self,
        alloc: Global,
        yacc: &YaccFile,
        scanner: &Scanner<'_>,
        bytes: &'m [u8],
    ) -> Result<Option<ClaimFault>, AllocError>
        requires short { length bytes.now < 2 ^ 32 }
        requires whole { HasWholeSets yacc.now.grammar self.old.head }
        ensures whole { HasWholeSets yacc.now.grammar self.new.head }
        ensures judged { JudgesPiece yacc.now (scanning scanner.now)
            self.old bytes.now self.new result }
    {
        let Some(text) = text_of(bytes) else {
            return Ok(Some(ClaimFault::Form));
        };
        match read_line(text) {
            Some(line) => self.take_line(alloc, yacc, scanner, line),
            None => Ok(Some(ClaimFault::Form)),
        }
    }
}
