// Text lines, base lines and negative lines.

ghost use Rattle.std.specs.Prelude.{◌<◌, IfSome, length};
ghost use Rattle.cs_scanner.specs.Scan.Compared.{scanning};

use crate::checking::apart::is_kept_apart;
use crate::checking::cases::place_in;
use crate::checking::edits::edit_into;
use crate::checking::entries::{Entries, more};
use crate::checking::scans::scans_to;
use crate::passing::ClaimFault;
use cs_closed::Sets;
use cs_grammar::one_tree;
use cs_lines::{EditWords, Quoted};
use cs_scanner::Scanner;
use cs_yacc::YaccFile;
use std::alloc::{AllocError, Global};

/// What a negative line says behind its number.
#[derive(Clone, Copy)]
pub(crate) struct Negative<'m> {
    pub base: u64,
    pub edit: EditWords<'m>,
    pub left: &'m [u8],
    pub right: &'m [u8],
    pub at: u64,
}

impl<'a, 'm> Entries<'a, 'm> {
    ghost use Rattle.cs_check.specs.Checking.Negatives.{TellsScan, FindsCase, JudgesBase, JudgesNegative};

    /// Whether the text scans to the tokens that were told last.
    pub(crate) fn scans(
        &self,
        alloc: Global,
        scanner: &Scanner<'_>,
        text: Quoted<'_>,
    ) -> Result<bool, AllocError>
        ensures { TellsScan (scanning scanner.now) self.now text.entry result }
    {
        one_tree();
        let bytes = text.bytes(alloc)?;
        if bytes.len() > u32::MAX as usize {
            return Ok(false);
        }
        scans_to(alloc, scanner, &bytes, &self.tokens)
    }

    // The place of the case of the goal with this number.
    fn case_of_goal(&self, goal: u64) -> Option<usize>
        ensures finds { FindsCase self.now goal result }
        ensures within { IfSome result (λ place. place < length self.now.cases.list) }
    {
        let Some(place) = place_in(goal, self.goal_cases.len()) else {
            return None;
        };
        self.cases.find(self.goal_cases[place])
    }

    /// Takes a base line, which may come here: what is wrong with it, if anything.
    pub(crate) fn take_base(
        &mut self,
        alloc: Global,
        goal: u64,
    ) -> Result<Option<ClaimFault>, AllocError>
        ensures { JudgesBase self.old goal self.new result }
    {
        if !self.due.are_finished() {
            return Ok(Some(ClaimFault::Goal));
        }
        let Some(place) = self.case_of_goal(goal) else {
            return Ok(Some(ClaimFault::Base));
        };
        self.base = self.cases.tokens(alloc, place)?;
        self.bases = more(self.bases);
        Ok(None)
    }

    /// Takes a negative line, which may come here: what is wrong with it, if anything.
    pub(crate) fn take_negative(
        &mut self,
        file: &YaccFile,
        sets: &Option<Sets>,
        told: Negative<'_>,
    ) -> Result<Option<ClaimFault>, AllocError>
        ensures { JudgesNegative file.now sets.now self.old told.entry self.new result }
    {
        one_tree();
        if told.base != self.bases {
            return Ok(Some(ClaimFault::Base));
        }
        if !edit_into(file, &self.base, told.edit, &mut self.tokens)? {
            return Ok(Some(ClaimFault::Edit));
        }
        if !is_kept_apart(file, sets, &self.tokens, told.at, told.left, told.right) {
            return Ok(Some(ClaimFault::Pair));
        }
        self.counts.negatives = more(self.counts.negatives);
        Ok(None)
    }
}
