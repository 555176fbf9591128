// The lines behind the head, one by one.

ghost use Rattle.std.specs.Prelude.{◌≡◌, [], Some, None, if◌then◌else◌};
ghost use Rattle.cs_scanner.specs.Scan.Compared.{scanning};

use crate::checking::cases::Cases;
use crate::checking::entries::Entries;
use crate::checking::goals::DueGoals;
use crate::checking::head::Head;
use crate::checking::negatives::Negative;
use crate::passing::ClaimFault;
use cs_lines::{Counts, Line};
use cs_scanner::Scanner;
use cs_yacc::YaccFile;
use std::alloc::{AllocError, Global};

// The fault where something isn't so.
fn unless(is_so: bool, fault: ClaimFault) -> Option<ClaimFault>
    ensures { result ≡ (if is_so then None else Some fault) }
{
    if is_so { None } else { Some(fault) }
}

impl<'a, 'm> Entries<'a, 'm> {
    ghost use Rattle.cs_check.specs.Checking.Told.{AreEntries};
    ghost use Rattle.cs_check.specs.Checking.Running.{IsShort, JudgesEntry};

    /// What no line has told.
    pub(crate) fn new(alloc: Global, yacc: &'a YaccFile) -> Entries<'a, 'm>
        ensures { AreEntries yacc.now [] result }
    {
        let grammar = yacc.grammar();
        Entries {
            cases: Cases::new(alloc, grammar),
            goal_cases: Vec::new(alloc),
            due: DueGoals::new(grammar),
            bases: 0,
            base: Vec::new(alloc),
            size: 0,
            tokens: Vec::new(alloc),
            counts: Counts {
                goals: 0,
                feasible: 0,
                infeasible: 0,
                large: 0,
                negatives: 0,
                cases: 0,
            },
        }
    }

    /// Takes a line behind the head, which may come here: what is wrong with it, if anything.
    pub(crate) fn take(
        &mut self,
        alloc: Global,
        yacc: &YaccFile,
        scanner: &Scanner<'_>,
        head: &Head,
        line: Line<'m>,
    ) -> Result<Option<ClaimFault>, AllocError>
        requires { IsShort line }
        ensures { JudgesEntry yacc.now (scanning scanner.now)
            self.old head.now line.entry self.new result }
    {
        match line {
            Line::Case { size, .. } => {
                self.take_case(size);
                Ok(None)
            }
            Line::Derive(rules) => self.take_derivation(alloc, &head.numbers, rules),
            Line::Tokens(names) => Ok(unless(self.tells(yacc, names), ClaimFault::Yield)),
            Line::Text(text) => Ok(unless(self.scans(alloc, scanner, text)?, ClaimFault::Scan)),
            Line::NoText => Ok(None),
            Line::Goal { goal, verdict, .. } => {
                self.take_goal(alloc, yacc, &head.sets, goal, verdict)
            }
            Line::Base { goal, .. } => self.take_base(alloc, goal),
            Line::Negative {
                base,
                edit,
                left,
                right,
                at,
                ..
            } => {
                let told = Negative {
                    base,
                    edit,
                    left,
                    right,
                    at,
                };
                self.take_negative(yacc, &head.sets, told)
            }
            Line::End(counts) => Ok(self.take_end(counts)),
            _ => Ok(Some(ClaimFault::Form)),
        }
    }
}
