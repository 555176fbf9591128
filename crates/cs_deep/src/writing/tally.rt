// How many edits there are of each class.

ghost use Rattle.std.specs.Prelude.{◌≡◌};
ghost use Rattle.cs_deep.specs.Writing.Tally.{HasRoom, no_edits, with_class};

use crate::edits::EditClass;

/// How many edits there are, and how many of each class.
#[derive(Clone, Copy, Debug, PartialEq, Eq)]
pub(crate) struct Tally {
    pub(crate) edits: u64,
    pub(crate) negatives: u64,
    pub(crate) deep: u64,
    pub(crate) sentences: u64,
    pub(crate) long: u64,
}

impl Tally {
    pub(crate) fn new() -> Tally
        ensures { result ≡ no_edits }
    {
        Tally {
            edits: 0,
            negatives: 0,
            deep: 0,
            sentences: 0,
            long: 0,
        }
    }

    /// Counts one edit more.
    pub(crate) fn count(&mut self, class: EditClass)
        requires { HasRoom self.old }
        ensures { self.new ≡ with_class self.old class }
    {
        self.edits += 1;
        match class {
            EditClass::Negative => self.negatives += 1,
            EditClass::Long => self.long += 1,
            EditClass::Sentence => self.sentences += 1,
            EditClass::Outside => self.deep += 1,
        }
    }
}
