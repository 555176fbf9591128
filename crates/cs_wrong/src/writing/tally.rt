// How many slips there are of each class.

ghost use Rattle.std.specs.Prelude.{◌≡◌};
ghost use Rattle.cs_wrong.specs.Writing.Tally.{HasRoom, no_slips, with_class};

use crate::classes::SlipClass;

/// How many slips there are, and how many of each class; those whose lists are written are of one.
#[derive(Clone, Copy, Debug, PartialEq, Eq)]
pub(crate) struct Tally {
    pub(crate) slips: u64,
    pub(crate) nothing: u64,
    pub(crate) large: u64,
    pub(crate) again: u64,
    pub(crate) long: u64,
    pub(crate) sentences: u64,
    pub(crate) wrong: u64,
}

impl Tally {
    pub(crate) fn new() -> Tally
        ensures { result ≡ no_slips }
    {
        Tally {
            slips: 0,
            nothing: 0,
            large: 0,
            again: 0,
            long: 0,
            sentences: 0,
            wrong: 0,
        }
    }

    /// Counts one slip more.
    pub(crate) fn count(&mut self, class: SlipClass)
        requires { HasRoom self.old }
        ensures { self.new ≡ with_class self.old class }
    {
        self.slips += 1;
        match class {
            SlipClass::Nothing => self.nothing += 1,
            SlipClass::Large => self.large += 1,
            SlipClass::Again => self.again += 1,
            SlipClass::Long => self.long += 1,
            SlipClass::Sentence => self.sentences += 1,
            SlipClass::Pair { .. } | SlipClass::Outside => self.wrong += 1,
        }
    }
}
