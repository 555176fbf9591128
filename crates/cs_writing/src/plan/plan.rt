// What a manifest is made by.

ghost use Rattle.std.specs.Prelude.{◌≡◌};
ghost use Rattle.cs_manifest.specs.Manifest.Head.{yacc_of, lexemes_in as lexemes_by, lexemes_of};
ghost use Rattle.cs_manifest.specs.Manifest.Head.{sharing_in as sharing_of_form, sharing_of};
ghost use Rattle.cs_manifest.specs.Manifest.Manifest.{has_operator as is_some_chosen, most_bases};
ghost use Rattle.cs_writing.specs.Plan.Plans.{choice_in, format_by, lexemes_in, means_in, sharing_in};

use cs_choices::{Criteria, Format, Operators, Weigh};
use cs_manifest::{Form, Head};
use cs_mutate::Pairs;
use cs_texts::RenderWork;
use cs_verdicts::Closed;
use cs_yacc::YaccFile;

/// What mutants are made by: the pairs of the grammar, the operators, how many bases there are at most, and how many negatives with
/// one poisoned pair are kept of each operator and left mark. Without that number all negatives are kept.
#[derive(Clone, Copy)]
pub struct Mutation<'a> {
    pub pairs: &'a Pairs<'a>,
    pub operators: Operators,
    pub most: u32,
    pub first: Option<u16>,
}

/// What a suite is made by: what token lists are rendered with, what mutants are made by, and what sizes count.
#[derive(Clone, Copy)]
pub struct Means<'a> {
    pub work: &'a RenderWork<'a>,
    pub mutation: Mutation<'a>,
    pub weigh: Weigh,
}

/// The form of a manifest, with what it is made by.
#[derive(Clone, Copy)]
pub enum PlanForm<'a> {
    /// That of `rules`: sizes count nodes, nothing is rendered, and nothing is mutated.
    Rules,
    /// That of `suite` in the first format.
    Suite(Means<'a>),
    /// That of `suite` in the second format, with the closed sets of the grammar.
    Shared(Means<'a>, &'a Closed),
}

/// A yacc file, the criteria that goals are taken by, and the form of the manifest.
#[derive(Clone, Copy)]
pub struct Plan<'a> {
    pub yacc: &'a YaccFile,
    pub criteria: Criteria,
    pub form: PlanForm<'a>,
}

impl<'a> PlanForm<'a> {
    /// The format of the manifest.
    pub fn format(&self) -> Format
        ensures { result ≡ format_by self.now }
    {
        match self {
            PlanForm::Rules | PlanForm::Suite(_) => Format::One,
            PlanForm::Shared(..) => Format::Two,
        }
    }

    /// What the suite is made by. None in the form of `rules`.
    pub fn means(&self) -> Option<Means<'a>>
        ensures { result ≡ means_in self.now }
    {
        match self {
            PlanForm::Rules => None,
            PlanForm::Suite(means) | PlanForm::Shared(means, _) => Some(*means),
        }
    }
}

impl<'a> Plan<'a> {
    /// The head of the manifest.
    pub fn head(&self) -> Head<'a>
        ensures file { yacc_of result ≡ self.now.yacc.now }
        ensures lexemes { lexemes_of result ≡ lexemes_in self.now }
        ensures sharing { sharing_of result ≡ sharing_in self.now }
    {
        Head {
            yacc: self.yacc,
            form: self.head_form(),
        }
    }

    fn head_form(&self) -> Form<'a>
        ensures lexemes { lexemes_by result ≡ lexemes_in self.now }
        ensures sharing { sharing_of_form result ≡ sharing_in self.now }
    {
        match self.form {
            PlanForm::Rules => Form::Rules,
            PlanForm::Suite(means) => Form::Suite {
                lexemes: means.work.lexemes,
            },
            PlanForm::Shared(means, closed) => Form::Shared {
                lexemes: means.work.lexemes,
                weigh: means.weigh,
                closed,
            },
        }
    }

    /// How many bases there are at most. Where no operator is chosen there are none.
    pub fn most_bases(&self) -> u32
        ensures { result ≡ most_bases (choice_in self.now) }
    {
        match self.form.means() {
            Some(means) if has_operator(means.mutation.operators) => means.mutation.most,
            _ => 0,
        }
    }
}

// Whether some operator is chosen.
fn has_operator(operators: Operators) -> bool
    ensures { result ≡ is_some_chosen operators }
{
    operators.delete || operators.insert || operators.replace || operators.swap
}
