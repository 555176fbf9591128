use cs_choices::Weigh;
use cs_scanner::Lexemes;
use cs_verdicts::Closed;
use cs_yacc::YaccFile;

/// What a manifest is of: a yacc file, and what its form has besides.
#[derive(Clone, Copy)]
pub struct Head<'a> {
    pub yacc: &'a YaccFile,
    pub form: Form<'a>,
}

/// The form of a manifest.
#[derive(Clone, Copy)]
pub enum Form<'a> {
    /// That of `rules`.
    Rules,
    /// That of `suite` in the first format, with the lexemes of the tokens.
    Suite {
        lexemes: &'a Lexemes,
    },
    /// That of `suite` in the second format, with what was weighed, and the closed sets of the grammar.
    Shared {
        lexemes: &'a Lexemes,
        weigh: Weigh,
        closed: &'a Closed,
    },
}
