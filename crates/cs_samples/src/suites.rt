// Whole suites, written out by hand: `docs/FORMATS.md` gives their lines.

/// The suite of the letter by default options, in the first format.
pub const LETTER_SUITE_ONE: &[u8] = b"conform 1 suite
token 1 'x'
rule 1 s : 'x'
lexeme 'x' \"x\"
goal 1 rule 1 size 2
  derive 1
  tokens 'x'
  text \"x\"
goal 2 pair <begin> 'x' size 2
  derive 1
  tokens 'x'
  text \"x\"
goal 3 pair <begin> <end> infeasible
goal 4 pair 'x' 'x' infeasible
goal 5 pair 'x' <end> size 2
  derive 1
  tokens 'x'
  text \"x\"
base 1 goal 1
negative 1 base 1 delete 0 pair <begin> <end> at 0
  tokens
  text \"\"
negative 2 base 1 insert 0 'x' pair 'x' 'x' at 1
  tokens 'x' 'x'
  text \"x x\"
end goals 5 feasible 3 infeasible 2 large 0 negatives 2
";

/// The same in the second format.
pub const LETTER_SUITE_TWO: &[u8] = b"conform 2 suite
weigh nodes
token 1 'x'
rule 1 s : 'x'
lexeme 'x' \"x\"
closed productive s
closed reachable s
closed empty
closed first s : 'x'
closed last s : 'x'
closed next <begin> : 'x'
closed next 'x' : <end>
case 1 size 2
  derive 1
  tokens 'x'
  text \"x\"
goal 1 rule 1 size 2 case 1 first 1
goal 2 pair <begin> 'x' size 2 case 1 first 1
goal 3 pair <begin> <end> infeasible
goal 4 pair 'x' 'x' infeasible
goal 5 pair 'x' <end> size 2 case 1 first 1
base 1 goal 1
negative 1 base 1 delete 0 pair <begin> <end> at 0
  tokens
  text \"\"
negative 2 base 1 insert 0 'x' pair 'x' 'x' at 1
  tokens 'x' 'x'
  text \"x x\"
end goals 5 feasible 3 infeasible 2 large 0 negatives 2 cases 1
";

// What stands in a manifest of sums: behind its head the tokens and the rules, and then the rest. It is a text, since constants
// of bytes can't be joined.
macro_rules! of_sums {
    ($head:literal, $($rest:literal),+) => {
        concat!(
            $head,
            "token 1 NUM
token 2 '+'
token 3 '('
token 4 ')'
rule 1 e : e '+' t
rule 2 e : t
rule 3 t : NUM
rule 4 t : '(' e ')'
",
            $($rest),+
        )
    };
}

// The same in a suite of sums: the lexemes stand before the rest.
macro_rules! suite_of_sums {
    ($head:literal, $rest:literal) => {
        of_sums!(
            $head,
            "lexeme NUM \"0\"
lexeme '+' \"+\"
lexeme '(' \"(\"
lexeme ')' \")\"
",
            $rest
        )
    };
}

/// The manifest of the rules of sums.
pub const SUMS_RULES: &str = of_sums!(
    "conform 1 rules\n",
    "goal 1 rule 1 size 7
  derive 1 2 3 3
  tokens NUM '+' NUM
goal 2 rule 2 size 3
  derive 2 3
  tokens NUM
goal 3 rule 3 size 3
  derive 2 3
  tokens NUM
goal 4 rule 4 size 7
  derive 2 4 2 3
  tokens '(' NUM ')'
end goals 4 feasible 4 infeasible 0 large 0 negatives 0
"
);

/// The suite of the rules of sums, without mutants, in the first format.
pub const SUMS_SUITE_ONE: &str = suite_of_sums!(
    "conform 1 suite\n",
    "goal 1 rule 1 size 7
  derive 1 2 3 3
  tokens NUM '+' NUM
  text \"0 + 0\"
goal 2 rule 2 size 3
  derive 2 3
  tokens NUM
  text \"0\"
goal 3 rule 3 size 3
  derive 2 3
  tokens NUM
  text \"0\"
goal 4 rule 4 size 7
  derive 2 4 2 3
  tokens '(' NUM ')'
  text \"( 0 )\"
end goals 4 feasible 4 infeasible 0 large 0 negatives 0
"
);

/// The same in the second format. Goals 2 and 3 have one code, which isn't the first case that meets them.
pub const SUMS_SUITE_TWO: &str = suite_of_sums!(
    "conform 2 suite\nweigh nodes\n",
    "closed productive e t
closed reachable e t
closed empty
closed first e : NUM '('
closed first t : NUM '('
closed last e : NUM ')'
closed last t : NUM ')'
closed next <begin> : NUM '('
closed next NUM : '+' ')' <end>
closed next '+' : NUM '('
closed next '(' : NUM '('
closed next ')' : '+' ')' <end>
case 1 size 7
  derive 1 2 3 3
  tokens NUM '+' NUM
  text \"0 + 0\"
goal 1 rule 1 size 7 case 1 first 1
case 2 size 3
  derive 2 3
  tokens NUM
  text \"0\"
goal 2 rule 2 size 3 case 2 first 1
goal 3 rule 3 size 3 case 2 first 1
case 3 size 7
  derive 2 4 2 3
  tokens '(' NUM ')'
  text \"( 0 )\"
goal 4 rule 4 size 7 case 3 first 3
end goals 4 feasible 4 infeasible 0 large 0 negatives 0 cases 3
"
);
