// Texts of yacc files and of lex files.

/// Sums: `examples/g1.y`. NUM 1, '+' 2, '(' 3 and ')' 4 are its tokens, e 1 and t 2 its nonterminals.
pub const SUMS: &[u8] = b"%token NUM\n%%\ne : e '+' t | t ;\nt : NUM | '(' e ')' ;\n";

/// The scanner of sums: `examples/l1.l`.
pub const SCANNER: &[u8] = b"%%\n[0-9]+ return NUM;\n[-+*/()] return yytext[0];\n[ \\t\\n]+ ;\n";

/// A token alone.
pub const NUMBER: &[u8] = b"%token NUM\n%%\ns : NUM ;\n";

/// A letter alone.
pub const LETTER: &[u8] = b"%%\ns : 'x' ;\n";

/// The scanner of the letter, with blanks.
pub const LETTER_SCANNER: &[u8] = b"%%\nx return 'x';\n[ ]+ ;\n";

/// The scanner of C expressions: the identifiers are told from type names by a call.
pub const C_SCANNER: &[u8] = b"D [0-9]\n\
L [a-zA-Z_]\n\
%%\n\
\"int\" { count(); return(INT); }\n\
\"char\" { count(); return(CHAR); }\n\
\"sizeof\" { count(); return(SIZEOF); }\n\
{L}({L}|{D})* { count(); return check_type(); /*@token IDENTIFIER*/ }\n\
{D}+ { count(); return(CONSTANT); }\n\
\\\"(\\\\.|[^\\\\\"\\n])*\\\" { count(); return(STRING_LITERAL); }\n\
\">>=\" return RIGHT_ASSIGN;\n\
\"<<=\" return LEFT_ASSIGN;\n\
\"+=\" return ADD_ASSIGN;\n\
\"-=\" return SUB_ASSIGN;\n\
\"*=\" return MUL_ASSIGN;\n\
\"/=\" return DIV_ASSIGN;\n\
\"%=\" return MOD_ASSIGN;\n\
\"&=\" return AND_ASSIGN;\n\
\"^=\" return XOR_ASSIGN;\n\
\"|=\" return OR_ASSIGN;\n\
\">>\" return RIGHT_OP;\n\
\"<<\" return LEFT_OP;\n\
\"++\" return INC_OP;\n\
\"--\" return DEC_OP;\n\
\"->\" return PTR_OP;\n\
\"&&\" return AND_OP;\n\
\"||\" return OR_OP;\n\
\"<=\" return LE_OP;\n\
\">=\" return GE_OP;\n\
\"==\" return EQ_OP;\n\
\"!=\" return NE_OP;\n\
[-+*/%&|^~!<>=?:.,()\\[\\]] return *yytext;\n\
[ \\t\\v\\n\\f]+ { count(); }\n\
. ;\n";
