//! The lexemes of the tokens of C expressions, worked by hand: of each token's texts the least.

use crate::texts::files::lexemes;
use cs_samples::C_SCANNER;
use std::test::Fail;

// Expressions of C, with pointers and casts.
const YACC: &str = "\
%token IDENTIFIER CONSTANT STRING_LITERAL SIZEOF\n\
%token PTR_OP INC_OP DEC_OP LEFT_OP RIGHT_OP LE_OP GE_OP EQ_OP NE_OP\n\
%token AND_OP OR_OP MUL_ASSIGN DIV_ASSIGN MOD_ASSIGN ADD_ASSIGN\n\
%token SUB_ASSIGN LEFT_ASSIGN RIGHT_ASSIGN AND_ASSIGN XOR_ASSIGN OR_ASSIGN\n\
%token INT CHAR\n\
%start expr\n\
%%\n\
primary : IDENTIFIER | CONSTANT | STRING_LITERAL | '(' expr ')' ;\n\
postfix : primary | postfix '[' expr ']' | postfix '(' ')'\n\
\x20 | postfix '(' args ')' | postfix '.' IDENTIFIER\n\
\x20 | postfix PTR_OP IDENTIFIER | postfix INC_OP | postfix DEC_OP ;\n\
args : assign | args ',' assign ;\n\
unary : postfix | INC_OP unary | DEC_OP unary | unop cast\n\
\x20 | SIZEOF unary | SIZEOF '(' type ')' ;\n\
unop : '&' | '*' | '+' | '-' | '~' | '!' ;\n\
cast : unary | '(' type ')' cast ;\n\
mul : cast | mul '*' cast | mul '/' cast | mul '%' cast ;\n\
add : mul | add '+' mul | add '-' mul ;\n\
shift : add | shift LEFT_OP add | shift RIGHT_OP add ;\n\
rel : shift | rel '<' shift | rel '>' shift\n\
\x20 | rel LE_OP shift | rel GE_OP shift ;\n\
eq : rel | eq EQ_OP rel | eq NE_OP rel ;\n\
band : eq | band '&' eq ;\n\
bxor : band | bxor '^' band ;\n\
bor : bxor | bor '|' bxor ;\n\
land : bor | land AND_OP bor ;\n\
lor : land | lor OR_OP land ;\n\
cond : lor | lor '?' expr ':' cond ;\n\
assign : cond | unary asgop assign ;\n\
asgop : '=' | MUL_ASSIGN | DIV_ASSIGN | MOD_ASSIGN | ADD_ASSIGN\n\
\x20 | SUB_ASSIGN | LEFT_ASSIGN | RIGHT_ASSIGN | AND_ASSIGN\n\
\x20 | XOR_ASSIGN | OR_ASSIGN ;\n\
expr : assign | expr ',' assign ;\n\
type : INT | CHAR | type '*' ;\n\
";

// The tokens by their numbers: the declared ones, then the literals as they are used.
const WANT: &str = "\
IDENTIFIER a\n\
CONSTANT 0\n\
STRING_LITERAL \\\"\\\"\n\
SIZEOF sizeof\n\
PTR_OP ->\n\
INC_OP ++\n\
DEC_OP --\n\
LEFT_OP <<\n\
RIGHT_OP >>\n\
LE_OP <=\n\
GE_OP >=\n\
EQ_OP ==\n\
NE_OP !=\n\
AND_OP &&\n\
OR_OP ||\n\
MUL_ASSIGN *=\n\
DIV_ASSIGN /=\n\
MOD_ASSIGN %=\n\
ADD_ASSIGN +=\n\
SUB_ASSIGN -=\n\
LEFT_ASSIGN <<=\n\
RIGHT_ASSIGN >>=\n\
AND_ASSIGN &=\n\
XOR_ASSIGN ^=\n\
OR_ASSIGN |=\n\
INT int\n\
CHAR char\n\
'(' (\n\
')' )\n\
'[' [\n\
']' ]\n\
'.' .\n\
',' ,\n\
'&' &\n\
'*' *\n\
'+' +\n\
'-' -\n\
'~' ~\n\
'!' !\n\
'/' /\n\
'%' %\n\
'<' <\n\
'>' >\n\
'^' ^\n\
'|' |\n\
'?' ?\n\
':' :\n\
'=' =\n\
";

#[test]
fn lexemes_of_c_expressions(rt: HostRuntime) -> Result<(), Fail> {
    let alloc = rt.alloc();
    let found = lexemes(alloc, YACC.as_bytes(), C_SCANNER)?;
    assert_eq!(rt; found.as_str(), WANT);
    Ok(())
}
