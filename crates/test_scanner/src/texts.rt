//! Tests of lexemes and renderings by their public calls alone, over a yacc file and a lex file.

#[cfg(test)]
mod expressions;
#[cfg(test)]
mod files;
#[cfg(test)]
mod lexemes;
#[cfg(test)]
mod rendering;
#[cfg(test)]
mod scanned;
