//! Tests of the readers by their public calls alone: bytes, C text, yacc files and lex files.

#[cfg(test)]
mod bytes;
#[cfg(test)]
mod c_text;
#[cfg(test)]
mod lex;
#[cfg(test)]
mod lex_kinds;
#[cfg(test)]
mod lex_layout;
#[cfg(test)]
mod yacc;
#[cfg(test)]
mod yacc_items;
