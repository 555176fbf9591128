//! Tests of generated files by public calls alone.

#[cfg(test)]
mod files;
