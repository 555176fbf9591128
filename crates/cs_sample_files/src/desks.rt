// Desks with the files `y` and `l`, and the words that name them.

use cs_io::MemoryDesk;
use std::alloc::{AllocError, Global};

/// A fresh desk with the files `y` and `l`, each where there is one.
pub fn desk(
    alloc: Global,
    yacc: Option<&[u8]>,
    lex: Option<&[u8]>,
) -> Result<MemoryDesk, AllocError> {
    let mut files = Vec::new(alloc);
    if let Some(bytes) = yacc {
        files.push((String::from_str(alloc, "y")?, bytes.to_vec(alloc)?))?;
    }
    if let Some(bytes) = lex {
        files.push((String::from_str(alloc, "l")?, bytes.to_vec(alloc)?))?;
    }
    MemoryDesk::new(files, Vec::new(alloc))
}

/// The words `suite y l` and these options, but for empty ones.
pub fn suite_words(alloc: Global, options: &[&str]) -> Result<Vec<String>, AllocError> {
    let mut words = cs_samples::words(alloc, &["suite", "y", "l"])?;
    for option in options {
        if !option.is_empty() {
            words.push(String::from_str(alloc, option)?)?;
        }
    }
    Ok(words)
}
