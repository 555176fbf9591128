// Long texts, and words of a command line.

use std::alloc::{AllocError, Global};

/// The front, the piece so many times, and the end.
pub fn repeated(
    alloc: Global,
    front: &str,
    piece: &str,
    times: u32,
    end: &str,
) -> Result<String, AllocError> {
    let mut text = String::from_str(alloc, front)?;
    for _ in 0..times {
        text.push_str(piece)?;
    }
    text.push_str(end)?;
    Ok(text)
}

/// Words of the command line.
pub fn words(alloc: Global, texts: &[&str]) -> Result<Vec<String>, AllocError> {
    let mut words = Vec::new(alloc);
    for text in texts {
        words.push(String::from_str(alloc, text)?)?;
    }
    Ok(words)
}
