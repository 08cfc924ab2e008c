//! Lines and the replies to them, of texts in which each line stands behind `> `.

use std::alloc::{AllocError, Global};

fn push_line(bytes: &mut Vec<u8>, line: &str) -> Result<(), AllocError> {
    bytes.extend_from_slice(line.as_bytes())?;
    bytes.push(b'\n')?;
    Ok(())
}

/// The lines of the texts.
pub fn lines_of(alloc: Global, texts: &[&str]) -> Result<Vec<u8>, AllocError> {
    let mut bytes = Vec::new(alloc);
    for text in texts {
        for line in text.lines() {
            if let Some(line) = line.strip_prefix("> ") {
                push_line(&mut bytes, line)?;
            }
        }
    }
    Ok(bytes)
}

/// The replies to them.
pub fn replies_to(alloc: Global, texts: &[&str]) -> Result<Vec<u8>, AllocError> {
    let mut bytes = Vec::new(alloc);
    for text in texts {
        for line in text.lines() {
            if !line.starts_with("> ") {
                push_line(&mut bytes, line)?;
            }
        }
    }
    Ok(bytes)
}
