//! Quoting of texts for a shell.

use std::alloc::{AllocError, Global};

// Returns whether a shell reads this byte as itself at every position of a word.
fn is_bare(octet: u8) -> bool {
    octet.is_ascii_alphanumeric()
        || matches!(
            octet,
            b'_' | b'.' | b'/' | b':' | b'@' | b'%' | b'+' | b',' | b'-'
        )
}

// Returns the text in single quotes. Between them a shell reads every character but a single quote
// as itself.
fn quoted(alloc: Global, text: &str) -> Result<String, AllocError> {
    let mut word = String::new(alloc);
    word.push('\'')?;
    for letter in text.chars() {
        match letter {
            '\'' => word.push_str("'\\''")?,
            _ => word.push(letter)?,
        }
    }
    word.push('\'')?;
    Ok(word)
}

/// Returns the word that a shell reads as this text (POSIX 2.2), or `None` if the text has a
/// character that isn't printable ASCII, since a terminal might act on it.
pub(crate) fn shell_word(alloc: Global, text: &str) -> Result<Option<String>, AllocError> {
    let octets = text.as_bytes();
    if !octets.is_empty() && octets.iter().all(|octet| is_bare(*octet)) {
        return Ok(Some(format!(in alloc; "{text}")?));
    }
    if !octets.iter().all(|octet| (b' '..=b'~').contains(octet)) {
        return Ok(None);
    }
    Ok(Some(quoted(alloc, text)?))
}
