//! Why a line of a script has no reading.
use ldm_bytes::NoMemory;
use ldm_console::line_error;
use ldm_text::Text;
use std::alloc::Global;

// What is wrong with a line as a whole.
fn line_said(line: &[u8]) -> Option<&'static [u8]> {
    if line.trim_ascii().is_empty() {
        return Some(b"it is blank, and a script has no blank lines");
    }
    if line.ends_with(b"\r") {
        return Some(b"it ends in CR, as lines of Windows do: tr -d '\\r' takes it away");
    }
    if line.trim_ascii_start().starts_with(b"#") {
        return Some(b"it begins with #, and a script has no comments");
    }
    if line.contains(&b'\t') {
        return Some(b"it has a tab, and words are separated by spaces");
    }
    None
}

// The words of a line, which are separated by spaces.
fn words_in(alloc: Global, line: &str) -> Result<Vec<String>, NoMemory> {
    let mut words = Vec::new(alloc);
    for word in line.split(' ') {
        if !word.is_empty() {
            words.push(String::from_str(alloc, word)?)?;
        }
    }
    Ok(words)
}

// Says what is wrong with the words of a line.
fn say_words(alloc: Global, text: &mut Text, line: &str) -> Result<(), NoMemory> {
    let words = words_in(alloc, line)?;
    match line_error(alloc, &words) {
        Some(error) => {
            let said = format!(in alloc; "{error}")?;
            text.push(said.as_bytes())
        }
        None => text.push(b"it has no reading"),
    }
}

/// Says why a line of a script has no reading.
pub fn say_unread(alloc: Global, text: &mut Text, line: &[u8]) -> Result<(), NoMemory> {
    if let Some(said) = line_said(line) {
        return text.push(said);
    }
    match str::from_utf8(line) {
        Ok(line) => say_words(alloc, text, line),
        Err(_) => {
            text.push(b"it isn't UTF-8: in a name write each byte that isn't ASCII as \\xHH")
        }
    }
}
