// The words of a line.
use crate::fault::StepFault;
use qv_base::NoMemory;
use std::alloc::Global;
use std::mem;

/// The words of a line: single spaces part them, except in double quotes.
pub fn words(alloc: Global, line: &str) -> Result<Vec<String>, NoMemory> {
    let mut words = Vec::new(alloc);
    let mut word = String::new(alloc);
    let mut is_quoted = false;
    let mut is_escaped = false;
    for c in line.chars() {
        if is_escaped {
            word.push(escaped(c))?;
            is_escaped = false;
        } else if c == '\\' {
            is_escaped = true;
        } else if c == '"' {
            is_quoted = !is_quoted;
        } else if c == ' ' && !is_quoted {
            words.push(mem::replace(&mut word, String::new(alloc)))?;
        } else {
            word.push(c)?;
        }
    }
    words.push(word)?;
    Ok(words)
}

/// What a character stands for behind `\`.
fn escaped(c: char) -> char {
    match c {
        'n' => '\n',
        'r' => '\r',
        't' => '\t',
        '0' => '\0',
        _ => c,
    }
}

/// The line, with the text of each `[[N text]]` N times.
pub fn repeated(alloc: Global, line: &str) -> Result<String, StepFault> {
    let mut parts = line.split("[[");
    let mut whole = String::from_str(alloc, parts.next().unwrap_or(""))?;
    for part in parts {
        let (repeat, behind) = part.split_once("]]").ok_or(StepFault::Unread)?;
        let (count, text) = repeat.split_once(' ').ok_or(StepFault::Unread)?;
        for _ in 0..number(count)? {
            whole.push_str(text)?;
        }
        whole.push_str(behind)?;
    }
    Ok(whole)
}

/// The number that a word writes.
pub fn number(word: &str) -> Result<u32, StepFault> {
    word.parse().ok().ok_or(StepFault::Unread)
}

/// A number of 32 bits, with or without a sign.
pub fn word(text: &str) -> Result<u32, StepFault> {
    match text.strip_prefix('-') {
        Some(digits) => Ok(number(digits)?.wrapping_neg()),
        None => number(text),
    }
}
