// Bytes of files, from content lines and words.
use crate::fault::StepFault;
use crate::image::image_bytes;
use crate::words::{number, repeated};
use std::alloc::Global;

/// The bytes of the file that content lines make, as its verb says.
pub fn written(alloc: Global, verb: &str, content: &[&str]) -> Result<Vec<u8>, StepFault> {
    let texts = texts(alloc, content)?;
    match verb {
        "file" => file_bytes(alloc, &texts),
        "bytes" => hex_lines(alloc, &texts),
        "image" => image_bytes(alloc, &texts),
        _ => Err(StepFault::Unread),
    }
}

/// The bytes of the file that another file's bytes make, as its verb and these words say.
pub fn changed(
    alloc: Global,
    verb: &str,
    bytes: &[u8],
    args: &[String],
) -> Result<Vec<u8>, StepFault> {
    match (verb, args) {
        ("cut", [length]) => cut(alloc, bytes, number(length)?),
        ("flip", [at]) => flipped(alloc, bytes, number(at)?),
        ("patch", [at, part]) => patched(alloc, bytes, number(at)?, &hex(alloc, part)?),
        _ => Err(StepFault::Unread),
    }
}

/// The texts of content lines.
fn texts(alloc: Global, content: &[&str]) -> Result<Vec<String>, StepFault> {
    let mut texts = Vec::new(alloc);
    for line in content {
        let (count, text) = counted(line)?;
        for _ in 0..count {
            texts.push(repeated(alloc, text)?)?;
        }
    }
    Ok(texts)
}

/// The text of a content line, and how often it stands there.
fn counted(line: &str) -> Result<(u32, &str), StepFault> {
    if line == "|" {
        return Ok((1, ""));
    }
    if let Some(text) = line.strip_prefix("| ") {
        return Ok((1, text));
    }
    let rest = line.strip_prefix("|* ").ok_or(StepFault::Unread)?;
    let (count, text) = rest.split_once(" | ").ok_or(StepFault::Unread)?;
    Ok((number(count)?, text))
}

/// The bytes of these lines, each with a line feed.
fn file_bytes(alloc: Global, texts: &[String]) -> Result<Vec<u8>, StepFault> {
    let mut bytes = Vec::new(alloc);
    for text in texts {
        bytes.extend_from_slice(text.as_bytes())?;
        bytes.push(b'\n')?;
    }
    Ok(bytes)
}

/// The bytes that these lines write in hexadecimal.
fn hex_lines(alloc: Global, texts: &[String]) -> Result<Vec<u8>, StepFault> {
    let mut bytes = Vec::new(alloc);
    for text in texts {
        bytes.extend_from_slice(&hex(alloc, text)?)?;
    }
    Ok(bytes)
}

/// The bytes that a text writes in hexadecimal, two digits each. Spaces say nothing.
pub fn hex(alloc: Global, text: &str) -> Result<Vec<u8>, StepFault> {
    let mut bytes = Vec::new(alloc);
    let mut high: Option<u8> = None;
    for c in text.chars() {
        if c == ' ' {
            continue;
        }
        let digit = c.to_digit(16).ok_or(StepFault::Unread)?;
        let low = (digit & 15) as u8;
        match high.take() {
            Some(high) => bytes.push(high.wrapping_mul(16) | low)?,
            None => high = Some(low),
        }
    }
    match high {
        Some(_) => Err(StepFault::Unread),
        None => Ok(bytes),
    }
}

/// The first `length` of these bytes.
fn cut(alloc: Global, bytes: &[u8], length: u32) -> Result<Vec<u8>, StepFault> {
    let front = bytes.get(..length as usize).ok_or(StepFault::Unread)?;
    Ok(front.to_vec(alloc)?)
}

/// These bytes, with the highest bit of that at `at` turned.
fn flipped(alloc: Global, bytes: &[u8], at: u32) -> Result<Vec<u8>, StepFault> {
    let byte = bytes.get(at as usize).ok_or(StepFault::Unread)?;
    patched(alloc, bytes, at, &[byte ^ 0x80])
}

/// These bytes, with `part` in place of those that stand at `at`.
fn patched(alloc: Global, bytes: &[u8], at: u32, part: &[u8]) -> Result<Vec<u8>, StepFault> {
    let mut patched = cut(alloc, bytes, at)?;
    let rest = bytes.get(at as usize..).ok_or(StepFault::Unread)?;
    let behind = rest.get(part.len()..).ok_or(StepFault::Unread)?;
    patched.extend_from_slice(part)?;
    patched.extend_from_slice(behind)?;
    Ok(patched)
}
