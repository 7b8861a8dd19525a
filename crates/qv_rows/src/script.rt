// The script's lines.
use qv_base::NoMemory;
use std::alloc::Global;

/// A line of the script, with the content lines behind it.
#[derive(Drop)]
pub struct Step<'s> {
    /// The line.
    pub line: &'s str,
    /// The content lines, each with the bar that it begins with.
    pub content: Vec<&'s str>,
}

impl<'s> Step<'s> {
    /// A line with no content.
    pub fn new(alloc: Global, line: &'s str) -> Step<'s> {
        Step {
            line,
            content: Vec::new(alloc),
        }
    }

    /// Whether content lines may stand behind the line.
    fn takes_content(&self) -> bool {
        match self.line.split_once(' ') {
            Some((verb, _)) => matches!(verb, "file" | "bytes" | "image" | "each"),
            None => false,
        }
    }

    /// The first and the last number of `each A..B`. None where the line is another.
    pub fn numbers(&self) -> Option<(u32, u32)> {
        let (first, last) = self.line.strip_prefix("each ")?.split_once("..")?;
        Some((first.parse().ok()?, last.parse().ok()?))
    }
}

/// The lines of a script, each with its content.
pub fn steps<'s>(alloc: Global, script: &'s str) -> Result<Vec<Step<'s>>, NoMemory> {
    let mut steps: Vec<Step<'s>> = Vec::new(alloc);
    for line in script.lines() {
        match steps.last_mut() {
            Some(step) if line.starts_with('|') && step.takes_content() => step.content.push(line)?,
            _ => steps.push(Step::new(alloc, line))?,
        }
    }
    Ok(steps)
}

/// The line in a content line of `each`, with this number where it has `%`.
pub fn filled(alloc: Global, text: &str, number: u32) -> Result<String, NoMemory> {
    let text = text.strip_prefix("| ").unwrap_or(text);
    let mut line = String::new(alloc);
    for (i, part) in text.split('%').enumerate() {
        if i > 0 {
            line.push_str(&format!(in alloc; "{number}")?)?;
        }
        line.push_str(part)?;
    }
    Ok(line)
}
