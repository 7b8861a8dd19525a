#![tactic(auto)]
//! Rows: what the tool answers over files, streams and a host in memory.
//!
//! The program reads a script from standard input and writes a transcript to standard output: each line of
//! the script as it stands, and behind it what it answers, with two spaces before each line. A line that
//! can't be read answers `?`.
//!
//! | Line | Does |
//! |---|---|
//! | `= title` | begins a row: there is no file, the host has no trap, and nothing is to fail |
//! | `file NAME` | makes a file of the content lines, each with a line feed |
//! | `text NAME TEXT` | makes a file of one word, with no line feed behind |
//! | `bytes NAME` | makes a file of the bytes that the content lines write in hexadecimal |
//! | `image NAME` | makes an image's file of the content lines: an instruction each, as `CONST 5`, or `data HEX`, `lit HEX` or `bss N`; bss is 65536 where nothing is said |
//! | `cut NAME OTHER LENGTH` | makes a file of the first bytes of another |
//! | `flip NAME OTHER AT` | makes a copy of another file, with the highest bit of the byte at a place turned |
//! | `patch NAME OTHER AT HEX` | makes a copy of another file, with these bytes at a place |
//! | `fail call K` | lets the K-th call of the files fail in the next run, from 0 |
//! | `fail put K` | lets the K-th put of the next run's `err` fail, from 0 |
//! | `room N` | gives the next run's `err` room for N bytes |
//! | `fail out K` | lets the K-th put of the next run's `out` fail, from 0 |
//! | `outroom N` | gives the next run's `out` room for N bytes |
//! | `trap NUMBER KIND..` | lets the row's host answer this trap, whose arguments have these kinds: `int`, `text`, or `in:K` or `out:K`, of as many bytes as the argument at place K says, from 0 |
//! | `reply WORD..` | gives the host's next replies in the next run, each a word, and its bytes behind a colon where it has any, as `0:6869` |
//! | `fail ask K` | lets the K-th call of the host fail in the next run, from 0 |
//! | `steady` | makes the next run over files of the kind that never fails |
//! | `$ WORDS` | runs the tool by these words, and by none where `$` stands alone |
//! | `show NAME` | prints a file's lines |
//! | `hex NAME` | prints a file's bytes in hexadecimal, 16 to a line |
//! | `each A..B` | reads the content lines once for each number from A to B, which stands in them where they have `%` |
//! | `# remark`, an empty line | does nothing |
//!
//! A content line is `| text`, or `|` alone for an empty one, or `|* N | text` for N of them. Single spaces part
//! words. In double quotes a space parts no words, so `""` is an empty word; `\n`, `\r`, `\t` and `\0` are these
//! bytes, and another character behind `\` is itself. In every line `[[N text]]` stands for the text N times.
//!
//! A run answers the status's number with each line that `err` took, then the lines that `out` took behind
//! `>`, then how many calls the host was asked where there were any, then the name and the length of each file
//! that is new or has changed. Where `err`, `out` or a file that is shown doesn't end with a line feed, a line
//! says so. The files and the host's traps stay for the row's next run.
//!
//! The functions here are proved to be safe and to end. What they print no clause says: the gate compares it
//! with the file `stdout`.

mod content;
mod fault;
mod image;
mod plan;
mod row;
mod run;
mod script;
mod transcript;
mod words;

use qv_base::NoMemory;
use row::Row;
use script::{Step, steps};
use std::alloc::Global;
use std::io;
use std::io::{Error, ErrorKind, Write};

fn main(rt: HostRuntime) -> io::Result<()> {
    let script = io::read_to_string(rt.alloc(), rt.reader())?;
    let Ok(transcript) = transcript_of(rt.alloc(), &script) else {
        return Err(Error::from(ErrorKind::OutOfMemory));
    };
    rt.stdout().write_all(&transcript)
}

/// The script with its answers.
fn transcript_of(alloc: Global, script: &str) -> Result<Vec<u8>, NoMemory> {
    let mut row = Row::new(alloc);
    for step in &steps(alloc, script)? {
        row.take(step)?;
        take_each(alloc, &mut row, step)?;
    }
    Ok(row.into_transcript())
}

/// Takes the lines of `each`, where the step is one.
fn take_each(alloc: Global, row: &mut Row, step: &Step<'_>) -> Result<(), NoMemory> {
    let Some((first, last)) = step.numbers() else {
        return Ok(());
    };
    for number in first..=last {
        for text in &step.content {
            let line = script::filled(alloc, text, number)?;
            row.take(&Step::new(alloc, &line))?;
        }
    }
    Ok(())
}
