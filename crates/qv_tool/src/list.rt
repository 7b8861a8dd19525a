// The list of `-f`.
ghost use Rattle.std.specs.Prelude.{◌≡◌, IfOk, Ok, Some, None, map, string_bytes, if◌then◌else◌};
ghost use Rattle.qv_tool.specs.Names.{added_to, if_some, names_in, without_return};
ghost use Rattle.qv_tool.specs.Work.{IsListed};

use asm_line::scan::cut_line;
use qv_base::NoMemory;
use std::alloc::Global;
use std::str::from_utf8;

/// The most files of a list.
const MOST_FILES: usize = 4096;

/// The names in a list, or the number of the line at fault.
#[derive(Drop)]
pub enum Listed {
    Names(Vec<String>),
    BadLine(u32),
}

/// The names in a list, one a line; empty lines are passed. A line that isn't UTF-8 is at fault, and line 0
/// where there is no name or more than 4,096.
pub fn names_in(alloc: Global, list: &[u8]) -> Result<Listed, NoMemory>
    ensures { IfOk result (λ listed. IsListed (names_in list.now) listed) }
{
    let mut names = Vec::new(alloc);
    let mut number = 1u32;
    let mut rest = list;
    loop {
        let (line, behind) = cut_line(rest);
        let Some(behind) = behind else {
            if !add_name(alloc, &mut names, line)? {
                return Ok(Listed::BadLine(number));
            }
            return Ok(counted(names));
        };
        if !add_name(alloc, &mut names, without_return(line))? {
            return Ok(Listed::BadLine(number));
        }
        number = number.saturating_add(1);
        rest = behind;
    }
}

// The names, where there are 1 to 4,096.
fn counted(names: Vec<String>) -> Listed
    ensures { IsListed (if_some (Ok (map string_bytes names.items))) result }
{
    if names.is_empty() || names.len() > MOST_FILES {
        return Listed::BadLine(0);
    }
    Listed::Names(names)
}

// The line without the carriage return that ends it.
fn without_return(line: &[u8]) -> &[u8]
    ensures { result.now ≡ without_return line.now }
{
    if line.ends_with(b"\r") {
        &line[..line.len() - 1]
    } else {
        line
    }
}

// Adds the line's name, where it isn't empty. False where it isn't UTF-8.
fn add_name(alloc: Global, names: &mut Vec<String>, line: &[u8]) -> Result<bool, NoMemory>
    ensures { IfOk result (λ added. (if added then Some (map string_bytes names.new.items) else None) ≡ added_to (map string_bytes names.old.items) line.now) }
{
    if line.is_empty() {
        return Ok(true);
    }
    match from_utf8(line) {
        Ok(name) => {
            names.push(String::from_str(alloc, name)?)?;
            Ok(true)
        }
        Err(_) => Ok(false),
    }
}
