// Writes lines as text.
ghost use Rattle.std.specs.Prelude.{◌≡◌, ◌++◌, IfOk, OnOk, Ok, [], ◌∷◌};
ghost use Rattle.asm_link.specs.Link.{linked};
ghost use Rattle.qasm_write.specs.Text.{line_text, unit_text};
ghost use Rattle.qasm_write.specs.Unit.{IsUnit, unit_image};

use crate::line::UnitLine;
use qv_base::NoMemory;
use std::alloc::Global;

/// The text of a unit: each line with its line feed. Linked alone, it gives the code of the lines.
///
/// # Errors
///
/// `NoMemory` where there is no room for the text.
pub fn write_unit(alloc: Global, lines: &[UnitLine]) -> Result<Vec<u8>, NoMemory>
    requires { IsUnit lines.now }
    ensures text { IfOk result (λ text. text.items ≡ unit_text lines.now) }
    ensures links { IfOk result (λ text. linked (text.items ∷ []) ≡ Ok (unit_image lines.now)) }
{
    let mut text = Vec::new(alloc);
    for line in lines {
        append_line(alloc, *line, &mut text)?;
    }
    Ok(text)
}

// Appends a line with its line feed.
fn append_line(alloc: Global, line: UnitLine, text: &mut Vec<u8>) -> Result<(), NoMemory>
    ensures { OnOk result (text.new.items ≡ text.old.items ++ line_text line ++ 10 ∷ []) }
{
    match line {
        UnitLine::Open => append(text, b"proc vmMain 0 0"),
        UnitLine::Parameter => append(text, b"ADDRFP4 0"),
        UnitLine::Load => append(text, b"INDIRI4"),
        UnitLine::Constant(n) => {
            let constant = format!(in alloc; "CNSTI4 {n}")?;
            append(text, constant.as_bytes())
        }
        UnitLine::Add => append(text, b"ADDI4"),
        UnitLine::Subtract => append(text, b"SUBI4"),
        UnitLine::Return => append(text, b"RETI4"),
        UnitLine::Close => append(text, b"endproc vmMain 0 0"),
    }
}

fn append(text: &mut Vec<u8>, line: &[u8]) -> Result<(), NoMemory>
    ensures { OnOk result (text.new.items ≡ text.old.items ++ line.now ++ 10 ∷ []) }
{
    text.extend_from_slice(line)?;
    text.push(b'\n')?;
    Ok(())
}

#[cfg(test)]
mod tests {
    use super::*;
    use std::test::Fail;

    // Lines of each kind.
    const LINES: [UnitLine; 9] = [
        UnitLine::Open,
        UnitLine::Parameter,
        UnitLine::Load,
        UnitLine::Constant(7),
        UnitLine::Add,
        UnitLine::Constant(4_294_967_295),
        UnitLine::Subtract,
        UnitLine::Return,
        UnitLine::Close,
    ];

    const TEXT: &[u8] = b"\
proc vmMain 0 0
ADDRFP4 0
INDIRI4
CNSTI4 7
ADDI4
CNSTI4 4294967295
SUBI4
RETI4
endproc vmMain 0 0
";

    #[test]
    fn writes_lines(rt: HostRuntime) -> Result<(), Fail> {
        let text = write_unit(rt.alloc(), &LINES)?;
        assert!(rt; text.as_slice() == TEXT, "{text:?}");
        Ok(())
    }
}
