// Translates a unit of the first form to assembly text.
ghost use Rattle.std.specs.Prelude.{◌≡◌, [], ◌∷◌, ◌++◌, IfOk, OnOk, IsTrue, flat_map};
ghost use Rattle.std.specs.List.{list_all};
ghost use Rattle.qasm_write.specs.Unit.{constant_fits};
ghost use Rattle.qcc_front.specs.Assembles.{Assembles};
ghost use Rattle.qcc_front.specs.Translation.{term_lines, sign_line, signed_lines, unit_lines};
ghost use Rattle.qcc_front.specs.Unit.{sum_of};

use crate::sum::{Sign, SignedTerm, Term};
use crate::unit::Unit;
use qasm_write::line::UnitLine;
use qasm_write::write::write_unit;
use qv_base::NoMemory;
use std::alloc::Global;

/// The assembly text of a unit. Linked alone it gives an image that follows the unit.
///
/// # Errors
///
/// `NoMemory` where there is no room for the text.
pub fn translate(alloc: Global, unit: &Unit) -> Result<Vec<u8>, NoMemory>
    ensures { IfOk result (λ text. Assembles (sum_of unit.now) (text.items ∷ [])) }
{
    let lines = unit_lines(alloc, unit)?;
    let text = write_unit(alloc, &lines)?;
    Ok(text)
}

// The function is opened, the sum is computed and returned, and the function is closed.
fn unit_lines(alloc: Global, unit: &Unit) -> Result<Vec<UnitLine>, NoMemory>
    ensures lines { IfOk result (λ lines. lines.items ≡ unit_lines (sum_of unit.now)) }
    ensures constants { IfOk result (λ lines. IsTrue (list_all constant_fits lines.items)) }
{
    let mut lines = Vec::new(alloc);
    put(&mut lines, UnitLine::Open)?;
    put_term(&mut lines, unit.first)?;
    put_signed(&mut lines, &unit.rest)?;
    put(&mut lines, UnitLine::Return)?;
    put(&mut lines, UnitLine::Close)?;
    Ok(lines)
}

fn put(lines: &mut Vec<UnitLine>, line: UnitLine) -> Result<(), NoMemory>
    requires before { IsTrue (list_all constant_fits lines.old.items) }
    requires last { IsTrue (constant_fits line) }
    ensures lines { OnOk result (lines.new.items ≡ lines.old.items ++ line ∷ []) }
    ensures constants { OnOk result (IsTrue (list_all constant_fits lines.new.items)) }
{
    lines.push(line)?;
    Ok(())
}

fn put_term(lines: &mut Vec<UnitLine>, term: Term) -> Result<(), NoMemory>
    requires { IsTrue (list_all constant_fits lines.old.items) }
    ensures lines { OnOk result (lines.new.items ≡ lines.old.items ++ term_lines term) }
    ensures constants { OnOk result (IsTrue (list_all constant_fits lines.new.items)) }
{
    match term {
        Term::Command => {
            put(lines, UnitLine::Parameter)?;
            put(lines, UnitLine::Load)?;
        }
        Term::Number(n) => put(lines, UnitLine::Constant(n))?,
    }
    Ok(())
}

fn put_signed(lines: &mut Vec<UnitLine>, terms: &[SignedTerm]) -> Result<(), NoMemory>
    requires { IsTrue (list_all constant_fits lines.old.items) }
    ensures lines { OnOk result (lines.new.items ≡ lines.old.items ++ flat_map signed_lines terms.now) }
    ensures constants { OnOk result (IsTrue (list_all constant_fits lines.new.items)) }
{
    for signed in terms {
        put_term(lines, signed.term)?;
        put(lines, sign_line(signed.sign))?;
    }
    Ok(())
}

fn sign_line(sign: Sign) -> UnitLine
    ensures line { result ≡ sign_line sign }
    ensures constant { IsTrue (constant_fits result) }
{
    match sign {
        Sign::Plus => UnitLine::Add,
        Sign::Minus => UnitLine::Subtract,
    }
}
