//! Units.

ghost use Rattle.std.specs.Prelude.{◌≡◌, IfOk, Option, Some, if◌then◌else◌};
ghost use Rattle.c_decl.specs.Input.{Reads};
ghost use Rattle.c_decl.specs.Reading as reading;
ghost use Rattle.c_decl.specs.Units as spec;
ghost use Rattle.c_decl.specs.Units.{Parses};
ghost use Rattle.qv_base.specs.declared.place.Place.{Place as PlaceIs};
ghost use Rattle.c_decl.specs.Parsed.{all_of, told, unit_read, whole_or};
ghost use Rattle.c_unit.specs.Unit.{Gives};

use crate::units::externals;
use c_decl::cursor::Cursor;
use c_decl::fault::{Halt, ParseFault};
use c_decl::marking::Marking;
use c_decl::read::{limits, place_left};
use c_names::Names;
use c_tok::mark::Mark;
use c_tok::token::{CTok, CTokKind};
use c_tree::height::Tall;
use c_tree::stmt::{External, Unit};
use qv_base::place::Place;
use sqlite_items::Items;
use std::alloc::Global;

fn is_float(kind: &CTokKind) -> bool
    ensures { (p : PlaceIs) (later : Option PlaceIs) → spec.float_at kind.now p later ≡ (if result then Some p else later) }
{
    matches!(kind, CTokKind::Mark(Mark::Float | Mark::Double))
}

/// The place of the first `float` or `double`.
fn first_float(toks: &[CTok]) -> Option<Place>
    ensures { result ≡ spec.first_float toks.now }
{
    let mut rest = toks;
    while let Some((first, more)) = rest.split_first() {
        if is_float(&first.kind) {
            return Some(first.place);
        }
        rest = more;
    }
    None
}

fn within_limits(alloc: Global, cursor: &mut Cursor<'_>) -> Result<Tall<Items<External>>, Halt>
    ensures { Reads (reading.parse spec.limits cursor.old) result cursor.new }
{
    externals(alloc, cursor, limits())
}

fn unless_marked(
    tree: Items<External>,
    marked: Option<Marking>,
    toks: &[CTok],
) -> Result<Unit, ParseFault>
    ensures { result ≡ whole_or toks.now tree marked }
{
    match marked {
        Some(marking) => Err(ParseFault::LeftOut(marking.kind, marking.at.place)),
        None => Ok(Unit {
            externals: tree,
            tokens: toks.len(),
        }),
    }
}

fn read_unit(alloc: Global, toks: &[CTok]) -> Result<Unit, ParseFault>
    ensures { Gives (told toks.now (reading.parse spec.limits (all_of toks.now))) result }
{
    let mut cursor = Cursor::new(toks, 0, Names::new(alloc));
    match within_limits(alloc, &mut cursor) {
        Ok(x) => unless_marked(x.tree, cursor.marked(), toks),
        Err(Halt::Syntax(left)) => Err(ParseFault::Syntax(place_left(toks, left))),
        Err(Halt::NoMemory) => Err(ParseFault::NoMemory),
    }
}

#[tactic(auto, unfolding(c_decl::specs::Parsed::unit_read))]
fn answer(alloc: Global, toks: &[CTok]) -> Result<Unit, ParseFault>
    ensures { Gives (unit_read toks.now) result }
{
    if let Some(place) = first_float(toks) {
        return Err(ParseFault::FloatType(place));
    }
    read_unit(alloc, toks)
}

/// The tree of the unit that tokens are.
///
/// The tree has exactly these tokens (`unit_tokens`), and there is no other (`spells_one`).
///
/// # Errors
///
/// FloatType at the first `float` or `double`. Else Syntax where the tokens are of no unit: at the first
/// token that none goes on with, or at the last where tokens are missing. Else LeftOut at the first
/// construct that is left out. NoMemory where memory is refused.
#[tactic(auto, using(crate::proofs::Told::parses))]
pub fn parse_unit(alloc: Global, toks: &[CTok]) -> Result<Unit, ParseFault>
    ensures reads { Gives (unit_read toks.now) result }
    ensures grammar { Parses toks.now result }
{
    answer(alloc, toks)
}
