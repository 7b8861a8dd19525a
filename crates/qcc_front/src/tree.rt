// The tree of a unit, or why it has none.
ghost use Rattle.std.specs.Prelude.{◌≡◌, IfOk};
ghost use Rattle.qcc_front.specs.declared.fault.SourceKind.TheVariants as kind;
ghost use Rattle.qcc_front.specs.Tree as spec;
ghost use Rattle.qcc_front.specs.Tree.{Gives};

use crate::fault::{CompileStop, SourceFault, SourceKind};
use c_decl::fault::ParseFault;
use c_decl::marking::Marked;
use c_tok::fault::TokFault;
use c_tok::tokens::c_tokens;
use c_tree::stmt::Unit as Tree;
use c_unit::unit::parse_unit;
use pp_tok::token::PpTok;
use qv_base::NoMemory;
use qv_base::name::Name;
use qv_base::place::Place;
use std::alloc::Global;

// The name of the file of a place.
fn file_of(alloc: Global, names: &[Name], place: Place) -> Result<Name, NoMemory>
    ensures { IfOk result (λ name. name ≡ spec.file_of names.now place) }
{
    match names.get(place.file as usize) {
        Some(name) => Name::from_bytes(alloc, name.bytes()),
        None => Name::from_bytes(alloc, b""),
    }
}

fn fault_at(
    alloc: Global,
    names: &[Name],
    kind: SourceKind,
    place: Place,
) -> Result<CompileStop, NoMemory>
    ensures { IfOk result (λ stop. stop ≡ spec.fault_at names.now kind place) }
{
    let file = file_of(alloc, names, place)?;
    let line = place.line;
    Ok(CompileStop::Source(SourceFault { kind, file, line }))
}

fn left_out(
    alloc: Global,
    names: &[Name],
    construct: &str,
    place: Place,
) -> Result<CompileStop, NoMemory>
    ensures { IfOk result (λ stop. stop ≡ spec.fault_at names.now (kind.LeftOut construct.now) place) }
{
    let construct = Name::from_bytes(alloc, construct.as_bytes())?;
    fault_at(alloc, names, SourceKind::LeftOut(construct), place)
}

// Why a unit isn't compiled of which a token is no token of C, by the names of its files.
fn stop_of_token(alloc: Global, names: &[Name], fault: TokFault) -> Result<CompileStop, NoMemory>
    ensures { IfOk result (λ stop. stop ≡ spec.stop_of_token names.now fault) }
{
    let (kind, place) = match fault {
        TokFault::StrayByte(place) => (SourceKind::StrayByte, place),
        TokFault::OpenQuote(place) => (SourceKind::OpenQuote, place),
        TokFault::LeftOut(place) => return left_out(alloc, names, "wide", place),
        TokFault::BadConstant(place) => (SourceKind::BadConstant, place),
        TokFault::FloatConstant(place) => (SourceKind::FloatConstant, place),
        TokFault::ConstantTooLarge(place) => (SourceKind::ConstantTooLarge, place),
        TokFault::NameTooLong(place) => (SourceKind::NameTooLong, place),
        TokFault::NoMemory => return Err(NoMemory),
    };
    fault_at(alloc, names, kind, place)
}

fn construct(kind: Marked) -> &'static str
    ensures { result.now ≡ spec.construct kind }
{
    match kind {
        Marked::OldStyle => "old-style",
        Marked::ImplicitInt => "implicit int",
        Marked::BitField => "bit-field",
    }
}

// Why a unit isn't compiled whose tokens are not read, by the names of its files.
fn stop_of_parse(alloc: Global, names: &[Name], fault: ParseFault) -> Result<CompileStop, NoMemory>
    ensures { IfOk result (λ stop. stop ≡ spec.stop_of_parse names.now fault) }
{
    match fault {
        ParseFault::FloatType(place) => fault_at(alloc, names, SourceKind::FloatType, place),
        ParseFault::Syntax(place) => fault_at(alloc, names, SourceKind::Syntax, place),
        ParseFault::LeftOut(kind, place) => left_out(alloc, names, construct(kind), place),
        ParseFault::NoMemory => Err(NoMemory),
    }
}

/// The tree of a unit's tokens, whose files have these names by their numbers.
///
/// # Errors
///
/// Source with the first token that is no token of C; where there is none, with the first thing that keeps the tokens
/// from being read. NoMemory where memory is refused.
#[tactic(auto, using(crate::proofs::Trees::has_tree, crate::proofs::Trees::told_token, crate::proofs::Trees::told_parse))]
pub fn tree_of(alloc: Global, names: &[Name], toks: &[PpTok]) -> Result<Tree, CompileStop>
    ensures { Gives (spec.tree_of names.now toks.now) result }
{
    let toks = match c_tokens(alloc, toks) {
        Ok(toks) => toks,
        Err(fault) => return Err(stop_of_token(alloc, names, fault)?),
    };
    match parse_unit(alloc, toks.as_slice()) {
        Ok(tree) => Ok(tree),
        Err(fault) => Err(stop_of_parse(alloc, names, fault)?),
    }
}
