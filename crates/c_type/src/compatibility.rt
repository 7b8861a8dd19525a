//! Compatible types.
ghost use Rattle.std.specs.Prelude.{◌≡◌};
ghost use Rattle.c_type.specs.Compatible as spec;
ghost use Rattle.c_type.specs.Types as ty;
ghost use Rattle.c_type.specs.View.{shape_of, tags_of, type_of, types_of};

use crate::ctype::{CType, Shape};
use crate::kind::IntKind;
use crate::tags::Tags;

/// Whether two types of one unit are compatible (ANSI C X3.159-1989, 3.1.2.6). Records are where
/// they have one tag, and every enumeration is compatible with `int`.
pub fn compatible(tags: &Tags, a: &CType, b: &CType) -> bool
    ensures { result ≡ spec.compatible (tags_of tags.now) (type_of a.now) (type_of b.now) }
{
    types_agree(a, b)
}

#[cycle(compatibility)]
#[tactic(auto, using(crate::proofs::Views::types))]
fn types_agree(a: &CType, b: &CType) -> bool
    ensures { result ≡ spec.agree_by spec.same_tag (type_of a.now) (type_of b.now) }
{
    match a {
        CType::Void => is_void(b),
        CType::Int(kind) => int_agrees(*kind, b),
        CType::Pointer(t) => pointer_agrees(t.get(), b),
        CType::Array(t, count) => array_agrees(t.get(), *count, b),
        CType::Function(shape) => function_agrees(shape.get(), b),
        CType::Record(tag) => record_agrees(*tag, b),
        CType::Enum(_) => int_agrees(IntKind::Int, b),
    }
}

#[cycle(compatibility)]
#[tactic(auto, using(crate::proofs::Views::types))]
fn pointer_agrees(t: &CType, b: &CType) -> bool
    ensures { result ≡ spec.agree_by spec.same_tag (ty.pointer (type_of t.now)) (type_of b.now) }
{
    match b {
        CType::Pointer(u) => types_agree(t, u.get()),
        CType::Void
        | CType::Int(_)
        | CType::Array(_, _)
        | CType::Function(_)
        | CType::Record(_)
        | CType::Enum(_) => false,
    }
}

#[cycle(compatibility)]
#[tactic(auto, using(crate::proofs::Views::types))]
fn array_agrees(t: &CType, count: Option<u32>, b: &CType) -> bool
    ensures { result ≡ spec.agree_by spec.same_tag (ty.array (type_of t.now) count) (type_of b.now) }
{
    match b {
        CType::Array(u, n) => counts_agree(count, *n) && types_agree(t, u.get()),
        CType::Void
        | CType::Int(_)
        | CType::Pointer(_)
        | CType::Function(_)
        | CType::Record(_)
        | CType::Enum(_) => false,
    }
}

#[cycle(compatibility)]
#[tactic(auto, using(crate::proofs::Views::types))]
fn function_agrees(s: &Shape, b: &CType) -> bool
    ensures { result ≡ spec.agree_by spec.same_tag (ty.function (shape_of s.now)) (type_of b.now) }
{
    match b {
        CType::Function(r) => shapes_agree(s, r.get()),
        CType::Void
        | CType::Int(_)
        | CType::Pointer(_)
        | CType::Array(_, _)
        | CType::Record(_)
        | CType::Enum(_) => false,
    }
}

#[cycle(compatibility)]
#[tactic(auto, using(crate::proofs::Views::types))]
fn shapes_agree(s: &Shape, r: &Shape) -> bool
    ensures { result ≡ spec.shapes_agree spec.same_tag (shape_of s.now) (shape_of r.now) }
{
    types_agree(&s.result, &r.result)
        && s.variadic == r.variadic
        && lists_agree(s.params.as_slice(), r.params.as_slice())
}

#[cycle(compatibility)]
#[tactic(auto, using(crate::proofs::Views::types, crate::proofs::Agree::lists))]
fn lists_agree(ts: &[CType], us: &[CType]) -> bool
    ensures { result ≡ spec.all_agree spec.same_tag (types_of ts.now) (types_of us.now) }
{
    if ts.len() != us.len() {
        return false;
    }
    for i in 0..ts.len() {
        if !types_agree(&ts[i], &us[i]) {
            return false;
        }
    }
    true
}

// Whether counts of elements are equal, or one isn't known.
fn counts_agree(m: Option<u32>, n: Option<u32>) -> bool
    ensures { result ≡ spec.counts_agree m n }
{
    match (m, n) {
        (Some(m), Some(n)) => m == n,
        _ => true,
    }
}

fn is_same(j: IntKind, k: IntKind) -> bool
    ensures { result ≡ spec.same_kind j k }
{
    j == k
}

#[tactic(auto, using(crate::proofs::Views::types))]
fn is_void(t: &CType) -> bool
    ensures { result ≡ spec.agree_by spec.same_tag ty.void (type_of t.now) }
{
    match t {
        CType::Void => true,
        CType::Int(_)
        | CType::Pointer(_)
        | CType::Array(_, _)
        | CType::Function(_)
        | CType::Record(_)
        | CType::Enum(_) => false,
    }
}

// Whether an integer type is compatible with a type.
#[tactic(auto, using(crate::proofs::Views::types))]
fn int_agrees(kind: IntKind, t: &CType) -> bool
    ensures { result ≡ spec.agree_by spec.same_tag (ty.int kind) (type_of t.now) }
{
    match t {
        CType::Int(other) => is_same(kind, *other),
        CType::Enum(_) => is_same(kind, IntKind::Int),
        CType::Void
        | CType::Pointer(_)
        | CType::Array(_, _)
        | CType::Function(_)
        | CType::Record(_) => false,
    }
}

#[tactic(auto, using(crate::proofs::Views::types))]
fn record_agrees(tag: u32, t: &CType) -> bool
    ensures { result ≡ spec.agree_by spec.same_tag (ty.struct tag) (type_of t.now) }
{
    match t {
        CType::Record(other) => tag == *other,
        CType::Void
        | CType::Int(_)
        | CType::Pointer(_)
        | CType::Array(_, _)
        | CType::Function(_)
        | CType::Enum(_) => false,
    }
}
