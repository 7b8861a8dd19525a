//! Sizes, alignments and offsets.
ghost use Rattle.std.specs.Prelude.{◌≡◌, ◌≤◌, ◌^◌, IfSome, Some, option_map};
ghost use Rattle.qv_base.specs.Place.{capped};
ghost use Rattle.c_type.specs.Layout as spec;
ghost use Rattle.c_type.specs.View.{tags_of, type_of};

use crate::ctype::CType;
use crate::tags::Tags;

/// How many bytes an object takes, and of what its address is a multiple.
#[derive(Clone, Copy, Debug, PartialEq, Eq)]
pub struct Layout {
    /// In bytes.
    pub size: u32,
    /// 1, 2 or 4.
    pub align: u32,
}

/// How many bytes an object of a type takes; None for void, functions and incomplete types. A size
/// above 2^32 - 1 is told as that.
pub fn size(tags: &Tags, t: &CType) -> Option<u32>
    ensures { result ≡ option_map capped (spec.size (tags_of tags.now) (type_of t.now)) }
{
    match tags.layout(t) {
        Some(layout) => Some(layout.size),
        None => None,
    }
}

/// Of what the address of an object of a type is a multiple; None for void, functions and incomplete
/// types.
pub fn align(tags: &Tags, t: &CType) -> Option<u32>
    ensures { result ≡ spec.align (tags_of tags.now) (type_of t.now) }
{
    match tags.layout(t) {
        Some(layout) => Some(layout.align),
        None => None,
    }
}

/// Where a member of a record stands in it; None where there is no such member.
pub fn offset(tags: &Tags, tag: u32, member: u32) -> Option<u32>
    ensures { result ≡ spec.offset (tags_of tags.now) tag member }
{
    tags.offset(tag, member)
}
