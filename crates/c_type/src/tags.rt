//! Tags.
ghost use Rattle.std.specs.Prelude.{◌≡◌, ℕ, ◌++◌, ◌∷◌, [], ◌≤◌, ◌<◌, ◌^◌, length, min, Some, None, option_map, option_and_then, option_copied, unwrap_or, is_some, slice_get, slice_set, IfOk, IsSome, OnOk, OnErr, IfSome, IfNone};
ghost use Rattle.std.specs.declared.option.Option;
ghost use Rattle.std.specs.Option.{SomeIff};
ghost use Rattle.c_type.specs.Kept.{AllAligned, kept, kept_of, offsets_of, open_at, plan_of, planned, with_members};
ghost use Rattle.c_type.specs.declared.tags.Entry.{Entry};
ghost use Rattle.c_type.specs.Plans as Plans;
ghost use Rattle.c_type.specs.Layout as spec;
ghost use Rattle.c_type.specs.View.{type_of, members_of, tags_of};

use crate::ctype::CType;
use crate::kind::bytes;
use crate::layout::Layout;
use qv_base::NoMemory;
use qv_base::limits::BLOCK_BYTES;
use qv_base::name::Name;
use sqlite_items::Items;
use std::alloc::Global;
use std::marker::Model;

/// What a tag names.
#[derive(Clone, Copy, Debug, PartialEq, Eq)]
pub enum TagKind {
    /// `struct`
    Struct,
    /// `union`
    Union,
    /// `enum`
    Enum,
}

/// A member of a record.
#[derive(Debug, Drop)]
pub struct Member {
    /// Its name.
    pub name: Name,
    /// Its type.
    pub type_of: CType,
}

/// What a tag stands for.
#[derive(Debug, Drop)]
pub struct Tag {
    /// What it names.
    pub kind: TagKind,
    /// Its name, where one was written.
    pub name: Option<Name>,
    /// The members of a record that is complete. An enumeration has none.
    pub members: Option<Items<Member>>,
}

// How a record is laid out, and where each of its members stands in it.
#[derive(Drop)]
struct Plan {
    layout: Layout,
    offsets: Items<u32>,
}

// A tag, with the plan of a record that is complete.
#[derive(Drop)]
struct Entry {
    tag: Tag,
    plan: Option<Plan>,
}

/// The tags of a unit, each with its place as its number. Contracts see them as a list.
///
/// A record is laid out once, when it is completed: to ask for its size or for where a member stands
/// takes the same time for all.
#[derive(Drop)]
pub struct Tags {
    alloc: Global,
    entries: Vec<Entry>,
}

impl Model for Tags {
    ghost use Rattle.std.specs.Prelude.{List};
    ghost use Rattle.std.specs.Coded.{codes};
    ghost use Rattle.c_type.specs.contracts.ctype.CType as c_type;
    ghost use Rattle.c_type.specs.declared.tags.Tag.{Tag};
    ghost use Rattle.c_type.specs.Kept.{IsKept, shown};

    ghost Value = { List Tag };

    ghost coded = { Prim.hlevel (codes, c_type.the_row.coded) };

    ghost view = { λ t. shown t.entries.items };

    ghost invariant = { λ t. IsKept t.entries.items };
}

impl Tags {
    /// No tags. It takes no memory.
    pub fn new(alloc: Global) -> Tags
        ensures { result ≡ [] }
    {
        Tags {
            alloc,
            entries: Vec::new(alloc),
        }
    }

    /// How many there are.
    pub fn len(&self) -> usize
        ensures { result ≡ length self.now }
    {
        self.entries.len()
    }

    /// The tag of a number, if there is one.
    pub fn get(&self, tag: u32) -> Option<&Tag>
        ensures { option_copied result ≡ slice_get self.now tag }
    {
        match self.entries.get(tag as usize) {
            Some(entry) => Some(&entry.tag),
            None => None,
        }
    }

    /// Adds a tag whose record, if it is one, is incomplete, and gives its number.
    ///
    /// # Errors
    ///
    /// NoMemory where memory is refused, or there are 2^32 tags already. The tags stay as they were.
    pub fn declare(&mut self, kind: TagKind, name: Option<Name>) -> Result<u32, NoMemory>
        ensures ok { OnOk result (self.new ≡ self.old ++ record { kind = kind; name = name; members = None } ∷ []) }
        ensures number { IfOk result (λ number. number ≡ length self.old) }
        ensures err { OnErr result (self.new ≡ self.old) }
    {
        let Ok(number) = u32::try_from(self.entries.len()) else {
            return Err(NoMemory);
        };
        self.entries.push(incomplete(kind, name))?;
        Ok(number)
    }

    /// Completes the record of a tag, if the tag is that of an incomplete record, each member has a
    /// layout, and the record takes at most BLOCK_BYTES. Otherwise the answer is false, and the tags
    /// stay as they were.
    ///
    /// # Errors
    ///
    /// NoMemory where memory is refused. The tags stay as they were.
    pub fn complete(&mut self, tag: u32, members: Items<Member>) -> Result<bool, NoMemory>
        ensures done { IfOk result (λ done. done ≡ is_some (spec.completed (tags_of self.old) tag (members_of members))) }
        ensures after { OnOk result (tags_of self.new ≡ unwrap_or (spec.completed (tags_of self.old) tag (members_of members)) (tags_of self.old)) }
        ensures err { OnErr result (self.new ≡ self.old) }
    {
        let Some(kind) = open_kind(self.entries.as_slice(), tag) else {
            return Ok(false);
        };
        let Some(plan) = lay_out(
            self.alloc,
            self.entries.as_slice(),
            kind,
            members.as_slice(),
        )?
        else {
            return Ok(false);
        };
        set_members(&mut self.entries, tag, members, plan);
        Ok(true)
    }

    /// How a type is laid out; None for void, functions and incomplete types. A size above 2^32 - 1
    /// is told as that. Records hold records no deeper than there are tags.
    pub fn layout(&self, t: &CType) -> Option<Layout>
        ensures deeper { (n k : ℕ) → length self.now ≤ n → spec.records_within (tags_of self.now) n k ≡ spec.records (tags_of self.now) k }
        ensures exact { result ≡ option_map spec.told (spec.layout_in (tags_of self.now) (type_of t.now)) }
    {
        layout_in(self.entries.as_slice(), t)
    }

    /// Where a member of a record stands in it; None where there is no such member.
    pub fn offset(&self, tag: u32, member: u32) -> Option<u32>
        ensures { result ≡ spec.offset (tags_of self.now) tag member }
    {
        offset_in(self.entries.as_slice(), tag, member)
    }
}

fn incomplete(kind: TagKind, name: Option<Name>) -> Entry
    ensures { result ≡ record { tag = record { kind = kind; name = name; members = None }; plan = None } }
{
    Entry {
        tag: Tag {
            kind,
            name,
            members: None,
        },
        plan: None,
    }
}

// The kind of an incomplete record's tag.
fn open_kind(entries: &[Entry], tag: u32) -> Option<TagKind>
    ensures { result ≡ open_at (slice_get entries.now tag) }
{
    match entries.get(tag as usize) {
        Some(entry) => open_entry_kind(entry),
        None => None,
    }
}

fn open_entry_kind(entry: &Entry) -> Option<TagKind>
    ensures { result ≡ open_at (Some entry.now) }
{
    if entry.tag.members.is_some() {
        return None;
    }
    match entry.tag.kind {
        TagKind::Struct => Some(TagKind::Struct),
        TagKind::Union => Some(TagKind::Union),
        TagKind::Enum => None,
    }
}

fn set_members(entries: &mut Vec<Entry>, tag: u32, members: Items<Member>, plan: Plan)
    requires { IsSome (slice_get entries.old.items tag) }
    ensures { (e : Entry) → slice_get entries.old.items tag ≡ Some e → entries.new.items ≡ slice_set entries.old.items tag (with_members e members plan) }
{
    if let Some(entry) = entries.get_mut(tag as usize) {
        entry.tag.members = Some(members);
        entry.plan = Some(plan);
    }
}

#[tactic(auto, using(crate::proofs::Views::types, crate::proofs::Told::told_twice))]
fn layout_in(entries: &[Entry], t: &CType) -> Option<Layout>
    ensures { result ≡ option_map spec.told (spec.layout_of (kept entries.now) (type_of t.now)) }
{
    match t {
        CType::Void => None,
        CType::Int(kind) => Some(scalar(bytes(*kind))),
        CType::Pointer(_) => Some(scalar(4)),
        CType::Array(element, count) => repeated(*count, layout_in(entries, element.get())),
        CType::Function(_) => None,
        CType::Record(tag) => record_layout(entries, *tag),
        CType::Enum(_) => Some(scalar(4)),
    }
}

// What stands at a multiple of its size.
fn scalar(size: u32) -> Layout
    ensures { result ≡ spec.layout size size }
{
    Layout { size, align: size }
}

// So many elements, one behind another, where their count is known.
fn repeated(count: Option<u32>, element: Option<Layout>) -> Option<Layout>
    ensures { result ≡ option_map spec.told (spec.repeated count element) }
{
    match (count, element) {
        (Some(count), Some(element)) => Some(Layout {
            size: count.saturating_mul(element.size),
            align: element.align,
        }),
        _ => None,
    }
}

fn record_layout(entries: &[Entry], tag: u32) -> Option<Layout>
    ensures { result ≡ option_map spec.told (kept entries.now tag) }
{
    match entries.get(tag as usize) {
        Some(entry) => entry_layout(entry),
        None => None,
    }
}

fn entry_layout(entry: &Entry) -> Option<Layout>
    ensures { result ≡ option_map spec.told (kept_of (Some entry.now)) }
{
    match &entry.plan {
        Some(plan) => Some(as_told(plan.layout.size, plan.layout.align)),
        None => None,
    }
}

// Where a member of an alignment stands behind others of a size, where a word holds it.
fn place(kind: TagKind, size: u32, align: u32) -> Option<u32>
    requires { 0 < align }
    ensures { SomeIff result (spec.place kind size align < 2 ^ 32) (spec.place kind size align) }
{
    match kind {
        TagKind::Struct => size.checked_next_multiple_of(align),
        TagKind::Union | TagKind::Enum => Some(0),
    }
}

// Others with one member more, and where it stands. None where they take more than BLOCK_BYTES.
fn joined(kind: TagKind, others: Layout, member: Layout) -> Option<(Layout, u32)>
    requires small { others.size ≤ 2 ^ 26 }
    requires aligned { 0 < member.align }
    ensures some { IfSome result (λ r. r ≡ (spec.joined kind others member, spec.place kind others.size member.align)) }
    ensures small { IfSome result (λ r. r.0.size ≤ 2 ^ 26) }
    ensures none { IfNone result (2 ^ 26 < (spec.joined kind others member).size) }
{
    let place = place(kind, others.size, member.align)?;
    let end = place.checked_add(member.size)?;
    if end > BLOCK_BYTES {
        return None;
    }
    let layout = Layout {
        size: others.size.max(end),
        align: others.align.max(member.align),
    };
    Some((layout, place))
}

// The same with a member of a type. None where the type has no layout, too.
#[tactic(auto, using(crate::proofs::Plans::members))]
fn with_member(entries: &[Entry], kind: TagKind, others: Layout, t: &CType) -> Option<(Layout, u32)>
    requires aligned { AllAligned entries.now }
    requires small { others.size ≤ 2 ^ 26 }
    ensures some { IfSome result (λ r. Some r ≡ Plans.next kind others (spec.layout_of (kept entries.now) (type_of t.now))) }
    ensures small { IfSome result (λ r. r.0.size ≤ 2 ^ 26) }
    ensures none { IfNone result (Plans.IsTooLarge kind others (spec.layout_of (kept entries.now) (type_of t.now))) }
{
    let member = layout_in(entries, t)?;
    joined(kind, others, member)
}

// The plan of a record with members. None where one has no layout, or the record takes more than
// BLOCK_BYTES.
#[tactic(auto, using(crate::proofs::Plans::plans))]
fn lay_out(
    alloc: Global,
    entries: &[Entry],
    kind: TagKind,
    members: &[Member],
) -> Result<Option<Plan>, NoMemory>
    requires { AllAligned entries.now }
    ensures { IfOk result (λ plan. plan ≡ planned (spec.placed (spec.layout_of (kept entries.now)) kind (members_of members.now))) }
{
    let mut together = Layout { size: 0, align: 1 };
    let mut offsets = Items::new(alloc);
    for member in members {
        match with_member(entries, kind, together, &member.type_of) {
            Some((next, place)) => {
                together = next;
                offsets.push(place)?;
            }
            None => return Ok(None),
        }
    }
    Ok(closed(together, offsets))
}

// The plan of members that take so much together.
fn closed(together: Layout, offsets: Items<u32>) -> Option<Plan>
    requires { 0 < together.align }
    ensures { result ≡ plan_of (record { together = together; offsets = offsets }) }
{
    match together.size.checked_next_multiple_of(together.align) {
        Some(size) if size <= BLOCK_BYTES => Some(Plan {
            layout: Layout {
                size,
                align: together.align,
            },
            offsets,
        }),
        _ => None,
    }
}

// A layout, whose size a word holds.
fn as_told(size: u32, align: u32) -> Layout
    ensures { result ≡ spec.told (spec.layout size align) }
{
    Layout { size, align }
}

fn offset_in(entries: &[Entry], tag: u32, member: u32) -> Option<u32>
    ensures { result ≡ option_and_then (λ offsets. slice_get offsets member) (offsets_of (slice_get entries.now tag)) }
{
    match entries.get(tag as usize) {
        Some(
            Entry {
                plan: Some(plan),
                ..
            },
        ) => plan.offsets.get(member as usize).copied(),
        _ => None,
    }
}
