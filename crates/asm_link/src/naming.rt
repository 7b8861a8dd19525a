// Defines and finds names.
ghost use Rattle.std.specs.Prelude.{◌≡◌, ◌∷◌, ◌≤◌, ℕ, IsTrue, List, OnOk, Some, None, length, map, option_map, take, if◌then◌else◌};
ghost use Rattle.std.specs.List.{list_all};
ghost use Rattle.std.specs.Option.{option_or};
ghost use Rattle.asm_line.specs.Shown.{bytes_of};
ghost use Rattle.asm_line.specs.declared.line.AsmSegment.TheVariants.{Code};
ghost use Rattle.asm_place.specs.Symbols.{same_name};
ghost use Rattle.asm_place.specs.declared.address.Address.{Address};
ghost use Rattle.asm_link.specs.Definitions.{defined_by, end_of, entry_address, known_by, label_address, name_in, settled_in, settles_entry};
ghost use Rattle.asm_link.specs.Held.{held_at, is_settled, note_settled, noted_at};
ghost use Rattle.asm_link.specs.Lookup.{lookup};
ghost use Rattle.asm_link.specs.Shown.{before_of, end_behind, entry_of, line_of};
ghost use Rattle.asm_link.specs.Source.{SourceLine as LineShown};
ghost use Rattle.asm_link.specs.State.{is_segment};

use crate::known::Known;
use crate::names::Names;
use crate::noted::{Held, Noted};
use crate::source::{Entry, SourceLine};
use crate::state::{State, size_in};
use asm_line::line::{AsmSegment, Line};
use asm_place::address::Address;
use asm_place::symbols::{SymbolFault, Symbols};
use qv_base::NoMemory;
use std::alloc::Global;

/// No name.
pub fn no_names(alloc: Global) -> Names
    ensures { (address : Address) (file : ℕ) (name : List ℕ) → lookup address result file name ≡ None }
{
    Names {
        symbols: Symbols::new(alloc),
        notes: Vec::new(alloc),
        first_waiting: 0,
    }
}

/// What is known of a name in a file, where labels that wait have this address. None where it isn't
/// defined.
pub fn find(names: &Names, address: Address, file: u32, name: &[u8]) -> Option<Known>
    ensures { result ≡ lookup address names.now file name.now }
{
    let number = names.symbols.find(file, name)?;
    let noted = names.notes.get(number as usize)?;
    Some(Known {
        at: noted.at,
        address: match noted.held {
            Held::Settled(settled) => settled,
            Held::Waiting => address,
        },
    })
}

/// Goes past an entry: settles the labels that wait where it settles them, and adds the name that it
/// defines, if that isn't there.
pub fn note<'a>(
    names: &mut Names,
    at: u64,
    s: &State<'a>,
    line: &SourceLine<'a>,
) -> Result<(), NoMemory>
    ensures { OnOk result ((behind : List LineShown) (file : ℕ) (name : List ℕ) → lookup (end_behind line.now behind s.now) names.new file name ≡ option_or (lookup (end_of (settled_in s.now.segment (line_of line.now ∷ behind)) (before_of s.now)) names.old file name) (known_by (defined_by at (before_of s.now) line.now.file (entry_of line.now.entry) behind) file name)) }
{
    settle_before(names, s, line);
    define_name(names, at, s, line)
}

// Settles the labels that wait, where the entry settles them.
fn settle_before<'a>(names: &mut Names, s: &State<'a>, line: &SourceLine<'a>)
    ensures { (behind : List LineShown) (file : ℕ) (name : List ℕ) → lookup (end_behind line.now behind s.now) names.new file name ≡ lookup (end_of (settled_in s.now.segment (line_of line.now ∷ behind)) (before_of s.now)) names.old file name }
{
    if let Some(segment) = settles(s.segment, &line.entry) {
        settle(names, Address::Relative(segment, size_in(s, segment)));
    }
}

// Adds the name that the entry defines, if that isn't there.
fn define_name<'a>(
    names: &mut Names,
    at: u64,
    s: &State<'a>,
    line: &SourceLine<'a>,
) -> Result<(), NoMemory>
    ensures { OnOk result ((behind : List LineShown) (file : ℕ) (name : List ℕ) → lookup (end_behind line.now behind s.now) names.new file name ≡ option_or (lookup (end_behind line.now behind s.now) names.old file name) (known_by (defined_by at (before_of s.now) line.now.file (entry_of line.now.entry) behind) file name)) }
{
    let Some(name) = name_defined(&line.entry) else {
        return Ok(());
    };
    let held = held(&line.entry, s);
    define(names, line, name, Noted { at, held })
}

// The segment in which an entry settles the labels that wait. None where it settles none.
fn settles(current: AsmSegment, entry: &Entry<'_>) -> Option<AsmSegment>
    ensures { result ≡ settles_entry current (entry_of entry.now) }
{
    match entry {
        Entry::Read(Line::Word(_)) => Some(AsmSegment::Data),
        Entry::Read(Line::LitByte(_)) => Some(AsmSegment::Lit),
        Entry::Read(Line::Skip(_) | Line::Align(_) | Line::Into(_)) | Entry::FileEnd => Some(
            current,
        ),
        _ => None,
    }
}

/// The name that an entry defines.
pub fn name_defined<'a>(entry: &Entry<'a>) -> Option<&'a [u8]>
    ensures { option_map bytes_of result ≡ name_in (entry_of entry.now) }
{
    match *entry {
        Entry::Read(Line::Proc { name, .. } | Line::Label(name) | Line::Equ { name, .. }) => Some(
            name,
        ),
        _ => None,
    }
}

// What the name stands for that an entry defines.
fn held(entry: &Entry<'_>, s: &State<'_>) -> Held
    ensures { (behind : List LineShown) → held_at (end_of (settled_in s.now.segment behind) (before_of s.now)) result ≡ entry_address (entry_of entry.now) (before_of s.now) behind }
{
    match entry {
        Entry::Read(Line::Equ { value, .. }) => Held::Settled(Address::Absolute(u128::from(
            *value,
        ))),
        Entry::Read(Line::Label(_)) => label_held(s),
        _ => Held::Settled(Address::Absolute(s.count)),
    }
}

// What a label stands for: outside code it waits.
#[tactic(auto, using(crate::proofs::Settling::label_outside))]
fn label_held(s: &State<'_>) -> Held
    ensures { (behind : List LineShown) → held_at (end_of (settled_in s.now.segment behind) (before_of s.now)) result ≡ label_address s.now.segment (before_of s.now) behind }
{
    if is_code(s.segment) {
        return Held::Settled(Address::Absolute(s.count));
    }
    Held::Waiting
}

fn is_code(segment: AsmSegment) -> bool
    ensures { result ≡ is_segment segment Code }
{
    segment == AsmSegment::Code
}

// Settles the labels that wait at this address.
fn settle(names: &mut Names, address: Address)
    ensures symbols { names.new.symbols ≡ names.old.symbols }
    ensures notes { names.new.notes.items ≡ map (note_settled address) names.old.notes.items }
{
    settle_from(&mut names.notes, names.first_waiting, address);
    names.first_waiting = names.notes.len();
}

// Settles the definitions from this number on. Those before it are settled.
fn settle_from(notes: &mut [Noted], first: usize, address: Address)
    requires within { first ≤ length notes.old }
    requires settled { IsTrue (list_all is_settled (take first notes.old)) }
    ensures { notes.new ≡ map (note_settled address) notes.old }
{
    for i in first..notes.len() {
        let noted = notes[i];
        notes[i] = settled(noted, address);
    }
}

// A definition once the labels that wait have this address.
fn settled(noted: Noted, address: Address) -> Noted
    ensures { result ≡ note_settled address noted }
{
    match noted.held {
        Held::Settled(_) => noted,
        Held::Waiting => Noted {
            at: noted.at,
            held: Held::Settled(address),
        },
    }
}

// Adds a name that a line defines, if it isn't there.
fn define(
    names: &mut Names,
    line: &SourceLine<'_>,
    name: &[u8],
    noted: Noted,
) -> Result<(), NoMemory>
    ensures { OnOk result ((address : Address) (file : ℕ) (other : List ℕ) → lookup address names.new file other ≡ option_or (lookup address names.old file other) (if same_name file other line.now.file name.now then Some (noted_at address noted) else None)) }
{
    let number = names.notes.len() as u64;
    names.notes.push(noted)?;
    match names.symbols.define(line.file, name, number, line.line) {
        Ok(()) => Ok(()),
        Err(SymbolFault::Redefined) => Ok(()),
        Err(SymbolFault::NoMemory) => Err(NoMemory),
    }
}
