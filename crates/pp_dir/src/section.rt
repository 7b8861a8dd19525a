//! What sections, definitions and conditions come to.
ghost use Rattle.std.specs.Prelude.{◌≡◌, OnOk};
ghost use Rattle.pp_dir.specs.Answers.{Gives, GivesWith, Changes, Unexpanded};
ghost use Rattle.pp_dir.specs.Sections as spec;

use crate::condition::condition_of;
use crate::fault::{LineStop, PpFaultKind, Wrong};
use crate::settle::settled;
use crate::state::State;
use crate::words::{date_in, free_name, is_defined, only_name};
use pp_macro::{DefineFault, ExpandFault, Macro, expand};
use pp_tok::token::{PpLine, PpTok};
use qv_base::NoMemory;
use qv_base::name::Name;
use sqlite_items::Items;
use std::alloc::Global;

/// The most tokens of a unit.
pub const TOKEN_LIMIT: usize = 1 << 22;

/// A line that is wrong in this way.
pub fn wrong(kind: PpFaultKind, line: u32) -> LineStop
    ensures { result ≡ LineStop.Wrong (record { kind = kind; line = line }) }
{
    LineStop::Wrong(Wrong { kind, line })
}

/// A directive that is wrong in its form or place.
pub fn misplaced(line: u32) -> LineStop
    ensures { result ≡ LineStop.Wrong (record { kind = PpFaultKind.Directive; line = line }) }
{
    wrong(PpFaultKind::Directive, line)
}

fn unexpanded(fault: ExpandFault) -> LineStop
    ensures { Unexpanded fault result }
{
    match fault {
        ExpandFault::ArgCount(at) => wrong(PpFaultKind::ArgCount, at.line),
        ExpandFault::OpenCall(at) => wrong(PpFaultKind::OpenCall, at.line),
        ExpandFault::BadPaste(at) => wrong(PpFaultKind::BadPaste, at.line),
        ExpandFault::MacroLimit(at) => wrong(PpFaultKind::MacroLimit, at.line),
        ExpandFault::NoMemory => LineStop::NoMemory,
    }
}

/// Refuses tokens with the name of the day or the hour.
///
/// # Errors
///
/// LeftOut with the first such name and its line, or NoMemory.
pub fn undated(alloc: Global, toks: &[PpTok]) -> Result<(), LineStop>
    ensures { Gives (spec.undated toks.now) result }
{
    match date_in(toks) {
        None => Ok(()),
        Some(tok) => {
            let name = Name::from_bytes(alloc, tok.spelling.bytes())?;
            Err(wrong(PpFaultKind::LeftOut(name), tok.place.line))
        }
    }
}

impl State {
    #[tactic(auto, using(crate::proofs::Expanding::not_expanded))]
    /// The tokens expanded; the replacements are counted.
    ///
    /// # Errors
    ///
    /// The fault of the expansion on its line, or NoMemory.
    pub fn expand(&mut self, alloc: Global, toks: &[PpTok]) -> Result<Items<PpTok>, LineStop>
        ensures { GivesWith (spec.expanded self.old toks.now) result self.new }
    {
        match expand(
            alloc,
            &self.table,
            self.names.as_slice(),
            toks,
            &mut self.count,
        ) {
            Ok(toks) => Ok(toks),
            Err(fault) => Err(unexpanded(fault)),
        }
    }

    // The same of tokens that are let go.
    fn expand_all(&mut self, alloc: Global, toks: Items<PpTok>) -> Result<Items<PpTok>, LineStop>
        ensures { GivesWith (spec.expanded self.old toks) result self.new }
    {
        self.expand(alloc, toks.as_slice())
    }

    // Tokens of the section that begins with this line.
    fn add(&mut self, line: u32, toks: Items<PpTok>) -> Result<(), LineStop>
        ensures { Changes (spec.with_tokens line (toks, self.old)) result self.new }
    {
        if self.toks.len().saturating_add(toks.len()) > TOKEN_LIMIT {
            return Err(wrong(PpFaultKind::TokenLimit, line));
        }
        self.append(toks)?;
        Ok(())
    }

    fn append(&mut self, toks: Items<PpTok>) -> Result<(), NoMemory>
        ensures { OnOk result (self.new ≡ spec.with_more toks self.old) }
    {
        self.toks.append(toks)?;
        Ok(())
    }

    /// Reads a section.
    ///
    /// # Errors
    ///
    /// LeftOut, a fault of expansion or TokenLimit, each on its line, or NoMemory.
    pub fn section(&mut self, alloc: Global, section: PpLine) -> Result<(), LineStop>
        ensures { Changes (spec.section self.old section) result self.new }
    {
        let PpLine { number, toks } = section;
        undated(alloc, toks.as_slice())?;
        let toks = self.expand_all(alloc, toks)?;
        self.add(number, toks)
    }

    /// Defines a macro.
    ///
    /// # Errors
    ///
    /// Redefinition, or NoMemory.
    pub fn define(&mut self, alloc: Global, line: u32, new: Macro) -> Result<(), LineStop>
        ensures { Changes (spec.define self.old line new) result self.new }
    {
        let name = Name::from_bytes(alloc, new.name.bytes())?;
        match self.table.define(new) {
            Ok(()) => Ok(()),
            Err(DefineFault::Redefinition) => Err(wrong(PpFaultKind::Redefinition(name), line)),
            Err(DefineFault::NoMemory) => Err(LineStop::NoMemory),
        }
    }

    /// Makes a name stand for no macro.
    ///
    /// # Errors
    ///
    /// Directive, where no name stands alone that may be undefined.
    pub fn undefine(&mut self, line: u32, toks: &[PpTok]) -> Result<(), LineStop>
        ensures { Changes (spec.undefine self.old line toks.now) result self.new }
    {
        match free_name(toks) {
            Some(name) => {
                self.table.undefine(name);
                Ok(())
            }
            None => Err(misplaced(line)),
        }
    }

    /// Whether the condition of an `#if` or `#elif` holds.
    ///
    /// # Errors
    ///
    /// A fault of expansion, Condition, or NoMemory.
    pub fn condition(&mut self, alloc: Global, line: u32, toks: &[PpTok]) -> Result<bool, LineStop>
        ensures { GivesWith (spec.condition self.old line toks.now) result self.new }
    {
        let toks = settled(alloc, &self.table, toks)?;
        let toks = self.expand(alloc, toks.as_slice())?;
        match condition_of(toks.as_slice()) {
            Some(holds) => Ok(holds),
            None => Err(wrong(PpFaultKind::Condition, line)),
        }
    }

    /// Whether an `#ifdef` holds, or with `want` false an `#ifndef`.
    ///
    /// # Errors
    ///
    /// Directive, where no name stands alone.
    pub fn defined(&self, line: u32, want: bool, toks: &[PpTok]) -> Result<bool, LineStop>
        ensures { GivesWith (spec.defined self.now line want toks.now) result self.now }
    {
        match only_name(toks) {
            Some(name) => Ok(is_defined(&self.table, name) == want),
            None => Err(misplaced(line)),
        }
    }
}
