//! Conditionals (ANSI C X3.159-1989, 3.8.1).
ghost use Rattle.std.specs.Prelude.{◌≡◌};
ghost use Rattle.pp_dir.specs.Answers.{Gives, GivesWith, Flows};
ghost use Rattle.pp_dir.specs.Groups as spec;

use crate::directive::Directive;
use crate::fault::LineStop;
use crate::group::{Group, Groups};
use crate::section::{misplaced, undated};
use crate::state::State;
use pp_tok::token::PpTok;
use std::alloc::Global;

/// The tokens behind the first one.
pub fn tail_of(toks: &[PpTok]) -> &[PpTok]
    ensures { result.now ≡ spec.tail_of toks.now }
{
    match toks.split_first() {
        Some((_, rest)) => rest,
        None => toks,
    }
}

impl State {
    // The test of a conditional that begins.
    fn test(
        &mut self,
        alloc: Global,
        line: u32,
        toks: &[PpTok],
        word: Directive,
    ) -> Result<bool, LineStop>
        ensures { GivesWith (spec.test self.old line toks.now word) result self.new }
    {
        match word {
            Directive::Ifdef => self.defined(line, true, toks),
            Directive::Ifndef => self.defined(line, false, toks),
            _ => self.condition(alloc, line, toks),
        }
    }
}

// Whether nothing stands behind the word of a directive, or the text around isn't read.
fn is_bare(around: bool, toks: &[PpTok]) -> bool
    ensures { result ≡ spec.is_bare around toks.now }
{
    toks.is_empty() || !around
}

impl Groups {
    /// `#if`, `#ifdef` or `#ifndef`, by all tokens behind the `#`.
    ///
    /// # Errors
    ///
    /// LeftOut, Directive, Condition or a fault of expansion, each on its line, or NoMemory.
    pub fn open_if(
        &mut self,
        alloc: Global,
        state: &mut State,
        line: u32,
        toks: &[PpTok],
        word: Directive,
    ) -> Result<(), LineStop>
        ensures { Flows (spec.if_at line toks.now word (self.old, state.old)) result self.new state.new }
    {
        if !self.reads() {
            return Ok(self.push(Group::passed(line))?);
        }
        undated(alloc, toks)?;
        let holds = state.test(alloc, line, tail_of(toks), word)?;
        Ok(self.push(Group::opened(line, holds))?)
    }

    /// `#elif`.
    ///
    /// # Errors
    ///
    /// Directive where it has no place; where it is evaluated, as `#if`.
    pub fn elif(
        &mut self,
        alloc: Global,
        state: &mut State,
        line: u32,
        toks: &[PpTok],
    ) -> Result<(), LineStop>
        ensures { Flows (spec.elif_at line toks.now (self.old, state.old)) result self.new state.new }
    {
        let Some(group) = self.pop() else {
            return Err(misplaced(line));
        };
        if group.last {
            return Err(misplaced(line));
        }
        if group.taken {
            return Ok(self.push(Group {
                reads: false,
                ..group
            })?);
        }
        undated(alloc, toks)?;
        let holds = state.condition(alloc, line, tail_of(toks))?;
        Ok(self.push(Group {
            taken: holds,
            reads: holds,
            ..group
        })?)
    }

    // Refuses the day and the hour, where the text around the innermost conditional is read.
    fn undated_around(&self, alloc: Global, toks: &[PpTok]) -> Result<(), LineStop>
        ensures { Gives (spec.undated_around toks.now self.now) result }
    {
        if self.around() {
            undated(alloc, toks)
        } else {
            Ok(())
        }
    }

    /// `#else`.
    ///
    /// # Errors
    ///
    /// LeftOut, or Directive where it has no place or another form, or NoMemory.
    pub fn else_at(
        &mut self,
        alloc: Global,
        state: &State,
        line: u32,
        toks: &[PpTok],
    ) -> Result<(), LineStop>
        ensures { Flows (spec.else_at line toks.now (self.old, state.now)) result self.new state.now }
    {
        self.undated_around(alloc, toks)?;
        let Some(group) = self.pop() else {
            return Err(misplaced(line));
        };
        if group.last || !is_bare(group.around, tail_of(toks)) {
            return Err(misplaced(line));
        }
        Ok(self.push(Group {
            reads: group.around && !group.taken,
            taken: true,
            last: true,
            ..group
        })?)
    }

    /// `#endif`.
    ///
    /// # Errors
    ///
    /// LeftOut, or Directive where it has no place or another form.
    pub fn endif(
        &mut self,
        alloc: Global,
        state: &State,
        line: u32,
        toks: &[PpTok],
    ) -> Result<(), LineStop>
        ensures { Flows (spec.endif_at line toks.now (self.old, state.now)) result self.new state.now }
    {
        self.undated_around(alloc, toks)?;
        let Some(group) = self.pop() else {
            return Err(misplaced(line));
        };
        if !is_bare(group.around, tail_of(toks)) {
            return Err(misplaced(line));
        }
        Ok(())
    }

    /// A conditional, by all tokens behind the `#`.
    ///
    /// # Errors
    ///
    /// Those of its word.
    pub fn conditional(
        &mut self,
        alloc: Global,
        state: &mut State,
        line: u32,
        toks: &[PpTok],
        word: Directive,
    ) -> Result<(), LineStop>
        ensures { Flows (spec.conditional line toks.now word (self.old, state.old)) result self.new state.new }
    {
        match word {
            Directive::Elif => self.elif(alloc, state, line, toks),
            Directive::Else => self.else_at(alloc, state, line, toks),
            Directive::Endif => self.endif(alloc, state, line, toks),
            _ => self.open_if(alloc, state, line, toks, word),
        }
    }
}

/// Whether the word is that of a conditional.
pub fn is_conditional(word: Directive) -> bool
    ensures { result ≡ spec.is_conditional word }
{
    matches!(
        word,
        Directive::If
            | Directive::Ifdef
            | Directive::Ifndef
            | Directive::Elif
            | Directive::Else
            | Directive::Endif
    )
}
