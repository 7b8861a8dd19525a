//! What a file is parted into.
ghost use Rattle.std.specs.Prelude.{◌≡◌, ◌≤◌, ◌∷◌, [], IfOk, MatchOption, OnOk, length};
ghost use Rattle.pp_dir.specs.Forms as spec;
ghost use Rattle.pp_dir.specs.Parting.{Parts, PopsText, begins_text};

use pp_macro::tokens::is_mark;
use pp_tok::token::{PpLine, PpTok};
use qv_base::NoMemory;
use sqlite_items::Items;
use std::alloc::Global;
use std::marker::Model;

/// A part of a file.
#[derive(Debug, Drop)]
pub enum Passage {
    /// Lines of text with no directive between them, as one: the number of the first, and the tokens of all.
    Section(PpLine),
    /// The line of a directive, its `#` included.
    Directive(PpLine),
}

/// The lines of a file that are still to be read. Contracts see their list.
#[derive(Debug, Drop)]
pub struct Lines {
    /// The next one is the last.
    stack: Items<PpLine>,
}

impl Model for Lines {
    ghost use Rattle.std.specs.Prelude.{List, reverse};
    ghost use Rattle.pp_tok.specs.declared.token.PpLine.{PpLine as Line};

    ghost Value = { List Line };

    ghost view = { λ l. reverse l.stack };
}

fn begins_directive(toks: &[PpTok]) -> bool
    ensures { result ≡ spec.begins_directive toks.now }
{
    match toks.first() {
        Some(tok) => is_mark(tok, b"#"),
        None => false,
    }
}

impl Lines {
    /// All of these lines.
    ///
    /// # Errors
    ///
    /// NoMemory where memory for them is refused.
    pub fn new(alloc: Global, lines: Items<PpLine>) -> Result<Lines, NoMemory>
        ensures { IfOk result (λ all. all ≡ lines) }
    {
        let mut rest = lines;
        let mut stack = Items::new(alloc);
        while let Some(line) = rest.pop() {
            stack.push(line)?;
        }
        Ok(Lines { stack })
    }

    fn pop(&mut self) -> Option<PpLine>
        ensures { MatchOption result ((self.old ≡ []) × (self.new ≡ [])) (λ line. self.old ≡ line ∷ self.new) }
    {
        self.stack.pop()
    }

    // Whether a line of text comes next.
    fn begins_text(&self) -> bool
        ensures { result ≡ begins_text self.now }
    {
        match self.stack.as_slice().last() {
            Some(line) => !begins_directive(line.toks.as_slice()),
            None => false,
        }
    }

    // Takes the next line, where it is one of text.
    fn pop_text(&mut self) -> Option<PpLine>
        ensures { PopsText self.old result self.new }
    {
        if self.begins_text() { self.pop() } else { None }
    }

    // The section that begins with this line.
    #[tactic(auto, using(crate::proofs::Parting::text_goes, crate::proofs::Parting::section_ends))]
    fn section_from(&mut self, first: PpLine) -> Result<PpLine, NoMemory>
        ensures section { IfOk result (λ section. spec.onto_section first (spec.passages_of self.old) ≡ Passage.Section section ∷ spec.passages_of self.new) }
        ensures fewer { OnOk result (length self.new ≤ length self.old) }
    {
        let mut section = first;
        while let Some(line) = self.pop_text() {
            section.toks.append(line.toks)?;
        }
        Ok(section)
    }

    /// Takes the next passage.
    ///
    /// # Errors
    ///
    /// NoMemory where memory for it is refused.
    #[tactic(auto, using(crate::proofs::Parting::text_first, crate::proofs::Parting::directive_first))]
    pub fn next_passage(&mut self) -> Result<Option<Passage>, NoMemory>
        ensures { Parts self.old result self.new }
    {
        if self.begins_text() {
            let Some(line) = self.pop() else {
                return Ok(None);
            };
            let section = self.section_from(line)?;
            return Ok(Some(Passage::Section(section)));
        }
        match self.pop() {
            Some(line) => Ok(Some(Passage::Directive(line))),
            None => Ok(None),
        }
    }
}
