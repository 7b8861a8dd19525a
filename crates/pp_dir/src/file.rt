//! Files, with those that they include.
ghost use Rattle.std.specs.Prelude.{◌≡◌, ◌<◌, ◌-◌, IfOk, OnOk, Ok, Some, map, option_map, position, string_bytes};
ghost use Rattle.std.specs.Str.{bytes_eq};
ghost use Rattle.qv_base.specs.Place.{capped};
ghost use Rattle.qv_outside.specs.FileMap.{FileMap, content};
ghost use Rattle.pp_dir.specs.declared.state.State.{State as StateIs};
ghost use Rattle.pp_dir.specs.Answers.{Changes};
ghost use Rattle.pp_dir.specs.Endings.{Ends, EndsWithin, Keeps, NotFailed, Tells, found_shown, keeper_of};
ghost use Rattle.pp_dir.specs.Forms.{passages_of};
ghost use Rattle.pp_dir.specs.Nested.{Nested};
ghost use Rattle.pp_dir.specs.Preprocessed as spec;
ghost use Rattle.pp_dir.specs.Sources as at;
ghost use Rattle.pp_dir.specs.Shown.{wanted_shown};

use crate::conditional::{is_conditional, tail_of};
use crate::definition::macro_of;
use crate::directive::Directive;
use crate::fault::{LineStop, PpFault, PpFaultKind, PpStop};
use crate::group::Groups;
use crate::header::{Wanted, begins_with_header, header_of, text_of};
use crate::passage::{Lines, Passage};
use crate::search::{Found, candidates};
use crate::section::{misplaced, undated, wrong};
use crate::state::State;
use crate::words::{directive_of, error_text, free_name};
use pp_tok::lines::pp_lines;
use pp_tok::token::{PpLine, PpTok, PpTokFault};
use qv_base::NoMemory;
use qv_base::name::Name;
use qv_outside::files::Files;
use std::alloc::Global;

/// A file that is read, over a function that reads those that it includes.
#[derive(Clone, Copy)]
struct Source<'u, G> {
    alloc: Global,
    dirs: &'u [String],
    /// The file's name.
    file: &'u str,
    /// How deep includes may still nest.
    depth: usize,
    within: G,
}

// A result of this file: what is wrong is told with the file's name.
fn in_file<T: Drop>(alloc: Global, file: &str, read: Result<T, LineStop>) -> Result<T, PpStop>
    ensures { Tells read file.now result }
{
    match read {
        Ok(value) => Ok(value),
        Err(LineStop::NoMemory) => Err(PpStop::NoMemory),
        Err(LineStop::Wrong(wrong)) => match Name::from_bytes(alloc, file.as_bytes()) {
            Ok(file) => Err(PpStop::Fault(PpFault {
                kind: wrong.kind,
                file,
                line: wrong.line,
            })),
            Err(NoMemory) => Err(PpStop::NoMemory),
        },
    }
}

impl State {
    // A directive that is no conditional and no include, by the tokens behind its word.
    fn act(
        &mut self,
        alloc: Global,
        line: u32,
        toks: &[PpTok],
        word: Directive,
    ) -> Result<(), LineStop>
        ensures { Changes (spec.act self.old line toks.now word) result self.new }
    {
        match word {
            Directive::Nothing | Directive::Pragma => Ok(()),
            Directive::Define => match macro_of(alloc, toks)? {
                Some(new) => self.define(alloc, line, new),
                None => Err(misplaced(line)),
            },
            Directive::Undef => self.undefine(line, toks),
            Directive::Error => {
                let text = error_text(alloc, toks)?;
                Err(wrong(PpFaultKind::ErrorDirective(text), line))
            }
            Directive::Line => {
                let name = Name::from_bytes(alloc, b"line")?;
                Err(wrong(PpFaultKind::LeftOut(name), line))
            }
            _ => Err(misplaced(line)),
        }
    }
}

impl<G> Source<'_, G> {
    // Reads the file that was found, if one was.
    #[tactic(auto, using(crate::proofs::Stopping::stops_line))]
    fn read_found<F: Files>(
        &self,
        line: u32,
        name: &str,
        found: Option<Found<'_>>,
        state: &mut State,
        files: &mut F,
    ) -> Result<(), PpStop>
    where
        G: Fn(Global, &[String], usize, &str, &[u8], &mut State, &mut F) -> Result<(), PpStop>,
        requires deep { 0 < self.now.depth }
        requires nested { 0 < self.now.depth → Nested F.Files (self.now.depth - 1) (G.pre self.now.within) (G.post self.now.within) }
        ensures told { (m : FileMap) → F.held files.old ≡ Some m → Ends (at.read_found m (map string_bytes self.now.dirs.now) self.now.depth self.now.file.now line name.now (option_map found_shown found.entry, state.old)) result state.new }
        ensures keeps { Keeps (keeper_of F.Files files.old) (keeper_of F.Files files.new) result }
    {
        let Some(found) = found else {
            let name = Name::from_bytes(self.alloc, name.as_bytes())?;
            let absent = Err(wrong(PpFaultKind::NoInclude(name), line));
            return in_file(self.alloc, self.file, absent);
        };
        (self.within)(
            self.alloc,
            self.dirs,
            self.depth - 1,
            found.name,
            found.bytes.as_slice(),
            state,
            files,
        )
    }

    // Reads the file that is wanted.
    #[tactic(auto, using(crate::proofs::Sources::too_deep, crate::proofs::Sources::search_fails, crate::proofs::Sources::search_ends, crate::proofs::Stopping::stops_line, crate::proofs::Searching::keeps_then))]
    fn include_by<F: Files>(
        &self,
        line: u32,
        wanted: Wanted<'_>,
        state: &mut State,
        files: &mut F,
    ) -> Result<(), PpStop>
    where
        G: Fn(Global, &[String], usize, &str, &[u8], &mut State, &mut F) -> Result<(), PpStop>,
        requires { 0 < self.now.depth → Nested F.Files (self.now.depth - 1) (G.pre self.now.within) (G.post self.now.within) }
        ensures told { (m : FileMap) → F.held files.old ≡ Some m → Ends (at.include_by m (map string_bytes self.now.dirs.now) self.now.depth self.now.file.now line (wanted_shown wanted.entry, state.old)) result state.new }
        ensures keeps { Keeps (keeper_of F.Files files.old) (keeper_of F.Files files.new) result }
    {
        if self.depth == 0 {
            let deep = Err(wrong(PpFaultKind::IncludeDepth, line));
            return in_file(self.alloc, self.file, deep);
        }
        let names = candidates(self.alloc, self.dirs, self.file, wanted)?;
        let found = state.searched(self.alloc, names.as_slice(), files)?;
        self.read_found(line, wanted.name, found, state, files)
    }

    // Reads the file that a directive asks for, if it asks for one.
    #[tactic(auto, using(crate::proofs::Sources::none_wanted, crate::proofs::Stopping::stops_line))]
    fn include_named<F: Files>(
        &self,
        line: u32,
        wanted: Option<Wanted<'_>>,
        state: &mut State,
        files: &mut F,
    ) -> Result<(), PpStop>
    where
        G: Fn(Global, &[String], usize, &str, &[u8], &mut State, &mut F) -> Result<(), PpStop>,
        requires { 0 < self.now.depth → Nested F.Files (self.now.depth - 1) (G.pre self.now.within) (G.post self.now.within) }
        ensures told { (m : FileMap) → F.held files.old ≡ Some m → Ends (at.include_named m (map string_bytes self.now.dirs.now) self.now.depth self.now.file.now line state.old (option_map wanted_shown wanted.entry)) result state.new }
        ensures keeps { Keeps (keeper_of F.Files files.old) (keeper_of F.Files files.new) result }
    {
        match wanted {
            Some(wanted) => self.include_by(line, wanted, state, files),
            None => in_file(self.alloc, self.file, Err(misplaced(line))),
        }
    }

    // An `#include`, by the tokens behind its word.
    #[tactic(auto, using(crate::proofs::Sources::not_expanded, crate::proofs::Searching::keeps_then))]
    fn include<F: Files>(
        &self,
        line: u32,
        toks: &[PpTok],
        state: &mut State,
        files: &mut F,
    ) -> Result<(), PpStop>
    where
        G: Fn(Global, &[String], usize, &str, &[u8], &mut State, &mut F) -> Result<(), PpStop>,
        requires { 0 < self.now.depth → Nested F.Files (self.now.depth - 1) (G.pre self.now.within) (G.post self.now.within) }
        ensures told { (m : FileMap) → F.held files.old ≡ Some m → Ends (at.include m (map string_bytes self.now.dirs.now) self.now.depth self.now.file.now state.old line toks.now) result state.new }
        ensures keeps { Keeps (keeper_of F.Files files.old) (keeper_of F.Files files.new) result }
    {
        if begins_with_header(toks) {
            return self.include_named(line, header_of(toks), state, files);
        }
        let toks = in_file(self.alloc, self.file, state.expand(self.alloc, toks))?;
        self.include_named(line, text_of(toks.as_slice()), state, files)
    }

    // A directive that is no conditional, by the tokens behind its word.
    #[tactic(auto, using(crate::proofs::Stopping::stops_line))]
    fn act_on<F: Files>(
        &self,
        line: u32,
        toks: &[PpTok],
        word: Directive,
        state: &mut State,
        files: &mut F,
    ) -> Result<(), PpStop>
    where
        G: Fn(Global, &[String], usize, &str, &[u8], &mut State, &mut F) -> Result<(), PpStop>,
        requires { 0 < self.now.depth → Nested F.Files (self.now.depth - 1) (G.pre self.now.within) (G.post self.now.within) }
        ensures told { (m : FileMap) → F.held files.old ≡ Some m → Ends (at.act_on m (map string_bytes self.now.dirs.now) self.now.depth self.now.file.now state.old line toks.now word) result state.new }
        ensures keeps { Keeps (keeper_of F.Files files.old) (keeper_of F.Files files.new) result }
    {
        if word == Directive::Include {
            return self.include(line, toks, state, files);
        }
        let acted = state.act(self.alloc, line, toks, word);
        in_file(self.alloc, self.file, acted)
    }

    // The same, where the text is read, by all tokens behind the `#`.
    #[tactic(auto, using(crate::proofs::Sources::is_dated, crate::proofs::Sources::act_stops))]
    fn act_read<F: Files>(
        &self,
        line: u32,
        toks: &[PpTok],
        word: Directive,
        groups: &Groups,
        state: &mut State,
        files: &mut F,
    ) -> Result<(), PpStop>
    where
        G: Fn(Global, &[String], usize, &str, &[u8], &mut State, &mut F) -> Result<(), PpStop>,
        requires { 0 < self.now.depth → Nested F.Files (self.now.depth - 1) (G.pre self.now.within) (G.post self.now.within) }
        ensures told { (m : FileMap) → F.held files.old ≡ Some m → EndsWithin (at.act_read m (map string_bytes self.now.dirs.now) self.now.depth self.now.file.now line toks.now word (groups.now, state.old)) result groups.now state.new }
        ensures keeps { Keeps (keeper_of F.Files files.old) (keeper_of F.Files files.new) result }
    {
        if !groups.reads() {
            return Ok(());
        }
        in_file(self.alloc, self.file, undated(self.alloc, toks))?;
        self.act_on(line, tail_of(toks), word, state, files)
    }

    // A directive, by all tokens behind the `#`.
    #[tactic(auto, using(crate::proofs::Stopping::stops_line))]
    fn directive_by<F: Files>(
        &self,
        line: u32,
        toks: &[PpTok],
        word: Directive,
        groups: &mut Groups,
        state: &mut State,
        files: &mut F,
    ) -> Result<(), PpStop>
    where
        G: Fn(Global, &[String], usize, &str, &[u8], &mut State, &mut F) -> Result<(), PpStop>,
        requires { 0 < self.now.depth → Nested F.Files (self.now.depth - 1) (G.pre self.now.within) (G.post self.now.within) }
        ensures told { (m : FileMap) → F.held files.old ≡ Some m → EndsWithin (at.directive_by m (map string_bytes self.now.dirs.now) self.now.depth self.now.file.now line toks.now word (groups.old, state.old)) result groups.new state.new }
        ensures keeps { Keeps (keeper_of F.Files files.old) (keeper_of F.Files files.new) result }
    {
        if is_conditional(word) {
            let read = groups.conditional(self.alloc, state, line, toks, word);
            return in_file(self.alloc, self.file, read);
        }
        self.act_read(line, toks, word, groups, state, files)
    }

    // The line of a directive.
    fn directive<F: Files>(
        &self,
        toks: &[PpTok],
        groups: &mut Groups,
        state: &mut State,
        files: &mut F,
    ) -> Result<(), PpStop>
    where
        G: Fn(Global, &[String], usize, &str, &[u8], &mut State, &mut F) -> Result<(), PpStop>,
        requires { 0 < self.now.depth → Nested F.Files (self.now.depth - 1) (G.pre self.now.within) (G.post self.now.within) }
        ensures told { (m : FileMap) → F.held files.old ≡ Some m → EndsWithin (at.directive m (map string_bytes self.now.dirs.now) self.now.depth self.now.file.now toks.now (groups.old, state.old)) result groups.new state.new }
        ensures keeps { Keeps (keeper_of F.Files files.old) (keeper_of F.Files files.new) result }
    {
        let Some((hash, rest)) = toks.split_first() else {
            return Ok(());
        };
        self.directive_by(
            hash.place.line,
            rest,
            directive_of(rest),
            groups,
            state,
            files,
        )
    }

    // A section, where the text is read.
    #[tactic(auto, using(crate::proofs::Sources::section_stops, crate::proofs::Sources::section_reads))]
    fn section(&self, section: PpLine, groups: &Groups, state: &mut State) -> Result<(), PpStop>
        ensures told { (m : FileMap) → EndsWithin (at.section_in m (map string_bytes self.now.dirs.now) self.now.depth self.now.file.now section (groups.now, state.old)) result groups.now state.new }
        ensures kept { NotFailed result }
    {
        if !groups.reads() {
            return Ok(());
        }
        let read = state.section(self.alloc, section);
        in_file(self.alloc, self.file, read)
    }

    // A passage.
    fn step<F: Files>(
        &self,
        passage: Passage,
        groups: &mut Groups,
        state: &mut State,
        files: &mut F,
    ) -> Result<(), PpStop>
    where
        G: Fn(Global, &[String], usize, &str, &[u8], &mut State, &mut F) -> Result<(), PpStop>,
        requires { 0 < self.now.depth → Nested F.Files (self.now.depth - 1) (G.pre self.now.within) (G.post self.now.within) }
        ensures told { (m : FileMap) → F.held files.old ≡ Some m → EndsWithin (at.step m (map string_bytes self.now.dirs.now) self.now.depth self.now.file.now passage (groups.old, state.old)) result groups.new state.new }
        ensures keeps { Keeps (keeper_of F.Files files.old) (keeper_of F.Files files.new) result }
    {
        match passage {
            Passage::Section(section) => self.section(section, groups, state),
            Passage::Directive(line) => {
                self.directive(line.toks.as_slice(), groups, state, files)
            }
        }
    }

    // The lines of the file, one passage after another.
    #[tactic(auto, using(crate::proofs::Sources::step_goes, crate::proofs::Sources::step_stops, crate::proofs::Sources::no_steps, crate::proofs::Searching::keeps_then))]
    fn steps<F: Files>(
        &self,
        lines: Lines,
        groups: &mut Groups,
        state: &mut State,
        files: &mut F,
    ) -> Result<(), PpStop>
    where
        G: Fn(Global, &[String], usize, &str, &[u8], &mut State, &mut F) -> Result<(), PpStop>,
        requires { 0 < self.now.depth → Nested F.Files (self.now.depth - 1) (G.pre self.now.within) (G.post self.now.within) }
        ensures told { (m : FileMap) → F.held files.old ≡ Some m → EndsWithin (at.steps m (map string_bytes self.now.dirs.now) self.now.depth self.now.file.now (passages_of lines) (groups.old, state.old)) result groups.new state.new }
        ensures keeps { Keeps (keeper_of F.Files files.old) (keeper_of F.Files files.new) result }
    {
        let mut rest = lines;
        while let Some(passage) = rest.next_passage()? {
            match self.step(passage, groups, state, files) {
                Ok(()) => {}
                Err(stop) => return Err(stop),
            }
        }
        Ok(())
    }

    // No conditional is left open.
    fn close(&self, groups: &Groups) -> Result<(), PpStop>
        ensures told { (s : StateIs) → Ends (spec.closed self.now.file.now (groups.now, s)) result s }
        ensures kept { NotFailed result }
    {
        match groups.innermost() {
            None => Ok(()),
            Some(group) => {
                let open = Err(wrong(PpFaultKind::OpenIf, group.line));
                in_file(self.alloc, self.file, open)
            }
        }
    }

    // The lines of the file.
    #[tactic(auto, using(crate::proofs::Sources::lines_stop, crate::proofs::Searching::keeps_then))]
    fn read_lines<F: Files>(
        &self,
        lines: Lines,
        state: &mut State,
        files: &mut F,
    ) -> Result<(), PpStop>
    where
        G: Fn(Global, &[String], usize, &str, &[u8], &mut State, &mut F) -> Result<(), PpStop>,
        requires { 0 < self.now.depth → Nested F.Files (self.now.depth - 1) (G.pre self.now.within) (G.post self.now.within) }
        ensures told { (m : FileMap) → F.held files.old ≡ Some m → Ends (at.lines_read m (map string_bytes self.now.dirs.now) self.now.depth self.now.file.now state.old (Ok lines)) result state.new }
        ensures keeps { Keeps (keeper_of F.Files files.old) (keeper_of F.Files files.new) result }
    {
        let mut groups = Groups::new(self.alloc);
        self.steps(lines, &mut groups, state, files)?;
        self.close(&groups)
    }

    // The file that has these bytes.
    #[tactic(auto, using(crate::proofs::Sources::open_comment))]
    fn read<F: Files>(&self, bytes: &[u8], state: &mut State, files: &mut F) -> Result<(), PpStop>
    where
        G: Fn(Global, &[String], usize, &str, &[u8], &mut State, &mut F) -> Result<(), PpStop>,
        requires { 0 < self.now.depth → Nested F.Files (self.now.depth - 1) (G.pre self.now.within) (G.post self.now.within) }
        ensures told { (m : FileMap) → F.held files.old ≡ Some m → Ends (at.file_by m (map string_bytes self.now.dirs.now) self.now.depth self.now.file.now bytes.now state.old) result state.new }
        ensures keeps { Keeps (keeper_of F.Files files.old) (keeper_of F.Files files.new) result }
    {
        let number = state.number(self.alloc, self.file)?;
        match pp_lines(self.alloc, number, bytes) {
            Ok(lines) => {
                let lines = Lines::new(self.alloc, lines)?;
                self.read_lines(lines, state, files)
            }
            Err(PpTokFault::OpenComment(line)) => {
                let open = Err(wrong(PpFaultKind::OpenComment, line));
                in_file(self.alloc, self.file, open)
            }
            Err(PpTokFault::NoMemory) => Err(PpStop::NoMemory),
        }
    }
}

impl State {
    fn place_of(&self, name: &str) -> Option<usize>
        ensures { result ≡ position (bytes_eq name.now) self.now.names }
    {
        self.names
            .as_slice()
            .iter()
            .position(|other| name.as_bytes() == other.bytes())
    }

    // The number of a file, which is that of its first reading.
    fn number(&mut self, alloc: Global, name: &str) -> Result<u32, NoMemory>
        ensures named { OnOk result (self.new ≡ spec.numbered name.now self.old) }
        ensures number { IfOk result (λ n. n ≡ capped (spec.number_of self.old.names name.now)) }
    {
        if let Some(at) = self.place_of(name) {
            return Ok(at.min(u32::MAX as usize) as u32);
        }
        let at = self.names.len();
        self.names.push(Name::from_bytes(alloc, name.as_bytes())?)?;
        Ok(at.min(u32::MAX as usize) as u32)
    }
}

/// Reads a file of this name and these bytes, in which includes may nest so deep.
///
/// # Errors
///
/// The first fault of the definition, File for a file that was not read, or NoMemory.
#[tactic(auto, using(crate::proofs::Sources::file_at))]
pub fn file_in<F: Files>(
    alloc: Global,
    dirs: &[String],
    depth: usize,
    name: &str,
    bytes: &[u8],
    state: &mut State,
    files: &mut F,
) -> Result<(), PpStop>
    ensures told { (m : FileMap) → F.held files.old ≡ Some m → Ends (spec.file_in (content m) (map string_bytes dirs.now) depth name.now bytes.now state.old) result state.new }
    ensures keeps { Keeps (keeper_of F.Files files.old) (keeper_of F.Files files.new) result }
{
    Source {
        alloc,
        dirs,
        file: name,
        depth,
        within: file_in,
    }
    .read(bytes, state, files)
}
