// Rows: what stands between the runs of a row, and what the script's lines do.
use crate::content::{changed, written};
use crate::fault::StepFault;
use crate::plan::{Plan, trap};
use crate::run::{Outcome, Shelf, Traps, run};
use crate::script::Step;
use crate::transcript::Transcript;
use crate::words::{repeated, words};
use qv_base::NoMemory;
use std::alloc::Global;
use std::collections::BTreeMap;
use std::mem;

/// A row as far as it was taken.
#[derive(Drop)]
pub struct Row {
    alloc: Global,
    shelf: Shelf,
    traps: Traps,
    plan: Plan,
    transcript: Transcript,
}

impl Row {
    /// No files, no traps, and nothing to fail.
    pub fn new(alloc: Global) -> Row {
        Row {
            alloc,
            shelf: BTreeMap::new(alloc),
            traps: Vec::new(alloc),
            plan: Plan::new(alloc),
            transcript: Transcript::new(alloc),
        }
    }

    /// What was printed.
    pub fn into_transcript(self) -> Vec<u8> {
        self.transcript.into_bytes()
    }

    /// Takes a step: prints it, does what it says, and prints what it answers.
    pub fn take(&mut self, step: &Step<'_>) -> Result<(), NoMemory> {
        self.transcript.step(step)?;
        match self.act(step) {
            Ok(()) => Ok(()),
            Err(StepFault::Unread) => self.transcript.answer("  ", b"?\n"),
            Err(StepFault::NoMemory) => Err(NoMemory),
        }
    }

    fn act(&mut self, step: &Step<'_>) -> Result<(), StepFault> {
        let line = step.line;
        if line.is_empty() || line.starts_with('#') || step.numbers().is_some() {
            return Ok(());
        }
        if line.starts_with("= ") {
            self.shelf = BTreeMap::new(self.alloc);
            self.traps = Vec::new(self.alloc);
            self.plan = Plan::new(self.alloc);
            return Ok(());
        }
        let line = repeated(self.alloc, line)?;
        self.obey(&words(self.alloc, &line)?, &step.content)
    }

    /// Does what a line of these words says.
    fn obey(&mut self, words: &[String], content: &[&str]) -> Result<(), StepFault> {
        let [verb, args @ ..] = words else {
            return Err(StepFault::Unread);
        };
        match verb.as_str() {
            "$" => self.run(args),
            "show" | "hex" => self.print(verb, args),
            "trap" => Ok(self.traps.push(trap(self.alloc, args)?)?),
            "steady" | "room" | "outroom" | "reply" | "fail" => self
                .plan
                .read(self.alloc, verb, args),
            _ => self.make(verb, args, content),
        }
    }

    /// Prints a file as `show` or `hex` says.
    fn print(&mut self, verb: &str, args: &[String]) -> Result<(), StepFault> {
        let [name] = args else {
            return Err(StepFault::Unread);
        };
        let bytes = self.file(name)?.to_vec(self.alloc)?;
        let printed = match verb {
            "hex" => self.transcript.hex(&bytes),
            _ => self.transcript.answer("  | ", &bytes),
        };
        Ok(printed?)
    }

    /// Puts a file on the shelf, in place of one that has its name.
    fn make(&mut self, verb: &str, args: &[String], content: &[&str]) -> Result<(), StepFault> {
        let [name, args @ ..] = args else {
            return Err(StepFault::Unread);
        };
        let bytes = self.bytes(verb, args, content)?;
        let name = String::from_str(self.alloc, name)?;
        self.shelf.insert(name, bytes)?;
        Ok(())
    }

    /// The bytes that a file is made of.
    fn bytes(&self, verb: &str, args: &[String], content: &[&str]) -> Result<Vec<u8>, StepFault> {
        match args {
            [] => written(self.alloc, verb, content),
            [text] if verb == "text" => Ok(text.as_bytes().to_vec(self.alloc)?),
            [other, args @ ..] => changed(self.alloc, verb, self.file(other)?, args),
        }
    }

    /// What a file holds.
    fn file(&self, name: &str) -> Result<&[u8], StepFault> {
        match self.shelf.get(name) {
            Some(bytes) => Ok(bytes.as_slice()),
            None => Err(StepFault::Unread),
        }
    }

    /// Runs the tool by these words, and prints what comes of it.
    fn run(&mut self, words: &[String]) -> Result<(), StepFault> {
        let plan = mem::replace(&mut self.plan, Plan::new(self.alloc));
        let outcome = run(self.alloc, words, &self.shelf, &self.traps, plan)?;
        self.tell(&outcome)?;
        self.shelf = outcome.shelf;
        Ok(())
    }

    /// Prints what came of a run.
    fn tell(&mut self, outcome: &Outcome) -> Result<(), NoMemory> {
        let alloc = self.alloc;
        let code = outcome.code;
        if outcome.err.bytes().is_empty() {
            let line = format!(in alloc; "{code}\n")?;
            self.transcript.answer("  ", line.as_bytes())?;
        } else {
            let mark = format!(in alloc; "  {code} ")?;
            self.transcript.answer(&mark, outcome.err.bytes())?;
        }
        self.transcript.answer("  > ", outcome.out.bytes())?;
        if outcome.asked > 0 {
            let asked = outcome.asked;
            let line = format!(in alloc; "asked {asked}\n")?;
            self.transcript.answer("  ", line.as_bytes())?;
        }
        for (name, bytes) in &outcome.shelf {
            if self.shelf.get(name.as_str()) != Some(bytes) {
                let len = bytes.len();
                let line = format!(in alloc; "{name}: {len} bytes\n")?;
                self.transcript.answer("  ", line.as_bytes())?;
            }
        }
        Ok(())
    }
}
