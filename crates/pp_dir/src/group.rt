//! Conditionals that are open.
ghost use Rattle.std.specs.Prelude.{◌≡◌, ◌∷◌, [], List, OnOk, MatchOption, reverse};
ghost use Rattle.pp_dir.specs.Groups as spec;

use qv_base::NoMemory;
use sqlite_items::Items;
use std::alloc::Global;
use std::marker::Model;

/// A conditional whose `#endif` is still to come.
#[derive(Clone, Copy, Debug, PartialEq, Eq)]
pub struct Group {
    /// The line of its `#if`.
    pub line: u32,
    /// Whether the text around it is read.
    pub around: bool,
    /// Whether one of its groups was read, or is.
    pub taken: bool,
    /// Whether the present group is read.
    pub reads: bool,
    /// Whether its `#else` was met.
    pub last: bool,
}

impl Group {
    /// One that begins where the text is read.
    pub fn opened(line: u32, holds: bool) -> Group
        ensures { result ≡ spec.opened line holds }
    {
        Group {
            line,
            around: true,
            taken: holds,
            reads: holds,
            last: false,
        }
    }

    /// One that begins in text that isn't read.
    pub fn passed(line: u32) -> Group
        ensures { result ≡ spec.passed line }
    {
        Group {
            line,
            around: false,
            taken: true,
            reads: false,
            last: false,
        }
    }
}

/// The conditionals that are open. Contracts see their list, the innermost first.
#[derive(Debug, Drop)]
pub struct Groups {
    open: Items<Group>,
}

impl Model for Groups {
    ghost use Rattle.std.specs.Prelude.{List, reverse};
    ghost use Rattle.pp_dir.specs.declared.group.Group.{Group as Open};

    ghost Value = { List Open };

    ghost view = { λ g. reverse g.open };
}

impl Groups {
    /// None is open.
    pub fn new(alloc: Global) -> Groups
        ensures { result ≡ [] }
    {
        Groups {
            open: Items::new(alloc),
        }
    }

    /// The innermost one.
    pub fn innermost(&self) -> Option<Group>
        ensures { result ≡ spec.innermost self.now }
    {
        self.open.as_slice().last().copied()
    }

    /// Whether the text here is read.
    pub fn reads(&self) -> bool
        ensures { result ≡ spec.reads self.now }
    {
        self.innermost().is_none_or(|group| group.reads)
    }

    /// Whether the text around the innermost one is read.
    pub fn around(&self) -> bool
        ensures { result ≡ spec.around self.now }
    {
        self.innermost().is_none_or(|group| group.around)
    }

    /// Opens one.
    ///
    /// # Errors
    ///
    /// NoMemory where memory for it is refused.
    pub fn push(&mut self, group: Group) -> Result<(), NoMemory>
        ensures { OnOk result (self.new ≡ group ∷ self.old) }
    {
        self.open.push(group)?;
        Ok(())
    }

    /// Takes the innermost one off.
    pub fn pop(&mut self) -> Option<Group>
        ensures { MatchOption result ((self.old ≡ []) × (self.new ≡ [])) (λ g. self.old ≡ g ∷ self.new) }
    {
        self.open.pop()
    }
}
