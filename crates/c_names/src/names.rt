//! Declared names.
ghost use Rattle.std.specs.Prelude.{◌≡◌, ◌++◌, ◌∷◌, [], ◌-◌, length, take, drop, IfOk, OnOk, OnErr, IsSome, Some};
ghost use Rattle.c_names.specs.Names as spec;
ghost use Rattle.c_names.specs.Kept.{Sets, shown, told_by};

use indexmap::IndexMap;
use qv_base::NoMemory;
use qv_base::name::Name;
use sqlite_items::Items;
use std::alloc::Global;
use std::marker::Model;

/// A name that was declared, and whether as a typedef name.
#[derive(Debug, Drop)]
pub struct Declared {
    /// The name.
    pub name: Name,
    /// Whether it was declared as a typedef name.
    pub is_typedef: bool,
}

// A declaration, with what its name was declared as before.
#[derive(Drop)]
struct Entry {
    declared: Declared,
    hidden: Option<bool>,
}

// Names with whether their latest declaration is as a typedef name; None where there is none any more.
// The hash has a fixed seed: names that were chosen to collide are slow, and nothing else.
type Latest = IndexMap<Vec<u8>, Option<bool>>;

/// The names that were declared so far. Contracts see the list of their declarations, the latest
/// last.
///
/// A scope ends with a `truncate` to the `len` that was there when it began.
#[derive(Drop)]
pub struct Names {
    alloc: Global,
    entries: Vec<Entry>,
    latest: Latest,
}

impl Model for Names {
    ghost use Rattle.std.specs.Prelude.{List};
    ghost use Rattle.c_names.specs.declared.names.Declared.{Declared};
    ghost use Rattle.c_names.specs.Kept.{IsKept, shown, told_by};

    ghost Value = { List Declared };

    ghost view = { λ n. shown n.entries.items };

    ghost invariant = { λ n. IsKept (told_by n.latest) n.entries.items };
}

impl Names {
    /// No name. It takes no memory.
    pub fn new(alloc: Global) -> Names
        ensures { result ≡ [] }
    {
        Names {
            alloc,
            entries: Vec::new(alloc),
            latest: IndexMap::new(alloc),
        }
    }

    /// How many declarations there are.
    pub fn len(&self) -> usize
        ensures { result ≡ length self.now }
    {
        self.entries.len()
    }

    /// Whether a name is a typedef name: its latest declaration counts, and a name without one is
    /// none.
    pub fn is_typedef_name(&self, name: &[u8]) -> bool
        ensures { result ≡ spec.is_typedef_name self.now name.now }
    {
        self.latest.get(name).copied().flatten().unwrap_or(false)
    }

    /// Declares a name, as a typedef name or as another one. It hides the name's earlier
    /// declarations.
    ///
    /// # Errors
    ///
    /// NoMemory where memory is refused. The names stay as they were.
    pub fn declare(&mut self, name: &[u8], is_typedef: bool) -> Result<(), NoMemory>
        ensures ok { OnOk result (self.new ≡ self.old ++ record { name = name.now; is_typedef = is_typedef } ∷ []) }
        ensures err { OnErr result (self.new ≡ self.old) }
    {
        let declared = Declared {
            name: Name::from_bytes(self.alloc, name)?,
            is_typedef,
        };
        let hidden = set(&mut self.latest, self.alloc, name, is_typedef)?;
        match self.entries.push(Entry { declared, hidden }) {
            Ok(()) => Ok(()),
            Err(_) => {
                put_back(&mut self.latest, name, hidden);
                Err(NoMemory)
            }
        }
    }

    /// Declares names in their order.
    ///
    /// # Errors
    ///
    /// NoMemory where memory is refused. Then some of them may be declared.
    pub fn declare_all(&mut self, more: &[Declared]) -> Result<(), NoMemory>
        ensures { OnOk result (self.new ≡ self.old ++ more.now) }
    {
        for declared in more {
            self.declare(declared.name.bytes(), declared.is_typedef)?;
        }
        Ok(())
    }

    /// Takes the latest declarations away, so that the first `len` stay, or all where there are no
    /// more: a scope ends, and what it hid counts again. The time grows with those that go alone.
    pub fn truncate(&mut self, len: usize)
        ensures { self.new ≡ take len self.old }
    {
        while self.len() > len {
            self.forget_latest();
        }
    }

    /// The declarations behind the first `len`, as a copy: what a scope declared that began with
    /// so many.
    ///
    /// # Errors
    ///
    /// NoMemory where memory for the copy is refused.
    pub fn since(&self, len: usize) -> Result<Items<Declared>, NoMemory>
        ensures { IfOk result (λ declared. declared ≡ drop len self.now) }
    {
        let first = len.min(self.entries.len());
        copies(self.alloc, &self.entries[first..])
    }

    // Takes the latest declaration away, if there is one.
    fn forget_latest(&mut self)
        ensures { self.new ≡ take (length self.old - 1) self.old }
    {
        if let Some(entry) = self.entries.pop() {
            put_back(&mut self.latest, entry.declared.name.bytes(), entry.hidden);
        }
    }
}

// Says how a name is declared as latest, and gives what was said of it before.
fn set(
    latest: &mut Latest,
    alloc: Global,
    name: &[u8],
    is_typedef: bool,
) -> Result<Option<bool>, NoMemory>
    ensures ok { OnOk result (Sets (told_by latest.old) name.now (Some is_typedef) (told_by latest.new)) }
    ensures hidden { IfOk result (λ hidden. hidden ≡ told_by latest.old name.now) }
    ensures err { OnErr result (told_by latest.new ≡ told_by latest.old) }
{
    let name = name.to_vec(alloc)?;
    let hidden = latest.insert(name, Some(is_typedef))?;
    Ok(hidden.flatten())
}

// Says again of a name what was said before.
fn put_back(latest: &mut Latest, name: &[u8], hidden: Option<bool>)
    requires { IsSome (told_by latest.old name.now) }
    ensures { Sets (told_by latest.old) name.now hidden (told_by latest.new) }
{
    if let Some(slot) = latest.get_mut(name) {
        *slot = hidden;
    }
}

// The declarations of entries.
fn copies(alloc: Global, entries: &[Entry]) -> Result<Items<Declared>, NoMemory>
    ensures { IfOk result (λ declared. declared ≡ shown entries.now) }
{
    let mut declared = Items::new(alloc);
    for entry in entries {
        declared.push(Declared {
            name: Name::from_bytes(alloc, entry.declared.name.bytes())?,
            is_typedef: entry.declared.is_typedef,
        })?;
    }
    Ok(declared)
}
