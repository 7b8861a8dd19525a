//! The table of macros.
ghost use Rattle.std.specs.Prelude.{◌≡◌, OnOk, OnErr, IsErrOf, IsTrue, ◌↔◌, [], Some};
ghost use Rattle.std.specs.Option.{option_copied};
ghost use Rattle.indexmap.specs.IndexMap.{IsUnique};
ghost use Rattle.pp_macro.specs.Macros as spec;
ghost use Rattle.pp_macro.specs.Shown.{same_key, shown};

use crate::macros::Macro;
use indexmap::IndexMap;
use qv_base::NoMemory;
use std::alloc::Global;
use std::marker::Model;

/// Why a macro isn't defined.
#[derive(Clone, Copy, Debug, PartialEq, Eq)]
pub enum DefineFault {
    /// The name stands for another macro.
    Redefinition,
    /// Memory was refused.
    NoMemory,
}

impl From<NoMemory> for DefineFault {
    ghost use Rattle.std.specs.Prelude.{◌≡◌};
    ghost use Rattle.pp_macro.specs.declared.table.DefineFault.TheVariants as fault;

    ghost from_gives = { λ _ e. e ≡ fault.NoMemory };

    fn from(_: NoMemory) -> Self {
        DefineFault::NoMemory
    }
}

/// Names with the macros that they stand for. Contracts see the list of the names that were ever
/// defined, in order, each with its macro, if it stands for one now.
// The hash has a fixed seed: names that were chosen to collide are slow, and nothing else.
#[derive(Drop)]
pub struct MacroTable {
    alloc: Global,
    macros: IndexMap<Vec<u8>, Option<Macro>>,
}

impl Model for MacroTable {
    ghost use Rattle.std.specs.Prelude.{List};
    ghost use Rattle.indexmap.specs.IndexMap.{IsUnique};
    ghost use Rattle.pp_macro.specs.Macros.{Entry};
    ghost use Rattle.pp_macro.specs.Shown.{same_key, shown};

    ghost Value = { List Entry };

    ghost view = { λ t. shown t.macros.entries };

    ghost invariant = { λ t. IsUnique same_key t.macros };
}

impl MacroTable {
    /// No macro. It takes no memory.
    pub fn new(alloc: Global) -> MacroTable
        ensures { result ≡ [] }
    {
        MacroTable {
            alloc,
            macros: IndexMap::new(alloc),
        }
    }

    /// Defines a macro. One that is defined again in the same way stays as it is.
    ///
    /// # Errors
    ///
    /// Redefinition exactly where the name stands for another macro (ANSI C X3.159-1989, 3.8.3),
    /// NoMemory where memory is refused. Both leave the table as it was.
    pub fn define(&mut self, new: Macro) -> Result<(), DefineFault>
        ensures redefined { IsErrOf result DefineFault.Redefinition ↔ IsTrue (spec.redefines self.old new) }
        ensures ok { OnOk result (self.new ≡ spec.defined_in self.old new) }
        ensures err { OnErr result (self.new ≡ self.old) }
    {
        if let Some(old) = self.find(new.name.bytes()) {
            if old.is_same(&new) {
                return Ok(());
            }
            return Err(DefineFault::Redefinition);
        }
        add(&mut self.macros, self.alloc, new)?;
        Ok(())
    }

    /// Makes a name stand for no macro.
    pub fn undefine(&mut self, name: &[u8])
        ensures { self.new ≡ spec.undefined_in self.old name.now }
    {
        clear(&mut self.macros, name);
    }

    /// The macro that a name stands for.
    pub fn find(&self, name: &[u8]) -> Option<&Macro>
        ensures { option_copied result ≡ spec.find self.now name.now }
    {
        match self.macros.get(name) {
            Some(meaning) => meaning.as_ref(),
            None => None,
        }
    }
}

// Adds a macro whose name stands for none.
fn add(
    macros: &mut IndexMap<Vec<u8>, Option<Macro>>,
    alloc: Global,
    new: Macro,
) -> Result<(), NoMemory>
    requires unique { IsUnique same_key macros.old }
    ensures ok { OnOk result (shown macros.new.entries ≡ spec.set_in (shown macros.old.entries) new) }
    ensures err { OnErr result (shown macros.new.entries ≡ shown macros.old.entries) }
    ensures unique { IsUnique same_key macros.new }
{
    let name = new.name.bytes().to_vec(alloc)?;
    macros.insert(name, Some(new))?;
    Ok(())
}

// Makes a name stand for no macro.
fn clear(macros: &mut IndexMap<Vec<u8>, Option<Macro>>, name: &[u8])
    ensures cleared { shown macros.new.entries ≡ spec.undefined_in (shown macros.old.entries) name.now }
    ensures unique { IsUnique same_key macros.new }
{
    if let Some(meaning) = macros.get_mut(name) {
        meaning.take();
    }
}
