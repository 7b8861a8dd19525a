//! Names with the numbers that they stand for.
ghost use Rattle.std.specs.Prelude.{◌≡◌, OnOk, OnErr, IsErrOf, IsSome, None, ◌↔◌};
ghost use Rattle.std.specs.FinMap as map;
ghost use Rattle.asm_place.specs.Symbols.{key_of, map_of, owner, same_owner};
ghost use Rattle.indexmap.specs.IndexMap.{IsUnique};

use indexmap::IndexMap;
use qv_base::NoMemory;
use std::alloc::Global;
use std::marker::Model;

/// Why a name isn't defined.
#[derive(Clone, Copy, Debug, PartialEq, Eq)]
pub enum SymbolFault {
    /// The name is defined before.
    Redefined,
    /// Memory was refused.
    NoMemory,
}

impl From<NoMemory> for SymbolFault {
    ghost use Rattle.std.specs.Prelude.{◌≡◌};
    ghost use Rattle.asm_place.specs.declared.symbols.SymbolFault.TheVariants.{NoMemory};

    ghost from_gives = { λ _ fault. fault ≡ NoMemory };

    fn from(_: NoMemory) -> Self {
        SymbolFault::NoMemory
    }
}

// The names of one owner with their numbers. The hash has a fixed seed: a random one is had from the
// runtime alone, and the assembler runs without it. So a source whose names were chosen to collide
// is slow to assemble, and nothing else.
type Table = IndexMap<Vec<u8>, u64>;

/// Names with the numbers that they stand for. Contracts see it as a finite map.
///
/// A name that begins with `$` belongs to its file. All others are common to all files.
#[derive(Drop)]
pub struct Symbols {
    alloc: Global,
    // By owner: a file has the names that begin with `$`, and None those common to all files.
    tables: IndexMap<Option<u32>, Table>,
}

impl Model for Symbols {
    ghost use Rattle.indexmap.specs.IndexMap.{IsUnique};
    ghost use Rattle.asm_place.specs.Symbols.{SymbolMap, symbol_map_code, map_of, same_owner};

    ghost Value = { SymbolMap };

    ghost coded = { symbol_map_code };

    ghost view = { λ s. map_of s.tables };

    ghost invariant = { λ s. IsUnique same_owner s.tables };
}

impl Symbols {
    /// No name. It takes no memory.
    pub fn new(alloc: Global) -> Symbols
        ensures { result ≡ map.empty }
    {
        Symbols {
            alloc,
            tables: IndexMap::new(alloc),
        }
    }

    /// Defines a name in a file as a number. The line is that of the definition, and isn't kept.
    ///
    /// # Errors
    ///
    /// Redefined exactly where the name is defined before, for a name that begins with `$` in this
    /// file. NoMemory where memory is refused. Both leave all names as they were.
    pub fn define(
        &mut self,
        file: u32,
        name: &[u8],
        value: u64,
        _line: u32,
    ) -> Result<(), SymbolFault>
        ensures redefined { IsErrOf result SymbolFault.Redefined ↔ IsSome (map.get self.old (key_of file name.now)) }
        ensures ok { OnOk result (self.new ≡ map.insert self.old (key_of file name.now) value) }
        ensures err { OnErr result (self.new ≡ self.old) }
    {
        if self.find(file, name).is_some() {
            return Err(SymbolFault::Redefined);
        }
        add(&mut self.tables, self.alloc, owner(file, name), name, value)?;
        Ok(())
    }

    /// The number that a name stands for in a file. None exactly where it isn't defined there.
    pub fn find(&self, file: u32, name: &[u8]) -> Option<u64>
        ensures { result ≡ map.get self.now (key_of file name.now) }
    {
        let table = self.tables.get(&owner(file, name))?;
        table.get(name).copied()
    }
}

// The file that a name in a file belongs to, if it belongs to one.
fn owner(file: u32, name: &[u8]) -> Option<u32>
    ensures { result ≡ owner file name.now }
{
    match name {
        [b'$', ..] => Some(file),
        _ => None,
    }
}

// Adds a name that its owner doesn't have. Where memory is refused, the names stay as they were.
fn add(
    tables: &mut IndexMap<Option<u32>, Table>,
    alloc: Global,
    owner: Option<u32>,
    name: &[u8],
    value: u64,
) -> Result<(), NoMemory>
    requires unique { IsUnique same_owner tables.old }
    requires absent { map.get (map_of tables.old) (owner, name.now) ≡ None }
    ensures ok { OnOk result (map_of tables.new ≡ map.insert (map_of tables.old) (owner, name.now) value) }
    ensures err { OnErr result (map_of tables.new ≡ map_of tables.old) }
    ensures unique { IsUnique same_owner tables.new }
{
    let name = name.to_vec(alloc)?;
    tables
        .entry(owner)?
        .or_insert(IndexMap::new(alloc))
        .insert(name, value)?;
    Ok(())
}

#[cfg(test)]
mod tests {
    use super::*;

    // Names of three files, defined in this order.
    #[test]
    fn defines(rt: HostRuntime) {
        let mut symbols = Symbols::new(rt.alloc());
        let redefined = Err(SymbolFault::Redefined);
        let table: [(u32, &[u8], u64, Result<(), SymbolFault>); 9] = [
            (0, b"main", 1, Ok(())),
            (0, b"$1", 2, Ok(())),
            (1, b"$1", 3, Ok(())),
            (0, b"$1", 4, redefined),
            (1, b"main", 5, redefined),
            (1, b"$", 6, Ok(())),
            (1, b"mai", 7, Ok(())),
            (4_000_000_000, b"$1", 8, Ok(())),
            (4_000_000_000, b"$1", 9, redefined),
        ];
        for (file, name, value, expected) in table {
            assert_eq!(rt; symbols.define(file, name, value, 1), expected);
        }
        let found: [(u32, &[u8], Option<u64>); 9] = [
            (0, b"main", Some(1)),
            (4_000_000_000, b"main", Some(1)),
            (0, b"$1", Some(2)),
            (1, b"$1", Some(3)),
            (4_000_000_000, b"$1", Some(8)),
            (2, b"$1", None),
            (0, b"$", None),
            (4_000_000_000, b"$", None),
            (0, b"mai", Some(7)),
        ];
        for (file, name, expected) in found {
            assert_eq!(rt; symbols.find(file, name), expected);
        }
    }
}
