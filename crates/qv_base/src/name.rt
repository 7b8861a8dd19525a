// Names as lists of bytes.
ghost use Rattle.std.specs.Prelude.{◌≡◌, List, ℕ, IfOk};

use crate::NoMemory;
use std::alloc::Global;
use std::marker::Model;

/// A name: any bytes. Contracts see it as their list.
#[derive(Debug, Drop)]
pub struct Name {
    bytes: Vec<u8>,
}

impl Model for Name {
    ghost Value = { List ℕ };

    ghost view = { λ n. n.bytes.items };
}

impl Name {
    /// A name of these bytes, which are copied.
    ///
    /// # Errors
    ///
    /// NoMemory where memory for the copy is refused.
    pub fn from_bytes(alloc: Global, bytes: &[u8]) -> Result<Name, NoMemory>
        ensures { IfOk result (λ name. name ≡ bytes.now) }
    {
        Ok(Name {
            bytes: bytes.to_vec(alloc)?,
        })
    }

    /// The bytes of the name.
    pub fn bytes(&self) -> &[u8]
        ensures { result.now ≡ self.now }
    {
        &self.bytes
    }
}

#[cfg(test)]
mod tests {
    use super::*;

    #[test]
    fn names(rt: HostRuntime) -> Result<(), NoMemory> {
        let bytes = [104, 105, 0, 255];
        let name = Name::from_bytes(rt.alloc(), &bytes)?;
        assert_eq!(rt; name.bytes(), bytes.as_slice());
        Ok(())
    }
}
