//! Where a value stands in a description.
ghost use Rattle.std.specs.Prelude.{◌≡◌, ◌<◌, [], ◌∷◌, ◌++◌, length, IfOk, OnOk, OnErr, Some, slice_get};
ghost use Rattle.std.specs.Fmt.{decimal};

use eb_base::NoMemory;
use std::alloc::{AllocError, Global};
use std::marker::Model;

/// Where a value stands in a description: for each step a slash and a key or a number, as `/bus/items/0/at`.
#[derive(Debug, Drop)]
pub struct Path {
    octets: Vec<u8>,
}

impl Model for Path {
    ghost use Rattle.std.specs.Prelude.{List, ℕ};

    ghost Value = { List ℕ };

    ghost view = { λ a. a.octets.items };
}

impl Path {
    pub fn of(octets: Vec<u8>) -> Path
        ensures same { result ≡ octets.items }
    {
        Path { octets }
    }

    pub fn len(&self) -> usize
        ensures count { result ≡ length self.now }
    {
        self.octets.len()
    }

    pub fn get(&self, i: usize) -> &u8
        requires inside { i < length self.now }
        ensures value { slice_get self.now i ≡ Some result.now }
    {
        &self.octets[i]
    }

    pub fn push(&mut self, octet: u8) -> Result<(), NoMemory>
        ensures ok { OnOk result (self.new ≡ self.old ++ octet ∷ []) }
        ensures err { OnErr result (self.new ≡ self.old) }
    {
        self.octets.push(octet)?;
        Ok(())
    }

    /// Its octets, in order.
    pub fn as_slice(&self) -> &[u8]
        ensures same { result.now ≡ self.now }
    {
        self.octets.as_slice()
    }

    /// The path of the whole.
    pub(crate) fn root(alloc: Global) -> Path
        ensures empty { result ≡ [] }
    {
        Path {
            octets: Vec::new(alloc),
        }
    }

    pub(crate) fn copy(&self, alloc: Global) -> Result<Path, AllocError>
        ensures same { IfOk result (λ path. path ≡ self.now) }
    {
        Ok(Path {
            octets: Vec::from_slice(alloc, self.octets.as_slice())?,
        })
    }

    /// The path of a key's value.
    pub(crate) fn key(&self, alloc: Global, key: &str) -> Result<Path, AllocError>
        ensures step { IfOk result (λ path. path ≡ self.now ++ 47 ∷ key.now) }
    {
        let mut octets = Vec::from_slice(alloc, self.octets.as_slice())?;
        octets.push(b'/')?;
        octets.extend_from_slice(key.as_bytes())?;
        Ok(Path { octets })
    }

    /// The path of the item with this number, of a list.
    pub(crate) fn nth(&self, alloc: Global, i: usize) -> Result<Path, AllocError>
        ensures step { IfOk result (λ path. path ≡ self.now ++ 47 ∷ decimal i) }
    {
        let digits = format!(in alloc; "{i}")?;
        self.key(alloc, digits.as_str())
    }
}
