//! A shelf over memory.

ghost use Rattle.std.specs.Prelude.{◌≡◌, ◌<◌, ◌≤◌, ℕ, List, Some, None, true, false, length, IfOk, OnOk, OnErr, IsErrOf, IsOk, IsOkUnless, IsSomeAnd, option_map};
ghost use Rattle.byte_io.specs.Memory.{files_in};
ghost use Rattle.byte_io.specs.Shelf.{files_of, with_file};

use crate::shelf::{KeepFault, Shelf};
use crate::streams::ReadFault;
use std::alloc::{AllocError, Global};
use std::collections::BTreeMap;

/// Named bytes in memory.
#[derive(Drop)]
pub struct MemShelf {
    pub(crate) files: BTreeMap<String, Vec<u8>>,
    pub(crate) has_failed: bool,
}

impl MemShelf {
    /// The shelf of these names and bytes, where the last of a name counts.
    pub fn of(alloc: Global, files: &[(&str, &[u8])]) -> Result<MemShelf, AllocError>
        ensures files { IfOk result
            (λ shelf. (name : List ℕ) → files_in shelf name ≡ files_of files.now name) }
        ensures calm { IfOk result (λ shelf. shelf.has_failed ≡ false) }
    {
        let mut shelf = MemShelf {
            files: BTreeMap::new(alloc),
            has_failed: false,
        };
        for file in files {
            shelf.hold(alloc, file.0, file.1)?;
        }
        Ok(shelf)
    }

    /// The bytes under a name.
    pub fn get(&self, name: &str) -> Option<&[u8]>
        ensures { option_map (λ bytes. bytes.now) result ≡ files_in self.now name.now }
    {
        match self.files.get(name) {
            Some(bytes) => Some(bytes.as_slice()),
            None => None,
        }
    }

    /// Holds these bytes under this name.
    #[tactic(auto, using(std::proofs::lemmas::Map::Text::text_keys))]
    fn hold(&mut self, alloc: Global, name: &str, bytes: &[u8]) -> Result<(), AllocError>
        ensures held { let kept = with_file (files_in self.old) name.now bytes.now in
            OnOk result ((other : List ℕ) → files_in self.new other ≡ kept other) }
        ensures unheld { OnErr result
            ((other : List ℕ) → files_in self.new other ≡ files_in self.old other) }
        ensures calm { self.new.has_failed ≡ self.old.has_failed }
    {
        let key = String::from_str(alloc, name)?;
        let copy = Vec::from_slice(alloc, bytes)?;
        self.files.insert(key, copy)?;
        Ok(())
    }
}

impl Shelf for MemShelf {
    ghost held = { λ shelf. Some (files_in shelf) };

    ghost has_failed = { λ shelf. shelf.has_failed };

    ghost calls = { λ _. None };

    fn load(&mut self, alloc: Global, name: &str, limit: u64) -> Result<Vec<u8>, ReadFault>
        ensures found { IfOk result (λ bytes. files_in self.old name.now ≡ Some bytes.items) }
        ensures fits { IfOk result (λ bytes. length bytes.items ≤ limit) }
        ensures over { IsErrOf result ReadFault.F2
            → IsSomeAnd (files_in self.old name.now) (λ bytes. limit < length bytes) }
        ensures same { Some (files_in self.new) ≡ Some (files_in self.old) }
        ensures failed { IsErrOf result ReadFault.F1 → self.new.has_failed ≡ true }
        ensures calm { (IsErrOf result ReadFault.F1 → ⊥)
            → self.new.has_failed ≡ self.old.has_failed }
        ensures missing { IsErrOf result ReadFault.F1 → files_in self.old name.now ≡ None }
    {
        let Some(bytes) = self.files.get(name) else {
            self.has_failed = true;
            return Err(ReadFault::F1);
        };
        if limit < bytes.len() as u64 {
            return Err(ReadFault::F2);
        }
        Ok(Vec::from_slice(alloc, bytes.as_slice())?)
    }

    fn are_one(&self, name: &str, other: &str) -> bool {
        name == other
    }

    fn begins_with(&self, name: &str, front: &[u8]) -> bool {
        match self.files.get(name) {
            Some(bytes) => bytes.as_slice().starts_with(front),
            None => false,
        }
    }

    fn peek(&self, alloc: Global, name: &str, limit: u64) -> Result<Option<Vec<u8>>, ReadFault> {
        match self.files.get(name) {
            Some(bytes) if limit < bytes.len() as u64 => Err(ReadFault::F2),
            Some(bytes) => Ok(Some(Vec::from_slice(alloc, bytes.as_slice())?)),
            None => Ok(None),
        }
    }

    fn is_read_only(&self, _name: &str) -> bool {
        false
    }

    fn try_keep(&mut self, _alloc: Global, _name: &str) -> Result<(), KeepFault>
        ensures room { IsOk result }
        ensures same { Some (files_in self.new) ≡ Some (files_in self.old) }
        ensures calm { self.new.has_failed ≡ self.old.has_failed }
    {
        Ok(())
    }

    fn keep(&mut self, alloc: Global, name: &str, bytes: &[u8]) -> Result<(), KeepFault>
        ensures kept { let kept = with_file (files_in self.old) name.now bytes.now in
            OnOk result (Some (files_in self.new) ≡ Some kept) }
        ensures unchanged { OnErr result (Some (files_in self.new) ≡ Some (files_in self.old)) }
        ensures memory { IsOkUnless result KeepFault.Memory }
        ensures calm { self.new.has_failed ≡ self.old.has_failed }
    {
        self.hold(alloc, name, bytes)?;
        Ok(())
    }

    fn failed(&self) -> bool {
        self.has_failed
    }
}
