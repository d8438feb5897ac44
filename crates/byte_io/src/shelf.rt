//! Named bytes.

ghost use Rattle.std.specs.Prelude.{◌≡◌, ◌<◌, ◌≤◌, List, Option, Bool, Some, false, true, length, option_map, IfOk, OnOk, OnErr, IfSome, IsErrOf, IsNone, IsSome, IsSomeAnd};
ghost use Rattle.std.specs.Str.{bytes_eq};
ghost use Rattle.byte_io.specs.Shelf.{Call, Files, KeepsOthers, begins_with, fault_of, keeps, loads, told_then, told_with, tries};

use crate::streams::ReadFault;
use std::alloc::{AllocError, Global};

/// Why bytes were not kept.
#[derive(Clone, Copy, Debug, PartialEq, Eq)]
pub enum KeepFault {
    /// The device failed.
    F3,
    /// Memory was refused.
    Memory,
}

impl From<AllocError> for KeepFault {
    ghost use Rattle.byte_io.specs.declared.shelf.KeepFault.{KeepFault};

    ghost from_gives = { λ _ fault. fault ≡ KeepFault.Memory };

    fn from(_refused: AllocError) -> KeepFault {
        KeepFault::Memory
    }
}

/// Bytes under names, as the files of a folder are.
pub trait Shelf {
    /// The bytes under each name, where the shelf tells them.
    ghost held: { Self → Option Files };

    /// Whether its device has failed.
    ghost has_failed: { Self → Bool };

    /// The calls on it so far, in their order, where the shelf tells them.
    ghost calls: { Self → Option (List Call) };

    /// The bytes under a name, which are at most so many. A name that isn't there is a failure of the device too.
    fn load(&mut self, alloc: Global, name: &str, limit: u64) -> Result<Vec<u8>, ReadFault>
        ensures found { IfOk result
            (λ bytes. IfSome (held self.old) (λ told. told name.now ≡ Some bytes.items)) }
        ensures fits { IfOk result (λ bytes. length bytes.items ≤ limit) }
        ensures over { IsErrOf result ReadFault.F2 → IfSome (held self.old)
            (λ told. IsSomeAnd (told name.now) (λ bytes. limit < length bytes)) }
        ensures same { held self.new ≡ held self.old }
        ensures failed { IsErrOf result ReadFault.F1 → has_failed self.new ≡ true }
        ensures calm { (IsErrOf result ReadFault.F1 → ⊥)
            → has_failed self.new ≡ has_failed self.old }
        ensures told { let call = loads name.now (fault_of result) in
            calls self.new ≡ told_then (calls self.old) call };

    /// Whether two names are of one file. Only a shelf that doesn't tell its bytes says so of names that differ.
    fn are_one(&self, name: &str, other: &str) -> bool
        ensures same { name.now ≡ other.now → result ≡ true }
        ensures told { IfSome (held self.now) (λ _. result ≡ bytes_eq name.now other.now) };

    /// Whether the bytes under a name begin so. Where nothing is there, or it can't be looked at, they don't; but any bytes begin
    /// with none.
    fn begins_with(&self, name: &str, front: &[u8]) -> bool
        ensures { IfSome (held self.now) (λ told. result ≡ begins_with told name.now front.now) };

    /// The bytes under a name, which are at most so many, where there are some. Only a shelf that doesn't tell its bytes may fail to
    /// look at them.
    fn peek(&self, alloc: Global, name: &str, limit: u64) -> Result<Option<Vec<u8>>, ReadFault>
        ensures found { IfOk result (λ found. IfSome (held self.now)
            (λ told. option_map (λ bytes. bytes.items) found ≡ told name.now)) }
        ensures over { IsErrOf result ReadFault.F2 → IfSome (held self.now)
            (λ told. IsSomeAnd (told name.now) (λ bytes. limit < length bytes)) }
        ensures failed { IsErrOf result ReadFault.F1 → IsNone (held self.now) }
        ensures memory { IsErrOf result ReadFault.Memory
            → IfSome (held self.now) (λ told. IsSome (told name.now)) };

    /// Whether the owner of the file under a name may not write it. Only a shelf that doesn't tell its bytes says so.
    fn is_read_only(&self, name: &str) -> bool
        ensures { IfSome (held self.now) (λ _. result ≡ false) };

    /// Tries whether bytes can be kept under a name, and leaves all files as they are. That they can promises nothing of a
    /// later `keep`.
    fn try_keep(&mut self, alloc: Global, name: &str) -> Result<(), KeepFault>
        ensures same { held self.new ≡ held self.old }
        ensures failed { IsErrOf result KeepFault.F3 → has_failed self.new ≡ true }
        ensures calm { (IsErrOf result KeepFault.F3 → ⊥)
            → has_failed self.new ≡ has_failed self.old }
        ensures told { let call = tries name.now (fault_of result) in
            calls self.new ≡ told_then (calls self.old) call };

    /// Puts these bytes under a name, in the place of what stood there. What the name holds after a fault is open.
    fn keep(&mut self, alloc: Global, name: &str, bytes: &[u8]) -> Result<(), KeepFault>
        ensures kept { OnOk result (held self.new ≡ told_with (held self.old) name.now bytes.now) }
        ensures others { OnErr result (KeepsOthers (held self.old) (held self.new) name.now) }
        ensures failed { IsErrOf result KeepFault.F3 → has_failed self.new ≡ true }
        ensures calm { (IsErrOf result KeepFault.F3 → ⊥)
            → has_failed self.new ≡ has_failed self.old }
        ensures told { let call = keeps name.now (fault_of result) in
            calls self.new ≡ told_then (calls self.old) call };

    /// Whether its device has failed.
    fn failed(&self) -> bool
        ensures { result ≡ has_failed self.now };
}
