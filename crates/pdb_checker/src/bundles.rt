//! Checked tables and sets, over which claims are answered.

ghost use Rattle.std.specs.Prelude.{◌≡◌, IfErr, IfOk, false};
ghost use Rattle.std.specs.List.{All};
ghost use Rattle.set_sum.specs.Bundles.{ShownBundle};
ghost use Rattle.set_sum.specs.declared.faults.SetFault.{SetFault};
ghost use Rattle.pdb_verdict.specs.FileBundles.{AreRefusedSets, IsBundleOfFiles};
ghost use Rattle.pdb_verdict.specs.Lines.{line_of_set_fault};
ghost use Rattle.pdb_checker.specs.Answers.{line_in};
ghost use Rattle.pdb_checker.specs.Claims.{IsCauseOver, IsExact, files_of};

use crate::answers::{Answer, YES};
use pdb_verdict::{Fault, known_table};
use set_sum::{Bundle, Part};
use std::alloc::Global;

/// The bytes of a table file that was checked.
#[repr(C)]
#[derive(Clone, Copy)]
pub struct TableFile<'a> {
    pub file: &'a [u8],
}

/// Over what claims are answered.
#[repr(C)]
#[derive(Clone, Copy)]
pub struct Over<'a> {
    /// Tables that were checked.
    pub tables: &'a [TableFile<'a>],
    /// The set text over them.
    pub sets: &'a [u8],
    /// How many boards may be expanded for each claim.
    pub budget: u64,
}

/// Whether checked tables and a set text make a bundle. The answer tells how many sets it has.
pub(crate) fn answer_sets(alloc: Global, over: &Over<'_>) -> Answer
    requires known { All (λ table. IsExact table.file.now) over.now.tables.now }
    ensures yes { result.status ≡ 0 → (bundle : ShownBundle)
        × IsBundleOfFiles false (files_of over.now.tables.now) over.now.sets.now bundle }
    ensures refused { result.status ≡ 2 → (refused : SetFault)
        × AreRefusedSets false (files_of over.now.tables.now) over.now.sets.now refused
        × (line_in result ≡ line_of_set_fault refused) }
{
    match bundle_of(alloc, over) {
        Ok(bundle) => Answer::bare(YES, u16::from(bundle.sets())),
        Err(fault) => Answer::refused(fault),
    }
}

/// The bundle of checked tables and a set text. No table is checked anew.
pub(crate) fn bundle_of<'a>(alloc: Global, over: &Over<'a>) -> Result<Bundle<'a>, Fault>
    requires known { All (λ table. IsExact table.file.now) over.now.tables.now }
    ensures ok { IfOk result (λ bundle.
        IsBundleOfFiles false (files_of over.now.tables.now) over.now.sets.now bundle) }
    ensures err { IfErr result (IsCauseOver (files_of over.now.tables.now) over.now.sets.now) }
{
    let mut parts = Vec::new(alloc);
    for table in over.tables {
        let known = known_table(table.file).with_slots(alloc);
        parts.push(Part::Full(known))?;
    }
    match Bundle::read(parts, over.sets) {
        Ok(bundle) => Ok(bundle),
        Err(refused) => Err(Fault::Sets(refused)),
    }
}
