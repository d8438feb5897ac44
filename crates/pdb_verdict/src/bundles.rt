//! Bundles of table files and a set text.

ghost use Rattle.std.specs.Prelude.{Bool, List, true, MatchResult};
ghost use Rattle.tab_rule.specs.TableFaults.{IsTableCauseOf};
ghost use Rattle.byte_io.specs.Shelf.{Bytes};
ghost use Rattle.pdb_run.specs.Answers.{all_bytes};
ghost use Rattle.pdb_verdict.specs.FileBundles.{IsReadBundle};
ghost use Rattle.pdb_verdict.specs.Steps.{AreNextParts, ArePartsOf, IsCauseForTables, IsPartOf};

use crate::verdicts::Fault;
use set_sum::{Bundle, Part};
use std::sync::Wait;
use std::thread::Threads;
use tab_check::check_table_by;
use tab_rule::{TableFault, fold};
use work_run::{Gate, Workers};

/// The bundle of the parts for all files, where there are those, and a set text.
pub(crate) fn bundle_of<'a>(
    parts: Result<Vec<Part<'a>>, Fault>,
    sets: &[u8],
) -> Result<Bundle<'a>, Fault>
    ensures { (fold : Bool) (files : List Bytes)
        → MatchResult parts.entry (λ parts. ArePartsOf fold files parts.items)
        (IsCauseForTables files) → IsReadBundle fold files sets.now result }
{
    let bundle = Bundle::read(parts?, sets)?;
    Ok(bundle)
}

/// The part for each file, one after the other. No memory is taken before the first file's header stands.
pub(crate) fn parts_of<'a, H: Threads + Wait, G: Gate + Sync>(
    files: &'a [Vec<u8>],
    fold: bool,
    workers: &Workers<'_, H, G>,
) -> Result<Vec<Part<'a>>, Fault>
    ensures { let files = all_bytes files.now in
        MatchResult result (λ parts. ArePartsOf fold files parts.items) (IsCauseForTables files) }
{
    let mut parts = Vec::new(workers.alloc);
    for file in files {
        parts = with_part(parts, part_of(file.as_slice(), fold, workers))?;
    }
    Ok(parts)
}

/// Parts with that for one file more, where it is there.
pub(crate) fn with_part<'a>(
    mut parts: Vec<Part<'a>>,
    part: Result<Part<'a>, TableFault>,
) -> Result<Vec<Part<'a>>, Fault>
    ensures { (fold : Bool) (file : Bytes)
        → MatchResult part.entry (IsPartOf fold file) (λ fault. IsTableCauseOf fault file)
        → AreNextParts fold parts.entry.items file result }
{
    match part {
        Ok(part) => parts.push(part)?,
        Err(TableFault::Refused(refused)) => return Err(Fault::TableOf(parts.len(), refused)),
        Err(TableFault::Memory) => return Err(Fault::Memory),
    }
    Ok(parts)
}

/// The part for a file: folded, or with the slots of its placements, since many boards are looked up in it.
fn part_of<'a, H: Threads + Wait, G: Gate + Sync>(
    file: &'a [u8],
    fold: bool,
    workers: &Workers<'_, H, G>,
) -> Result<Part<'a>, TableFault>
    ensures { MatchResult result (IsPartOf fold file.now) (λ fault. IsTableCauseOf fault file.now) }
{
    if fold {
        return folded_part(file, workers);
    }
    let table = check_table_by(file, workers)?;
    Ok(Part::Full(table.with_slots(workers.alloc)))
}

/// The folded part for a file, which is needed no longer.
pub(crate) fn folded_part<'x, H: Threads + Wait, G: Gate + Sync>(
    file: &[u8],
    workers: &Workers<'_, H, G>,
) -> Result<Part<'x>, TableFault>
    ensures { MatchResult result (IsPartOf true file.now) (λ fault. IsTableCauseOf fault file.now) }
{
    let table = check_table_by(file, workers)?;
    match fold(workers.alloc, &table) {
        Ok(folded) => Ok(Part::Folded(folded)),
        Err(_) => Err(TableFault::Memory),
    }
}
