//! The patterns of tables: their side, and which members of a set share tiles.

ghost use Rattle.std.specs.Prelude.{◌≡◌, ◌<◌, ◌↔◌, Any, IfErr, IfOk, IsTrue, List, ℕ, length, map};
ghost use Rattle.std.specs.List.{AllByRecursion};
ghost use Rattle.set_sum.specs.Members.{AreOnePattern, pattern_of};
ghost use Rattle.set_sum.specs.Parts.{part_pattern, parts_shown};
ghost use Rattle.set_sum.specs.Reading.{AreAlike, NamesOverlap, NamesTwice, first_side};
ghost use Rattle.set_sum.specs.OverPatterns.{IsFaultOver, tables_with};
ghost use Rattle.set_sum.specs.declared.parts.Part.{Part};

use crate::bundles::MOST_TABLES;
use crate::faults::SetFault;
use crate::members::Member;
use pat_place::Pattern;
use puz_board::Side;

/// The one side of 1 to 16 tables with these patterns.
pub fn one_side(patterns: &[Pattern]) -> Result<Side, SetFault>
    ensures ok { (tables : List Part) → map part_pattern tables ≡ patterns.now
        → IfOk result (λ side. (side ≡ first_side tables) × AreAlike tables) }
    ensures err { IfErr result (λ fault. (text : List ℕ) → IsFaultOver fault patterns.now text) }
{
    if patterns.is_empty() || patterns.len() > MOST_TABLES {
        return Err(SetFault::S5);
    }
    let side = patterns[0].side();
    for (i, pattern) in patterns.iter().enumerate() {
        if pattern.side() != side {
            return Err(SetFault::S4(i as u8));
        }
    }
    Ok(side)
}

/// The pattern of a member.
fn pattern_for(patterns: &[Pattern], member: Member) -> Pattern
    requires side { AreAlike (tables_with patterns.now) }
    requires there { member.table < length patterns.now }
    ensures { let tables = tables_with patterns.now in
        result.tiles ≡ pattern_of (first_side tables) (parts_shown tables) member }
{
    let pattern = &patterns[usize::from(member.table)];
    if member.is_transposed {
        pattern.transposed()
    } else {
        *pattern
    }
}

/// Whether two of these members share a tile.
pub(crate) fn overlap(patterns: &[Pattern], set: &[Member]) -> bool
    requires side { AreAlike (tables_with patterns.now) }
    requires there { AllByRecursion (λ member. member.table < length patterns.now) set.now }
    ensures { IsTrue result ↔ NamesOverlap (tables_with patterns.now) set.now }
{
    let mut taken = 0;
    for member in set {
        let mask = pattern_for(patterns, *member).mask();
        if taken & mask != 0 {
            return true;
        }
        taken |= mask;
    }
    false
}

/// Whether one of these members has the pattern of another one where one of the two is transposed.
fn meets(patterns: &[Pattern], set: &[Member], other: Member) -> bool
    requires side { AreAlike (tables_with patterns.now) }
    requires there { AllByRecursion (λ member. member.table < length patterns.now) set.now }
    requires other { other.table < length patterns.now }
    ensures { let tables = tables_with patterns.now in IsTrue result
        ↔ Any (λ m. AreOnePattern (first_side tables) (parts_shown tables) m other) set.now }
{
    let mask = pattern_for(patterns, other).mask();
    for member in set {
        let is_transposed = member.is_transposed || other.is_transposed;
        if is_transposed && pattern_for(patterns, *member).mask() == mask {
            return true;
        }
    }
    false
}

/// Whether two of these members have one pattern where one of them is transposed.
pub(crate) fn twice(patterns: &[Pattern], set: &[Member]) -> bool
    requires side { AreAlike (tables_with patterns.now) }
    requires there { AllByRecursion (λ member. member.table < length patterns.now) set.now }
    ensures { IsTrue result ↔ NamesTwice (tables_with patterns.now) set.now }
{
    for (i, member) in set.iter().enumerate() {
        if meets(patterns, &set[..i], *member) {
            return true;
        }
    }
    false
}
