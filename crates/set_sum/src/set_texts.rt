//! Set texts over the patterns of tables.

ghost use Rattle.std.specs.Prelude.{◌≡◌, ◌<◌, ◌≤◌, Err, IfErr, IfOk, List, MatchOption, Ok, ℕ, [], length, map, slice_index_or};
ghost use Rattle.std.specs.List.{AllByRecursion};
ghost use Rattle.set_sum.specs.Bundles.{most_members, most_sets, most_tables};
ghost use Rattle.set_sum.specs.Reading.{AreAlike, IsFirstWith, NamesOverlap, NamesTwice};
ghost use Rattle.set_sum.specs.OverPatterns.{AreSetsAmong, AreSetsOver, IsFaultOver, IsFaultOverAny, tables_with};
ghost use Rattle.set_sum.specs.declared.faults.SetFault.{SetFault};
ghost use Rattle.set_sum.specs.declared.members.Member.{Member};

use crate::bundles::{MOST_MEMBERS, MOST_SETS};
use crate::faults::SetFault;
use crate::lines::read_lines;
use crate::members::Member;
use crate::patterns::{one_side, overlap, twice};
use arrayvec::ArrayVec;
use pat_place::Pattern;
use std::marker::Model;

/// The members of a set, each before the next.
pub(crate) type Set = ArrayVec<Member, MOST_MEMBERS>;

/// A set text, as it is read: for each of its lines the members, transposed or not.
#[derive(Drop)]
pub struct SetText {
    kept: ArrayVec<Set, MOST_SETS>,
}

impl Model for SetText {
    ghost use Rattle.std.specs.Prelude.{List, map};
    ghost use Rattle.set_sum.specs.declared.members.Member.{Member};

    ghost Value = { List (List Member) };

    ghost view = { λ sets. map (λ set. set.items) sets.kept.items };
}

impl SetText {
    /// Reads a set text over tables with these patterns, which are numbered from 0: a line for each set, with the word `set` and
    /// its members. A member is the number of a table, and behind it a `t` where the member is transposed.
    ///
    /// There are 1 to 16 tables, and 1 to 16 lines. No memory is taken.
    pub fn read(patterns: &[Pattern], text: &[u8]) -> Result<SetText, SetFault>
        // Sets come exactly of a text that has them, whichever tables have these patterns.
        ensures ok { IfOk result (λ sets. AreSetsOver patterns.now text.now sets) }
        ensures made { (sets : List (List Member)) → AreSetsOver patterns.now text.now sets
            → result ≡ Ok sets }

        // A fault is answered exactly where it is the first that stands.
        ensures fault { IfErr result (λ fault. IsFaultOver fault patterns.now text.now) }
        ensures refused { (fault : SetFault) → IsFaultOver fault patterns.now text.now
            → result ≡ Err fault }
    {
        read_over(patterns, text)
    }

    /// How many sets there are.
    #[inline]
    pub(crate) fn count(&self) -> u8
        ensures { result ≡ length self.now }
    {
        self.kept.len() as u8
    }

    /// The members of a set.
    #[inline]
    pub(crate) fn members(&self, set: u8) -> &[Member]
        requires { set < length self.now }
        ensures members { result.now ≡ slice_index_or self.now set [] }
        ensures few { length result.now ≤ most_members }
    {
        self.kept[usize::from(set)].as_slice()
    }
}

/// What is wrong with the lines of a set text, or with the numbers in them, whichever so many tables of one side there are.
pub fn text_fault(text: &[u8], tables: usize) -> Option<SetFault>
    requires { tables ≤ most_tables }
    ensures { MatchOption result
        ((sets : List (List Member)) × AreSetsAmong tables text.now sets)
        (λ fault. IsFaultOverAny fault tables text.now) }
{
    match sets_of(text, tables) {
        Ok(_) => None,
        Err(fault) => Some(fault),
    }
}

/// Reads a set text over tables with these patterns.
fn read_over(patterns: &[Pattern], text: &[u8]) -> Result<SetText, SetFault>
    ensures ok { IfOk result (λ sets. AreSetsOver patterns.now text.now sets) }
    ensures err { IfErr result (λ fault. IsFaultOver fault patterns.now text.now) }
{
    let _side = one_side(patterns)?;
    let sets = sets_of(text, patterns.len())?;
    if let Some(line) = first_twice(patterns, &sets) {
        return Err(SetFault::S6(line as u8));
    }
    if let Some(line) = first_overlap(patterns, &sets) {
        return Err(SetFault::S3(line as u8));
    }
    Ok(SetText { kept: sets })
}

/// Reads the sets of a set text, where there are so many tables.
fn sets_of(text: &[u8], tables: usize) -> Result<ArrayVec<Set, MOST_SETS>, SetFault>
    requires { tables ≤ most_tables }
    ensures ok { IfOk result
        (λ kept. AreSetsAmong tables text.now (map (λ set. set.items) kept.items)) }
    ensures err { IfErr result (λ fault. IsFaultOverAny fault tables text.now) }
{
    let lines = match read_lines(text, tables) {
        Ok(lines) => lines,
        Err(line) => return Err(SetFault::S1(line)),
    };
    if lines.count > MOST_SETS {
        return Err(SetFault::S5);
    }
    if let Some(line) = lines.missing {
        return Err(SetFault::S2(line as u8));
    }
    Ok(lines.sets)
}

/// The first of some sets two of whose members have one pattern where one of them is transposed.
fn first_twice(patterns: &[Pattern], sets: &[Set]) -> Option<usize>
    requires side { AreAlike (tables_with patterns.now) }
    requires there { AllByRecursion
        (AllByRecursion (λ member. member.table < length patterns.now))
        (map (λ set. set.items) sets.now) }
    ensures { let tables = tables_with patterns.now in MatchOption result
        (AllByRecursion (λ set. ¬ NamesTwice tables set) (map (λ set. set.items) sets.now))
        (IsFirstWith (NamesTwice tables) (map (λ set. set.items) sets.now)) }
{
    for (line, set) in sets.iter().enumerate() {
        if twice(patterns, set) {
            return Some(line);
        }
    }
    None
}

/// The first of some sets two of whose members share a tile.
fn first_overlap(patterns: &[Pattern], sets: &[Set]) -> Option<usize>
    requires side { AreAlike (tables_with patterns.now) }
    requires there { AllByRecursion
        (AllByRecursion (λ member. member.table < length patterns.now))
        (map (λ set. set.items) sets.now) }
    ensures { let tables = tables_with patterns.now in MatchOption result
        (AllByRecursion (λ set. ¬ NamesOverlap tables set) (map (λ set. set.items) sets.now))
        (IsFirstWith (NamesOverlap tables) (map (λ set. set.items) sets.now)) }
{
    for (line, set) in sets.iter().enumerate() {
        if overlap(patterns, set) {
            return Some(line);
        }
    }
    None
}
