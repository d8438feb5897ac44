//! Set texts: a line for each set, with its members.

ghost use Rattle.std.specs.Prelude.{◌≡◌, ℕ, ◌+◌, ◌<◌, ◌≤◌, ◌∷◌, ◌++◌, ◌⊎◌, [], Bool, codes, if◌then◌else◌, IfErr, IfOk, IfSome, IsSome, IsSomeAnd, List, map, option_map};
ghost use Rattle.set_sum.specs.Bundles.{most_tables};
ghost use Rattle.set_sum.specs.ReadLines.{AreReadLines, MayFollow, IsReadAsSet, IsReadLine, ending};
ghost use Rattle.set_sum.specs.SetTexts.{AreLines, IsFirstBadLine, IsLine, member_text, numeral, set_line};
ghost use Rattle.set_sum.specs.declared.members.Member.{Member};

use crate::bundles::MOST_SETS;
use crate::members::Member;
use crate::set_texts::Set;
use arrayvec::ArrayVec;

/// The number of one or two digits, without a leading zero, at the front of a text, and the text behind it.
fn split_number(text: &[u8]) -> Option<(u8, &[u8])>
    ensures some { IfSome result (λ found. (found.0 < 100)
        × (text.now ≡ numeral found.0 ++ found.1.now)) }
    ensures read { (n end : ℕ) (behind : List ℕ) → n < 100 → (end < 48) ⊎ (57 < end)
        → text.now ≡ numeral n ++ end ∷ behind
        → IsSomeAnd result (λ found. (found.0 ≡ n) × (found.1.now ≡ end ∷ behind)) }
{
    let (first, rest) = text.split_first()?;
    if !first.is_ascii_digit() {
        return None;
    }
    let value = *first - b'0';
    match rest.split_first() {
        Some((second, behind)) if value != 0 && second.is_ascii_digit() => {
            Some((10 * value + (*second - b'0'), behind))
        }
        _ => Some((value, rest)),
    }
}

/// Whether a text begins with the letter of a transposed member, and the text behind the letter.
fn split_letter(text: &[u8]) -> (bool, &[u8])
    ensures whole { text.now ≡ (if result.0 then codes "t" else []) ++ result.1.now }
    ensures read { (is_transposed : Bool) (end : ℕ) (behind : List ℕ) → (end ≡ 32) ⊎ (end ≡ 10)
        → text.now ≡ (if is_transposed then codes "t" else []) ++ end ∷ behind
        → (result.0 ≡ is_transposed) × (result.1.now ≡ end ∷ behind) }
{
    match text.split_first() {
        Some((first, behind)) if *first == b't' => (true, behind),
        _ => (false, text),
    }
}

/// A member of a line, and the text behind it and the byte that ends it.
#[derive(Drop)]
struct Front<'a> {
    member: Member,
    is_last: bool,
    rest: &'a [u8],
}

/// The member at the front of a text, behind which a space or the line's end stands. It comes behind the last one of the
/// line, if there is one.
fn split_member(text: &[u8], last: Option<Member>) -> Option<Front<'_>>
    ensures some { IfSome result (λ front. (front.member.table < 100) × MayFollow last front.member
        × (text.now ≡ member_text front.member ++ ending front.is_last ∷ front.rest.now)) }
    ensures read { (m : Member) (end : ℕ) (behind : List ℕ) → m.table < 100 → MayFollow last m
        → (end ≡ 32) ⊎ (end ≡ 10)
        → text.now ≡ member_text m ++ end ∷ behind → IsSome result }
{
    let (table, lettered) = split_number(text)?;
    let (is_transposed, ended) = split_letter(lettered);
    let (end, rest) = ended.split_first()?;
    let member = Member {
        table,
        is_transposed,
    };
    let is_next = match last {
        Some(last) => last.is_before(member),
        None => true,
    };
    let is_last = *end == b'\n';
    if !is_next || !is_last && *end != b' ' {
        return None;
    }
    Some(Front {
        member,
        is_last,
        rest,
    })
}

/// A line of a set text as it is read, and the text behind it.
#[derive(Drop)]
struct SetLine<'a> {
    /// The set, where all its tables are there.
    set: Option<Set>,
    rest: &'a [u8],
}

/// The line of a set at the front of a text, where there are so many tables.
fn split_line(text: &[u8], tables: usize) -> Option<SetLine<'_>>
    requires { tables ≤ most_tables }
    ensures some { IfSome result (λ line.
        IsReadLine tables text.now (option_map (λ set. set.items) line.set) line.rest.now) }
    ensures read { (members : List Member) (behind : List ℕ) → IsLine members
        → text.now ≡ set_line members ++ behind
        → IsSome result }
{
    if !text.starts_with(b"set ") {
        return None;
    }
    let mut rest = &text[4..];
    let mut members = ArrayVec::new();
    let mut is_there = true;
    let mut last = None;
    'members: loop {
        let front = split_member(rest, last)?;
        if usize::from(front.member.table) < tables {
            members.push(front.member);
        } else {
            is_there = false;
        }
        if front.is_last {
            let set = if is_there { Some(members) } else { None };
            return Some(SetLine {
                set,
                rest: front.rest,
            });
        }
        last = Some(front.member);
        rest = front.rest;
    }
}

/// The lines of a set text as they are read.
#[derive(Drop)]
pub(crate) struct Lines {
    /// How many there are.
    pub(crate) count: usize,
    /// The first of them one of whose tables isn't there.
    pub(crate) missing: Option<usize>,
    /// The sets of the first lines, as many as a bundle may have, where no table is missing.
    pub(crate) sets: ArrayVec<Set, MOST_SETS>,
}

impl Lines {
    /// Counts one line more, and keeps its set where there is room.
    fn push(&mut self, set: Option<Set>)
        requires { self.old.count < usize.MAX }
        ensures { (tables : ℕ) (lines : List (List Member)) (members : List Member)
            → AreReadLines tables lines self.old.count self.old.missing
            (map (λ kept. kept.items) self.old.sets.items)
            → IsReadAsSet tables members (option_map (λ kept. kept.items) set)
            → AreReadLines tables (lines ++ members ∷ []) self.new.count self.new.missing
            (map (λ kept. kept.items) self.new.sets.items) }
    {
        match set {
            Some(set) => if !self.sets.is_full() {
                self.sets.push(set);
            },
            None => if self.missing.is_none() {
                self.missing = Some(self.count);
            },
        }
        self.count += 1;
    }
}

/// Reads a set text, where there are so many tables. The first line that isn't of a set is the fault.
pub(crate) fn read_lines(text: &[u8], tables: usize) -> Result<Lines, usize>
    requires { tables ≤ most_tables }
    ensures ok { IfOk result (λ lines. (sets : List (List Member)) × AreLines text.now sets
        × AreReadLines tables sets lines.count lines.missing
        (map (λ set. set.items) lines.sets.items)) }
    ensures err { IfErr result (IsFirstBadLine text.now) }
{
    let mut lines = Lines {
        count: 0,
        missing: None,
        sets: ArrayVec::new(),
    };
    let mut rest = text;
    'lines: loop {
        let Some(line) = split_line(rest, tables) else {
            return Err(lines.count);
        };
        lines.push(line.set);
        rest = line.rest;
        if rest.is_empty() {
            return Ok(lines);
        }
    }
}
