//! Texts of claims, a claim a line.

ghost use Rattle.std.specs.Prelude.{◌≡◌, ◌≤◌, ◌⊎◌, ℕ, Err, IfErr, IfOk, IsOkAnd, List, length, map};
ghost use Rattle.claim_text.specs.Claims.{IsClaim, ShownClaim};
ghost use Rattle.claim_text.specs.Texts.{AreClaims, IsFirstNoClaim, SaysClaim, claim_lines, is_remark, lines_of};
ghost use Rattle.claim_text.specs.Lines.{HasFewLetters};
ghost use Rattle.claim_text.specs.Shown.{claim_shown};
ghost use Rattle.std.specs.List.{All, AllZip};
ghost use Rattle.claim_text.specs.declared.faults.ClaimsFault.TheVariants.{Memory, Q1};

use crate::claims::{Claim, read_claim};
use crate::cuts::split_line;
use crate::faults::ClaimsFault;
use crate::letters::are_separators;
use std::alloc::{AllocError, Global};

/// How many lines a text of claims may have.
pub const MOST_LINES: u32 = 1_048_576;

#[tactic(auto, unfolding(crate::specs::Texts::is_remark))]
/// Whether a line is a remark: it has separators alone, or begins with `#`.
pub fn is_remark(line: &[u8]) -> bool
    ensures { result ≡ is_remark line.now }
{
    are_separators(line) || line[0] == b'#'
}

/// The claims of a text, which has a claim a line, and remarks between them. Each line ends with an LF, which the last one may
/// lack; behind a last LF there is no line.
pub fn read_claims<'a>(alloc: Global, text: &'a [u8]) -> Result<Vec<Claim<'a>>, ClaimsFault>
    // Claims come exactly of a text that has them. Only want of memory keeps them back.
    ensures ok { IfOk result (λ claims. AreClaims text.now (map claim_shown claims.items)) }
    ensures claims { (claims : List ShownClaim) → AreClaims text.now claims
        → IsOkAnd result (λ read. map claim_shown read.items ≡ claims) ⊎ (result ≡ Err Memory) }

    // Which line is the first that is none, before any memory is taken.
    ensures fault { (line : ℕ) → result ≡ Err (Q1 line) → IsFirstNoClaim text.now line }
    ensures exact { (line : ℕ) → IsFirstNoClaim text.now line → result ≡ Err (Q1 line) }

    // Memory is wanted for a text of claims alone.
    ensures memory { result ≡ Err Memory → (claims : List ShownClaim) × AreClaims text.now claims }

    // The lines that answer these claims have room for their letters.
    ensures few { IfOk result (λ claims.
        All (λ claim. HasFewLetters (claim_shown claim)) claims.items) }
{
    let count = match count_claims(text) {
        Ok(count) => count,
        Err(line) => return Err(ClaimsFault::Q1 { line }),
    };
    match list_claims(alloc, text, count) {
        Ok(claims) => Ok(claims),
        Err(_) => Err(ClaimsFault::Memory),
    }
}

/// How many claims a text has, or the number of the first line that is none.
fn count_claims(text: &[u8]) -> Result<u32, u32>
    ensures count { IfOk result (λ count. length (claim_lines text.now) ≡ count) }
    ensures some { IfOk result (λ count. 1 ≤ count) }
    ensures few { IfOk result (λ _. length (lines_of text.now) ≤ MOST_LINES) }
    ensures claims { IfOk result (λ _. All SaysClaim (claim_lines text.now)) }
    ensures err { IfErr result (IsFirstNoClaim text.now) }
{
    let mut number = 0;
    let mut count = 0;
    let mut rest = text;
    while let Some((line, behind)) = split_line(rest) {
        let remark = is_remark(line);
        if number == MOST_LINES || !(remark || read_claim(line).is_some()) {
            return Err(number);
        }
        count += u32::from(!remark);
        number += 1;
        rest = behind;
    }
    if count == 0 { Err(number) } else { Ok(count) }
}

/// Lists the claims of a text, which are so many.
fn list_claims(alloc: Global, text: &[u8], count: u32) -> Result<Vec<Claim<'_>>, AllocError>
    requires count { length (claim_lines text.now) ≡ count }
    requires claims { All SaysClaim (claim_lines text.now) }
    ensures { IfOk result (λ claims.
        AllZip IsClaim (claim_lines text.now) (map claim_shown claims.items)) }
{
    let mut claims = Vec::with_capacity(alloc, count as usize)?;
    let mut rest = text;
    while let Some((line, behind)) = split_line(rest) {
        rest = behind;
        if is_remark(line) {
            continue;
        }
        let Some(claim) = read_claim(line) else {
            unreachable!();
        };
        claims.push_reserved(claim);
    }
    Ok(claims)
}
