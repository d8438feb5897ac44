//! Texts of claims of each form, and the most claims.

use crate::given::claims_of;
use crate::same::same;
use claim_text::{Asks, ClaimsFault, MOST_LINES, read_claims};
use move_strings::BoundPart;
use puz_board::Board;
use std::alloc::AllocGlobal;
use std::process::Abort;
use std::test::Fail;

/// Whether a text has one claim, on these numbers, which asks or says this.
fn says<R: AllocGlobal + Abort>(rt: &R, text: &[u8], numbers: &[u8], asks: &Asks<'_>) -> bool {
    let claims = claims_of(rt, text);
    let claim = claims.first().expect(rt, "a claim");
    Board::from_cells(numbers) == Some(claim.board) && claims.len() == 1 && claim.asks == *asks
}

#[test]
fn claims_of_each_form_are_read(rt: HostRuntime) {
    let part = BoundPart::new(2, 3).expect(&rt, "a part");
    let lines: [(&[u8], Asks<'_>); 4] = [
        (b"3 2 1 0\r\n", Asks::Shortest),
        (b" 3\t2 1 0;UL\tDRUL\r\n", Asks::Moves(b"UL\tDRUL\r")),
        (b"3 2 1 0 \t:\t10 \r\n", Asks::Bound(10)),
        (b"3 2 1 0 :\t255\tpart  2/3 \r\n", Asks::Part(255, part)),
    ];
    for (line, asks) in &lines {
        assert!(rt; says(&rt, line, &[3, 2, 1, 0], asks), "{line:?}");
    }
}

#[test]
fn a_text_may_have_1048576_claims(rt: HostRuntime) -> Result<(), Fail> {
    let mut text = Vec::new(rt.alloc());
    for _ in 0..MOST_LINES {
        text.extend_from_slice(b"0 1 2 3:9\n")?;
    }
    same(&rt, &claims_of(&rt, &text).len(), &1_048_576);
    Ok(())
}

// Run with each allocation refused in turn.
#[test]
fn want_of_memory_is_answered_and_a_second_reading_has_the_claims(rt: HostRuntime) {
    let text = b"3 2 1 0\n3 2 1 0 : 6";
    let mut claims = read_claims(rt.alloc(), text);
    if matches!(&claims, Err(ClaimsFault::Memory)) {
        claims = read_claims(rt.alloc(), text);
    }
    same(&rt, &claims.ok().expect(&rt, "claims").len(), &2);
}
