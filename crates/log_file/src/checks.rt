//! Whether bytes behind a header are lemmas.

ghost use Rattle.std.specs.Prelude.{◌≡◌, ◌⊎◌, ℕ, IfErr, OnOk};
ghost use Rattle.log_file.specs.FormFaults.{AreBoards, AreFilled, IsFirstCut, IsFirstNoBoard, IsLeftOver};
ghost use Rattle.log_file.specs.Logs.{IsSize};
ghost use Rattle.log_file.specs.declared.faults.FormFault.TheVariants.{L2, L3};

use crate::faults::FormFault;
use crate::fronts::front;
use crate::headers::Header;
use puz_board::Board;

/// Whether the bytes are as many lemmas as the header says, and nothing more.
pub(crate) fn check_lengths(header: &Header, bytes: &[u8]) -> Result<(), FormFault>
    ensures ok { OnOk result (AreFilled header.now.side header.now.count bytes.now) }
    ensures err { IfErr result (λ fault. (i : ℕ) × (fault ≡ L2 i)
        × (IsFirstCut header.now.side header.now.count bytes.now i
        ⊎ ((i ≡ header.now.count) × IsLeftOver header.now.side header.now.count bytes.now))) }
{
    let mut rest = bytes;
    for i in 0..header.count {
        let Some((_, behind)) = front(header.side, rest) else {
            return Err(FormFault::L2(i));
        };
        rest = behind;
    }
    if rest.is_empty() {
        Ok(())
    } else {
        Err(FormFault::L2(header.count))
    }
}

/// Whether the board of each lemma is one.
pub(crate) fn check_boards(header: &Header, bytes: &[u8]) -> Result<(), FormFault>
    requires size { IsSize header.now.side header.now.count }
    requires filled { AreFilled header.now.side header.now.count bytes.now }
    ensures ok { OnOk result (AreBoards header.now.side header.now.count bytes.now) }
    ensures err { IfErr result (λ fault. (i : ℕ) × (fault ≡ L3 i)
        × IsFirstNoBoard header.now.side header.now.count bytes.now i) }
{
    let mut rest = bytes;
    for i in 0..header.count {
        let Some((lemma, behind)) = front(header.side, rest) else {
            unreachable!();
        };
        let Some(_) = Board::from_cells(lemma.cells) else {
            return Err(FormFault::L3(i));
        };
        rest = behind;
    }
    Ok(())
}
