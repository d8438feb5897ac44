//! What a search makes.

ghost use Rattle.std.specs.Prelude.{◌≡◌, ◌∷◌, [], option_map};
ghost use Rattle.pdb_run.specs.Writing.{digests_of};

use pdb_run::Digests;

/// The moves and the log of a search, which prove an optimum, how many moves they are, and the log's digest line, where that is
/// made already.
#[derive(Drop)]
pub(crate) struct Made {
    pub(crate) moves: Vec<u8>,
    pub(crate) log: Vec<u8>,
    pub(crate) count: u8,
    pub(crate) digest: Option<Digests>,
    ghost digested: { option_map (λ d. d.items) digest
        ≡ option_map (λ _. digests_of (log.items ∷ [])) digest },
}
