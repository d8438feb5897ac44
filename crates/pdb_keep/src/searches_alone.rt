//! A gate that is told of searches, and holds nobody.

use work_run::Gate;

/// A gate that is told of searches and of the boards that they expand, and that no worker passes.
#[derive(Drop)]
pub(crate) struct SearchesAlone<'g, G> {
    pub(crate) gate: &'g G,
}

impl<G: Gate> Gate for SearchesAlone<'_, G> {
    fn before(&self, _job: u64) {}

    fn searches(&self, bound: u8) {
        self.gate.searches(bound);
    }

    fn expanded(&self, boards: u64) {
        self.gate.expanded(boards);
    }
}
