//! The lemmas of a log as jobs that workers share.

ghost use Rattle.std.specs.Prelude.{◌≡◌, ◌≤◌, ◌^◌, length};

use crate::lemmas::check_lemma;
use log_file::LogView;
use set_sum::Bundle;
use work_run::Job;

/// The lemmas of a log: a job for each, whose one place is its number.
#[derive(Drop)]
pub(crate) struct LogLemmas<'a> {
    pub(crate) log: &'a LogView<'a>,
    pub(crate) bundle: &'a Bundle<'a>,
    ghost one_side: { log.now.side ≡ bundle.now.side },
    ghost few_lemmas: { length log.now.lemmas ≤ 2 ^ 32 },
}

impl<'a> Job for LogLemmas<'a> {
    ghost use Rattle.std.specs.Prelude.{length, refl};
    ghost use Rattle.std.proofs.Math.Nat.{le-add_right};
    ghost use Rattle.log_check.specs.GoodLogs.{IsGood};

    ghost jobs = { λ lemmas. length lemmas.log.now.lemmas };

    ghost begins = { λ lemmas lemma. lemma };

    ghost bad = { λ lemmas lemma. ¬ IsGood lemmas.bundle.now lemmas.log.now lemma };

    ghost few = { λ lemmas. lemmas.few_lemmas };

    ghost from_zero = { λ lemmas. refl };

    ghost rises = { λ lemmas lemma low. le-add_right lemma 1 };

    ghost small = { λ lemmas. lemmas.few_lemmas };

    fn count(&self) -> u64 {
        u64::from(self.log.len())
    }

    fn first(&self, lemma: u64) -> u64 {
        lemma
    }

    fn run(&self, lemma: u64) -> Option<u64> {
        if check_lemma(self.log, self.bundle, lemma as u32) {
            None
        } else {
            Some(lemma)
        }
    }
}
