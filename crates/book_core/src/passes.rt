//! What a book keeps of one pass.

ghost use Rattle.std.specs.Prelude.{◌≡◌, OnOk, OnErr};
ghost use Rattle.book_core.specs.Passes.{fresh, with_drawn, with_end, with_report, with_seen};

use std::alloc::{AllocError, Global};
use std::marker::Model;

/// What one pass has done.
#[derive(Drop)]
pub struct Deeds {
    drawn: Vec<u64>,
    reported: Vec<u64>,
    seen: Option<u64>,
    ended: bool,
}

impl Model for Deeds {
    ghost use Rattle.book_core.specs.Passes.{Deeds};

    ghost Value = { Deeds };

    ghost view = { λ p. record {
      drawn = p.drawn.items;
      reported = p.reported.items;
      seen = p.seen;
      ended = p.ended;
    } };
}

impl Deeds {
    /// A pass that has done nothing.
    pub(crate) fn new(alloc: Global) -> Deeds
        ensures { result ≡ fresh }
    {
        Deeds {
            drawn: Vec::new(alloc),
            reported: Vec::new(alloc),
            seen: None,
            ended: false,
        }
    }

    /// The jobs that it drew, in this order.
    pub(crate) fn drawn(&self) -> &[u64]
        ensures { result.now ≡ self.now.drawn }
    {
        &self.drawn
    }

    /// The places that it reported, in this order.
    pub(crate) fn reported(&self) -> &[u64]
        ensures { result.now ≡ self.now.reported }
    {
        &self.reported
    }

    /// The least place that its last look showed, if it showed one.
    pub(crate) fn seen(&self) -> Option<u64>
        ensures { result ≡ self.now.seen }
    {
        self.seen
    }

    /// Whether a claim of it found no job left.
    pub(crate) fn ended(&self) -> bool
        ensures { result ≡ self.now.ended }
    {
        self.ended
    }

    pub(crate) fn draw(&mut self, job: u64) -> Result<(), AllocError>
        ensures ok { OnOk result (self.new ≡ with_drawn self.old job) }
        ensures err { OnErr result (self.new ≡ self.old) }
    {
        self.drawn.push(job)?;
        Ok(())
    }

    pub(crate) fn report(&mut self, place: u64) -> Result<(), AllocError>
        ensures ok { OnOk result (self.new ≡ with_report self.old place) }
        ensures err { OnErr result (self.new ≡ self.old) }
    {
        self.reported.push(place)?;
        Ok(())
    }

    pub(crate) fn see(&mut self, least: Option<u64>)
        ensures { self.new ≡ with_seen self.old least }
    {
        self.seen = least;
    }

    pub(crate) fn end(&mut self)
        ensures { self.new ≡ with_end self.old }
    {
        self.ended = true;
    }
}
