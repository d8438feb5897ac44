//! What is read from, whose reads may be counted and tell whether one failed or met the end.

use std::io;
use std::io::Read;

/// What is read from: any reader, of whose reads nothing is told, or a `Watched` one, which tells how often it was read,
/// and whether a read failed or met the end.
pub trait Source {
    ghost use Rattle.std.specs.Prelude.{ℕ, ◌≡◌, ◌<◌, ◌≤◌, ◌+◌, Bool, true, List, Option, IfOk, OnErr, OnOk, length};
    ghost use Rattle.std.specs.Io.{ReadsAtMost};
    ghost use Rattle.std.specs.Io.KnownBytes.{ReadConsumes};

    /// The bytes that reads will give from here on, where they are known.
    ghost remaining: { Self → Option (List ℕ) };

    /// How many reads it tells of.
    ghost reads: { Self → ℕ };

    /// Whether a read may have failed: it may where nothing is told, and else it has.
    ghost may_have_failed: { Self → Bool };

    /// Whether a read may have met the end, which gives no bytes where there is room for some: it may where nothing is told, and
    /// else it has.
    ghost may_have_ended: { Self → Bool };

    /// One read.
    fn read_once(&mut self, buf: &mut [u8]) -> io::Result<usize>
        ensures bound { ReadsAtMost result buf.new }
        ensures bytes { ReadConsumes (remaining self.old) (remaining self.new) result buf.new }
        ensures counted { reads self.new ≤ reads self.old + 1 }
        ensures calm { OnOk result (may_have_failed self.new ≡ may_have_failed self.old) }
        ensures failed { OnErr result (may_have_failed self.new ≡ true) }
        ensures more { IfOk result
            (λ count. 0 < count → may_have_ended self.new ≡ may_have_ended self.old) }
        ensures ended { IfOk result
            (λ count. count ≡ 0 → 0 < length buf.new → may_have_ended self.new ≡ true) }
        ensures stopped { OnErr result (may_have_ended self.new ≡ may_have_ended self.old) };
}

impl<R: Read> Source for R {
    ghost use Rattle.std.specs.Prelude.{true};

    ghost remaining = { λ reader. R.remaining reader };

    ghost reads = { λ _. 0 };

    ghost may_have_failed = { λ _. true };

    ghost may_have_ended = { λ _. true };

    fn read_once(&mut self, buf: &mut [u8]) -> io::Result<usize> {
        self.read(buf)
    }
}
