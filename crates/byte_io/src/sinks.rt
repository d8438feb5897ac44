//! What is written to, whose writes may tell whether one failed.

use std::io;
use std::io::Write;

/// What is written to: any writer, of whose failures nothing is told, or a `Watched` one, which tells whether a write failed.
pub trait Sink {
    ghost use Rattle.std.specs.Prelude.{◌≡◌, ◌<◌, true, IfOk, OnErr, length};
    ghost use Rattle.std.specs.Io.{WritesAtMost};
    ghost use Rattle.std.specs.Io.KnownBytes.{WriteAppends};
    ghost use Rattle.byte_io.specs.Streams.{Output};

    /// The bytes that were written, where they are known; and whether a write may have failed, by an error or by taking nothing of
    /// some bytes: it may where nothing is told of that, and else it has.
    ghost output: { Self → Output };

    /// One write.
    fn write_once(&mut self, buf: &[u8]) -> io::Result<usize>
        ensures bound { WritesAtMost result buf.now }
        ensures bytes { let old = (output self.old).bytes in
            WriteAppends old (output self.new).bytes result buf.now }
        ensures calm { IfOk result
            (λ count. 0 < count → (output self.new).failed ≡ (output self.old).failed) }
        ensures stuck { IfOk result
            (λ count. count ≡ 0 → 0 < length buf.now → (output self.new).failed ≡ true) }
        ensures failed { OnErr result ((output self.new).failed ≡ true) };
}

impl<W: Write> Sink for W {
    ghost use Rattle.std.specs.Prelude.{true};
    ghost use Rattle.byte_io.specs.Streams.{output};

    ghost output = { λ writer. output (W.contents writer) true };

    fn write_once(&mut self, buf: &[u8]) -> io::Result<usize> {
        self.write(buf)
    }
}
