//! A stream whose calls are noted.

ghost use Rattle.std.specs.Prelude.{◌≡◌, ◌<◌, ◌≤◌, ◌+◌, ◌-◌, ◌^◌, min, length, true, false, Ok, OnOk, OnErr, IfOk};
ghost use Rattle.std.specs.Io.{ReadsAtMost, WritesAtMost};
ghost use Rattle.std.specs.Io.KnownBytes.{ReadConsumes, WriteAppends};
ghost use Rattle.byte_io.specs.Streams.{output};

use crate::sinks::Sink;
use crate::sources::Source;
use std::io;

/// A reader or a writer that notes how often it was read or written, whether it failed: by an error, or by a
/// write that took nothing of some bytes; and whether a read met its end, which gives no bytes where there is room for some.
#[derive(Drop)]
pub struct Watched<'a, S> {
    pub(crate) stream: &'a mut S,
    pub(crate) calls: u64,
    pub(crate) has_failed: bool,
    pub(crate) has_ended: bool,
}

impl<'a, S> Watched<'a, S> {
    /// A stream that was not called yet.
    pub fn new(stream: &'a mut S) -> Watched<'a, S>
        ensures same_stream { result.stream.ghost_name ≡ stream.entry.ghost_name }
        ensures as_it_was { result.stream.now ≡ stream.old }
        ensures uncalled { result.calls ≡ 0 }
        ensures calm { result.has_failed ≡ false }
        ensures open { result.has_ended ≡ false }
    {
        Watched {
            stream,
            calls: 0,
            has_failed: false,
            has_ended: false,
        }
    }

    /// How many reads or writes were made.
    pub fn calls(&self) -> u64
        ensures { result ≡ self.now.calls }
    {
        self.calls
    }

    /// Whether a call failed.
    pub fn has_failed(&self) -> bool
        ensures { result ≡ self.now.has_failed }
    {
        self.has_failed
    }

    /// Whether a read met the end.
    pub fn has_ended(&self) -> bool
        ensures { result ≡ self.now.has_ended }
    {
        self.has_ended
    }
}

impl<R: Source> Source for Watched<'_, R> {
    ghost remaining = { λ watched. R.remaining watched.stream.now };

    ghost reads = { λ watched. watched.calls };

    ghost may_have_failed = { λ watched. watched.has_failed };

    ghost may_have_ended = { λ watched. watched.has_ended };

    fn read_once(&mut self, buf: &mut [u8]) -> io::Result<usize>
        ensures bound { ReadsAtMost result buf.new }
        ensures bytes { let old = R.remaining self.old.stream.now in
            ReadConsumes old (R.remaining self.new.stream.now) result buf.new }
        ensures same_stream { self.new.stream.ghost_name ≡ self.old.stream.ghost_name }
        ensures counted { self.new.calls ≡ min (self.old.calls + 1) (2 ^ 64 - 1) }
        ensures at_most { self.new.calls ≤ self.old.calls + 1 }
        ensures inside { R.reads self.new.stream.now ≤ R.reads self.old.stream.now + 1 }
        ensures calm { OnOk result (self.new.has_failed ≡ self.old.has_failed) }
        ensures failed { OnErr result (self.new.has_failed ≡ true) }
        ensures calm_inside { let old = R.may_have_failed self.old.stream.now in
            OnOk result (R.may_have_failed self.new.stream.now ≡ old) }
        ensures failed_inside { OnErr result (R.may_have_failed self.new.stream.now ≡ true) }
        ensures more { IfOk result (λ count. 0 < count → self.new.has_ended ≡ self.old.has_ended) }
        ensures ended { IfOk result
            (λ count. count ≡ 0 → 0 < length buf.new → self.new.has_ended ≡ true) }
        ensures stopped { OnErr result (self.new.has_ended ≡ self.old.has_ended) }
        ensures more_inside { let old = R.may_have_ended self.old.stream.now in IfOk result
            (λ count. 0 < count → R.may_have_ended self.new.stream.now ≡ old) }
        ensures ended_inside { let new = R.may_have_ended self.new.stream.now in IfOk result
            (λ count. count ≡ 0 → 0 < length buf.new → new ≡ true) }
        ensures stopped_inside { let old = R.may_have_ended self.old.stream.now in
            OnErr result (R.may_have_ended self.new.stream.now ≡ old) }
    {
        self.calls = self.calls.saturating_add(1);
        let result = self.stream.read_once(buf);
        match &result {
            Ok(count) => {
                if *count == 0 && !buf.is_empty() {
                    self.has_ended = true;
                }
            }
            Err(_) => self.has_failed = true,
        }
        result
    }
}

impl<W: Sink> Sink for Watched<'_, W> {
    ghost output = { λ watched. output (W.output watched.stream.now).bytes watched.has_failed };

    fn write_once(&mut self, buf: &[u8]) -> io::Result<usize>
        ensures bound { WritesAtMost result buf.now }
        ensures bytes { let old = (W.output self.old.stream.now).bytes in
            WriteAppends old (W.output self.new.stream.now).bytes result buf.now }
        ensures same_stream { self.new.stream.ghost_name ≡ self.old.stream.ghost_name }
        ensures counted { self.new.calls ≡ min (self.old.calls + 1) (2 ^ 64 - 1) }
        ensures calm { IfOk result
            (λ count. 0 < count → self.new.has_failed ≡ self.old.has_failed) }
        ensures stuck { IfOk result
            (λ count. count ≡ 0 → 0 < length buf.now → self.new.has_failed ≡ true) }
        ensures failed { OnErr result (self.new.has_failed ≡ true) }
        ensures calm_inside { let old = W.output self.old.stream.now in
            let new = W.output self.new.stream.now in
            IfOk result (λ count. 0 < count → new.failed ≡ old.failed) }
        ensures stuck_inside { let new = W.output self.new.stream.now in IfOk result
            (λ count. count ≡ 0 → 0 < length buf.now → new.failed ≡ true) }
        ensures failed_inside { OnErr result ((W.output self.new.stream.now).failed ≡ true) }
    {
        self.calls = self.calls.saturating_add(1);
        let result = self.stream.write_once(buf);
        let failed = match &result {
            Ok(count) => *count == 0 && !buf.is_empty(),
            Err(_) => true,
        };
        if failed {
            self.has_failed = true;
        }
        result
    }
}
