//! Bytes in and bytes out.

ghost use Rattle.std.specs.Prelude.{◌≡◌, ◌≤◌, ◌<◌, ◌+◌, true, length, take, drop, IfOk, OnOk, OnErr, IsErrOf};
ghost use Rattle.std.specs.Io.KnownBytes.{Consumes, IsAtEnd};
ghost use Rattle.byte_io.specs.Streams.{HasMore, IsReadWhole, Writes};

use crate::sinks::Sink;
use crate::sources::Source;
use crate::watched::Watched;
use std::alloc::{AllocError, Global};
use std::io;

/// Why an input was not read.
#[derive(Clone, Copy, Debug, PartialEq, Eq)]
pub enum ReadFault {
    /// A read failed.
    F1,
    /// The input is over its limit.
    F2,
    /// Memory was refused.
    Memory,
}

impl From<AllocError> for ReadFault {
    ghost use Rattle.byte_io.specs.declared.streams.ReadFault.{ReadFault};

    ghost from_gives = { λ _ fault. fault ≡ ReadFault.Memory };

    fn from(_refused: AllocError) -> ReadFault {
        ReadFault::Memory
    }
}

/// Why bytes were not written.
#[derive(Clone, Copy, Debug, PartialEq, Eq)]
pub enum WriteFault {
    /// A write failed, or took nothing.
    F3,
}

impl From<io::Error> for WriteFault {
    fn from(_failed: io::Error) -> WriteFault {
        WriteFault::F3
    }
}

/// How many bytes of room are made at a time.
const PIECE: usize = 65_536;

/// Reads to the end of an input, of at most so many bytes, by at most so many reads and one more, as a `Watched` reader
/// tells. Nothing past the limit is kept. A read's error ends it, whatever its kind.
pub fn read_all<R: Source>(alloc: Global, reader: &mut R, limit: u64) -> Result<Vec<u8>, ReadFault>
    ensures read { let old = R.remaining reader.old in let new = R.remaining reader.new in
        IfOk result (λ bytes. IsReadWhole old new limit bytes.items) }
    ensures over { IsErrOf result ReadFault.F2 → HasMore (R.remaining reader.old) limit }
    ensures reads { R.reads reader.new ≤ R.reads reader.old + limit + 1 }
    ensures failed { IsErrOf result ReadFault.F1 → R.may_have_failed reader.new ≡ true }
    ensures calm { (IsErrOf result ReadFault.F1 → ⊥)
        → R.may_have_failed reader.new ≡ R.may_have_failed reader.old }
    ensures ended { OnOk result (R.may_have_ended reader.new ≡ true) }
    ensures open { OnErr result (R.may_have_ended reader.new ≡ R.may_have_ended reader.old) }
{
    read_sized(alloc, reader, limit, 0)
}

/// The same, for an input that is said to have so many bytes: memory for these is taken at once, and no more where
/// there are no more. Where nothing is said of it, the size is 0.
pub fn read_sized<R: Source>(
    alloc: Global,
    reader: &mut R,
    limit: u64,
    size: u64,
) -> Result<Vec<u8>, ReadFault>
    ensures read { let old = R.remaining reader.old in let new = R.remaining reader.new in
        IfOk result (λ bytes. IsReadWhole old new limit bytes.items) }
    ensures over { IsErrOf result ReadFault.F2 → HasMore (R.remaining reader.old) limit }
    ensures reads { R.reads reader.new ≤ R.reads reader.old + limit + 1 }
    ensures failed { IsErrOf result ReadFault.F1 → R.may_have_failed reader.new ≡ true }
    ensures calm { (IsErrOf result ReadFault.F1 → ⊥)
        → R.may_have_failed reader.new ≡ R.may_have_failed reader.old }
    ensures ended { OnOk result (R.may_have_ended reader.new ≡ true) }
    ensures open { OnErr result (R.may_have_ended reader.new ≡ R.may_have_ended reader.old) }
{
    read_watched(alloc, &mut Watched::new(reader), limit, size)
}

/// The same, for an input of which the system says that it has so many bytes: where these are over the limit, nothing
/// is read.
pub fn read_said<R: Source>(
    alloc: Global,
    reader: &mut R,
    limit: u64,
    size: u64,
) -> Result<Vec<u8>, ReadFault>
    ensures read { let old = R.remaining reader.old in let new = R.remaining reader.new in
        IfOk result (λ bytes. IsReadWhole old new limit bytes.items) }
    ensures over { IsErrOf result ReadFault.F2 → size ≤ limit
        → HasMore (R.remaining reader.old) limit }
    ensures unread { limit < size → IsErrOf result ReadFault.F2 × (reader.new ≡ reader.old) }
    ensures reads { R.reads reader.new ≤ R.reads reader.old + limit + 1 }
    ensures failed { IsErrOf result ReadFault.F1 → R.may_have_failed reader.new ≡ true }
    ensures calm { (IsErrOf result ReadFault.F1 → ⊥)
        → R.may_have_failed reader.new ≡ R.may_have_failed reader.old }
    ensures ended { OnOk result (R.may_have_ended reader.new ≡ true) }
    ensures open { OnErr result (R.may_have_ended reader.new ≡ R.may_have_ended reader.old) }
{
    if limit < size {
        return Err(ReadFault::F2);
    }
    read_sized(alloc, reader, limit, size)
}

/// The same, by a reader that notes its reads: they are at most one more than the limit, and `F1` says that one failed.
#[tactic(auto, using(crate::proofs::Appending::stream_steps))]
pub fn read_watched<R: Source>(
    alloc: Global,
    reader: &mut Watched<'_, R>,
    limit: u64,
    size: u64,
) -> Result<Vec<u8>, ReadFault>
    ensures same_stream { reader.new.stream.ghost_name ≡ reader.old.stream.ghost_name }
    ensures read { let old = R.remaining reader.old.stream.now in
        let new = R.remaining reader.new.stream.now in
        IfOk result (λ bytes. IsReadWhole old new limit bytes.items) }
    ensures over { IsErrOf result ReadFault.F2 → HasMore (R.remaining reader.old.stream.now) limit }
    ensures reads { reader.new.calls ≤ reader.old.calls + limit + 1 }
    ensures reads_inside { let before = R.reads reader.old.stream.now in
        R.reads reader.new.stream.now ≤ before + limit + 1 }
    ensures failed { IsErrOf result ReadFault.F1 → reader.new.has_failed ≡ true }
    ensures calm { (IsErrOf result ReadFault.F1 → ⊥)
        → reader.new.has_failed ≡ reader.old.has_failed }
    ensures failed_inside { IsErrOf result ReadFault.F1
        → R.may_have_failed reader.new.stream.now ≡ true }
    ensures calm_inside { let old = R.may_have_failed reader.old.stream.now in
        (IsErrOf result ReadFault.F1 → ⊥) → R.may_have_failed reader.new.stream.now ≡ old }
    ensures ended_inside { OnOk result (R.may_have_ended reader.new.stream.now ≡ true) }
    ensures open_inside { let old = R.may_have_ended reader.old.stream.now in
        OnErr result (R.may_have_ended reader.new.stream.now ≡ old) }
{
    // One byte more shows the end without more memory.
    let room = if size == 0 {
        0
    } else {
        size.min(limit).saturating_add(1)
    };
    let mut bytes = Vec::with_capacity(alloc, room as usize)?;
    let mut filled = 0;
    'reads: loop {
        make_room(&mut bytes, filled)?;
        let Ok(count) = read_behind(reader, bytes.as_mut_slice(), filled) else {
            return Err(ReadFault::F1);
        };
        if count == 0 {
            bytes.truncate(filled);
            return Ok(bytes);
        }
        filled += count;
        if limit < filled as u64 {
            return Err(ReadFault::F2);
        }
    }
}

/// Makes bytes longer than they are filled, by zeros. What room there is, is used first.
fn make_room(bytes: &mut Vec<u8>, filled: usize) -> Result<(), AllocError>
    requires { filled ≤ length bytes.old.items }
    ensures front { take filled bytes.new.items ≡ take filled bytes.old.items }
    ensures within { filled ≤ length bytes.new.items }
    ensures room { OnOk result (filled < length bytes.new.items) }
{
    if filled < bytes.len() {
        return Ok(());
    }
    let spare = bytes.capacity() - filled;
    let more = if spare == 0 { PIECE } else { spare.min(PIECE) };
    let Some(len) = filled.checked_add(more) else {
        return Err(AllocError);
    };
    bytes.resize(len, 0)
}

/// One read into the room behind what is filled.
#[tactic(auto, using(crate::proofs::Appending::stream_steps))]
fn read_behind<R: Source>(
    reader: &mut Watched<'_, R>,
    bytes: &mut [u8],
    filled: usize,
) -> io::Result<usize>
    requires { filled < length bytes.old }
    ensures same_stream { reader.new.stream.ghost_name ≡ reader.old.stream.ghost_name }
    ensures front { take filled bytes.new ≡ take filled bytes.old }
    ensures fits { IfOk result (λ count. filled + count ≤ length bytes.new) }
    ensures bytes { let old = R.remaining reader.old.stream.now in
        let new = R.remaining reader.new.stream.now in
        IfOk result (λ count. Consumes old new (take count (drop filled bytes.new))) }
    ensures end { IfOk result (λ count. count ≡ 0 → IsAtEnd (R.remaining reader.new.stream.now)) }
    ensures noted { reader.new.calls ≤ reader.old.calls + 1 }
    ensures noted_inside { R.reads reader.new.stream.now ≤ R.reads reader.old.stream.now + 1 }
    ensures calm { OnOk result (reader.new.has_failed ≡ reader.old.has_failed) }
    ensures failed { OnErr result (reader.new.has_failed ≡ true) }
    ensures calm_inside { let old = R.may_have_failed reader.old.stream.now in
        OnOk result (R.may_have_failed reader.new.stream.now ≡ old) }
    ensures failed_inside { OnErr result (R.may_have_failed reader.new.stream.now ≡ true) }
    ensures more_inside { let old = R.may_have_ended reader.old.stream.now in
        IfOk result (λ count. 0 < count → R.may_have_ended reader.new.stream.now ≡ old) }
    ensures ended_inside { let new = R.may_have_ended reader.new.stream.now in
        IfOk result (λ count. count ≡ 0 → new ≡ true) }
    ensures stopped_inside { let old = R.may_have_ended reader.old.stream.now in
        OnErr result (R.may_have_ended reader.new.stream.now ≡ old) }
{
    reader.read_once(&mut bytes[filled..])
}

/// Writes a text.
pub fn put_text<W: Sink>(out: &mut W, text: &str) -> Result<(), WriteFault>
    ensures { Writes (W.output out.old) (W.output out.new) text.now result }
{
    put_bytes(out, text.as_bytes())
}

/// Writes bytes.
pub fn put_bytes<W: Sink>(out: &mut W, bytes: &[u8]) -> Result<(), WriteFault>
    ensures { Writes (W.output out.old) (W.output out.new) bytes.now result }
{
    put_watched(&mut Watched::new(out), bytes)
}

/// The same, by a writer that notes its writes: `F3` says that one failed, and each of them was of some bytes.
#[tactic(auto, using(crate::proofs::Appending::stream_steps))]
pub fn put_watched<W: Sink>(out: &mut Watched<'_, W>, bytes: &[u8]) -> Result<(), WriteFault>
    ensures same_stream { out.new.stream.ghost_name ≡ out.old.stream.ghost_name }
    ensures written { let old = W.output out.old.stream.now in
        Writes old (W.output out.new.stream.now) bytes.now result }
    ensures writes { out.new.calls ≤ out.old.calls + length bytes.now }
    ensures failed { OnErr result (out.new.has_failed ≡ true) }
    ensures calm { OnOk result (out.new.has_failed ≡ out.old.has_failed) }
{
    let mut done = 0;
    while done < bytes.len() {
        match out.write_once(&bytes[done..]) {
            Ok(count) if count > 0 => done += count,
            _ => return Err(WriteFault::F3),
        }
    }
    Ok(())
}
