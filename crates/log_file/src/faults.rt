//! Why bytes are no log file.

/// Why bytes are no log file. The first of these that stands is answered.
///
/// Places of bytes and numbers of lemmas are counted from 0.
#[derive(Clone, Copy, Debug, PartialEq, Eq)]
pub enum FormFault {
    /// There are fewer than 10 bytes, the first four aren't `PDBL`, the version isn't 1 or 2, the side isn't one of 2 to 5,
    /// or the number of lemmas isn't one of 1 to 1,048,576.
    L1,
    /// The lemma with this number is the first that is cut short. With the number of lemmas: bytes are left over behind
    /// the last one.
    L2(u32),
    /// The lemma with this number is the first whose board isn't one.
    L3(u32),
}

/// Why bytes aren't viewed as a log.
#[derive(Clone, Copy, Debug, PartialEq, Eq)]
pub enum ViewFault {
    /// They are no log file.
    Refused(FormFault),
    /// They are a log file, and there isn't the memory to list its lemmas.
    Memory,
}
