//! Runs whose lines are known byte for byte, and what they read and keep.

use std::alloc::{AllocError, Global};
use test_samples::files::{TILE_3, TILES_12};
use test_samples::logs::BRANCHES;

/// The names of the files and their bytes.
pub(crate) const FILES: [(&str, &[u8]); 9] = [
    ("board", b"3 2 1 0"),
    ("puzzle", b"3 2 1 0 ; ULDRUL"),
    ("claims", b"3 2 1 0 : 7\n3 2 1 0\n"),
    ("first", b"part 0/3 of bound 6 of 3 2 1 0\n"),
    (
        "others",
        b"part 1/3 of bound 6 of 3 2 1 0\npart 2/3 of bound 6 of 3 2 1 0\n",
    ),
    ("sets", b"set 0 1\n"),
    ("log", &BRANCHES),
    ("f12", &TILES_12),
    ("f3", &TILE_3),
];

/// A run over these files.
#[derive(Clone, Copy)]
pub(crate) struct Task<'a> {
    pub(crate) words: &'a [&'a str],
    /// The names that it reads, in their order.
    pub(crate) reads: &'a [&'a str],
    /// The name that it tries behind these.
    pub(crate) out: Option<&'a str>,
    /// The file that it keeps there.
    pub(crate) made: Option<&'a [u8]>,
    /// The digests that it tells.
    digests: &'a [&'a str],
    /// The lines behind them.
    pub(crate) last: &'a str,
    pub(crate) status: u8,
}

impl Task<'_> {
    /// All that it writes.
    pub(crate) fn lines(&self, alloc: Global) -> Result<String, AllocError> {
        let mut all = String::new(alloc);
        for digest in self.digests {
            all = format!(in alloc; "{all}sha256 {digest}\n")?;
        }
        all.push_str(self.last)?;
        Ok(all)
    }
}

const DIGEST_OF_12: &str = "fc9e320726274cbeff6f0c450060cf77617b6e27b10cfe9808da3bb87454b331";

const DIGEST_OF_3: &str = "fd85b03648ed99f9ba11852f07d2ef4abf0387a7c115fec94baa88c514d713fe";

const DIGEST_OF_LOG: &str = "e9e77cadd5844ced52b6de00a0ab5f92b680046686168f0e7823639b16b9505c";

const DIGEST_OF_CLAIMS: &str = "4f8e604eb0617c441085ebe34aedb776a95bd3ab15a1ea2cd626a94136418a52";

const DIGEST_OF_FIRST: &str = "7ef48adedbd9368a13c50de20c8c9ef2209edaa961c1915b973cefc3ce52dde4";

const DIGEST_OF_OTHERS: &str = "f59f479b141407628fc76aa6ab442976e79983b7f0d1488e5e9498bbb85a2e22";

/// A leaf for the board and the bound 6, in version 2.
const MADE: [u8; 20] = *b"PDBL\x02\x02\0\0\0\x01\x03\x02\x01\0\x06\0\0\0\x01\x01";

const DIGEST_OF_MADE: &str = "c56a7d0f199c79db7512ab483017213c97652395779bd850ff2e39d9b6b0b357";

pub(crate) const TASKS: [Task<'static>; 11] = [
    Task {
        words: &["replay", "puzzle"],
        reads: &["puzzle"],
        out: None,
        made: None,
        digests: &[],
        last: "solution 6\n",
        status: 0,
    },
    Task {
        words: &["replay", "board"],
        reads: &["board"],
        out: None,
        made: None,
        digests: &[],
        last: "refused P1\n",
        status: 1,
    },
    Task {
        words: &["table", "f12"],
        reads: &["f12"],
        out: None,
        made: None,
        digests: &[DIGEST_OF_12],
        last: "exact side 2 mask 6 entries 24 unreachable 8 deepest 4\n",
        status: 0,
    },
    Task {
        words: &["bound", "board", "sets", "log", "f12", "f3"],
        reads: &["board", "sets", "log", "f12", "f3"],
        out: None,
        made: None,
        digests: &[DIGEST_OF_12, DIGEST_OF_3, DIGEST_OF_LOG],
        last: "bound 6\n",
        status: 0,
    },
    Task {
        words: &[
            "optimal",
            "puzzle",
            "sets",
            "log",
            "f12",
            "f3",
            "--fold",
            "--workers",
            "2",
        ],
        reads: &["puzzle", "sets", "log", "f12", "f3"],
        out: None,
        made: None,
        digests: &[DIGEST_OF_12, DIGEST_OF_3, DIGEST_OF_LOG],
        last: "optimal 6\n",
        status: 0,
    },
    Task {
        words: &["prove", "claims", "sets", "f12", "f3", "--workers", "2"],
        reads: &["claims", "sets", "f12", "f3"],
        out: None,
        made: None,
        digests: &[DIGEST_OF_12, DIGEST_OF_3, DIGEST_OF_CLAIMS],
        last: "refused O2 by ULDRUL of 3 2 1 0 : 7\noptimal 6 of 3 2 1 0 ; ULDRUL\n",
        status: 1,
    },
    Task {
        words: &["parts", "board", "6", "3", "first", "others"],
        reads: &["board", "first", "others"],
        out: None,
        made: None,
        digests: &[DIGEST_OF_FIRST, DIGEST_OF_OTHERS],
        last: "joined bound 6 of 3 2 1 0 from 3 parts, by lines that were read\n",
        status: 0,
    },
    Task {
        words: &["make-table", "2", "6", "made"],
        reads: &[],
        out: Some("made"),
        made: Some(&TILES_12),
        digests: &[DIGEST_OF_12],
        last: "exact side 2 mask 6 entries 24 unreachable 8 deepest 4\n",
        status: 0,
    },
    Task {
        words: &["make-table", "2", "8", "f12", "--replace"],
        reads: &[],
        out: Some("f12"),
        made: Some(&TILE_3),
        digests: &[DIGEST_OF_3],
        last: "exact side 2 mask 8 entries 8 unreachable 0 deepest 2\n",
        status: 0,
    },
    Task {
        words: &["solve", "board", "sets", "board", "f12", "f3", "--replace"],
        reads: &["board", "sets", "f12", "f3"],
        out: Some("board"),
        made: Some(&MADE),
        digests: &[DIGEST_OF_12, DIGEST_OF_3, DIGEST_OF_MADE],
        last: "moves ULDRUL\noptimal 6\n",
        status: 0,
    },
    Task {
        words: &[
            "solve", "board", "sets", "made", "f12", "f3", "--budget", "1",
        ],
        reads: &["board", "sets", "f12", "f3"],
        out: Some("made"),
        made: None,
        digests: &[DIGEST_OF_12, DIGEST_OF_3],
        last: "refused K1\n",
        status: 1,
    },
];
