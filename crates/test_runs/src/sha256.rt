//! Digest lines of texts and of sample files, as `sha256sum` has them.

/// Of no bytes.
pub const OF_NOTHING: &[u8] =
    b"sha256 e3b0c44298fc1c149afbf4c8996fb92427ae41e4649b934ca495991b7852b855\n";

/// Of the bytes `abc` (FIPS 180-4, first example).
pub const OF_ABC: &[u8] =
    b"sha256 ba7816bf8f01cfea414140de5dae2223b00361a396177a9cb410ff61f20015ad\n";

/// A text of 56 bytes (FIPS 180-4, second example).
pub const LETTERS: &[u8] = b"abcdbcdecdefdefgefghfghighijhijkijkljklmklmnlmnomnopnopq";

/// Of that text.
pub const OF_LETTERS: &[u8] =
    b"sha256 248d6a61d20638b8e5c026930c3e6039a33ce45964ff2167f6ecedd419db06c1\n";

/// Of `TILES_12`.
pub const OF_12: &[u8] =
    b"sha256 fc9e320726274cbeff6f0c450060cf77617b6e27b10cfe9808da3bb87454b331\n";

/// Of `TILE_3`.
pub const OF_3: &[u8] =
    b"sha256 fd85b03648ed99f9ba11852f07d2ef4abf0387a7c115fec94baa88c514d713fe\n";

/// Of the log `BRANCHES`.
pub const OF_BRANCHES: &[u8] =
    b"sha256 e9e77cadd5844ced52b6de00a0ab5f92b680046686168f0e7823639b16b9505c\n";

/// Of the log of one move.
pub const OF_ONE_MOVE: &[u8] =
    b"sha256 35c6a5d2b7e0995bc9bf9d60165670aee8af21ed929d9182e70b7d848653de98\n";

/// Of the text `3 2 1 0 ; ULDRUL`.
pub const OF_PUZZLE: &[u8] =
    b"sha256 224dd539beb92ee77c810472235a3a3d12a7857cca3e7dcbd4b5485dd90f3fd8\n";
