//! Masks, as words write them.

ghost use Rattle.std.specs.Prelude.{◌≡◌, ◌==◌, ◌+◌, ◌-◌, ◌<◌, ◌≤◌, ◌∷◌, [], IfSome, option_and_then, option_map};
ghost use Rattle.std.specs.List.{slice_split};
ghost use Rattle.pdb_words.specs.Masks.{behind, hexadecimal_mask, mask_written, most_mask, tile_written, tiles_between, tiles_from, tiles_mask, tiles_named};
ghost use Rattle.pdb_words.specs.Numbers.{number_written};
ghost use Rattle.pdb_words.specs.TileBits.{with_each, with_tile, with_tiles};

/// The mask that a word writes: a number in decimal, `0x` and hexadecimal digits, or `tiles:` and the numbers of tiles, or
/// ranges of them as `1-4`, with commas between them, in any order, none twice.
pub(crate) fn mask_written(word: &str) -> Option<u32>
    ensures { result ≡ mask_written word.now }
{
    if let Some(tiles) = behind(word, "tiles:") {
        return with_tiles(0, tiles);
    }
    match behind(word, "0x") {
        Some(digits) => hexadecimal_mask(digits),
        None => decimal_mask(word),
    }
}

/// What stands behind this front of a text, where it begins with that.
pub(crate) fn behind<'a>(text: &'a str, front: &str) -> Option<&'a str>
    ensures { option_map (λ rest. rest.now) result ≡ behind front.now text.now }
{
    text.strip_prefix(front)
}

/// The mask that decimal digits write.
fn decimal_mask(text: &str) -> Option<u32>
    ensures { result ≡ number_written 0 most_mask text.now }
{
    text.parse::<u32>().ok()
}

/// The mask that hexadecimal digits write, without a sign.
fn hexadecimal_mask(digits: &str) -> Option<u32>
    ensures { result ≡ hexadecimal_mask digits.now }
{
    if digits.starts_with('+') {
        return None;
    }
    u32::from_str_radix(digits, 16).ok()
}

/// The mask with the tiles that a text names between commas, none of which it has.
fn with_tiles(mask: u32, text: &str) -> Option<u32>
    ensures { result ≡ with_tiles mask (slice_split (λ byte. byte == 44) text.now) }
{
    match text.split_once(',') {
        None => with_named(mask, text),
        Some((first, rest)) => with_tiles(with_named(mask, first)?, rest),
    }
}

/// The mask with the tiles that a text names, none of which it has: one, or all from one to a greater one.
fn with_named(mask: u32, text: &str) -> Option<u32>
    ensures { result ≡ option_and_then (with_each mask) (tiles_named text.now) }
{
    match text.split_once('-') {
        None => with_tile(mask, tile_written(text)?),
        Some((first, last)) => with_range(mask, tile_written(first)?, tile_written(last)?),
    }
}

/// The mask with the tiles from one to a greater one, none of which it has.
fn with_range(mask: u32, first: u32, last: u32) -> Option<u32>
    requires { last < 32 }
    ensures { result ≡ option_and_then (with_each mask) (tiles_between first last) }
{
    if first < last {
        with_all(mask, first, last)
    } else {
        None
    }
}

/// The mask with the tiles from one to another, none of which it has.
fn with_all(mask: u32, first: u32, last: u32) -> Option<u32>
    requires up { first ≤ last }
    requires within { last < 32 }
    ensures { result ≡ with_each mask (tiles_from first (last - first + 1)) }
{
    let more = with_tile(mask, first)?;
    if first == last {
        Some(more)
    } else {
        with_all(more, first + 1, last)
    }
}

/// The mask with one tile more, which it doesn't have.
fn with_tile(mask: u32, tile: u32) -> Option<u32>
    requires { tile < 32 }
    ensures { result ≡ with_tile mask tile }
{
    if mask >> tile & 1 == 1 {
        None
    } else {
        Some(mask | 1 << tile)
    }
}

/// The number from 0 to 31 that a text writes in decimal, without a superfluous zero.
fn tile_written(text: &str) -> Option<u32>
    ensures written { result ≡ tile_written text.now }
    ensures within { IfSome result (λ tile. tile < 32) }
{
    let digits = text.as_bytes();
    match digits.len() {
        1 => one_digit(digits[0]),
        2 => two_digits(digits[0], digits[1]),
        _ => None,
    }
}

/// The number that one digit writes.
fn one_digit(digit: u8) -> Option<u32>
    ensures written { result ≡ tile_written (digit ∷ []) }
    ensures within { IfSome result (λ tile. tile < 32) }
{
    if digit.is_ascii_digit() {
        Some(u32::from(digit - b'0'))
    } else {
        None
    }
}

/// The number from 10 to 31 that two digits write.
fn two_digits(tens: u8, ones: u8) -> Option<u32>
    ensures written { result ≡ tile_written (tens ∷ ones ∷ []) }
    ensures within { IfSome result (λ tile. tile < 32) }
{
    if tens < b'1' || tens > b'3' || !ones.is_ascii_digit() {
        return None;
    }
    let tile = 10 * (tens - b'0') + (ones - b'0');
    if tile < 32 {
        Some(u32::from(tile))
    } else {
        None
    }
}
