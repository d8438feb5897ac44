//! Which files what is made takes the place of: all others are spared.

ghost use Rattle.std.specs.Prelude.{◌≡◌, map, option_map};
ghost use Rattle.pdb_keep.specs.Spared.{log_fronts, replaced_unless, table_front};

/// The first five bytes of a log, of each version.
const LOG_FRONTS: &[&[u8]] = &[b"PDBL\x01", b"PDBL\x02"];

/// How many bytes of a table say its side and its mask.
const TABLE_FRONT: usize = 12;

/// The first bytes of a table.
pub(crate) fn table_front(side: u8, mask: u32) -> [u8; TABLE_FRONT]
    ensures { result ≡ table_front side mask }
{
    let size = mask.count_ones() as u8;
    let [first, second, third, last] = mask.to_be_bytes();
    [
        b'P', b'D', b'B', b'T', 1, side, size, 0, first, second, third, last,
    ]
}

/// How the files begin that are replaced, unless any may be: in these ways.
pub(crate) fn replaced_unless<'f>(replace: bool, fronts: &'f [&'f [u8]]) -> Option<&'f [&'f [u8]]>
    ensures { option_map (λ fronts. map (λ front. front.now) fronts.now) result
        ≡ replaced_unless replace (map (λ front. front.now) fronts.now) }
{
    if replace { None } else { Some(fronts) }
}

/// The same of a log.
pub(crate) fn replaced_by_log(replace: bool) -> Option<&'static [&'static [u8]]>
    ensures { option_map (λ fronts. map (λ front. front.now) fronts.now) result
        ≡ replaced_unless replace log_fronts }
{
    if replace { None } else { Some(LOG_FRONTS) }
}
