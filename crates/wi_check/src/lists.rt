//! Heads, pairs and rows stand in rising order in a certificate, so each is looked up by halves, and many at once by one walk.
ghost use Rattle.std.specs.Prelude.{◌≡◌, ◌&&◌, ◌==◌, filter, find, option_map};
ghost use Rattle.wi_cert.specs.Order.{pair_below, row_below};
ghost use Rattle.wi_accept.specs.Followers.{is_listed, pairs_of};
ghost use Rattle.wi_check.specs.private.Lists.{Rises, symbol_below, first_absent, is_row_of, is_row_to};

use std::cmp::Ordering;
use wi_cert::Row;

/// Whether a head is listed.
pub(crate) fn has_head(heads: &[(u64, u32)], p: u64, g: u32) -> bool
    requires { Rises pair_below heads.now }
    ensures { result ≡ is_listed heads.now p g }
{
    heads.binary_search(&(p, g)).is_ok()
}

/// Whether a pair is listed.
pub(crate) fn has_pair(pairs: &[(u32, u32)], upper: u32, lower: u32) -> bool
    requires { Rises pair_below pairs.now }
    ensures { result ≡ is_listed pairs.now upper lower }
{
    pairs.binary_search(&(upper, lower)).is_ok()
}

/// The heads of a spot.
pub(crate) fn heads_of(heads: &[(u64, u32)], p: u64) -> &[(u64, u32)]
    requires { Rises pair_below heads.now }
    ensures { result.now ≡ pairs_of heads.now p }
{
    let from = heads.partition_point(|head| head.0 < p);
    let to = heads.partition_point(|head| head.0 <= p);
    &heads[from..to]
}

/// The pairs of an upper symbol.
pub(crate) fn pairs_of(pairs: &[(u32, u32)], upper: u32) -> &[(u32, u32)]
    requires { Rises pair_below pairs.now }
    ensures { result.now ≡ pairs_of pairs.now upper }
{
    let from = pairs.partition_point(|pair| pair.0 < upper);
    let to = pairs.partition_point(|pair| pair.0 <= upper);
    &pairs[from..to]
}

/// The first symbol of some pairs that isn't the symbol of any that is listed. Both are gone along once, since their symbols rise.
pub(crate) fn first_absent<T>(wanted: &[(u32, u32)], listed: &[(T, u32)]) -> Option<u32>
    requires wanted { Rises symbol_below wanted.now }
    requires listed { Rises symbol_below listed.now }
    ensures { result ≡ first_absent wanted.now listed.now }
{
    let mut left = wanted;
    let mut after = listed;
    while let Some((first, later)) = left.split_first() {
        let Some((there, rest)) = after.split_first() else {
            return Some(first.1);
        };
        match there.1.cmp(&first.1) {
            Ordering::Less => after = rest,
            Ordering::Equal => {
                left = later;
                after = rest;
            }
            Ordering::Greater => return Some(first.1),
        }
    }
    None
}

/// The rows from p with g on top.
pub(crate) fn rows_at(rows: &[Row], p: u64, g: u32) -> &[Row]
    requires { Rises row_below rows.now }
    ensures { result.now ≡ filter (is_row_of p g) rows.now }
{
    let from = rows.partition_point(|row| row.p < p || (row.p == p && row.g < g));
    let to = rows.partition_point(|row| row.p < p || (row.p == p && row.g <= g));
    &rows[from..to]
}

/// The row from p with g on top to q, if there is one.
pub(crate) fn row_to(rows: &[Row], p: u64, g: u32, q: u64) -> Option<&Row>
    requires { Rises row_below rows.now }
    ensures { option_map (λ row. row.now) result ≡ find (is_row_to q) (filter (is_row_of p g) rows.now) }
{
    match rows.binary_search_by_key(&(p, g, q), |row| (row.p, row.g, row.q)) {
        Ok(place) => Some(&rows[place]),
        Err(_) => None,
    }
}
