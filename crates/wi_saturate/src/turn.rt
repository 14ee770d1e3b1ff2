//! All that is read in a turn is one value, so that what holds of it is one condition and not one for each part. Its parts are
//! lent, and it takes no memory.
use crate::index::Index;
use crate::row::Row;

// What a turn reads: the index, the rows so far, the last of which was settled now, and the place of that row's head.
#[derive(Drop)]
pub(crate) struct Turn<'a, W> {
    pub(crate) index: &'a Index<'a, W>,
    pub(crate) rows: &'a [Row<W>],
    pub(crate) last: usize,
    pub(crate) place: usize,
}
