//! What the written helper answers of a hook's input: its newest sibling.

ghost use Rattle.std.specs.Prelude.{◌≡◌, ◌+◌, ◌*◌, ◌<◌, ◌≤◌, IfSome, IfNone, IsTrue, [], length, position};
ghost use Rattle.bpf_helpers.specs.Layout.{field_at, row_at, rows_from, rows_of, is_newer, is_newest, newest_of};

/// The length of a layout's head, in bytes.
const HEAD_BYTES: usize = 16;

/// The length of a row, in bytes.
const ROW_BYTES: usize = 24;

/// The most rows of a layout.
const MAX_ROWS: u32 = 64;

/// What [`newest`] answers where there is no sibling.
const NO_SIBLING: u64 = 64;

/// What the order of siblings goes by, of a row of a hook's input. A row with `n` 0 is no sibling.
#[derive(Clone, Copy, PartialEq, Eq)]
pub struct Row {
    pub vnode: u32,
    pub n: u64,
}

impl Row {
    /// Whether this row has the greater `n`, or the same and the greater vnode.
    pub fn is_newer_than(self, other: Row) -> bool
        ensures { result ≡ is_newer self other }
    {
        self.n > other.n || self.n == other.n && self.vnode > other.vnode
    }

    /// The row at a place of a layout.
    fn at(layout: &[u8], index: usize) -> Row
        requires { 16 + 24 * (index + 1) ≤ length layout.now }
        ensures { result ≡ row_at layout.now index }
    {
        let start = HEAD_BYTES + ROW_BYTES * index;
        Row {
            vnode: word_at(layout, start),
            n: number_at(layout, start + 8),
        }
    }
}

/// The number that four bytes spell.
fn word_at(layout: &[u8], at: usize) -> u32
    requires { at + 4 ≤ length layout.now }
    ensures { result ≡ field_at layout.now at 4 }
{
    u32::from_le_bytes([layout[at], layout[at + 1], layout[at + 2], layout[at + 3]])
}

/// The number that eight bytes spell.
fn number_at(layout: &[u8], at: usize) -> u64
    requires { at + 8 ≤ length layout.now }
    ensures { result ≡ field_at layout.now at 8 }
{
    u64::from_le_bytes([
        layout[at],
        layout[at + 1],
        layout[at + 2],
        layout[at + 3],
        layout[at + 4],
        layout[at + 5],
        layout[at + 6],
        layout[at + 7],
    ])
}

/// The number of rows, where the bytes are a layout of 1 to 64 whole rows.
fn count_rows(layout: &[u8]) -> Option<usize>
    ensures some { IfSome result (λ count. (rows_of layout.now ≡ rows_from layout.now 0 count) × (16 + 24 * count ≤ length layout.now) × (count ≤ 64)) }
    ensures none { IfNone result (rows_of layout.now ≡ []) }
{
    if layout.len() < HEAD_BYTES {
        return None;
    }
    let count = word_at(layout, 4);
    if count == 0 || count > MAX_ROWS {
        return None;
    }
    let count = count as usize;
    if layout.len() < HEAD_BYTES + ROW_BYTES * count {
        return None;
    }
    Some(count)
}

/// The place of the newest sibling of some rows.
fn newest_row(layout: &[u8], count: usize) -> Option<usize>
    requires { 16 + 24 * count ≤ length layout.now }
    ensures first { let rows = rows_from layout.now 0 count in result ≡ position (is_newest rows) rows }
    ensures below { IfSome result (λ index. index < count) }
{
    let mut newest: Option<(usize, Row)> = None;
    for index in 0..count {
        let row = Row::at(layout, index);
        if row.n > 0 && is_newest_so_far(row, newest) {
            newest = Some((index, row));
        }
    }
    match newest {
        Some((index, _)) => Some(index),
        None => None,
    }
}

/// Whether a row is newer than the newest one before it, if there is one.
fn is_newest_so_far(row: Row, newest: Option<(usize, Row)>) -> bool
    ensures some { IfSome newest (λ best. result ≡ is_newer row best.1) }
    ensures none { IfNone newest (IsTrue result) }
{
    match newest {
        Some((_, best)) => row.is_newer_than(best),
        None => true,
    }
}

/// The index, from 0, of the sibling row with the greatest `n`, of those the greatest vnode, and of those the first. It
/// is 64 where there is none: no row is a sibling, or the bytes are no layout of 1 to 64 whole rows. Rows that are no
/// siblings count in the index.
pub fn newest(layout: &[u8]) -> u64
    ensures value { result ≡ newest_of layout.now }
    ensures range { result ≤ 64 }
{
    let Some(count) = count_rows(layout) else {
        return NO_SIBLING;
    };
    newest_row(layout, count).map_or(NO_SIBLING, |index| index as u64)
}
