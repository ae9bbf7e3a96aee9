//! What is known of the stack's cells.

ghost use Rattle.std.specs.Prelude.{◌≡◌, ◌+◌, ◌-◌, ◌*◌, ◌≤◌, ◌<◌, ◌^◌, pos, negsuc, ◌+ℤ◌, ◌-ℤ◌, ◌≤ℤ◌, int_le, if◌then◌else◌, IfSome, ◌++◌, length, take, drop};
ghost use Rattle.std.specs.Option.{option_or};
ghost use Rattle.bpf_ranges.specs.Kinds.{IsKind};
ghost use Rattle.bpf_ranges.specs.Transfer.{part_of};
ghost use Rattle.bpf_verifier.specs.Registers.{cell_count};
ghost use Rattle.bpf_verifier.specs.Table.{AreKinds};
ghost use Rattle.bpf_verifier.specs.CallKinds.{callee_from};
ghost use Rattle.bpf_verifier.specs.Cells.{place_of, span_of, cell_from, in_cell, part_from, part_at, is_touched, touched, cells_touched, row_touched, row_stored_in, cell_kind, is_whole, is_cell, read_kind, is_numeric, are_numeric, has_numbers, is_readable, span_given, reads_numbers, own_numbers, call_reads_numbers, row_written, span_by_call, span_written};

use crate::callee::{Called, first_kind};
use crate::cell_part::CellPart;
use crate::kinds::{kind_of, put};
use crate::span::Span;
use bpf_helpers::ArgRule;
use bpf_insn::{Extend, Insn, Register};
use bpf_ranges::{Kind, Part, Profile, Range, kind_in};
use bpf_semantics::{MAX_WINDOW_BYTES, Region};

/// The place on the stack, counted from its lowest byte, at an offset from an offset that counts from its end.
fn place_of(at: i64, offset: i16) -> i64
    requires near { (negsuc (2 ^ 33 - 1) ≤ℤ at) × (at ≤ℤ pos (2 ^ 33)) }
    ensures place { result ≡ place_of at offset }
    ensures near { (negsuc (2 ^ 34 - 1) ≤ℤ result) × (result ≤ℤ pos (2 ^ 34)) }
{
    at + i64::from(offset) + 512
}

/// The place on the stack that is behind so many bytes.
fn behind(place: i64, size: u32) -> i64
    requires near { (negsuc (2 ^ 34 - 1) ≤ℤ place) × (place ≤ℤ pos (2 ^ 34)) }
    ensures { result ≡ place +ℤ pos size }
{
    place + i64::from(size)
}

/// The places that an access may touch.
pub fn span_of(address: Kind, offset: i16, size: u32) -> Option<Span>
    requires { IsKind address }
    ensures { result ≡ span_of address offset size }
{
    match address {
        Kind::Ptr {
            region: Region::Stack,
            lo,
            hi,
        } => {
            let from = place_of(lo, offset);
            let to = behind(place_of(hi, offset), size);
            Some(Span { from, to })
        }
        _ => None,
    }
}

/// How many cells a table knows.
fn cell_count(profile: Profile) -> u8
    ensures table { result ≡ cell_count profile }
    ensures few { result ≤ 64 }
{
    match profile {
        Profile::First => 0,
        Profile::Second => 64,
    }
}

/// The cell, of so many, that begins at a place.
fn cell_from(count: u8, place: i64) -> Option<usize>
    requires few { count ≤ 64 }
    ensures table { result ≡ cell_from count place }
    ensures few { IfSome result (λ i. i < 64) }
{
    if place >= 0 && place % 8 == 0 && place < 8 * i64::from(count) {
        Some(place as usize / 8)
    } else {
        None
    }
}

/// Whether two offsets, of which none is above the other, are one.
fn is_one(lo: i64, hi: i64) -> bool
    ensures { result ≡ int_le hi lo }
{
    hi <= lo
}

/// A part of a cell, if there is such a cell.
fn in_cell(part: Part, cell: Option<usize>) -> Option<CellPart>
    requires { IfSome cell (λ i. i < 64) }
    ensures table { result ≡ in_cell part cell }
    ensures few { IfSome result (λ at. at.cell < 64) }
{
    match cell {
        Some(cell) => Some(CellPart { cell, part }),
        None => None,
    }
}

/// The half of a cell, of so many, that begins at a place.
fn half_from(count: u8, place: i64) -> Option<CellPart>
    requires few { count ≤ 64 }
    requires near { negsuc (2 ^ 34 - 1) ≤ℤ place }
    ensures table { result ≡ option_or (in_cell Part.Low (cell_from count place)) (in_cell Part.High (cell_from count (place -ℤ pos 4))) }
    ensures few { IfSome result (λ at. at.cell < 64) }
{
    match in_cell(Part::Low, cell_from(count, place)) {
        Some(at) => Some(at),
        None => in_cell(Part::High, cell_from(count, place - 4)),
    }
}

/// The part of a cell, of so many, that begins at a place and has so many bytes.
fn part_from(count: u8, place: i64, size: u32) -> Option<CellPart>
    requires few { count ≤ 64 }
    requires near { negsuc (2 ^ 34 - 1) ≤ℤ place }
    ensures table { result ≡ part_from count place size }
    ensures few { IfSome result (λ at. at.cell < 64) }
{
    if size == 8 {
        in_cell(Part::Whole, cell_from(count, place))
    } else if size == 4 {
        half_from(count, place)
    } else {
        None
    }
}

/// The part of a cell that an access reads or writes, and no other byte, if it does.
pub fn part_at(profile: Profile, address: Kind, offset: i16, size: u32) -> Option<CellPart>
    requires { IsKind address }
    ensures table { result ≡ part_at profile address offset size }
    ensures few { IfSome result (λ at. at.cell < 64) }
{
    match address {
        Kind::Ptr {
            region: Region::Stack,
            lo,
            hi,
        } => {
            if is_one(lo, hi) {
                part_from(cell_count(profile), place_of(lo, offset), size)
            } else {
                None
            }
        }
        _ => None,
    }
}

/// Whether the cell that begins at a place has a byte of a span.
pub fn is_touched(span: Span, place: u32) -> bool
    requires near { place ≤ 2 ^ 20 }
    ensures { result ≡ is_touched span place }
{
    let place = i64::from(place);
    span.from < place + 8 && place < span.to && span.from < span.to
}

/// What is known of a cell after a write that may touch it.
fn touched(profile: Profile, kind: Kind) -> Kind
    ensures table { result ≡ touched profile kind }
    ensures kind { IsKind result }
{
    match kind {
        Kind::Num(_)
        | Kind::Dead
        | Kind::Halves {
            low: Some(_),
            high: Some(_),
        } => kind_in(profile, Range::up_to(u64::MAX)),
        Kind::Unset | Kind::Ptr { .. } | Kind::Halves { .. } => Kind::Unset,
    }
}

/// What is known of the cell that begins at a place, after a write to some of a span.
fn touch_cell(profile: Profile, span: Span, place: u32, kind: Kind) -> Kind
    requires near { place ≤ 2 ^ 20 }
    ensures { result ≡ (if is_touched span place then touched profile kind else kind) }
{
    if is_touched(span, place) {
        touched(profile, kind)
    } else {
        kind
    }
}

/// The place in a row before which no cell is touched.
fn first_place(span: Span) -> usize
    ensures registers { 11 ≤ result }
    ensures before { 11 < result → pos (8 * (result - 11)) ≤ℤ span.from }
    ensures few { result ≤ 75 }
{
    if span.from < 0 {
        11
    } else if span.from < 512 {
        11 + span.from as usize / 8
    } else {
        75
    }
}

/// Whether no cell from a place on is touched.
fn is_past(span: Span, place: u32) -> bool
    ensures { result ≡ int_le span.to (pos place) }
{
    span.to <= i64::from(place)
}

/// Forgets what is known of the cells that a write may touch, from that one on which begins at a place.
fn touch_from(profile: Profile, span: Span, place: u32, at: usize, row: &mut [Kind])
    requires room { place + 8 * (length row.old - at) ≤ 2 ^ 20 }
    ensures { row.new ≡ take at row.old ++ cells_touched profile span place (drop at row.old) }
{
    if at < row.len() {
        if is_past(span, place) {
            return;
        }
        row[at] = touch_cell(profile, span, place, row[at]);
        touch_from(profile, span, place + 8, at + 1, row);
    }
}

/// Forgets what is known of the cells that a write may touch.
fn touch(profile: Profile, span: Option<Span>, row: &mut [Kind])
    requires short { length row.old ≤ 75 }
    ensures table { row.new ≡ row_touched profile span row.old }
    ensures kinds { AreKinds row.old → AreKinds row.new }
{
    if let Some(span) = span {
        let at = first_place(span);
        touch_from(profile, span, 8 * (at - 11) as u32, at, row);
    }
}

/// The kind of a cell.
fn cell_kind(row: &[Kind], cell: usize) -> Kind
    requires { cell < 64 }
    ensures table { result ≡ cell_kind row.now cell }
    ensures kind { AreKinds row.now → IsKind result }
{
    match row.get(11 + cell) {
        Some(kind) => *kind,
        None => Kind::Unset,
    }
}

/// Stores a kind: into the part of a cell that is written, if one is and no other byte.
pub fn store_kind(
    profile: Profile,
    at: Option<CellPart>,
    span: Option<Span>,
    kind: Kind,
    row: &mut [Kind],
)
    requires short { length row.old ≤ 75 }
    requires cells { IfSome at (λ at. at.cell < 64) }
    requires kinds { AreKinds row.old }
    requires kind { IsKind kind }
    ensures table { row.new ≡ row_stored_in profile at span kind row.old }
    ensures kinds { AreKinds row.new }
{
    match at {
        Some(at) => {
            let kind = cell_kind(row, at.cell).with_part(at.part, kind);
            put(row, 11 + at.cell, kind)
        }
        None => touch(profile, span, row),
    }
}

/// Whether it is all of a cell that is written.
pub fn is_cell(at: Option<CellPart>) -> bool
    ensures { result ≡ is_cell at }
{
    matches!(
        at,
        Some(CellPart {
            part: Part::Whole,
            ..
        })
    )
}

/// What is known of the part of a cell that is read, if one is and no other byte.
fn part_kind(profile: Profile, at: CellPart, row: &[Kind]) -> Kind
    requires cell { at.cell < 64 }
    requires kinds { AreKinds row.now }
    ensures table { result ≡ part_of profile at.part (cell_kind row.now at.cell) }
    ensures kind { IsKind result }
{
    cell_kind(row, at.cell).part(profile, at.part)
}

/// What a load gives: what is known of the part of a cell that it reads, or else what its size tells.
pub fn read_kind(
    profile: Profile,
    extend: Extend,
    at: Option<CellPart>,
    by_size: Kind,
    row: &[Kind],
) -> Kind
    requires cells { IfSome at (λ at. at.cell < 64) }
    requires kinds { AreKinds row.now }
    requires kind { IsKind by_size }
    ensures table { result ≡ read_kind profile extend at by_size row.now }
    ensures kind { IsKind result }
{
    match (extend, at) {
        (Extend::Zero, Some(at)) => part_kind(profile, at, row),
        _ => by_size,
    }
}

/// Whether a cell holds a number, any byte of which may be read.
fn is_numeric(kind: Kind) -> bool
    ensures { result ≡ is_numeric kind }
{
    matches!(
        kind,
        Kind::Num(_)
            | Kind::Dead
            | Kind::Halves {
                low: Some(_),
                high: Some(_),
            }
    )
}

/// Whether those cells hold numbers that a read may touch, of which the first begins at a place.
fn are_numeric(span: Span, place: u32, cells: &[Kind]) -> bool
    requires room { place + 8 * length cells.now ≤ 2 ^ 20 }
    ensures { result ≡ are_numeric span place cells.now }
{
    match cells {
        [] => true,
        _ if is_past(span, place) => true,
        [cell, cells @ ..] => {
            (is_numeric(*cell) || !is_touched(span, place)) && are_numeric(span, place + 8, cells)
        }
    }
}

/// Whether those cells hold numbers that a read may touch.
fn has_numbers(row: &[Kind], span: Option<Span>) -> bool
    requires long { 11 ≤ length row.now }
    requires short { length row.now ≤ 75 }
    ensures { result ≡ has_numbers row.now span }
{
    match span {
        Some(span) => {
            let at = first_place(span).min(row.len());
            are_numeric(span, 8 * (at - 11) as u32, &row[at..])
        }
        None => true,
    }
}

/// Whether a load may read: the part of a cell that it reads is known, and any other cells hold numbers.
pub fn is_readable(profile: Profile, at: Option<CellPart>, span: Option<Span>, row: &[Kind]) -> bool
    requires long { 11 ≤ length row.now }
    requires short { length row.now ≤ 75 }
    requires cells { IfSome at (λ at. at.cell < 64) }
    requires kinds { AreKinds row.now }
    ensures { result ≡ is_readable profile at span row.now }
{
    match at {
        Some(at) => part_kind(profile, at, row) != Kind::Unset,
        None => has_numbers(row, span),
    }
}

/// The places of the bytes that a pointer and a number up to a limit name.
pub fn span_given(limit: u32, address: Kind, len: Kind) -> Option<Span>
    requires { IsKind address }
    ensures { result ≡ span_given limit address len }
{
    match len {
        Kind::Num(n) if n.range.hi <= u64::from(limit) => span_of(address, 0, n.range.hi as u32),
        _ => None,
    }
}

/// Whether the cells that the Reads of a helper may touch hold numbers.
fn reads_numbers(row: &[Kind], rules: &[ArgRule], kinds: &[Kind]) -> bool
    requires long { 11 ≤ length row.now }
    requires short { length row.now ≤ 75 }
    requires kinds { AreKinds kinds.now }
    ensures { result ≡ reads_numbers row.now rules.now kinds.now }
{
    match rules {
        [] => true,
        [rule, rules @ ..] => match kinds {
            [] => true,
            [kind, kinds @ ..] => {
                let given = match *rule {
                    ArgRule::Read { max } => span_given(max, *kind, first_kind(kinds)),
                    _ => None,
                };
                has_numbers(row, given) && reads_numbers(row, rules, kinds)
            }
        },
    }
}

/// Whether the cells that a call of the machine's own may read at an address hold numbers.
fn own_numbers(row: &[Kind], address: Kind) -> bool
    requires long { 11 ≤ length row.now }
    requires short { length row.now ≤ 75 }
    requires kind { IsKind address }
    ensures { result ≡ own_numbers row.now address }
{
    has_numbers(
        row,
        span_given(MAX_WINDOW_BYTES, address, kind_of(row, Register::R3)),
    )
}

/// Whether the cells that a call may read hold numbers.
pub fn call_reads_numbers(callee: &Called, row: &[Kind]) -> bool
    requires long { 11 ≤ length row.now }
    requires short { length row.now ≤ 75 }
    requires kinds { AreKinds row.now }
    ensures { result ≡ call_reads_numbers (callee_from callee.now) row.now }
{
    let first = kind_of(row, Register::R1);
    let second = kind_of(row, Register::R2);
    match callee {
        Called::Copy => own_numbers(row, second),
        Called::Same => own_numbers(row, first) && own_numbers(row, second),
        Called::Helper(sig) => reads_numbers(row, &sig.args, &row[1..6]),
        Called::Fill | Called::Unknown => true,
    }
}

/// The bytes of the stack that a call may write.
fn span_by_call(callee: &Called, row: &[Kind]) -> Option<Span>
    requires { AreKinds row.now }
    ensures { result ≡ span_by_call (callee_from callee.now) row.now }
{
    match callee {
        Called::Copy | Called::Fill => {
            let len = kind_of(row, Register::R3);
            span_given(MAX_WINDOW_BYTES, kind_of(row, Register::R1), len)
        }
        Called::Same | Called::Helper(_) | Called::Unknown => None,
    }
}

/// The bytes of the stack that an instruction may write.
pub fn span_written(callee: &Called, row: &[Kind], insn: Insn) -> Option<Span>
    requires { AreKinds row.now }
    ensures { result ≡ span_written (callee_from callee.now) row.now insn }
{
    match insn {
        Insn::Store {
            size,
            base,
            offset,
            ..
        } => span_of(kind_of(row, base), offset, size.bytes() as u32),
        Insn::Call { .. } => span_by_call(callee, row),
        _ => None,
    }
}

/// A place in a row, or a lower one, before which no cell is touched by a write.
pub fn lowered(low: usize, written: Option<Span>) -> usize
    requires { 11 ≤ low }
    ensures registers { 11 ≤ result }
    ensures lower { result ≤ low }
    ensures before { IfSome written (λ span. 11 < result → pos (8 * (result - 11)) ≤ℤ span.from) }
{
    match written {
        Some(span) => low.min(first_place(span)),
        None => low,
    }
}

/// Forgets what is known of the cells that a call may write.
pub fn write_by_call(profile: Profile, callee: &Called, row: &mut [Kind])
    requires short { length row.old ≤ 75 }
    requires kinds { AreKinds row.old }
    ensures table { row.new ≡ row_written profile (callee_from callee.now) row.old }
    ensures kinds { AreKinds row.new }
{
    let span = span_by_call(callee, row);
    touch(profile, span, row);
}
