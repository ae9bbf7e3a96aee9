//! What is known of the registers, from slot to slot. A row has the kinds of R0 to R10, and behind them those of the stack's
//! cells, from the lowest on.

ghost use Rattle.std.specs.Prelude.{◌≡◌, ◌≤◌, ◌%◌, ◌^◌, ℕ, slice_set};
ghost use Rattle.bpf_alu.specs.Value.{bits, wrapped};
ghost use Rattle.bpf_insn.specs.Encoding.{size_bytes};
ghost use Rattle.bpf_ranges.specs.Kinds.{IsKind};
ghost use Rattle.bpf_verifier.specs.Registers.{kind_at, with_kind, one_number, kind_from};
ghost use Rattle.bpf_verifier.specs.Rules.{numbers_loaded, loaded, refined, row_taken};
ghost use Rattle.bpf_verifier.specs.Table.{AreKinds};
ghost use Rattle.bpf_verifier.specs.Rows.{AreAlike, StartsZero, IsKnown};

use bpf_alu::{Cond, Width};
use bpf_insn::{Extend, Insn, Operand, Register, Size};
use bpf_ranges::{Kind, Profile, Range, kind_in, refine};

/// The kind of a register.
pub fn kind_of(row: &[Kind], register: Register) -> Kind
    ensures table { result ≡ kind_at row.now register }
    ensures kind { AreKinds row.now → IsKind result }
{
    match row.get(register.number() as usize) {
        Some(kind) => *kind,
        None => Kind::Unset,
    }
}

/// The kind of one number.
pub fn one_number(profile: Profile, n: u64) -> Kind
    ensures table { result ≡ one_number profile n }
    ensures kind { IsKind result }
{
    kind_in(profile, Range::single(n))
}

/// The kind of an operand.
pub fn kind_of_operand(profile: Profile, row: &[Kind], operand: Operand) -> Kind
    ensures table { result ≡ kind_from profile row.now operand }
    ensures kind { AreKinds row.now → IsKind result }
{
    match operand {
        Operand::Register(register) => kind_of(row, register),
        Operand::Immediate(n) => one_number(profile, i64::from(n).cast_unsigned()),
    }
}

/// Puts a kind into a row, where it has that place.
pub fn put(row: &mut [Kind], at: usize, kind: Kind)
    ensures table { row.new ≡ slice_set row.old at kind }
    ensures kinds { AreKinds row.old → IsKind kind → AreKinds row.new }
{
    if at < row.len() {
        row[at] = kind;
    }
}

/// Gives one register another kind.
pub fn set_kind(row: &mut [Kind], register: Register, kind: Kind)
    ensures table { row.new ≡ with_kind row.old register kind }
    ensures kinds { AreKinds row.old → IsKind kind → AreKinds row.new }
{
    put(row, register.number() as usize, kind);
}

/// The numbers that a load gives.
fn numbers_loaded(size: Size, extend: Extend) -> Range
    ensures table { result ≡ numbers_loaded size extend }
    ensures ordered { result.lo ≤ result.hi }
{
    let hi = match (extend, size) {
        (Extend::Zero, Size::Byte) => 0xff,
        (Extend::Zero, Size::Half) => 0xffff,
        (Extend::Zero, Size::Word) => 0xffff_ffff,
        _ => u64::MAX,
    };
    Range { lo: 0, hi }
}

/// What a load gives.
pub fn loaded(profile: Profile, size: Size, extend: Extend) -> Kind
    ensures table { result ≡ loaded profile size extend }
    ensures kind { IsKind result }
{
    kind_in(profile, numbers_loaded(size, extend))
}

/// The bits of an immediate that a comparison reads.
fn compared(width: Width, n: i32) -> u64
    ensures { result ≡ wrapped 64 n % 2 ^ bits width }
{
    let whole = i64::from(n).cast_unsigned();
    match width {
        Width::W32 => whole % (1 << 32),
        Width::W64 => whole,
    }
}

/// Narrows the kinds by a condition: of a jump that is taken, or of one that is not.
pub fn refine_row(
    profile: Profile,
    cond: Cond,
    width: Width,
    left: Register,
    right: Operand,
    taken: bool,
    row: &mut [Kind],
)
    requires { AreKinds row.old }
    ensures table { row.new ≡ refined profile cond width left right taken row.old }
    ensures kinds { AreKinds row.new }
{
    let a = kind_of(row, left);
    match right {
        Operand::Register(right) => {
            if left.number() != right.number() {
                let (first, second) = refine(profile, cond, width, a, kind_of(row, right), taken);
                set_kind(row, left, first);
                set_kind(row, right, second);
            }
        }
        Operand::Immediate(n) => {
            let b = one_number(profile, compared(width, n));
            let (first, _) = refine(profile, cond, width, a, b, taken);
            set_kind(row, left, first);
        }
    }
}

/// Copies a row over one that has the same cells before a place: these are left.
pub fn copy_row<const N: usize>(low: usize, row: &[Kind; N], into: &mut [Kind; N])
    requires registers { 11 ≤ low }
    requires short { low ≤ N }
    requires alike { AreAlike low into.old row.now }
    ensures { into.new ≡ row.now }
{
    let (from, to) = (&row[..], &mut into[..]);
    to[..11].copy_from_slice(&from[..11]);
    to[low..].copy_from_slice(&from[low..]);
}

/// Copies the kinds to where a jump is taken, and narrows them there.
fn copy_refined<const N: usize>(
    profile: Profile,
    low: usize,
    row: &[Kind; N],
    insn: Insn,
    taken: &mut [Kind; N],
)
    requires registers { 11 ≤ low }
    requires short { low ≤ N }
    requires alike { AreAlike low taken.old row.now }
    requires kinds { AreKinds row.now }
    ensures table { taken.new ≡ row_taken profile row.now insn }
    ensures kinds { AreKinds taken.new }
{
    copy_row(low, row, taken);
    if let Insn::JumpIf {
        cond,
        width,
        left,
        right,
        ..
    } = insn
    {
        refine_row(profile, cond, width, left, right, true, taken);
    }
}

/// Writes the kinds where a jump is taken over a row. Cells before a place are the zero with which they begin, in both, and stay so.
pub fn write_taken<const N: usize>(
    profile: Profile,
    low: usize,
    row: &[Kind; N],
    insn: Insn,
    taken: &mut [Kind; N],
)
    requires registers { 11 ≤ low }
    requires short { low ≤ N }
    requires known { IsKnown profile low row.now }
    requires zeros { StartsZero profile low taken.old }
    ensures table { taken.new ≡ row_taken profile row.now insn }
    ensures known { IsKnown profile low taken.new }
{
    copy_refined(profile, low, row, insn, taken);
}
