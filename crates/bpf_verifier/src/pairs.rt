//! Which pairs of registers are known at a slot, and what they tell.

ghost use Rattle.std.specs.Prelude.{◌≡◌, ℕ, true, Some, List};
ghost use Rattle.bpf_semantics.specs.declared.profile.Profile.TheVariants.{Second};
ghost use Rattle.bpf_verifier.specs.Table.{AreKinds};
ghost use Rattle.bpf_verifier.specs.Sums.{sum_at_most, summed, told};
ghost use Rattle.bpf_verifier.specs.Pairs.{no_pairs, is_in, are_of, most_in, most_together, argument_ends};
ghost use Rattle.bpf_verifier.specs.Paired.{told_by_pair, told_pair, told_pairs, paired, narrowed};
ghost use Rattle.bpf_verifier.specs.PairSteps.{pair_without, pairs_without, before, with_pair, partner, carried, carried_into, carried_from, pairs_of_sum, pairs_of_op, pair_over_call, pairs_over_call, pairs_over, pair_of, pair_told, pair_by, pairs_by_operand, pairs_told, met_most, pair_met, pairs_met};

use crate::kinds::{kind_of, kind_of_operand};
use crate::naming::tell_named;
use crate::pair::{Pair, Pairs};
use crate::sum::Sum;
use crate::sums::{KnownSums, least, most, narrow_register, sum_in, tell};
use bpf_alu::{Op, Width};
use bpf_copies::Name;
use bpf_insn::{Insn, Operand, Register};
use bpf_ranges::{Kind, Profile};

/// Whether a register is one of a pair.
fn is_in(register: Register, pair: Pair) -> bool
    ensures { result ≡ is_in register pair }
{
    pair.left.number() == register.number() || pair.right.number() == register.number()
}

/// Whether two registers are those of a pair.
fn are_of(a: Register, b: Register, pair: Pair) -> bool
    ensures { result ≡ are_of a b pair }
{
    let (left, right) = (pair.left.number(), pair.right.number());
    (left == a.number() && right == b.number()) || (left == b.number() && right == a.number())
}

/// The greatest sum of two registers by a pair, if it is theirs, or else by others.
fn most_in(a: Register, b: Register, pair: Option<Pair>, other: Option<u64>) -> Option<u64>
    ensures { result ≡ most_in a b pair other }
{
    match pair {
        Some(pair) => {
            if are_of(a, b, pair) {
                Some(pair.most)
            } else {
                other
            }
        }
        None => other,
    }
}

/// The greatest sum of two registers, if it is known.
pub fn most_together(pairs: Pairs, a: Register, b: Register) -> Option<u64>
    ensures { result ≡ most_together pairs a b }
{
    let by_fourth = most_in(a, b, pairs.fourth, None);
    let by_third = most_in(a, b, pairs.third, by_fourth);
    let by_second = most_in(a, b, pairs.second, by_third);
    most_in(a, b, pairs.first, by_second)
}

/// The greatest sum of each argument's register and the next one's.
pub fn argument_ends(pairs: Pairs) -> [Option<u64>; 4]
    ensures { result ≡ argument_ends pairs }
{
    [
        most_together(pairs, Register::R1, Register::R2),
        most_together(pairs, Register::R2, Register::R3),
        most_together(pairs, Register::R3, Register::R4),
        most_together(pairs, Register::R4, Register::R5),
    ]
}

/// No pair.
pub fn no_pairs() -> Pairs
    ensures { result ≡ no_pairs }
{
    Pairs {
        first: None,
        second: None,
        third: None,
        fourth: None,
    }
}

/// A pair that does not have a register that is written.
fn pair_without(register: Register, pair: Option<Pair>) -> Option<Pair>
    ensures { result ≡ pair_without register pair }
{
    match pair {
        Some(pair) => {
            if is_in(register, pair) {
                None
            } else {
                Some(pair)
            }
        }
        None => None,
    }
}

/// The pairs that do not have a register that is written.
fn pairs_without(register: Register, pairs: Pairs) -> Pairs
    ensures { result ≡ pairs_without register pairs }
{
    Pairs {
        first: pair_without(register, pairs.first),
        second: pair_without(register, pairs.second),
        third: pair_without(register, pairs.third),
        fourth: pair_without(register, pairs.fourth),
    }
}

/// One pair more, before the others, of which the last gives way where there are four.
fn before(pair: Pair, pairs: Pairs) -> Pairs
    ensures { result ≡ before pair pairs.first pairs.second pairs.third pairs.fourth }
{
    let first = Some(pair);
    match (pairs.first, pairs.second, pairs.third) {
        (None, _, _) => Pairs { first, ..pairs },
        (second, None, _) => Pairs {
            first,
            second,
            ..pairs
        },
        (second, third, None) => Pairs {
            first,
            second,
            third,
            ..pairs
        },
        (second, third, fourth) => Pairs {
            first,
            second,
            third,
            fourth,
        },
    }
}

/// One pair more, if there is one.
#[inline(always)]
fn with_pair(pair: Option<Pair>, pairs: Pairs) -> Pairs
    ensures { result ≡ with_pair pair pairs }
{
    match pair {
        Some(pair) => before(pair, pairs),
        None => pairs,
    }
}

/// The other register of a pair.
fn partner(register: Register, pair: Pair) -> Register
    ensures { result ≡ partner register pair }
{
    if pair.left.number() == register.number() {
        pair.right
    } else {
        pair.left
    }
}

/// Of a register that is written, and holds at most `n` more than another one: that one's pair, with the written register in its place.
fn carried(src: Register, dst: Register, n: u64, pair: Option<Pair>) -> Option<Pair>
    ensures { result ≡ carried src dst n pair }
{
    let pair = pair?;
    let partner = partner(src, pair);
    if is_in(src, pair) && partner.number() != dst.number() && pair.most <= u64::MAX - n {
        Some(Pair {
            left: dst,
            right: partner,
            most: pair.most + n,
        })
    } else {
        None
    }
}

/// Each pair that is had so, before others.
fn carried_into(src: Register, dst: Register, n: u64, old: Pairs, new: Pairs) -> Pairs
    ensures { result ≡ carried_into src dst n old new }
{
    let new = with_pair(carried(src, dst, n, old.fourth), new);
    let new = with_pair(carried(src, dst, n, old.third), new);
    let new = with_pair(carried(src, dst, n, old.second), new);
    with_pair(carried(src, dst, n, old.first), new)
}

/// The same, of an operand.
fn carried_from(src: Operand, dst: Register, n: u64, old: Pairs, new: Pairs) -> Pairs
    ensures { result ≡ carried_from src dst n old new }
{
    match src {
        Operand::Register(src) => carried_into(src, dst, n, old, new),
        Operand::Immediate(_) => new,
    }
}

/// The pairs after a sum. Where it can't pass 2^64, it has the pairs of the operand, and the register's most more; and those of the
/// register, and the operand's.
fn pairs_of_sum(dst: Register, src: Operand, row: &[Kind], pairs: Pairs) -> Pairs
    requires { AreKinds row.now }
    ensures { result ≡ pairs_of_sum dst src row.now pairs }
{
    let left = most(kind_of(row, dst));
    let right = most(kind_of_operand(Profile::Second, row, src));
    let others = pairs_without(dst, pairs);
    if left <= u64::MAX - right {
        let own = carried_into(dst, dst, right, pairs, others);
        carried_from(src, dst, left, pairs, own)
    } else {
        others
    }
}

/// The pairs after an operation.
fn pairs_of_op(
    op: Op,
    width: Width,
    dst: Register,
    src: Operand,
    row: &[Kind],
    pairs: Pairs,
) -> Pairs
    requires { AreKinds row.now }
    ensures { result ≡ pairs_of_op op width dst src row.now pairs }
{
    match (op, width) {
        (Op::Mov, Width::W64) => carried_from(src, dst, 0, pairs, pairs_without(dst, pairs)),
        (Op::Add, Width::W64) => pairs_of_sum(dst, src, row, pairs),
        _ => pairs_without(dst, pairs),
    }
}

/// A pair of registers that a call does not write.
fn pair_over_call(pair: Option<Pair>) -> Option<Pair>
    ensures { result ≡ pair_over_call pair }
{
    match pair {
        Some(pair) => {
            if 6 <= pair.left.number() && 6 <= pair.right.number() {
                Some(pair)
            } else {
                None
            }
        }
        None => None,
    }
}

/// The pairs after a call.
fn pairs_over_call(pairs: Pairs) -> Pairs
    ensures { result ≡ pairs_over_call pairs }
{
    Pairs {
        first: pair_over_call(pairs.first),
        second: pair_over_call(pairs.second),
        third: pair_over_call(pairs.third),
        fourth: pair_over_call(pairs.fourth),
    }
}

/// Whether no pair is known.
pub fn are_none(pairs: Pairs) -> bool
    ensures { result ≡ true → pairs ≡ no_pairs }
{
    pairs.first.is_none()
        && pairs.second.is_none()
        && pairs.third.is_none()
        && pairs.fourth.is_none()
}

/// The pairs after what an instruction writes, by the row before it.
fn pairs_across(insn: Insn, row: &[Kind], pairs: Pairs) -> Pairs
    requires { AreKinds row.now }
    ensures { result ≡ pairs_over insn row.now pairs }
{
    match insn {
        Insn::Alu {
            op,
            width,
            dst,
            src,
        } => pairs_of_op(op, width, dst, src, row, pairs),
        Insn::Load { dst, .. } => pairs_without(dst, pairs),
        Insn::Store { .. } | Insn::JumpIf { .. } => pairs,
        Insn::Call { .. } => pairs_over_call(pairs),
        _ => no_pairs(),
    }
}

/// The same. Where none is known before it, as mostly, none is after it, and the row isn't looked at.
#[inline(always)]
pub fn pairs_over(insn: Insn, row: &[Kind], pairs: Pairs) -> Pairs
    requires { AreKinds row.now }
    ensures { result ≡ pairs_over insn row.now pairs }
{
    if are_none(pairs) {
        no_pairs()
    } else {
        pairs_across(insn, row, pairs)
    }
}

/// The two registers of a sum that can't pass 2^64.
fn pair_of(left: Register, right: Register, most_whole: u64, row: &[Kind]) -> Option<Pair>
    requires { AreKinds row.now }
    ensures { result ≡ pair_of left right most_whole row.now }
{
    if most(kind_of(row, left)) <= u64::MAX - most(kind_of(row, right)) {
        Some(Pair {
            left,
            right,
            most: most_whole,
        })
    } else {
        None
    }
}

/// The pair that a sum tells.
fn pair_told(sum: Sum, right: Operand, row: &[Kind]) -> Option<Pair>
    requires { AreKinds row.now }
    ensures { result ≡ pair_told sum right row.now }
{
    match right {
        Operand::Register(right) => pair_of(sum.left, right, most(kind_of(row, sum.of)), row),
        Operand::Immediate(_) => None,
    }
}

/// The pair that is told by the sum which a register holds, if one is known.
fn pair_by(sum: Option<Sum>, row: &[Kind]) -> Option<Pair>
    requires { AreKinds row.now }
    ensures { result ≡ pair_by sum row.now }
{
    match sum {
        Some(sum) => pair_told(sum, sum.right, row),
        None => None,
    }
}

/// One pair more, where an operand is a register that is known to hold a sum.
fn pairs_by_operand(sums: &KnownSums, operand: Operand, row: &[Kind], pairs: Pairs) -> Pairs
    requires { AreKinds row.now }
    ensures { result ≡ pairs_by_operand sums.now operand row.now pairs }
{
    match operand {
        Operand::Register(register) => with_pair(pair_by(sum_in(sums, register), row), pairs),
        Operand::Immediate(_) => pairs,
    }
}

/// The pairs that are known where a condition was tested, by the second profile, and the row on to the next slot.
#[inline(always)]
pub fn pairs_told(
    insn: Insn,
    profile: Profile,
    sums: &KnownSums,
    row: &[Kind],
    pairs: Pairs,
) -> Pairs
    requires { AreKinds row.now }
    ensures { result ≡ pairs_told insn profile sums.now row.now pairs }
{
    match (insn, profile) {
        (Insn::JumpIf { left, right, .. }, Profile::Second) => {
            let others = pairs_by_operand(sums, right, row, pairs);
            with_pair(pair_by(sum_in(sums, left), row), others)
        }
        _ => pairs,
    }
}

/// A pair, with what its registers are at most by others, if that is known: the greater most.
fn met_most(pair: Pair, most: Option<u64>) -> Option<Pair>
    ensures { result ≡ met_most pair most }
{
    match most {
        Some(most) => Some(Pair {
            left: pair.left,
            right: pair.right,
            most: pair.most.max(most),
        }),
        None => None,
    }
}

/// What is known on both ways that meet of a pair's registers: the greater most.
fn pair_met(pair: Option<Pair>, others: Pairs) -> Option<Pair>
    ensures { result ≡ pair_met pair others }
{
    match pair {
        Some(pair) => met_most(pair, most_together(others, pair.left, pair.right)),
        None => None,
    }
}

/// The pairs that are known on both ways that meet.
pub fn pairs_met(pairs: Pairs, others: Pairs) -> Pairs
    ensures { result ≡ pairs_met pairs others }
{
    Pairs {
        first: pair_met(pairs.first, others),
        second: pair_met(pairs.second, others),
        third: pair_met(pairs.third, others),
        fourth: pair_met(pairs.fourth, others),
    }
}

/// Narrows a register that holds the sum of two, if it is known what they are at most together.
fn narrow_sum(most: Option<u64>, register: Register, row: &mut [Kind])
    requires { AreKinds row.old }
    ensures table { row.new ≡ sum_at_most most register row.old }
    ensures kinds { AreKinds row.new }
{
    if let Some(most) = most {
        narrow_register(most, register, row);
    }
}

/// Narrows the register that holds the sum of two after a 64-bit addition, by the pairs before it and the second profile.
fn tell_sum(insn: Insn, profile: Profile, pairs: Pairs, row: &mut [Kind])
    requires { AreKinds row.old }
    ensures table { row.new ≡ summed insn profile pairs row.old }
    ensures kinds { AreKinds row.new }
{
    match (insn, profile) {
        (
            Insn::Alu {
                op: Op::Add,
                width: Width::W64,
                dst,
                src: Operand::Register(src),
            },
            Profile::Second,
        ) => narrow_sum(most_together(pairs, dst, src), dst, row),
        _ => {},
    }
}

/// Narrows what the pairs and the sums before an instruction tell of the row behind it, by the second profile.
pub fn tell_on(insn: Insn, profile: Profile, sums: &KnownSums, pairs: Pairs, row: &mut [Kind])
    requires { AreKinds row.old }
    ensures table { row.new ≡ told insn profile sums.now (summed insn profile pairs row.old) }
    ensures kinds { AreKinds row.new }
{
    tell_sum(insn, profile, pairs, row);
    tell(insn, profile, sums, row);
}

/// Narrows the two registers of a pair: each is at most what both are together less the least other number.
fn tell_by_pair(pair: Pair, row: &mut [Kind])
    requires { AreKinds row.old }
    ensures table { row.new ≡ told_by_pair pair row.old }
    ensures kinds { AreKinds row.new }
{
    let (left, right) = (kind_of(row, pair.left), kind_of(row, pair.right));
    narrow_register(pair.most.saturating_sub(least(right)), pair.left, row);
    narrow_register(pair.most.saturating_sub(least(left)), pair.right, row);
}

/// The same, if there is a pair.
fn tell_pair(pair: Option<Pair>, row: &mut [Kind])
    requires { AreKinds row.old }
    ensures table { row.new ≡ told_pair pair row.old }
    ensures kinds { AreKinds row.new }
{
    if let Some(pair) = pair {
        tell_by_pair(pair, row);
    }
}

/// Narrows the registers of each pair.
fn tell_each_pair(pairs: Pairs, row: &mut [Kind])
    requires { AreKinds row.old }
    ensures table { row.new ≡ told_pairs pairs row.old }
    ensures kinds { AreKinds row.new }
{
    tell_pair(pairs.first, row);
    tell_pair(pairs.second, row);
    tell_pair(pairs.third, row);
    tell_pair(pairs.fourth, row);
}

/// Narrows the registers of the pairs that are known where a condition is tested, be the jump taken or not, by the second profile.
#[inline(always)]
fn tell_pairs(insn: Insn, profile: Profile, pairs: Pairs, row: &mut [Kind])
    requires { AreKinds row.old }
    ensures table { row.new ≡ paired insn profile pairs row.old }
    ensures kinds { AreKinds row.new }
{
    if let (Insn::JumpIf { .. }, Profile::Second) = (insn, profile) {
        if !are_none(pairs) {
            tell_each_pair(pairs, row);
        }
    }
}

/// Narrows what the names of registers tell where a condition is tested, and then what the pairs do, be the jump taken or not.
pub fn narrow(insn: Insn, profile: Profile, names: &[Name; 11], pairs: Pairs, row: &mut [Kind])
    requires { AreKinds row.old }
    ensures table { row.new ≡ narrowed insn profile names.now pairs row.old }
    ensures kinds { AreKinds row.new }
{
    tell_named(insn, profile, names, row);
    tell_pairs(insn, profile, pairs, row);
}
