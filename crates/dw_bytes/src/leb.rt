//! LEB128 numbers, by section 7.6 of DWARF 5.

ghost use Rattle.std.specs.Prelude.{◌≡◌, ◌<◌, ◌∷◌, [], Some, position, nat_lt};
ghost use Rattle.dw_model.specs.Leb.{groups, signed_groups, is_negative};
ghost use Rattle.dw_model.specs.Answers.{Gives};
ghost use Rattle.dw_bytes.specs.Leb.{fits_u64, fits_u63, fits_signed, complements, front_uleb, leb_fault};

/// Why a LEB128 number can't be read.
#[derive(Clone, Copy, Debug, PartialEq, Eq)]
pub enum Leb {
    /// The bytes stop before one whose top bit isn't set.
    End,
    /// The number, all bytes of which are there, doesn't fit 64 bits.
    Wide,
}

impl Leb {
    ghost use Rattle.std.specs.Prelude.{◌≡◌};
    ghost use Rattle.dw_bytes.specs.Leb.{fault_number};

    /// The number of the reason, 1 or 2.
    pub fn number(&self) -> u8
        ensures { result ≡ fault_number self.now }
    {
        match self {
            Leb::End => 1,
            Leb::Wide => 2,
        }
    }
}

/// The index of the first byte whose top bit isn't set, among any bytes.
#[inline(never)]
fn later_last_byte(bytes: &[u8]) -> Option<usize>
    ensures { result ≡ position (λ byte. nat_lt byte 128) bytes.now }
{
    bytes.iter().position(|byte| *byte < 128)
}

/// The index of the first byte whose top bit isn't set: the last of a number.
#[tactic(auto, using(crate::proofs::GroupLemmas::first_is_last, crate::proofs::GroupLemmas::second_is_last))]
#[inline(always)]
pub(crate) fn last_byte(bytes: &[u8]) -> Option<usize>
    ensures { result ≡ position (λ byte. nat_lt byte 128) bytes.now }
{
    // Most numbers have one byte or two.
    if !bytes.is_empty() && bytes[0] < 128 {
        return Some(0);
    }
    if bytes.len() > 1 && bytes[1] < 128 {
        return Some(1);
    }
    later_last_byte(bytes)
}

/// The unsigned number of these groups, where it fits 64 bits.
fn unsigned(bytes: &[u8]) -> Option<u64>
    ensures { result ≡ fits_u64 (groups bytes.now) }
{
    let mut value: u64 = 0;
    for i in 0..bytes.len() {
        if value > u64::MAX >> 7 {
            return None;
        }
        let byte = bytes[bytes.len() - 1 - i];
        value = value * 128 + (byte % 128) as u64;
    }
    Some(value)
}

/// The unsigned number at the front of bytes, and how many of them it takes, in any spelling.
#[inline(never)]
fn any_uleb(bytes: &[u8]) -> Result<(u64, usize), Leb>
    ensures { Gives (λ x. x) leb_fault result (front_uleb bytes.now) }
{
    let last = last_byte(bytes).ok_or(Leb::End)?;
    let (front, _) = bytes.split_at(last + 1);
    let value = unsigned(front).ok_or(Leb::Wide)?;
    Ok((value, last + 1))
}

/// The same, without a loop where the number has two to four bytes. It isn't inlined, so that the
/// reads of short numbers stay small.
#[inline(never)]
pub(crate) fn long_uleb(bytes: &[u8]) -> Result<(u64, usize), Leb>
    ensures { Gives (λ x. x) leb_fault result (front_uleb bytes.now) }
{
    if bytes.len() < 4 || bytes[0] < 128 {
        return any_uleb(bytes);
    }
    let two = (bytes[0] % 128) as u64 + 128 * (bytes[1] % 128) as u64;
    if bytes[1] < 128 {
        return Ok((two, 2));
    }
    let three = two + 16384 * (bytes[2] % 128) as u64;
    if bytes[2] < 128 {
        return Ok((three, 3));
    }
    if bytes[3] < 128 {
        return Ok((three + 2097152 * bytes[3] as u64, 4));
    }
    any_uleb(bytes)
}

/// The number of the groups' complements, where it fits 63 bits: one less than how far a negative
/// number of these groups lies below zero.
fn below_zero(bytes: &[u8]) -> Option<u64>
    ensures { result ≡ fits_u63 (complements bytes.now) }
{
    let mut value: u64 = 0;
    for i in 0..bytes.len() {
        if value > u64::MAX >> 8 {
            return None;
        }
        let byte = bytes[bytes.len() - 1 - i];
        value = value * 128 + (127 - byte % 128) as u64;
    }
    Some(value)
}

/// Bit 6 of the last byte is set.
#[tactic(auto, using(crate::proofs::GroupLemmas::sign_of))]
fn negative(bytes: &[u8]) -> bool
    ensures { result ≡ is_negative bytes.now }
{
    !bytes.is_empty() && bytes[bytes.len() - 1] % 128 >= 64
}

/// The number of one group in two's complement.
#[tactic(auto, using(crate::proofs::GroupLemmas::one_group_positive, crate::proofs::GroupLemmas::one_group_negative))]
#[inline(always)]
fn signed_group(byte: u8) -> i64
    ensures { fits_signed (signed_groups (byte ∷ [])) ≡ Some result }
{
    let group = (byte % 128) as i64;
    if group < 64 {
        return group;
    }
    group - 128
}

/// The number of two groups in two's complement.
#[tactic(auto, using(crate::proofs::GroupLemmas::pair_positive, crate::proofs::GroupLemmas::pair_negative))]
#[inline(always)]
fn signed_pair(low: u8, high: u8) -> i64
    ensures { fits_signed (signed_groups (low ∷ high ∷ [])) ≡ Some result }
{
    let group = (high % 128) as i64;
    let number = (low % 128) as i64 + 128 * group;
    if group < 64 {
        return number;
    }
    number - 16384
}

/// The number of these groups in two's complement, where it fits 64 bits.
#[inline(always)]
pub(crate) fn signed(bytes: &[u8]) -> Option<i64>
    ensures { result ≡ fits_signed (signed_groups bytes.now) }
{
    // Most numbers have one byte or two.
    if bytes.len() == 1 {
        return Some(signed_group(bytes[0]));
    }
    if bytes.len() == 2 {
        return Some(signed_pair(bytes[0], bytes[1]));
    }
    long_signed(bytes)
}

/// The same of any groups.
#[inline(never)]
fn long_signed(bytes: &[u8]) -> Option<i64>
    ensures { result ≡ fits_signed (signed_groups bytes.now) }
{
    if negative(bytes) {
        let below = below_zero(bytes)?;
        return Some(-1 - below as i64);
    }
    let value = unsigned(bytes)?;
    if value > i64::MAX as u64 {
        return None;
    }
    Some(value as i64)
}
