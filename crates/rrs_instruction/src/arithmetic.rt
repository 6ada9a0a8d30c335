//! The results of the integer instructions, on words: `a` is the value of rs1, and `b` that of rs2,
//! the immediate modulo 2^32, or the shift amount.

#![tactic(auto, using(crate::proofs::Bitwise::by_bits))]

ghost use Rattle.std.specs.Prelude.{◌≡◌, ◌<◌, ◌^◌, int_lt};
ghost use Rattle.rrs_instruction.specs.Words.{word, signed, floor_div};
ghost use Rattle.rrs_instruction.specs.Results.{sign_extended, plus_immediate as sum_with_immediate, made_even as even_part};
ghost use Rattle.rrs_instruction.specs.Results as results;

/// `a + b` modulo 2^32.
#[inline]
pub fn add(a: u32, b: u32) -> u32
    ensures { result ≡ word (results.add a b) }
{
    a.wrapping_add(b)
}

/// `a - b` modulo 2^32.
#[inline]
pub fn sub(a: u32, b: u32) -> u32
    ensures { result ≡ word (results.sub a b) }
{
    a.wrapping_sub(b)
}

/// `a` shifted to the left by the low five bits of `b`.
#[inline]
pub fn sll(a: u32, b: u32) -> u32
    ensures { result ≡ word (results.sll a b) }
{
    a << (b & 31)
}

/// `a` shifted to the right by the low five bits of `b`, filled with zeros.
#[inline]
pub fn srl(a: u32, b: u32) -> u32
    ensures { result ≡ word (results.srl a b) }
{
    a >> (b & 31)
}

/// `a` shifted to the right by the low five bits of `b`, filled with its sign bit.
#[inline]
pub fn sra(a: u32, b: u32) -> u32
    ensures { result ≡ word (results.sra a b) }
{
    (a.cast_signed() >> (b & 31)).cast_unsigned()
}

/// 1 if `a` is below `b` as signed numbers, and 0 otherwise.
#[inline]
pub fn slt(a: u32, b: u32) -> u32
    ensures { result ≡ word (results.slt a b) }
{
    u32::from(less_than_signed(a, b))
}

/// 1 if `a` is below `b`, and 0 otherwise.
#[inline]
pub fn sltu(a: u32, b: u32) -> u32
    ensures { result ≡ word (results.sltu a b) }
{
    u32::from(a < b)
}

/// The exclusive or of each two bits.
#[inline]
pub fn xor(a: u32, b: u32) -> u32
    ensures { result ≡ word (results.xor a b) }
{
    a ^ b
}

/// The or of each two bits.
#[inline]
pub fn or(a: u32, b: u32) -> u32
    ensures { result ≡ word (results.or a b) }
{
    a | b
}

/// The and of each two bits.
#[inline]
pub fn and(a: u32, b: u32) -> u32
    ensures { result ≡ word (results.and a b) }
{
    a & b
}

/// The low half of the product.
#[inline]
pub fn mul(a: u32, b: u32) -> u32
    ensures { result ≡ word (results.mul a b) }
{
    a.wrapping_mul(b)
}

/// The high half of a product, rounded down, as a word.
#[inline]
fn high_word(product: i64) -> u32
    ensures { result ≡ word (floor_div product (2 ^ 32)) }
{
    ((product >> 32) as i32).cast_unsigned()
}

/// The high half of the product of two signed numbers.
#[inline]
pub fn mulh(a: u32, b: u32) -> u32
    ensures { result ≡ word (results.mulh a b) }
{
    high_word(i64::from(a.cast_signed()) * i64::from(b.cast_signed()))
}

/// The high half of the product of two unsigned numbers.
#[inline]
pub fn mulhu(a: u32, b: u32) -> u32
    ensures { result ≡ word (results.mulhu a b) }
{
    let product = u64::from(a) * u64::from(b);
    (product >> 32) as u32
}

/// The high half of the product of `a` as a signed number and `b` as an unsigned number.
#[inline]
pub fn mulhsu(a: u32, b: u32) -> u32
    ensures { result ≡ word (results.mulhsu a b) }
{
    high_word(i64::from(a.cast_signed()) * i64::from(b))
}

/// The quotient of two signed numbers, rounded toward zero; all ones for a division by zero.
#[inline]
pub fn div(a: u32, b: u32) -> u32
    ensures { result ≡ word (results.div a b) }
{
    if b == 0 {
        return u32::MAX;
    }
    a.cast_signed()
        .wrapping_div(b.cast_signed())
        .cast_unsigned()
}

/// The quotient of two unsigned numbers; all ones for a division by zero.
#[inline]
pub fn divu(a: u32, b: u32) -> u32
    ensures { result ≡ word (results.divu a b) }
{
    if b == 0 { u32::MAX } else { a / b }
}

/// The remainder of two signed numbers, with the sign of `a`; `a` for a division by zero.
#[inline]
pub fn rem(a: u32, b: u32) -> u32
    ensures { result ≡ word (results.rem a b) }
{
    if b == 0 {
        return a;
    }
    a.cast_signed()
        .wrapping_rem(b.cast_signed())
        .cast_unsigned()
}

/// The remainder of two unsigned numbers; `a` for a division by zero.
#[inline]
pub fn remu(a: u32, b: u32) -> u32
    ensures { result ≡ word (results.remu a b) }
{
    if b == 0 { a } else { a % b }
}

/// Whether `a` is below `b`, as signed numbers.
#[inline]
pub fn less_than_signed(a: u32, b: u32) -> bool
    ensures { result ≡ int_lt (signed a) (signed b) }
{
    a.cast_signed() < b.cast_signed()
}

/// A signed immediate modulo 2^32.
#[inline]
pub fn immediate(imm: i32) -> u32
    ensures { result ≡ word imm }
{
    imm.cast_unsigned()
}

/// A word plus a signed immediate, modulo 2^32.
#[inline]
pub fn plus_immediate(a: u32, imm: i32) -> u32
    ensures { result ≡ sum_with_immediate a imm }
{
    a.wrapping_add(immediate(imm))
}

/// The word of a byte that is read as a signed number.
#[inline]
pub fn sign_extended_byte(value: u32) -> u32
    requires { value < 2 ^ 8 }
    ensures { result ≡ word (sign_extended 1 value) }
{
    i32::from((value as u8).cast_signed()).cast_unsigned()
}

/// The word of two bytes that are read as a signed number.
#[inline]
pub fn sign_extended_half_word(value: u32) -> u32
    requires { value < 2 ^ 16 }
    ensures { result ≡ word (sign_extended 2 value) }
{
    i32::from((value as u16).cast_signed()).cast_unsigned()
}

/// A word less 1 if it is odd.
#[inline]
pub fn made_even(x: u32) -> u32
    ensures { result ≡ even_part x }
{
    x & 0xffff_fffe
}
