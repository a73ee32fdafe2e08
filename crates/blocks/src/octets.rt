// Sixteen octets, and numbers in octets with the least octet first.
ghost use Rattle.std.specs.Prelude.{◌≡◌, ℕ, List};
ghost use Rattle.blocks.specs.Octets.{xor_each};
ghost use Rattle.blocks.specs.Fields.{field, number};

use std::array;

// The most octets of a message, in every call that takes one.
pub const LONGEST: usize = 65_536;

// Octet by octet exclusive or.
pub fn xor(a: [u8; 16], b: [u8; 16]) -> [u8; 16]
    ensures { result ≡ xor_each a b }
{
    array::from_fn(|j| a[j] ^ b[j])
}

// A number of a fixed width, and the octets that write it with the least one first.
pub trait Number {
    // An array of so many octets as the width says.
    type Octets;

    ghost width: { ℕ };

    // Number and octets as such.
    ghost value: { Self → ℕ };

    ghost listed: { Self.Octets → List ℕ };

    // The number that the octets write.
    fn number(octets: &Self::Octets) -> Self
        ensures value { value result ≡ number (listed octets.now) }
        ensures undone { field width (value result) ≡ listed octets.now };

    // The octets that write the number.
    fn field(self) -> Self::Octets
        ensures value { listed result ≡ field width (value self) }
        ensures undone { number (listed result) ≡ value self };
}

// An impl for each width: the language's conversions are each type's own, and no macro may hold a ghost item.
impl Number for u16 {
    type Octets = [u8; 2];

    ghost width = { 2 };

    ghost value = { λ n. n };

    ghost listed = { λ x. x };

    fn number(octets: &[u8; 2]) -> u16 {
        u16::from_le_bytes(*octets)
    }

    fn field(self) -> [u8; 2] {
        u16::to_le_bytes(self)
    }
}

impl Number for u32 {
    type Octets = [u8; 4];

    ghost width = { 4 };

    ghost value = { λ n. n };

    ghost listed = { λ x. x };

    fn number(octets: &[u8; 4]) -> u32 {
        u32::from_le_bytes(*octets)
    }

    fn field(self) -> [u8; 4] {
        u32::to_le_bytes(self)
    }
}

impl Number for u64 {
    type Octets = [u8; 8];

    ghost width = { 8 };

    ghost value = { λ n. n };

    ghost listed = { λ x. x };

    fn number(octets: &[u8; 8]) -> u64 {
        u64::from_le_bytes(*octets)
    }

    fn field(self) -> [u8; 8] {
        u64::to_le_bytes(self)
    }
}

impl Number for u128 {
    type Octets = [u8; 16];

    ghost width = { 16 };

    ghost value = { λ n. n };

    ghost listed = { λ x. x };

    fn number(octets: &[u8; 16]) -> u128 {
        u128::from_le_bytes(*octets)
    }

    fn field(self) -> [u8; 16] {
        u128::to_le_bytes(self)
    }
}
