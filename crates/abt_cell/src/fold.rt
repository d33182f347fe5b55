//! Polynomials made shorter: where x^n leaves few terms, whatever stands at x^n and above is added at those terms.

ghost use Rattle.std.specs.Prelude.{◌≡◌, ℕ, ◌+◌, ◌*◌, ◌^◌, ◌<◌, ◌≤◌, bit_xor};
ghost use Rattle.abt_cell.specs.Polynomial.{IsMultiple};

/// The remainders of x^10 times each polynomial of a degree below four.
const REMAINDERS: [u16; 16] = [
    0x000, 0x233, 0x255, 0x066, 0x299, 0x0aa, 0x0cc, 0x2ff, 0x301, 0x132, 0x154, 0x367, 0x198,
    0x3ab, 0x3cd, 0x1fe,
];

// The rest of a polynomial and 96 bits after it: x^96 leaves x^7 + x^4 + x.
#[tactic(auto, using(crate::proofs::Folds::low_96, crate::proofs::Folds::same_96))]
pub(crate) fn with_block(rest: u128, block: u128) -> u128
    requires rest { rest < 2 ^ 110 }
    requires block { block < 2 ^ 96 }
    ensures low { (k : ℕ) → 89 ≤ k → rest < 2 ^ k → result < 2 ^ (k + 7) }
    ensures same { (p : ℕ) → IsMultiple (bit_xor p rest) → IsMultiple (bit_xor (p * 2 ^ 96 + block) result) }
{
    (rest << 7) ^ (rest << 4) ^ (rest << 1) ^ block
}

// x^64 leaves x^6 + x^4 + x.
#[tactic(auto, using(crate::proofs::Folds::same_64))]
pub(crate) fn below_64(p: u128) -> u64
    requires { p < 2 ^ 117 }
    ensures { IsMultiple (bit_xor p result) }
{
    let high = (p >> 64) as u64;
    let low = (p % (1 << 64)) as u64;
    low ^ (high << 6) ^ (high << 4) ^ (high << 1)
}

// x^38 leaves x^8 + x^2 + 1.
#[tactic(auto, using(crate::proofs::Folds::low_38, crate::proofs::Folds::same_38))]
pub(crate) fn below_38(p: u64) -> u64
    ensures low { result < 2 ^ 38 }
    ensures same { IsMultiple (bit_xor p result) }
{
    let high = p >> 38;
    (p % (1 << 38)) ^ (high << 8) ^ (high << 2) ^ high
}

// x^19 leaves x^4 + x + 1.
#[tactic(auto, using(crate::proofs::Folds::low_19, crate::proofs::Folds::same_19))]
pub(crate) fn below_23(p: u64) -> u64
    requires { p < 2 ^ 38 }
    ensures low { result < 2 ^ 23 }
    ensures same { IsMultiple (bit_xor p result) }
{
    let high = p >> 19;
    (p % (1 << 19)) ^ (high << 4) ^ (high << 1) ^ high
}

// x^14 leaves x^5 + x^4 + 1.
#[tactic(auto, using(crate::proofs::Folds::low_14, crate::proofs::Folds::same_14))]
pub(crate) fn below_14(p: u64) -> u64
    requires { p < 2 ^ 23 }
    ensures low { result < 2 ^ 14 }
    ensures same { IsMultiple (bit_xor p result) }
{
    let high = p >> 14;
    (p % (1 << 14)) ^ (high << 5) ^ (high << 4) ^ high
}

// The remainder.
#[tactic(auto, using(crate::proofs::Folds::low_10, crate::proofs::Folds::same_10))]
pub(crate) fn below_10(p: u64) -> u16
    requires { p < 2 ^ 14 }
    ensures low { result < 2 ^ 10 }
    ensures same { IsMultiple (bit_xor p result) }
{
    (p % 1024) as u16 ^ REMAINDERS[(p >> 10) as usize]
}
