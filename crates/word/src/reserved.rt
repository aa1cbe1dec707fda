// The reserved bits of a word, worked out from its kind and source. Each set is one field, tested as `word / 2 ^ low % 2 ^ count`. The kind
// is tested by `<` and `<=`, of which the compiler makes no table of jumps.
ghost use Rattle.std.specs.Prelude.{◌≡◌, ◌≤◌};
ghost use Rattle.word.specs.Reserved.{source_field, zero_bits, reserved_zero};

use crate::fields;

// The source field of a word, whose place goes by the kind; 0 in a word that has none.
pub fn source(word: u32) -> u32
    ensures { result ≡ source_field word }
{
    let kind = word / fields::KIND;
    if kind < 3 {
        return 0;
    }
    if kind <= 4 {
        return word / fields::ROW_SOURCE % 8;
    }
    if kind <= 8 {
        return word / fields::OPERAND_SOURCE % 8;
    }
    0
}

// Kinds 3 and 4: bits 19-5 beside a fixed row, else 19-0.
fn access_bits_zero(source: u32, word: u32) -> bool
    ensures { result ≡ zero_bits 3 source word }
{
    if source == 7 {
        return word / 0x20 % 0x8000 == 0;
    }
    word % 0x10_0000 == 0
}

// Kinds 5 to 8: none beside a fixed number, else 24-0.
fn operand_bits_zero(source: u32, word: u32) -> bool
    ensures { result ≡ zero_bits 5 source word }
{
    if source == 7 {
        return true;
    }
    word % 0x200_0000 == 0
}

// Kind 9: bits 23-16. Kind 10: 19-0. Kind 11: 27-10. Kind 12: 27-1. Kind 13: 27-0. Kinds 14 and 15: none.
fn sourceless_bits_zero(kind: u32, word: u32) -> bool
    requires { (9 ≤ kind) × (kind ≤ 15) }
    ensures { result ≡ zero_bits kind 0 word }
{
    if kind <= 9 {
        return word / 0x1_0000 % 0x100 == 0;
    }
    if kind <= 10 {
        return word % 0x10_0000 == 0;
    }
    if kind <= 11 {
        return word / 0x400 % 0x4_0000 == 0;
    }
    if kind <= 12 {
        return word / 2 % 0x800_0000 == 0;
    }
    if kind <= 13 {
        return word % 0x1000_0000 == 0;
    }
    true
}

// Whether the reserved bits of a word are zero. Kinds 0 and 1 have none, kind 2 has bits 6-0.
pub fn reserved_zero(word: u32) -> bool
    ensures { result ≡ reserved_zero word }
{
    let kind = word / fields::KIND;
    let source = source(word);
    if kind < 2 {
        return true;
    }
    if kind <= 2 {
        return word % 0x80 == 0;
    }
    if kind <= 4 {
        return access_bits_zero(source, word);
    }
    if kind <= 8 {
        return operand_bits_zero(source, word);
    }
    sourceless_bits_zero(kind, word)
}
