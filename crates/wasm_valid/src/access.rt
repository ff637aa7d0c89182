ghost use Rattle.std.specs.Prelude.{◌≡◌, Bool};
ghost use Rattle.wasm_types.specs.Typing.{natural_alignment, accessed};

use wasm_types::ValType;

/// The natural alignment of a load or store, as an exponent of 2.
#[tactic(auto, unfolding(wasm_types::specs::Typing::natural_alignment))]
pub fn natural_alignment(op: u8) -> u32
    ensures { result ≡ natural_alignment op }
{
    match op {
        0x2C | 0x2D | 0x30 | 0x31 | 0x3A | 0x3C => 0,
        0x2E | 0x2F | 0x32 | 0x33 | 0x3B | 0x3D => 1,
        0x29 | 0x37 => 3,
        _ => 2,
    }
}

/// The type of the value that is loaded or stored.
#[tactic(auto, unfolding(wasm_types::specs::Typing::accessed))]
pub fn accessed(op: u8) -> ValType
    ensures { result ≡ accessed op }
{
    match op {
        0x28 | 0x2C..=0x2F | 0x36 | 0x3A | 0x3B => ValType::I32,
        _ => ValType::I64,
    }
}
