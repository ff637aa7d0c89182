ghost use Rattle.std.specs.Prelude.{ℕ, ◌≡◌, ◌<◌, ◌≤◌, List, All, length, map, Some};
ghost use Rattle.chain_addr.specs.Address.{address_of};
ghost use Rattle.chain_addr.specs.Letters.{IsPrefix};
ghost use Rattle.chain_addr.specs.Reading.{lower};
ghost use Rattle.chain_addr.specs.Text.{text_of};

/// The text of 1 to 64 bytes under a lawful prefix is read as these bytes.
pub fn texts_are_read_back()
    ensures { (prefix bytes : List ℕ) → IsPrefix prefix → All (λ b. b < 256) bytes
        → 1 ≤ length bytes → length bytes ≤ 64
        → address_of prefix (text_of prefix bytes) ≡ Some bytes }
{}

/// Every text of an address is the text of its bytes, in lower case.
pub fn texts_have_one_form()
    ensures lower { (prefix text bytes : List ℕ) → address_of prefix text ≡ Some bytes
        → map lower text ≡ text_of prefix bytes }
    ensures normal { (prefix text bytes : List ℕ) → All (λ c. lower c ≡ c) text
        → address_of prefix text ≡ Some bytes → text ≡ text_of prefix bytes }
    ensures one { (prefix text other bytes : List ℕ) → address_of prefix text ≡ Some bytes
        → address_of prefix other ≡ Some bytes → map lower text ≡ map lower other }
{}
