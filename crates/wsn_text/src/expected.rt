ghost use Rattle.std.specs.Prelude.{ℕ, ◌≡◌, ◌≤◌, ◌↔◌, List, ◌∷◌, length, IfSome};
ghost use Rattle.wsn_text.specs.Utf8.{IsText};
ghost use Rattle.wsn_text.specs.Validated.{Follows};
ghost use Rattle.wsn_text.specs.Expected.{awaited};

/// What may come next.
#[derive(Clone, Copy, Debug)]
pub enum Expected {
    /// A character.
    Character,
    /// The last byte of a character.
    One,
    /// The last two bytes of a character. In the next two states, the first of them is at least A0, or at most 9F.
    Two,
    TwoFromA0,
    TwoUpTo9F,
    /// The last three bytes of a character. In the next two states, the first of them is at least 90, or at most 8F.
    Three,
    ThreeFrom90,
    ThreeUpTo8F,
    /// Nothing: a bad byte has come.
    Nothing,
}

impl Expected {
    /// What may come after `byte`.
    pub fn after(self, byte: u8) -> Expected
        ensures { (more : List ℕ) → Follows (awaited self) (byte ∷ more) ↔ Follows (awaited result) more }
    {
        match self {
            Expected::Character => Expected::after_first(byte),
            Expected::One => Expected::Character.if_within(byte, 0x80, 0xBF),
            Expected::Two => Expected::One.if_within(byte, 0x80, 0xBF),
            Expected::TwoFromA0 => Expected::One.if_within(byte, 0xA0, 0xBF),
            Expected::TwoUpTo9F => Expected::One.if_within(byte, 0x80, 0x9F),
            Expected::Three => Expected::Two.if_within(byte, 0x80, 0xBF),
            Expected::ThreeFrom90 => Expected::Two.if_within(byte, 0x90, 0xBF),
            Expected::ThreeUpTo8F => Expected::Two.if_within(byte, 0x80, 0x8F),
            Expected::Nothing => Expected::Nothing,
        }
    }

    /// What may come after the first byte of a character.
    #[tactic(none)]
    fn after_first(byte: u8) -> Expected
        ensures { (more : List ℕ) → IsText (byte ∷ more) ↔ Follows (awaited result) more }
    {
        match byte {
            0x00..=0x7F => Expected::Character,
            0x80..=0xC1 => Expected::Nothing,
            0xC2..=0xDF => Expected::One,
            0xE0 => Expected::TwoFromA0,
            0xE1..=0xEC => Expected::Two,
            0xED => Expected::TwoUpTo9F,
            0xEE..=0xEF => Expected::Two,
            0xF0 => Expected::ThreeFrom90,
            0xF1..=0xF3 => Expected::Three,
            0xF4 => Expected::ThreeUpTo8F,
            0xF5..=0xFF => Expected::Nothing,
        }
    }

    /// This state if `byte` is in `low..=high`, otherwise `Nothing`.
    #[tactic(none)]
    fn if_within(self, byte: u8, low: u8, high: u8) -> Expected
        ensures { (more : List ℕ) → (low ≤ byte) × (byte ≤ high) × Follows (awaited self) more
            ↔ Follows (awaited result) more }
    {
        if (low..=high).contains(&byte) {
            self
        } else {
            Expected::Nothing
        }
    }

    /// A first byte after which this is what may come.
    #[tactic(none)]
    pub fn first_byte(self) -> u8
        ensures { (more : List ℕ) → IsText (result ∷ more) ↔ Follows (awaited self) more }
    {
        match self {
            Expected::Character => 0x00,
            Expected::One => 0xC2,
            Expected::Two => 0xE1,
            Expected::TwoFromA0 => 0xE0,
            Expected::TwoUpTo9F => 0xED,
            Expected::Three => 0xF1,
            Expected::ThreeFrom90 => 0xF0,
            Expected::ThreeUpTo8F => 0xF4,
            Expected::Nothing => 0xFF,
        }
    }

    /// The number of bytes that the last character still needs.
    pub fn missing(self) -> usize
        ensures { IfSome (awaited self) (λ row. result ≡ length row) }
    {
        match self {
            Expected::Character | Expected::Nothing => 0,
            Expected::One => 1,
            Expected::Two | Expected::TwoFromA0 | Expected::TwoUpTo9F => 2,
            Expected::Three | Expected::ThreeFrom90 | Expected::ThreeUpTo8F => 3,
        }
    }
}
