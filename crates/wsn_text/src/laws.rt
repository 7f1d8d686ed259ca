//! Laws of the definitions in `specs/`. The functions do nothing when called; their contracts are proved.

ghost use Rattle.std.specs.Prelude.{◌≡◌, ℕ, ◌<◌, ◌⊎◌, ◌↔◌, List, ◌++◌};
ghost use Rattle.std.specs.List.{AllByRecursion};
ghost use Rattle.std.specs.Str.{IsUtf8};
ghost use Rattle.wsn_text.specs.Utf8.{IsText, BeginsText, IsFirstBad};

/// Text by the table is what `str` holds.
pub fn law_table_is_utf8()
    ensures { (bytes : List ℕ) → IsText bytes ↔ IsUtf8 bytes }
{}

/// Bytes below 0x80 are text.
pub fn law_ascii_is_text()
    ensures { (bytes : List ℕ) → AllByRecursion (λ b. b < 128) bytes → IsText bytes }
{}

/// Text followed by text is text.
pub fn law_text_appends()
    ensures { (front back : List ℕ) → IsText front → IsText back → IsText (front ++ back) }
{}

/// Bytes either are text or are not.
pub fn law_text_is_decided()
    ensures { (bytes : List ℕ) → IsText bytes ⊎ ¬ (IsText bytes) }
{}

/// A prefix of bytes that begin text begins text.
pub fn law_prefixes_begin_text()
    ensures { (front back : List ℕ) → BeginsText (front ++ back) → BeginsText front }
{}

/// Bytes begin text, or they have a first bad byte.
pub fn law_begins_or_first_bad()
    ensures { (bytes : List ℕ) → BeginsText bytes ⊎ ((i : ℕ) × IsFirstBad bytes i) }
{}

/// Bytes that have a first bad byte don't begin text.
pub fn law_first_bad_ends()
    ensures { (bytes : List ℕ) (i : ℕ) → IsFirstBad bytes i → ¬ (BeginsText bytes) }
{}

/// There is at most one first bad byte.
pub fn law_first_bad_is_one()
    ensures { (bytes : List ℕ) (i j : ℕ) → IsFirstBad bytes i → IsFirstBad bytes j → i ≡ j }
{}

/// Bytes that follow don't change which byte is the first bad one.
pub fn law_first_bad_stays()
    ensures { (front back : List ℕ) (i : ℕ) → IsFirstBad front i → IsFirstBad (front ++ back) i }
{}
