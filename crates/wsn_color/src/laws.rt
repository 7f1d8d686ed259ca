//! Laws of texts in colours.

ghost use Rattle.std.specs.Prelude.{◌≡◌, ℕ, List, ◌∷◌, ◌++◌, false};
ghost use Rattle.wsn_color.specs.Codes.{HasNoEscape, without_codes};
ghost use Rattle.wsn_color.specs.PaintedText.{painted};
ghost use Rattle.wsn_color.specs.Painting.{IsPlainText};
ghost use Rattle.wsn_color.specs.declared.layout.Layout.{Layout};

/// A text in colours is the text without its codes, each of which is complete; no line end is coloured, nor what follows.
pub fn law_painted_text_is_the_text()
    ensures same { (layout : Layout) (text : List ℕ) → HasNoEscape text → without_codes (painted layout text) ≡ text }
    ensures plain { (layout : Layout) (text : List ℕ) → HasNoEscape text → IsPlainText false (painted layout text) }
{}

/// Each line is painted by itself, whatever comes before and after it.
pub fn law_lines_are_painted_apart()
    ensures { (layout : Layout) (line text : List ℕ) →
        painted layout (line ++ 10 ∷ text) ≡ painted layout line ++ 10 ∷ painted layout text }
{}
