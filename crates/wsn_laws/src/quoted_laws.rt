//! Laws of quoted texts and of comments. The functions do nothing when called; their contracts are proved.

ghost use Rattle.std.specs.Prelude.{◌≡◌, ℕ, List, Option, IfSome};
ghost use Rattle.std.specs.Str.{IsUtf8};
ghost use Rattle.wsn_wire.specs.declared.endpoint.Role.{Role};
ghost use Rattle.wsn_wire.specs.Frame.{IsBytes};
ghost use Rattle.wsn_rules.specs.BadCharacter.{BadCharacter};
ghost use Rattle.wsn_rules.specs.ShownStream.{Item};
ghost use Rattle.wsn_print.specs.EscapedText.{quoted, comment_line};
ghost use Rattle.wsn_shown_text.specs.ShownText.{item_line, end_line};
ghost use Rattle.wsn_shown_text.specs.CharacterText.{character_line};
ghost use Rattle.wsn_print.specs.ShownParts.{EntryPosition, time_at};
ghost use Rattle.wsn_shown_text.specs.PeopleText.{people_line, people_end_line};
ghost use Rattle.wsn_shown_text.specs.QuotedTexts.{IsJsonString, IsAllVisible, IsVisibleLine, AreVisibleLines, bad_bytes, bytes_in, ShowsTextReason};

/// A quoted text is a JSON string of the text (RFC 8259 section 7), and a JSON string is one of one text alone. So a
/// quoted text can be read back.
pub fn law_quoted_is_json()
    ensures is { (text : List ℕ) → IsJsonString text (quoted text) }
    ensures one { (text other bytes : List ℕ) → IsUtf8 text → IsUtf8 other → IsJsonString text bytes →
        IsJsonString other bytes → text ≡ other }
{}

/// Nothing of a quoted text is hidden: none of its characters moves a terminal's cursor, changes how the text around it is
/// shown, or isn't seen.
pub fn law_quoted_is_visible()
    ensures { (text : List ℕ) → IsUtf8 text → IsAllVisible (quoted text) }
{}

/// Nothing of a line of `show` is hidden but the LF at its end: of an item, whatever its payload is, of a bad character,
/// of an end mark and of a comment; nor of one for people, where an item with a bad character has two lines.
pub fn law_lines_are_visible()
    ensures item { (n : ℕ) (role : Role) (time : Option (List ℕ)) (item : Item) →
        IfSome time IsAllVisible → IsBytes (bytes_in item) → ShowsTextReason item →
        IsVisibleLine (item_line n role time item) }
    ensures character { (n : ℕ) (role : Role) (time : Option (List ℕ)) (evidence : List ℕ) (character : BadCharacter) →
        IfSome time IsAllVisible → IsBytes character.bytes →
        IsVisibleLine (character_line n role time evidence character) }
    ensures end_mark { (role : Role) (time : Option (List ℕ)) (sent : ℕ) → IfSome time IsAllVisible →
        IsVisibleLine (end_line role time sent) }
    ensures comment { (text : List ℕ) → IsBytes text → IsVisibleLine (comment_line text) }
    ensures people { (n : ℕ) (role : Role) (position : EntryPosition) (item : Item) →
        IfSome (time_at position) IsAllVisible → IsBytes (bytes_in item) → IsBytes (bad_bytes item) →
        ShowsTextReason item → AreVisibleLines (people_line n role position item) }
    ensures people_end { (role : Role) (position : EntryPosition) (sent : ℕ) → IfSome (time_at position) IsAllVisible →
        IsVisibleLine (people_end_line role position sent) }
{}

/// Two different comments never have the same line: a hidden character or a byte that isn't printable is escaped, and a
/// backslash of the comment is doubled.
pub fn law_comment_lines()
    ensures { (text other : List ℕ) → IsBytes text → IsBytes other → comment_line text ≡ comment_line other → text ≡ other }
{}
