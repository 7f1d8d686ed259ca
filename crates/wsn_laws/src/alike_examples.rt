//! Examples of streams and comments that are alike and that aren't, computed from the definitions in
//! `specs/AlikeStreams.antt` and `specs/AlikeCaptures.antt`.

ghost use Rattle.std.specs.Prelude.{[], ◌∷◌, codes};
ghost use Rattle.wsn_wire.specs.declared.endpoint.Role.TheVariants.{Client, Server};
ghost use Rattle.wsn_rules.specs.Examples.{greatest};
ghost use Rattle.wsn_laws.specs.AlikeCaptures.{AreAlikeComments};
ghost use Rattle.wsn_laws.specs.AlikeStreams.{AreAlikeStreams};

/// Streams that differ only in what was said.
pub fn of_alike_streams()
    ensures password { AreAlikeStreams Server greatest (0x81 ∷ 0x10 ∷ codes "{'pw':'hunter2'}") (0x81 ∷ 0x10 ∷ codes "{'pw':'sesame9'}") }
    // "hi" and "no", under the same key
    ensures masked { AreAlikeStreams Client greatest
        (0x81 ∷ 0x82 ∷ 0x01 ∷ 0x02 ∷ 0x03 ∷ 0x04 ∷ 0x69 ∷ 0x6b ∷ [])
        (0x81 ∷ 0x82 ∷ 0x01 ∷ 0x02 ∷ 0x03 ∷ 0x04 ∷ 0x6f ∷ 0x6d ∷ []) }
    // a character that begins with E4, and one that begins with EF
    ensures characters { AreAlikeStreams Server greatest
        (0x81 ∷ 0x03 ∷ 0xe4 ∷ 0xb8 ∷ 0xad ∷ []) (0x81 ∷ 0x03 ∷ 0xef ∷ 0xbb ∷ 0xbf ∷ []) }
    ensures binary { AreAlikeStreams Server greatest (0x82 ∷ 0x02 ∷ 0x48 ∷ 0xff ∷ []) (0x82 ∷ 0x02 ∷ 0x07 ∷ 0x00 ∷ []) }
    // code 1000, "bye" and "now", and a byte after the Close
    ensures close_and_tail { AreAlikeStreams Server greatest
        (0x88 ∷ 0x05 ∷ 0x03 ∷ 0xe8 ∷ 0x62 ∷ 0x79 ∷ 0x65 ∷ 0x41 ∷ [])
        (0x88 ∷ 0x05 ∷ 0x03 ∷ 0xe8 ∷ 0x6e ∷ 0x6f ∷ 0x77 ∷ 0xff ∷ []) }
    // refused at the first byte
    ensures refused { AreAlikeStreams Server greatest (0xc1 ∷ 0x01 ∷ 0x41 ∷ []) (0xc1 ∷ 0x7f ∷ 0x00 ∷ []) }
{}

/// Streams that aren't alike: a redaction leaves their difference.
pub fn of_streams_that_differ()
    // "ab" and "a1"
    ensures digit { ¬ (AreAlikeStreams Server greatest (0x81 ∷ 0x02 ∷ 0x61 ∷ 0x62 ∷ []) (0x81 ∷ 0x02 ∷ 0x61 ∷ 0x31 ∷ [])) }
    // "a" and "A"
    ensures capital { ¬ (AreAlikeStreams Server greatest (0x81 ∷ 0x01 ∷ 0x61 ∷ []) (0x81 ∷ 0x01 ∷ 0x41 ∷ [])) }
    // " " and "_"
    ensures punctuation { ¬ (AreAlikeStreams Server greatest (0x81 ∷ 0x01 ∷ 0x20 ∷ []) (0x81 ∷ 0x01 ∷ 0x5f ∷ [])) }
    // a character of two bytes, and "ab"
    ensures row { ¬ (AreAlikeStreams Server greatest (0x81 ∷ 0x02 ∷ 0xc3 ∷ 0xa9 ∷ []) (0x81 ∷ 0x02 ∷ 0x61 ∷ 0x62 ∷ [])) }
    ensures opcode { ¬ (AreAlikeStreams Server greatest (0x81 ∷ 0x01 ∷ 0x61 ∷ []) (0x82 ∷ 0x01 ∷ 0x61 ∷ [])) }
    ensures key { ¬ (AreAlikeStreams Client greatest (0x81 ∷ 0x80 ∷ 0x01 ∷ 0x02 ∷ 0x03 ∷ 0x04 ∷ []) (0x81 ∷ 0x80 ∷ 0x01 ∷ 0x02 ∷ 0x03 ∷ 0x05 ∷ [])) }
    ensures code { ¬ (AreAlikeStreams Server greatest (0x88 ∷ 0x02 ∷ 0x03 ∷ 0xe8 ∷ []) (0x88 ∷ 0x02 ∷ 0x03 ∷ 0xe9 ∷ [])) }
{}

/// Comments of a capture: of a list of extensions the names count, of a time all, of others nothing.
pub fn of_comments()
    ensures values { AreAlikeComments (codes "# extensions: a; key=secret") (codes "# extensions: a; key=42") }
    ensures names { ¬ (AreAlikeComments (codes "# extensions: a") (codes "# extensions: b")) }
    ensures times { ¬ (AreAlikeComments (codes "# 1.5") (codes "# 2.5")) }
    ensures others { AreAlikeComments (codes "# path: /login?token=abc") (codes "# cookie: id=1234567") }
{}
