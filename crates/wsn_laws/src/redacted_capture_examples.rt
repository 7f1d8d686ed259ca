//! Examples of redacted lines, computed from the definitions in `ExtensionNames.antt` and `RedactedCaptures.antt` of
//! `wsn_redact`.

ghost use Rattle.std.specs.Prelude.{◌≡◌, [], ◌∷◌, filter, codes};
ghost use Rattle.wsn_wire.specs.declared.endpoint.Role.TheVariants.{Server};
ghost use Rattle.wsn_rules.specs.Entries.Entry.{Bytes};
ghost use Rattle.wsn_redact.specs.declared.extension_names.Within.TheVariants.{Name};
ghost use Rattle.wsn_redact.specs.ExtensionNames.{is_of_token, names_in};
ghost use Rattle.wsn_redact.specs.RedactedCaptures.{cr_of, IsRedactedLineText};

/// Lists of extensions: their names are left.
pub fn of_extensions()
    ensures bits { names_in Name (codes "permessage-deflate; server_max_window_bits=10; client_no_context_takeover")
        ≡ codes "permessage-deflate; server_max_window_bits=; client_no_context_takeover" }
    ensures two { names_in Name (codes "a; b=secret, c; d='e=f'") ≡ codes "a; b=, c; d=" }
    ensures quoted { names_in Name (codes "a; b=\"x,secret;y\", c;\td") ≡ codes "a; b=, c;\td" }
    ensures escaped { names_in Name (codes "a; b=\"x\\\",secret\\\\\"; c") ≡ codes "a; b=; c" }
    ensures no_end { names_in Name (codes "a; b=\"x, secret; c=d") ≡ codes "a; b=" }
    ensures no_value { names_in Name (codes "a\"x, secret\"b; c") ≡ codes "a; c" }
    ensures no_token { names_in Name (codes "a/secret=b, c") ≡ codes "a, c" }
    ensures none { names_in Name (codes "permessage-deflate") ≡ codes "permessage-deflate" }
{}

/// Of the visible bytes these are of a token.
pub fn of_tokens()
    ensures { filter is_of_token (codes " !\"#$%&'()*+,-./0123456789:;<=>?@ABCYZ[\\]^_`abcyz{|}~")
        ≡ codes "!#$%&'*+-.0123456789ABCYZ^_`abcyz|~" }
{}

/// Lines with bytes: their digits are in lower case.
pub fn of_bytes()
    ensures hello { IsRedactedLineText (codes "S 81024A6F") (Bytes Server (0x81 ∷ 0x02 ∷ 0x4a ∷ 0x6f ∷ []))
        (Bytes Server (0x81 ∷ 0x02 ∷ 0x58 ∷ 0x78 ∷ [])) (codes "S 81025878") }
    ensures cr { cr_of (codes "S 8100\r") ≡ codes "\r" }
    ensures no_cr { cr_of (codes "S 8100") ≡ [] }
{}
