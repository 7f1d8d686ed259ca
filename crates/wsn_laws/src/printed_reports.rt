//! Examples of the lines of reports, computed from the definitions in `wsn_print/specs/`.

ghost use Rattle.std.specs.Prelude.{◌≡◌, true, false, None, Some, codes};
ghost use Rattle.wsn_wire.specs.declared.endpoint.Role.TheVariants.{Client, Server};
ghost use Rattle.wsn_wire.specs.declared.refusal.Reason.TheVariants as reason;
ghost use Rattle.wsn_wire.specs.declared.refusal.Reason.TheVariants.{TextBad};
ghost use Rattle.wsn_rules.specs.declared.verdict.Verdict.TheVariants.{Cut, Refused};
ghost use Rattle.wsn_rules.specs.declared.closing_handshake.Side.TheVariants as side;
ghost use Rattle.wsn_rules.specs.declared.closing_handshake.Outcome.TheVariants as outcome;
ghost use Rattle.wsn_print.specs.NamedReportText.{named_report_line, named_report_object};
ghost use Rattle.wsn_print.specs.ReportText.{report_lines};
ghost use Rattle.wsn_print.specs.PeopleReport.{meaning_lines};
ghost use Rattle.wsn_rules.specs.declared.closing_handshake.Report.{Report};

/// The line and the object of a report on one of several captures; a line feed in the file's name is escaped.
pub fn of_named_reports()
    ensures line { named_report_line (codes "a\nb.capture") (record {
      client = side.Closed (Some 1000);
      server = side.Refused (record { offset = 11; reason = reason.TextBad });
      first = Some Client;
      echo = None;
      client_sees = Some 1006;
      server_sees = Some 1000;
      outcome = outcome.Failed;
    }) ≡ codes "a\\u000ab.capture\tfailed\tclosed 1000\trefused 11 text-bad 1007\n" }
    ensures running { named_report_line (codes "b") (record {
      client = side.Closed None;
      server = side.Running;
      first = Some Client;
      echo = None;
      client_sees = None;
      server_sees = Some 1005;
      outcome = outcome.Half;
    }) ≡ codes "b\thalf\tclosed -\trunning\n" }
    ensures object { named_report_object (codes "a\"b") (record {
      client = side.Cut;
      server = side.Ended;
      first = None;
      echo = None;
      client_sees = Some 1006;
      server_sees = Some 1006;
      outcome = outcome.Abnormal;
    }) ≡ codes "{\"file\":\"a\\\"b\",\"type\":\"report\",\"client\":{\"state\":\"cut\"},\"server\":{\"state\":\"ended\"},\"first\":null,\"echo\":null,\"client_sees\":1006,\"server_sees\":1006,\"outcome\":\"abnormal\"}\n" }
{}

/// The seven lines of reports: each word of each field.
pub fn of_reports()
    ensures clean { report_lines (record {
      client = side.Closed (Some 1000);
      server = side.Closed (Some 1000);
      first = Some Client;
      echo = Some true;
      client_sees = Some 1000;
      server_sees = Some 1000;
      outcome = outcome.Clean;
    }) ≡ codes "client closed 1000\nserver closed 1000\nfirst client\necho yes\nclient-sees 1000\nserver-sees 1000\noutcome clean\n" }
    ensures complete { report_lines (record {
      client = side.Closed (Some 1000);
      server = side.Closed None;
      first = Some Server;
      echo = Some false;
      client_sees = Some 1005;
      server_sees = Some 1000;
      outcome = outcome.Complete;
    }) ≡ codes "client closed 1000\nserver closed -\nfirst server\necho no\nclient-sees 1005\nserver-sees 1000\noutcome complete\n" }
    ensures ended { report_lines (record {
      client = side.Running;
      server = side.Ended;
      first = None;
      echo = None;
      client_sees = Some 1006;
      server_sees = None;
      outcome = outcome.Abnormal;
    }) ≡ codes "client running\nserver ended\nfirst -\necho -\nclient-sees 1006\nserver-sees -\noutcome abnormal\n" }
    ensures cut { report_lines (record {
      client = side.Cut;
      server = side.Running;
      first = None;
      echo = None;
      client_sees = None;
      server_sees = Some 1006;
      outcome = outcome.Abnormal;
    }) ≡ codes "client cut\nserver running\nfirst -\necho -\nclient-sees -\nserver-sees 1006\noutcome abnormal\n" }
    ensures half { report_lines (record {
      client = side.Running;
      server = side.Closed (Some 1001);
      first = Some Server;
      echo = None;
      client_sees = Some 1001;
      server_sees = None;
      outcome = outcome.Half;
    }) ≡ codes "client running\nserver closed 1001\nfirst server\necho -\nclient-sees 1001\nserver-sees -\noutcome half\n" }
    ensures refused { report_lines (record {
      client = side.Closed None;
      server = side.Refused (record { offset = 3; reason = reason.CloseCode });
      first = Some Client;
      echo = None;
      client_sees = Some 1006;
      server_sees = Some 1005;
      outcome = outcome.Failed;
    }) ≡ codes "client closed -\nserver refused 3 close-code 1002\nfirst client\necho -\nclient-sees 1006\nserver-sees 1005\noutcome failed\n" }
    ensures nothing { report_lines (record {
      client = side.Running;
      server = side.Running;
      first = None;
      echo = None;
      client_sees = None;
      server_sees = None;
      outcome = outcome.Live;
    }) ≡ codes "client running\nserver running\nfirst -\necho -\nclient-sees -\nserver-sees -\noutcome open\n" }
{}

/// What reports mean, for people: one of each outcome.
pub fn of_report_meanings()
    ensures clean { (report : Report) → meaning_lines outcome.Clean (record report {
      client = side.Closed (Some 1000);
      server = side.Closed (Some 1000);
      first = Some Server;
      echo = Some true;
    }) ≡ codes "The server closed first, with code 1000, and the client answered with the same.\nBoth directions then ended.\n" }
    ensures complete { (report : Report) → meaning_lines outcome.Complete (record report {
      client = side.Closed None;
      server = side.Closed (Some 1001);
      first = Some Client;
      echo = Some false;
    }) ≡ codes "The client closed first, without a code, and the server answered with code 1001.\nThe capture lacks the end of a direction.\n" }
    ensures ended { (report : Report) → meaning_lines outcome.Abnormal (record report {
      client = side.Closed (Some 1000);
      server = side.Ended;
    }) ≡ codes "The client sent a Close with code 1000.\nThe server's direction ended between two messages, without a Close.\nNext: wsn explain abnormal\n" }
    ensures cut { (report : Report) → meaning_lines outcome.Abnormal (record report {
      client = side.Cut;
      server = side.Running;
    }) ≡ codes "The client's direction ended inside a frame or a message, without a Close.\nNext: wsn explain cut\n" }
    ensures half { (report : Report) → meaning_lines outcome.Half (record report {
      client = side.Running;
      server = side.Closed (Some 1001);
      first = Some Server;
    }) ≡ codes "The server sent a Close with code 1001; no answer of the client is in the capture.\nNext: wsn explain half\n" }
    ensures nothing { (report : Report) → meaning_lines outcome.Live report
        ≡ codes "Nothing is wrong so far: no side has closed, and no direction has ended.\nNext: wsn explain open\n" }
    ensures refused { (report : Report) → meaning_lines outcome.Failed (record report {
      client = side.Closed None;
      server = side.Refused (record { offset = 11; reason = reason.TextBad });
    }) ≡ codes "The client must refuse byte 11 of what the server sent: text-bad\n(the offending byte is the first that can't follow what came before in UTF-8).\nNext: wsn explain text-bad\n" }
    ensures exchanged { (report : Report) → meaning_lines outcome.Failed (record report {
      client = side.Refused (record { offset = 1; reason = reason.MaskMissing });
      server = side.Refused (record { offset = 1; reason = reason.MaskPresent });
    }) ≡ codes "The client's first frame has no masking key and the server's has one, as if each were the other's.\nNext: sed 's/^C/X/; s/^S/C/; s/^X/S/' CAPTURE > right.capture\n" }
    ensures reserved { (report : Report) → meaning_lines outcome.Failed (record report {
      client = side.Refused (record { offset = 0; reason = reason.ReservedBits });
      server = side.Running;
    }) ≡ codes "Without an extension the server must refuse byte 0 of what the client sent: reserved-bits\n(a reserved bit (hex 40, 20 or 10) is set in the byte where a frame should begin).\nNext: recipes/inflate CAPTURE > inflated.capture, or wsn explain reserved-bits\n" }
{}
