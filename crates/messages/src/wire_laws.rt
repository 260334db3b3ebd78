//! Worked texts of messages, the contract of a function that does nothing.

ghost use Rattle.std.specs.Prelude.{◌≡◌, [], ◌∷◌, codes, length};
ghost use Rattle.messages.specs.Wire.{wire};
ghost use Rattle.messages.specs.WorkedTexts.{ann_asks_for, bob_approves, id, ls};
ghost use Rattle.messages.specs.declared.message.Message.TheVariants.{Request, Verdict};

/// Worked texts of messages: an approval, of 70 bytes; a request for one command, of 181 bytes; and
/// a request for two commands.
pub fn worked_messages()
    ensures approval { wire (Verdict bob_approves)
        ≡ codes "{\"at\":\"20260105083000Z\",\"by\":\"bob\",\"kind\":\"approve\",\"no\":7,\"of\":\"ann\"}" }
    ensures bytes_of_approval { length (wire (Verdict bob_approves)) ≡ 70 }
    ensures request { wire (Request (ann_asks_for (ls ∷ [])))
        ≡ codes "{\"at\":\"20260105060000Z\",\"by\":\"ann\",\"ceiling\":\"db-root\",\"cmnds\":[\"/bin/ls\"],\"from\":\"20260105090000Z\",\"hosts\":[\"db1\"],\"kind\":\"request\",\"no\":7,\"runas\":\"root\",\"until\":\"20260105110000Z\"}" }
    ensures bytes_of_request { length (wire (Request (ann_asks_for (ls ∷ [])))) ≡ 181 }
    ensures two_commands { wire (Request (ann_asks_for (ls ∷ id ∷ [])))
        ≡ codes "{\"at\":\"20260105060000Z\",\"by\":\"ann\",\"ceiling\":\"db-root\",\"cmnds\":[\"/bin/ls\",\"/usr/bin/id\"],\"from\":\"20260105090000Z\",\"hosts\":[\"db1\"],\"kind\":\"request\",\"no\":7,\"runas\":\"root\",\"until\":\"20260105110000Z\"}" }
{}
