//! What is true of the streams themselves, whoever reads them.
ghost use Rattle.std.specs.Prelude.{◌≡◌, ℕ, List, ◌++◌, map};
ghost use Rattle.std.specs.List.{flat_map, AllByRecursion};
ghost use Rattle.dap_frame.specs.Frame.{framed};
ghost use Rattle.dap_frame.specs.Framing.{Framing, end_of, IsAfter};
ghost use Rattle.dap_frame.specs.Grammar.{Spelled, IsSpelled, spelling, IsContent};
ghost use Rattle.dap_frame.specs.Stream.{End, AreMessages};

/// Two readings of one stream have the same messages and the same end.
pub fn readings_are_one()
    ensures { (stream : List ℕ) (contents others : List (List ℕ)) (end other : End) →
        AreMessages stream contents end → AreMessages stream others other → (contents ≡ others) × (end ≡ other) }
{}

/// Two framers that were fed one stream, each in pieces of its own, give the same messages in the
/// same order, and the stream ends alike for both.
pub fn pieces_do_not_matter()
    ensures { (f g : Framing) (stream : List ℕ) (taken others : List (List ℕ)) → IsAfter f stream taken → IsAfter g stream others →
        (taken ++ f.messages ≡ others ++ g.messages) × (end_of f ≡ end_of g) }
{}

/// Each stream has a reading.
pub fn streams_are_read()
    ensures { (stream : List ℕ) → (contents : List (List ℕ)) × (end : End) × AreMessages stream contents end }
{}

/// What is spelled as messages is read as these messages.
pub fn messages_are_read()
    ensures { (messages : List Spelled) → AllByRecursion IsSpelled messages →
        AreMessages (flat_map spelling messages) (map (λ m. m.content) messages) End.whole }
{}

/// What is framed is read again.
pub fn frames_are_read()
    ensures { (contents : List (List ℕ)) → AllByRecursion IsContent contents → AreMessages (flat_map framed contents) contents End.whole }
{}
