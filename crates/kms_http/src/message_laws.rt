//! Laws of messages and routes, as functions that do nothing.
ghost use Rattle.kms_http.specs.Cuts.{KeepsMessages, KeepsRefusals};
ghost use Rattle.std.specs.Prelude.{◌≡◌, ℕ, ◌++◌, Some};
ghost use Rattle.kms_http.specs.Heads.{IsWholeHead};
ghost use Rattle.kms_http.specs.MessageStream.{served_at};
ghost use Rattle.kms_http.specs.declared.served.Served.{Served};
ghost use Rattle.kms_http.specs.Routing.{AllowTells};
ghost use Rattle.kms_http.specs.Sizes.{AreShort, ArePartsShort};

/// `whole_head` gives a head exactly where httparse's grammar reads the bytes, as a whole, as that head.
pub fn whole_head_is_the_grammar()
    ensures { IsWholeHead }
{}

/// Neither a message nor a refusal at the front of a stream depends on the bytes that come later.
pub fn what_is_read_stays()
    ensures messages { KeepsMessages }
    ensures refusals { KeepsRefusals }
{}

/// A message has at least one byte and at most 81,920, and a part of one fewer.
pub fn messages_are_short()
    ensures messages { AreShort }
    ensures parts { ArePartsShort }
{}

/// What is served of a stream doesn't depend on how far the stream has come: a message stays, and what is none too, with
/// its refusal.
pub fn what_is_served_stays(bytes: &[u8], more: &[u8])
    ensures { (most n : ℕ) (what : Served) → served_at most n bytes.now ≡ Some what → served_at most n (bytes.now ++ more.now) ≡ Some what }
{}

/// The methods that a refusal names are those that the path has.
pub fn allow_tells_the_methods()
    ensures { AllowTells }
{}
