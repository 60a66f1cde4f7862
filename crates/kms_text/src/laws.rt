//! Laws of the texts, as functions that do nothing.
ghost use Rattle.std.specs.Prelude.{◌≡◌, ℕ, ◌<◌, ◌^◌, Some, MatchOption};
ghost use Rattle.kms_world.specs.Id.{id_number};
ghost use Rattle.kms_text.specs.IdText.{id_text_of, read_id_of, id_of_number};
ghost use Rattle.kms_text.specs.Link.{link_of, read_ref_of};
ghost use Rattle.kms_text.specs.Time.{time_text_of};
ghost use Rattle.kms_text.specs.TimeGrammar.{IsTime};
ghost use Rattle.kms_text.specs.TimeForms.{read_time_of};

use crate::Kind;
use kms_world::Id;

/// The text of each id is read as that id.
pub fn id_text_is_read(id: &Id)
    ensures { read_id_of (id_text_of id.now) ≡ Some id.now }
{
    let _number = id.0;
}

/// The text of each time is read as that time.
pub fn time_text_is_read(moment: u64)
    requires { moment < 253_402_300_800 }
    ensures { read_time_of (time_text_of moment) ≡ Some moment }
{}

/// Two ids of one tag have equal texts only if they have one count.
pub fn id_texts_are_apart(tag: u64, first: u64, second: u64)
    requires tag { tag < 2 ^ 60 }
    requires first { first < 2 ^ 62 }
    requires second { second < 2 ^ 62 }
    requires equal { id_text_of (id_of_number (id_number tag first)) ≡ id_text_of (id_of_number (id_number tag second)) }
    ensures { first ≡ second }
{}

/// The link to an object is read as its id.
pub fn link_is_read(endpoint: &[u8], kind: Kind, id: &Id)
    ensures { read_ref_of kind (link_of endpoint.now kind id.now) ≡ Some id.now }
{
    let _number = id.0;
}

/// What is read as a time is what the grammar of times shows, and nothing else is read.
pub fn times_are_by_the_grammar(text: &[u8])
    ensures { MatchOption (read_time_of text.now) ((moment : ℕ) → ¬ IsTime text.now moment) (IsTime text.now) }
{}
