//! Laws of texts. Each is the contract of a function that does nothing.
ghost use Rattle.term_core.specs.Datum.{Datum};
ghost use Rattle.term_core.specs.Limits.{IsTerm};
ghost use Rattle.term_text.specs.Canonical.{IsReadBack, canonical, readable};
ghost use Rattle.term_text.specs.Laws.{HasOneFault, SpellsOne};

/// The canonical text of a term, followed by a dot and a line feed, is read as that term. The text after them is read
/// as it would be read alone.
pub fn canonical_text_is_read_back()
    ensures { (d : Datum) → IsTerm d → IsReadBack canonical d }
{}

/// The readable text of a term, followed by a dot and a line feed, is read as that term. The text after them is read as
/// it would be read alone.
pub fn readable_text_is_read_back()
    ensures { (d : Datum) → IsTerm d → IsReadBack readable d }
{}

/// A text spells at most one list of terms.
pub fn a_text_spells_one_list()
    ensures { SpellsOne }
{}

/// A text has at most one fault for which it is rejected, the first in reading order. A text that spells terms has
/// none, so it fails only if memory runs out.
pub fn a_text_has_one_fault()
    ensures { HasOneFault }
{}
