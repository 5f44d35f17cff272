//! What holds of texts and their values as such: each law is what its function ensures, and the
//! functions do nothing.
ghost use Rattle.gp_json.specs.Laws.{SpellsOne, SpelledWell, CompactSpells, HasOneFault, SoundHasNoFault, SpellsSoundOrHasFault};

/// A text spells at most one value, and spells it well; a value that is spelled well is spelled by
/// its compact text (RFC 8259, sections 2 to 7).
pub fn a_text_spells_one_value()
    ensures one { SpellsOne }
    ensures well { SpelledWell }
    ensures compact { CompactSpells }
{}

/// A text spells a sound value or has a first fault: one of the two, one value, one fault. That it
/// has one is stated as 'it can't have neither', since whether it nests too deep is no computation.
pub fn a_text_is_sound_or_has_one_fault()
    ensures one_fault { HasOneFault }
    ensures not_both { SoundHasNoFault }
    ensures not_neither { SpellsSoundOrHasFault }
{}
