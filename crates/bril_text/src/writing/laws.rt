// Laws of the canonical text. Each function states some, and does nothing when it is called.

ghost use Rattle.bril_tree.specs.SourceLaws.{CanonicalSpells, CanonicalSpellsAlone, CanonicalTellsTrees};
ghost use Rattle.bril_text.specs.Canonical.{canonical_text};
ghost use Rattle.bril_text.specs.Reading.{Spells};

/// The canonical text of a tree spells that tree and no other, and no two trees have the same canonical text.
pub fn canonical_text_is_read()
    ensures spells { CanonicalSpells canonical_text Spells }
    ensures alone { CanonicalSpellsAlone canonical_text Spells }
    ensures tells { CanonicalTellsTrees canonical_text }
{}
