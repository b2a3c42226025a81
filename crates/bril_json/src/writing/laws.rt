// Laws of the canonical JSON. Each function states some, and does nothing when it is called.

ghost use Rattle.bril_tree.specs.SourceLaws.{CanonicalSpells, CanonicalSpellsAlone, CanonicalTellsTrees};
ghost use Rattle.bril_json.specs.Canonical.{canonical_json};
ghost use Rattle.bril_json.specs.Reading.{JsonOf};

/// The canonical JSON of a tree is that tree and no other, and no two trees have the same canonical JSON.
pub fn canonical_json_is_read()
    ensures is_tree { CanonicalSpells canonical_json JsonOf }
    ensures alone { CanonicalSpellsAlone canonical_json JsonOf }
    ensures tells { CanonicalTellsTrees canonical_json }
{}
