ghost use Rattle.fin_canon.specs.Laws.{CanonicalIsUnique, CanonicalIsValid, CanonicalStands, CanonicalStaysValid, EntriesName, NamedByEntries};

/// A canonical storage stands for its function.
pub fn canonical_stands()
    ensures { CanonicalStands }
{}

/// There is one, and so it is valid, where its size allows.
pub fn canonical_is_valid()
    ensures { CanonicalIsValid }
{}

/// Each storage of the canonical form is the canonical one, and two canonical ones are equal.
pub fn canonical_is_unique()
    ensures { CanonicalIsUnique }
{}

/// The function of a storage has a canonical storage in the storage's format.
pub fn canonical_stays_valid()
    ensures { CanonicalStaysValid }
{}

/// The function that entries name has their values at their coordinates, and the fill elsewhere.
pub fn named_by_entries()
    ensures { NamedByEntries }
{}

/// The entries of a tensor function name it, so that they can be stored.
pub fn entries_name()
    ensures { EntriesName }
{}
