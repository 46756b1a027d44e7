//! A law: what the notes on archives say of these.

ghost use Rattle.std.specs.Prelude.{◌≡◌, List, None, Any, Contains};
ghost use Rattle.fhir_archives.specs.Archives.{Archive, Dependency, Note, name_of, dependencies_of, no_name, notes};
ghost use Rattle.fhir_archives.specs.Telling.{IsUnmet, Tells, IsTrueOf};

/// A dependency is told exactly where no `package.json` has its name and, if it is on a version, that version; that an archive tells no
/// name is noted exactly where it tells none; and whatever is noted is true of an archive.
pub fn telling()
    ensures unmet { (archives : List Archive) (a : Archive) (d : Dependency) → Contains archives a
        → Contains (dependencies_of a) d → IsUnmet archives d → Any (Tells a.0 d) (notes archives) }
    ensures nameless { (archives : List Archive) (a : Archive) → Contains archives a → name_of a ≡ None
        → Contains (notes archives) (no_name a.0) }
    ensures only { (archives : List Archive) (note : Note) → Contains (notes archives) note
        → (a : Archive) × Contains archives a × IsTrueOf archives a note }
{}
