//! What definitions name, and what is reached from them, at work.

ghost use Rattle.std.specs.Prelude.{◌≡◌, [], ◌∷◌, codes};
ghost use Rattle.fhir_package.specs.declared.kind.Kind.TheVariants.{StructureDefinition, ValueSet, CodeSystem};
ghost use Rattle.fhir_reach.specs.Keys.{of_url, of_code};
ghost use Rattle.fhir_reach.specs.Naming.{structure_keys, value_set_keys};
ghost use Rattle.fhir_reach.specs.Reach.{named_by, keys_of, restrict, put_keys, removed_keys};
ghost use Rattle.fhir_reach.specs.Search.{reached};
ghost use Rattle.fhir_reach.specs.Starting.{starts_of};
ghost use Rattle.worked_examples.specs.Reaching.{profile, type_definition, other_definition, definitions, value_set, code_system, resource, another_profile};

/// The keys that definitions name. A profile names its base, its own type, and what its elements name, in the snapshot and in the
/// differential: types, profiles, target profiles, the definition in front of `#` in a content reference, and the value set of a binding
/// of any strength, each without its version (`profile`). A value set names code systems and value sets that it includes or excludes,
/// a code system by its url as it stands (`value_set`).
pub fn named_keys()
    ensures profile { structure_keys profile ≡ of_url (codes "urn:A") ∷ of_code (codes "A")
        ∷ of_code (codes "B") ∷ of_url (codes "urn:Q") ∷ of_url (codes "urn:R") ∷ of_url (codes "urn:S") ∷ of_url (codes "urn:T") ∷ of_code (codes "C")
        ∷ of_url (codes "urn:D") ∷ of_url (codes "urn:V") ∷ of_code (codes "E")
        ∷ of_code (codes "F") ∷ of_url (codes "urn:U") ∷ of_url (codes "urn:W") ∷ of_url (codes "urn:G") ∷ of_url (codes "urn:X") ∷ [] }
    ensures value_set { value_set_keys value_set ≡ of_url (codes "urn:s|8") ∷ of_url (codes "urn:W") ∷ of_url (codes "urn:X") ∷ of_url (codes "urn:Y")
        ∷ of_url (codes "urn:t") ∷ of_url (codes "urn:Z") ∷ [] }
{}

/// A validation begins with the profile, the types of the resource and of those in it, and those that its relative references name,
/// wherever they stand; each once.
pub fn starting_keys()
    ensures { starts_of (codes "urn:P") resource ≡ of_url (codes "urn:P") ∷ of_code (codes "A") ∷ of_code (codes "B") ∷ of_code (codes "F") ∷ of_code (codes "C") ∷ [] }
{}

/// For a type definition its url and the code of its type stand (`of_type`), and for a profile its url alone (`of_profile`): so the code
/// stands for the type definitions and not for the profile (`restricted`). Of a value set and of a code system the url stands too
/// (`of_value_set`, `of_code_system`), and each definition is kept of which some key is there (`kept`).
pub fn standing_keys()
    ensures of_type { keys_of StructureDefinition (codes "urn:A") type_definition ≡ of_url (codes "urn:A") ∷ of_code (codes "A") ∷ [] }
    ensures of_profile { keys_of StructureDefinition (codes "urn:P") profile ≡ of_url (codes "urn:P") ∷ [] }
    ensures of_value_set { keys_of ValueSet (codes "urn:V") value_set ≡ of_url (codes "urn:V") ∷ [] }
    ensures of_code_system { keys_of CodeSystem (codes "urn:s") code_system ≡ of_url (codes "urn:s") ∷ [] }
    ensures restricted { restrict definitions (of_code (codes "A") ∷ [])
        ≡ record (definitions) { structure_definitions = (codes "urn:A", type_definition) ∷ (codes "urn:O", other_definition) ∷ []; value_sets = []; code_systems = [] } }
    ensures kept { restrict definitions (of_url (codes "urn:s") ∷ of_url (codes "urn:V") ∷ of_url (codes "urn:O") ∷ [])
        ≡ record (definitions) { structure_definitions = (codes "urn:O", other_definition) ∷ []; value_sets = (codes "urn:V", value_set) ∷ []; code_systems = (codes "urn:s", code_system) ∷ [] } }
{}

/// What is named by the definitions for which a key stands: a url, for the StructureDefinition and the value set of that url (`of_url`);
/// the code of a type, for each of its type definitions and for no profile of it (`of_code`). What they name is followed on (`on`).
#[tactic(auto, unfolding(fhir_reach::specs::Search::reached))]
pub fn followed_keys()
    ensures of_url { named_by definitions (of_url (codes "urn:A")) ≡ of_code (codes "A") ∷ value_set_keys value_set }
    ensures of_code { named_by definitions (of_code (codes "A")) ≡ of_code (codes "A") ∷ of_url (codes "urn:B") ∷ of_code (codes "A") ∷ [] }
    ensures on { reached definitions (of_url (codes "urn:A") ∷ []) ≡ of_url (codes "urn:A") ∷ of_code (codes "A")
        ∷ of_url (codes "urn:s|8") ∷ of_url (codes "urn:W") ∷ of_url (codes "urn:X") ∷ of_url (codes "urn:Y") ∷ of_url (codes "urn:t") ∷ of_url (codes "urn:Z")
        ∷ of_url (codes "urn:B") ∷ [] }
{}

/// The keys that a change touches: those of the definition that is put in and of the one of its kind and url that it takes the place of
/// (`put`), or those of the definitions of a url that are taken out, of each kind (`removed`).
pub fn changed_keys()
    ensures put { put_keys another_profile definitions ≡ of_url (codes "urn:A") ∷ of_url (codes "urn:A") ∷ of_code (codes "A") ∷ [] }
    ensures removed { removed_keys (codes "urn:A") definitions ≡ of_url (codes "urn:A") ∷ of_code (codes "A") ∷ of_url (codes "urn:A") ∷ of_url (codes "urn:A") ∷ [] }
{}
