//! What commands leave, and what is replied, at work.

ghost use Rattle.std.specs.Prelude.{◌≡◌, ◌∷◌, [], Some, None, codes};
ghost use Rattle.fhir_package.specs.declared.kind.Kind.TheVariants.{ValueSet, CodeSystem};
ghost use Rattle.fhir_package.specs.Changing.{has_twice};
ghost use Rattle.fhir_commands.specs.Commands.{put, remove, validate};
ghost use Rattle.fhir_commands.specs.declared.reply.PutAnswer.TheVariants as puts;
ghost use Rattle.fhir_commands.specs.declared.reply.RemoveAnswer.TheVariants as removes;
ghost use Rattle.fhir_reach.specs.Keys.{of_url, of_code};
ghost use Rattle.fhir_registry.specs.Session.{definitions_of, put_answer, remove_answer, starts, after, after_all};
ghost use Rattle.worked_examples.specs.Sessions.{set, system, nameless, patient, unsound, held};

/// A definition that is put in takes the place of the one of its kind and url, and any other goes behind those of its kind (`put`). One
/// of the same url and another kind stays (`of_kind`). An empty list is done, and changes nothing (`none`).
pub fn lists_put_in()
    ensures put { after (put (set (codes "w") (codes "new") ∷ set (codes "u") (codes "new") ∷ [])) held
        ≡ record (held) { value_sets = (codes "u", set (codes "u") (codes "new")) ∷ (codes "v", set (codes "v") (codes "old")) ∷ (codes "w", set (codes "w") (codes "new")) ∷ [] } }
    ensures of_kind { after (put (system (codes "v") (codes "new") ∷ [])) held
        ≡ record (held) { code_systems = (codes "u", system (codes "u") (codes "old")) ∷ (codes "v", system (codes "v") (codes "new")) ∷ [] } }
    ensures done { put_answer (definitions_of (set (codes "w") (codes "new") ∷ set (codes "u") (codes "new") ∷ [])) ≡ puts.Done }
    ensures none { after (put []) held ≡ held }
    ensures nothing { put_answer (definitions_of []) ≡ puts.Done }
{}

/// A list of which one is no definition, wherever it stands, isn't put in (`nameless`, `patient`, `unsound`); nor is one with two of one
/// kind and url (`twice`). A bad one comes before a double one (`both`). One url of two kinds is no double (`kinds`). What isn't put in
/// changes nothing (`whole`, `single`).
pub fn lists_refused()
    ensures nameless { put_answer (definitions_of (set (codes "w") (codes "n") ∷ nameless ∷ [])) ≡ puts.NoDefinition }
    ensures patient { put_answer (definitions_of (patient ∷ set (codes "w") (codes "n") ∷ [])) ≡ puts.NoDefinition }
    ensures unsound { put_answer (definitions_of (unsound ∷ [])) ≡ puts.NoDefinition }
    ensures twice { put_answer (definitions_of (set (codes "w") (codes "n") ∷ set (codes "u") (codes "n") ∷ set (codes "w") (codes "m") ∷ [])) ≡ puts.Twice }
    ensures both { put_answer (definitions_of (set (codes "w") (codes "n") ∷ set (codes "w") (codes "n") ∷ nameless ∷ [])) ≡ puts.NoDefinition }
    ensures kinds { put_answer (definitions_of (set (codes "w") (codes "n") ∷ system (codes "w") (codes "n") ∷ [])) ≡ puts.Done }
    ensures whole { after (put (set (codes "u") (codes "new") ∷ nameless ∷ [])) held ≡ held }
    ensures single { after (put (set (codes "u") (codes "new") ∷ set (codes "u") (codes "newer") ∷ [])) held ≡ held }
{}

/// A url that is taken out takes the definitions of each kind with it, and no other (`removed`). Of one that isn't there that is said
/// (`absent`), and a resource that is judged changes nothing (`judged`). Commands are carried out from the left (`in_turn`).
pub fn urls_removed()
    ensures removed { after (remove (codes "u")) held
        ≡ record (held) { value_sets = (codes "v", set (codes "v") (codes "old")) ∷ []; code_systems = [] } }
    ensures told { remove_answer (codes "u") held ≡ removes.Done }
    ensures absent { remove_answer (codes "w") held ≡ removes.Absent }
    ensures judged { after (validate (codes "p") (codes "{}")) held ≡ held }
    ensures in_turn { after_all (remove (codes "u") ∷ put (set (codes "u") (codes "new") ∷ []) ∷ []) held
        ≡ record (held) { value_sets = (codes "v", set (codes "v") (codes "old")) ∷ (codes "u", set (codes "u") (codes "new")) ∷ []; code_systems = [] } }
{}

/// A validation begins with the profile, and the types that the resource names where the bytes are one (`read`); of bytes that are no JSON
/// with the profile alone (`unread`).
pub fn starts_example()
    ensures read { starts (codes "urn:P") (codes "{\"resourceType\":\"A\",\"b\":\"C/1\"}") ≡ of_url (codes "urn:P") ∷ of_code (codes "A") ∷ of_code (codes "C") ∷ [] }
    ensures unread { starts (codes "urn:P") (codes "{\"resourceType\":\"A\"") ≡ of_url (codes "urn:P") ∷ [] }
{}
