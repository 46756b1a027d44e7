//! Lines of a server: what they ask for, and what is replied.

ghost use Rattle.std.specs.Prelude.{◌≡◌, ℕ, List, [], ◌∷◌, true, false, None, Some, codes};
ghost use Rattle.std.specs.Fmt.{decimal};
ghost use Rattle.fhir_json.specs.Tree.{Text, Tree, number, string};
ghost use Rattle.fhir_commands.specs.declared.reply.Standing.TheVariants.{Conforms, Violates, Open, Fault};
ghost use Rattle.fhir_commands.specs.Commands.{CommandValue, put, remove, validate, derive, asks_same, command_of};
ghost use Rattle.fhir_commands.specs.Replies.{derive as derive_reply, validate as validate_reply, derived, refuted, missing, unusable, reply_tree};
ghost use Rattle.tool_laws.specs.Trees.{list, fields};

/// Which objects ask for a certificate: of one member `derive` alone, with the url of the derived profile and then that of its base.
pub fn derive_commands()
    ensures both { command_of (fields ((codes "derive", list (string (codes "urn:derived") ∷ string (codes "urn:base") ∷ [])) ∷ []))
        ≡ Some (derive (codes "urn:derived") (codes "urn:base")) }
    ensures one { command_of (fields ((codes "derive", list (string (codes "urn:derived") ∷ [])) ∷ [])) ≡ None }
    ensures three { command_of (fields ((codes "derive", list (string (codes "a") ∷ string (codes "b") ∷ string (codes "c") ∷ [])) ∷ [])) ≡ None }
    ensures first_a_number { command_of (fields ((codes "derive", list (number (codes "1") ∷ string (codes "urn:base") ∷ [])) ∷ [])) ≡ None }
    ensures second_a_number { command_of (fields ((codes "derive", list (string (codes "urn:derived") ∷ number (codes "1") ∷ [])) ∷ [])) ≡ None }
    ensures a_text { command_of (fields ((codes "derive", string (codes "urn:derived")) ∷ [])) ≡ None }
{}

/// What is replied: `yes` and how many pairs the certificate has; `no`, with the pair that fails and its rule; or that a profile isn't there
/// (`missing`) or can't be used (`unusable`). And how a resource stands, with the outcome that says so.
pub fn derive_replies()
    ensures yes { (certificate : List ℕ) (pairs : ℕ) → reply_tree (derive_reply (derived certificate pairs))
        ≡ fields ((codes "derive", string (codes "yes")) ∷ (codes "pairs", number (decimal pairs)) ∷ []) }
    ensures no { (at rule : Text) → reply_tree (derive_reply (refuted at rule))
        ≡ fields ((codes "derive", string (codes "no")) ∷ (codes "at", string at) ∷ (codes "rule", string rule) ∷ []) }
    ensures missing { reply_tree (derive_reply missing) ≡ fields ((codes "derive", string (codes "D1")) ∷ []) }
    ensures unusable { reply_tree (derive_reply unusable) ≡ fields ((codes "derive", string (codes "D2")) ∷ []) }
    ensures conforms { (outcome : Tree) → reply_tree (validate_reply Conforms outcome)
        ≡ fields ((codes "validate", string (codes "conforms")) ∷ (codes "outcome", outcome) ∷ []) }
    ensures violates { (outcome : Tree) → reply_tree (validate_reply Violates outcome)
        ≡ fields ((codes "validate", string (codes "violates")) ∷ (codes "outcome", outcome) ∷ []) }
    ensures open { (outcome : Tree) → reply_tree (validate_reply Open outcome)
        ≡ fields ((codes "validate", string (codes "open")) ∷ (codes "outcome", outcome) ∷ []) }
    ensures fault { (outcome : Tree) → reply_tree (validate_reply Fault outcome)
        ≡ fields ((codes "validate", string (codes "fault")) ∷ (codes "outcome", outcome) ∷ []) }
{}

/// Two questions are asked the same only where they are the same, so that no reply that is kept answers another question (`validate`,
/// `derive`, `others`); and a question asks the same as itself (`validate_again`, `derive_again`). What changes definitions asks nothing
/// (`put`, `remove`).
pub fn same_questions()
    ensures validate { (profile other : Text) (bytes others : List ℕ) → asks_same (validate profile bytes) (validate other others) ≡ true
        → validate profile bytes ≡ validate other others }
    ensures derive { (a b c d : Text) → asks_same (derive a b) (derive c d) ≡ true → derive a b ≡ derive c d }
    ensures others { (profile a b : Text) (bytes : List ℕ) → asks_same (validate profile bytes) (derive a b) ≡ false }
    ensures validate_again { (profile : Text) (bytes : List ℕ) → asks_same (validate profile bytes) (validate profile bytes) ≡ true }
    ensures derive_again { (a b : Text) → asks_same (derive a b) (derive a b) ≡ true }
    ensures put { (trees : List Tree) (c : CommandValue) → asks_same (put trees) c ≡ false }
    ensures remove { (url : Text) (c : CommandValue) → asks_same (remove url) c ≡ false }
{}
