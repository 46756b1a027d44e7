//! What words ask for that have no options (docs/USAGE.md, the commands). The first word is the program's name.

ghost use Rattle.std.specs.Prelude.{◌≡◌, [], ◌∷◌, false, None, Some, codes};
ghost use Rattle.fhir_words.specs.declared.request.Audience.TheVariants.{Readers};
ghost use Rattle.fhir_words.specs.declared.request.Format.TheVariants.{Text};
ghost use Rattle.fhir_words.specs.declared.request.Detail.TheVariants.{Once};
ghost use Rattle.fhir_words.specs.Requests.{certify, migrate, validate, validate_given, snapshot, derive, counter, counter_given, check, unread, answer, request, serve, gather, validate_all, audit, compare};
ghost use Rattle.tool_laws.specs.Questions.{asked, told_once};

/// Each command that is answered once, with the words behind it in the order of the manual.
pub fn plain_questions()
    ensures check { asked (codes "check" ∷ codes "pack" ∷ []) ≡ Some (answer (request (check (codes "pack") None [] told_once))) }
    ensures check_beside { asked (codes "check" ∷ codes "pack" ∷ codes "cert" ∷ [])
        ≡ Some (answer (request (check (codes "pack") (Some (codes "cert")) [] told_once))) }
    ensures derive { asked (codes "derive" ∷ codes "pack" ∷ codes "derived" ∷ codes "base" ∷ [])
        ≡ Some (answer (request (derive (codes "pack") (codes "derived") (codes "base")))) }
    ensures counter { asked (codes "counter" ∷ codes "pack" ∷ codes "derived" ∷ codes "base" ∷ [])
        ≡ Some (answer (request (counter (codes "pack") (codes "derived") (codes "base")))) }
    ensures counter_given { asked (codes "counter-given" ∷ codes "pack" ∷ codes "derived" ∷ codes "base" ∷ codes "file" ∷ [])
        ≡ Some (answer (request (counter_given (codes "pack") (codes "derived") (codes "base") (codes "file")))) }
    ensures certify { asked (codes "certify" ∷ codes "pack" ∷ codes "cert" ∷ []) ≡ Some (answer (request (certify (codes "pack") (codes "cert")))) }
    ensures migrate { asked (codes "migrate" ∷ codes "pack" ∷ codes "cert" ∷ []) ≡ Some (answer (request (migrate (codes "pack") (codes "cert")))) }
    ensures validate { asked (codes "validate" ∷ codes "pack" ∷ codes "profile" ∷ codes "resource" ∷ [])
        ≡ Some (answer (request (validate (codes "pack") (codes "profile") (codes "resource")))) }
    ensures validate_given { asked (codes "validate-given" ∷ codes "pack" ∷ codes "profile" ∷ codes "resource" ∷ codes "file" ∷ [])
        ≡ Some (answer (request (validate_given (codes "pack") (codes "profile") (codes "resource") (codes "file")))) }
    ensures unread { asked (codes "unread" ∷ codes "pack" ∷ []) ≡ Some (answer (request (unread (codes "pack") None))) }
    ensures unread_of_profile { asked (codes "unread" ∷ codes "pack" ∷ codes "profile" ∷ [])
        ≡ Some (answer (request (unread (codes "pack") (Some (codes "profile"))))) }
    ensures snapshot { asked (codes "snapshot" ∷ codes "pack" ∷ codes "url" ∷ []) ≡ Some (answer (request (snapshot (codes "pack") (codes "url")))) }
{}

/// Each command that goes on over lines, inputs or folders. A dash in the place of the profile says that each resource is judged by its own,
/// and in that of an input that it is standard input.
pub fn plain_runs()
    ensures serve { asked (codes "serve" ∷ codes "pack" ∷ []) ≡ Some (serve (codes "pack") None) }
    ensures serve_given { asked (codes "serve-given" ∷ codes "pack" ∷ codes "file" ∷ []) ≡ Some (serve (codes "pack") (Some (codes "file"))) }
    ensures gather { asked (codes "gather" ∷ codes "out" ∷ codes "first" ∷ codes "second" ∷ [])
        ≡ Some (gather (codes "out") (codes "first" ∷ codes "second" ∷ []) Once) }
    ensures validate_all { asked (codes "validate-all" ∷ codes "pack" ∷ codes "profile" ∷ codes "a.ndjson" ∷ codes "-" ∷ [])
        ≡ Some (validate_all (record {
          folder = codes "pack";
          profile = Some (codes "profile");
          inputs = Some (codes "a.ndjson") ∷ None ∷ [];
          given = None;
          format = Text;
          only_bad = false;
          skip_unknown = false;
        })) }
    ensures by_its_own { asked (codes "validate-all" ∷ codes "pack" ∷ codes "-" ∷ codes "a.ndjson" ∷ [])
        ≡ Some (validate_all (record {
          folder = codes "pack";
          profile = None;
          inputs = Some (codes "a.ndjson") ∷ [];
          given = None;
          format = Text;
          only_bad = false;
          skip_unknown = false;
        })) }
{}

/// The commands on whole packages: of `compare` the old one comes first, and readers are asked about.
pub fn plain_releases()
    ensures audit { asked (codes "audit" ∷ codes "pack" ∷ [])
        ≡ Some (audit (record { folder = codes "pack"; prefixes = []; given = None; page = None; certificates = None; against = None; format = Text })) }
    ensures compare { asked (codes "compare" ∷ codes "old" ∷ codes "new" ∷ [])
        ≡ Some (compare (record { old = codes "old"; new = codes "new"; audience = Readers; format = Text })) }
{}
