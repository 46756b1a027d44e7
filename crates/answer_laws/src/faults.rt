//! Which of several faults is told (docs/USAGE.md, What it answers).

ghost use Rattle.std.specs.Prelude.{◌≡◌, ◌∷◌, ◌||◌, List, Option, None, Some, true, false, codes, if◌then◌else◌};
ghost use Rattle.fhir_json.specs.Tree.{Text};
ghost use Rattle.fhir_package.specs.Faults.{fault_number, fault_subject};
ghost use Rattle.fhir_package.specs.Surveying.{FileFault, refusal};
ghost use Rattle.fhir_schema.specs.Schemas.{SchemaValue};
ghost use Rattle.fhir_derive_check.specs.declared.fault.DeriveFault.TheVariants.{Missing, Unusable};
ghost use Rattle.fhir_derive_check.specs.declared.fault.Side.TheVariants.{Derived, Base};
ghost use Rattle.fhir_derive_check.specs.Faults.{is_missing, is_unusable, derive_refusal};
ghost use Rattle.fhir_words.specs.Requests.{RequestValue, validate_given};
ghost use Rattle.fhir_answers.specs.Answering.{IsReply, answer_by};
ghost use Rattle.fhir_answers.specs.Replying.{ReplyValue, told, fault_text};
ghost use Rattle.fhir_answers.specs.Session.{SessionValue};
ghost use Rattle.answer_laws.specs.Answers.{Replies};
ghost use Rattle.answer_laws.specs.Manual.{lists_faults};

/// What is wrong in the files of the folder is told before all else, but of `check`, which lists it (`package`); of `validate-given` that the resource can't be
/// read before what is wrong with the file of texts (`resource`). Of two profiles that one isn't there is told before that one can't be used (`missing`,
/// `unusable`), and of each the derived profile's before the base's.
pub fn first_faults()
    ensures package { (q : RequestValue) (s : SessionValue) (files : List (Option Text)) (reply : ReplyValue) (fault : FileFault)
        → lists_faults q ≡ false → refusal s.survey ≡ Some fault → IsReply (answer_by q s files) reply
        → reply ≡ told 3 (fault_text (fault_number fault) (fault_subject fault)) }
    ensures resource { (s : SessionValue) (folder profile name given : Text) (files : List (Option Text)) (reply : ReplyValue)
        → Replies (validate_given folder profile name given) s (None ∷ files) reply → reply ≡ told 3 (fault_text (codes "read") name) }
    ensures missing { (s : SchemaValue) (derived base : Text) → (is_missing s derived || is_missing s base) ≡ true
        → derive_refusal s derived base ≡ Some (Missing (if is_missing s derived then Derived else Base)) }
    ensures unusable { (s : SchemaValue) (derived base : Text) → (is_missing s derived || is_missing s base) ≡ false
        → (is_unusable s derived || is_unusable s base) ≡ true
        → derive_refusal s derived base ≡ Some (Unusable (if is_unusable s derived then Derived else Base)) }
{}
