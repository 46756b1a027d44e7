//! Elements at work.

ghost use Rattle.std.specs.Prelude.{◌≡◌, [], ◌∷◌, map, true, false, None, Some, Ok, codes};
ghost use Rattle.fhir_elements.specs.Element.{element_of, required_value_set};
ghost use Rattle.fhir_elements.specs.Binding.{strength_of, is_required};
ghost use Rattle.fhir_elements.specs.Constraint.{severity_of, is_error};
ghost use Rattle.fhir_elements.specs.Max.{max_of};
ghost use Rattle.fhir_elements.specs.Slicing.{discriminator_type_of, slicing_rules_of};
ghost use Rattle.fhir_elements.specs.declared.binding.Strength.TheVariants as strengths;
ghost use Rattle.fhir_elements.specs.declared.constraint.Severity.TheVariants as severities;
ghost use Rattle.fhir_elements.specs.declared.max.Max.TheVariants.{Unbounded, UpTo};
ghost use Rattle.fhir_elements.specs.declared.slicing.DiscriminatorType.TheVariants as discriminators;
ghost use Rattle.fhir_elements.specs.declared.slicing.SlicingRules.TheVariants as slicings;
ghost use Rattle.worked_examples.specs.Elements.{full, full_element};

/// What an element with every field says (FHIR R4, ElementDefinition): each field has its own value (`read`). Its binding is
/// extensible, so no code has to be in the value set (`not_required`).
pub fn element_example()
    ensures read { element_of full ≡ Ok full_element }
    ensures not_required { required_value_set full_element ≡ None }
{}

/// Each word of each table, and a word that is in none (FHIR R4, value sets of ElementDefinition).
pub fn element_tables()
    ensures strengths { map strength_of (codes "required" ∷ codes "extensible" ∷ codes "preferred" ∷ codes "example" ∷ codes "other" ∷ [])
        ≡ Some strengths.Required ∷ Some strengths.Extensible ∷ Some strengths.Preferred ∷ Some strengths.Example ∷ None ∷ [] }
    ensures required { map is_required (strengths.Required ∷ strengths.Extensible ∷ strengths.Preferred ∷ strengths.Example ∷ [])
        ≡ true ∷ false ∷ false ∷ false ∷ [] }
    ensures severities { map severity_of (codes "error" ∷ codes "warning" ∷ codes "fatal" ∷ [])
        ≡ Some severities.Error ∷ Some severities.Warning ∷ None ∷ [] }
    ensures errors { map is_error (severities.Error ∷ severities.Warning ∷ []) ≡ true ∷ false ∷ [] }
    ensures discriminators { map discriminator_type_of
        (codes "value" ∷ codes "exists" ∷ codes "pattern" ∷ codes "type" ∷ codes "profile" ∷ codes "position" ∷ [])
        ≡ Some discriminators.Value ∷ Some discriminators.Exists ∷ Some discriminators.Pattern ∷ Some discriminators.TypeCode
        ∷ Some discriminators.Profile ∷ None ∷ [] }
    ensures rules { map slicing_rules_of (codes "closed" ∷ codes "open" ∷ codes "openAtEnd" ∷ codes "shut" ∷ [])
        ≡ Some slicings.Closed ∷ Some slicings.Open ∷ Some slicings.OpenAtEnd ∷ None ∷ [] }
    ensures most { map max_of (codes "*" ∷ codes "0" ∷ codes "3" ∷ codes "03" ∷ [])
        ≡ Some Unbounded ∷ Some (UpTo 0) ∷ Some (UpTo 3) ∷ None ∷ [] }
{}
