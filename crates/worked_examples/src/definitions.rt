//! Definitions at work.

ghost use Rattle.std.specs.Prelude.{◌≡◌, [], ◌∷◌, map, true, false, None, Some, codes};
ghost use Rattle.fhir_json.specs.Tree.{string, boolean};
ghost use Rattle.fhir_prims.specs.declared.prim.PrimType.TheVariants as prims;
ghost use Rattle.fhir_definition.specs.Kind.{kind_of};
ghost use Rattle.fhir_definition.specs.Bounds.{bound_type};
ghost use Rattle.fhir_definition.specs.declared.kind.TypeKind.TheVariants.{Primitive, Complex, Resource};
ghost use Rattle.worked_examples.specs.Definitions.{is_type_by, is_right_by};

/// Each kind of type by its word (FHIR R4, StructureDefinition, kind), and a kind that isn't read.
pub fn type_kinds()
    ensures { map kind_of (codes "primitive-type" ∷ codes "complex-type" ∷ codes "resource" ∷ codes "logical" ∷ [])
        ≡ Some Primitive ∷ Some Complex ∷ Some Resource ∷ None ∷ [] }
{}

/// What a `derivation` says (FHIR R4, StructureDefinition, derivation): a definition without one is a type's, as that of a
/// specialization is (`types`); any other word is wrong, and so is what is no text (`right`).
pub fn derivations()
    ensures types { map is_type_by (None ∷ Some (string (codes "specialization")) ∷ Some (string (codes "constraint")) ∷ [])
        ≡ true ∷ true ∷ false ∷ [] }
    ensures right { map is_right_by (None ∷ Some (string (codes "specialization")) ∷ Some (string (codes "constraint"))
        ∷ Some (string (codes "extension")) ∷ Some (boolean true) ∷ [])
        ≡ true ∷ true ∷ true ∷ false ∷ false ∷ [] }
{}

/// The type of each bound by its property (FHIR R4, ElementDefinition, minValue[x] and maxValue[x]), and of one that is not compared.
pub fn bound_types()
    ensures { map bound_type (codes "minValueInteger" ∷ codes "maxValueUnsignedInt" ∷ codes "minValuePositiveInt" ∷ codes "maxValueDecimal"
        ∷ codes "minValueDate" ∷ codes "maxValueDateTime" ∷ codes "minValueInstant" ∷ codes "maxValueTime" ∷ codes "minValueQuantity" ∷ [])
        ≡ Some prims.Integer ∷ Some prims.UnsignedInt ∷ Some prims.PositiveInt ∷ Some prims.Decimal
        ∷ Some prims.Date ∷ Some prims.DateTime ∷ Some prims.Instant ∷ Some prims.Time ∷ None ∷ [] }
{}
