//! Times of day in expressions.

ghost use Rattle.std.specs.Prelude.{◌≡◌, true, false, codes};
ghost use Rattle.fhir_json.specs.Tree.{string};
ghost use Rattle.fhir_fp_syntax.specs.declared.expr.Operator.TheVariants.{Equal, NotEqual};
ghost use Rattle.fhir_fp_eval.specs.Example.{between, is, leaf};

/// Times of day are equal where all their parts are (FHIRPath N1, section 6.1): one is equal to itself (`same`), and not to a later one (`later`, `other`).
pub fn equal_times()
    ensures same { between Equal (leaf (codes "time") (string (codes "20:20:00"))) (leaf (codes "time") (string (codes "20:20:00"))) ≡ is true }
    ensures later { between Equal (leaf (codes "time") (string (codes "20:20:00"))) (leaf (codes "time") (string (codes "20:20:01"))) ≡ is false }
    ensures other { between NotEqual (leaf (codes "time") (string (codes "20:20:00"))) (leaf (codes "time") (string (codes "20:20:01"))) ≡ is true }
{}
