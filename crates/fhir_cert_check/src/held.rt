//! The constraints of a node that must hold, found by their texts.

ghost use Rattle.std.specs.Prelude.{◌≡◌, ◌∷◌, ◌++◌, [], true, false, List, OnOk, option_map};
ghost use Rattle.std.specs.List.{list_any};
ghost use Rattle.std.specs.Option.{option_map_or};
ghost use Rattle.fhir_json.specs.Tree.{Text};
ghost use Rattle.fhir_elements.specs.Constraint.{Constraint, must_hold};
ghost use Rattle.fhir_nodes.specs.Expressions.{expression_of};
ghost use Rattle.fhir_fp_syntax.specs.Expression.{Expression};
ghost use Rattle.fhir_fp_syntax.specs.Expression.{expression_of as tree_of};
ghost use Rattle.fhir_entail.specs.Entailment.{entails};
ghost use Rattle.fhir_entail.specs.Known.{Knows};
ghost use Rattle.fhir_cert_check.specs.Held.{has_text, has_key, is_text_of, is_key_of, Holds, answered_by};

use fhir_elements::ConstraintDef;
use fhir_entail::Known;
use fhir_fp_syntax::Expr;
use fhir_json::NoMemory;
use fhir_names::Index;
use std::alloc::Global;

/// Constraints that must hold.
#[derive(Drop)]
pub(crate) struct Held<'s> {
    // The expressions that are read.
    known: Known<'s>,
    // The texts of all expressions.
    texts: Index,
    // The keys of the constraints that have none.
    keys: Index,
}

impl<'s> Held<'s> {
    /// None, which takes no memory.
    pub(crate) fn new(alloc: Global) -> Held<'s>
        ensures { Holds result [] }
    {
        Held {
            known: Known::new(alloc),
            texts: Index::new(alloc),
            keys: Index::new(alloc),
        }
    }

    // Puts the text of a constraint that must hold, or its key.
    fn put_text(&mut self, alloc: Global, constraint: &ConstraintDef) -> Result<(), NoMemory>
        requires { must_hold constraint.now ≡ true }
        ensures known { OnOk result (self.new.known ≡ self.old.known) }
        ensures texts { OnOk result ((own : List Constraint) (text : Text) → has_text self.old text ≡ list_any (is_text_of text) own
            → has_text self.new text ≡ list_any (is_text_of text) (own ++ constraint.now ∷ [])) }
        ensures keys { OnOk result ((own : List Constraint) (key : Text) → has_key self.old key ≡ list_any (is_key_of key) own
            → has_key self.new key ≡ list_any (is_key_of key) (own ++ constraint.now ∷ [])) }
    {
        match constraint.expression() {
            Some(text) => self.texts.put(alloc, text, 0)?,
            None => self.keys.put(alloc, constraint.key(), 0)?,
        }
        Ok(())
    }

    fn put_expression(&mut self, expression: Option<&'s Expr>) -> Result<(), NoMemory>
        ensures texts { OnOk result (self.new.texts ≡ self.old.texts) }
        ensures keys { OnOk result (self.new.keys ≡ self.old.keys) }
        ensures known { OnOk result ((known : List Expression) → Knows self.old.known known
            → Knows self.new.known (known ++ option_map_or (λ e. tree_of e.now ∷ []) expression.entry [])) }
    {
        match expression {
            Some(expression) => self.known.put(expression),
            None => Ok(()),
        }
    }

    fn put_held(
        &mut self,
        alloc: Global,
        constraint: &ConstraintDef,
        expression: Option<&'s Expr>,
    ) -> Result<(), NoMemory>
        requires held { must_hold constraint.now ≡ true }
        requires read { option_map (λ e. tree_of e.now) expression ≡ expression_of constraint.now }
        ensures { OnOk result ((own : List Constraint) → Holds self.old own → Holds self.new (own ++ constraint.now ∷ [])) }
    {
        self.put_text(alloc, constraint)?;
        self.put_expression(expression)
    }

    /// Puts one behind the others, if it must hold. Its expression is that, where it is read. The one refusal is want of memory.
    #[tactic(auto, using(crate::proofs::Entailed::unheld_more))]
    pub(crate) fn put(
        &mut self,
        alloc: Global,
        constraint: &ConstraintDef,
        expression: Option<&'s Expr>,
    ) -> Result<(), NoMemory>
        requires { option_map (λ e. tree_of e.now) expression ≡ expression_of constraint.now }
        ensures { OnOk result ((own : List Constraint) → Holds self.old own → Holds self.new (own ++ constraint.now ∷ [])) }
    {
        if constraint.must_hold() {
            self.put_held(alloc, constraint, expression)
        } else {
            Ok(())
        }
    }

    fn entails(&self, expression: Option<&'s Expr>) -> bool
        ensures { (known : List Expression) → Knows self.now.known known
            → result ≡ option_map_or (λ e. entails known (tree_of e.now)) expression.entry false }
    {
        match expression {
            Some(expression) => self.known.entails(expression),
            None => false,
        }
    }

    /// Whether they answer one of a base node, whose expression is that, where it is read.
    pub(crate) fn answers(&self, base: &ConstraintDef, expression: Option<&'s Expr>) -> bool
        requires { option_map (λ e. tree_of e.now) expression ≡ expression_of base.now }
        ensures { (own : List Constraint) → Holds self.now own → result ≡ answered_by self.now own base.now }
    {
        match base.expression() {
            Some(text) => self.texts.get(text).is_some() || self.entails(expression),
            None => self.keys.get(base.key()).is_some(),
        }
    }
}
