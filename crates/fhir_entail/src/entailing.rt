//! What expressions entail.

ghost use Rattle.std.specs.Prelude.{◌≡◌, map};
ghost use Rattle.fhir_fp_syntax.specs.Expression.{expression_of};
ghost use Rattle.fhir_entail.specs.Entailment.{is_part, is_listed, entails};

use crate::sameness::same_expression;
use crate::totality::total;
use fhir_fp_syntax::{Expr, Operator};

/// Whether an expression is another one, or a part of the `and` that the other is.
fn is_part(expression: &Expr, known: &Expr) -> bool
    ensures { result ≡ is_part (expression_of expression.now) (expression_of known.now) }
{
    if same_expression(known, expression) {
        return true;
    }
    match known {
        Expr::Binary(operator, left, right) => match operator {
            Operator::And => is_part(expression, left) || is_part(expression, right),
            Operator::Index | Operator::Intersect | Operator::Union => false,
            Operator::Less | Operator::LessOrEqual => false,
            Operator::Greater | Operator::GreaterOrEqual => false,
            Operator::Equal | Operator::NotEqual | Operator::In | Operator::Contains => false,
            Operator::Or | Operator::Xor | Operator::Implies => false,
        },
        Expr::Empty | Expr::This | Expr::Resource | Expr::Context => false,
        Expr::Boolean(_) | Expr::Number(_) | Expr::Text(_) | Expr::Name(_) => false,
        Expr::Child(..) | Expr::Call(..) | Expr::Typed(..) | Expr::Filtered(..) => false,
    }
}

/// Whether one of the expressions is this one, or an `and` of which it is a part.
fn is_listed(known: &[&Expr], expression: &Expr) -> bool
    ensures { result ≡ is_listed (map (λ e. expression_of e.now) known.now) (expression_of expression.now) }
{
    known.iter().any(|other| is_part(expression, other))
}

/// Whether expressions that are true entail another one, by their form alone. An `and` is looked for by its sides, and they by theirs,
/// since what is known has both where it has the whole.
pub fn entails(known: &[&Expr], expression: &Expr) -> bool
    ensures { result ≡ entails (map (λ e. expression_of e.now) known.now) (expression_of expression.now) }
{
    match expression {
        Expr::Binary(operator, left, right) => match operator {
            Operator::And => entails(known, left) && entails(known, right),
            Operator::Or => {
                is_listed(known, expression)
                    || (entails(known, left) && total(right))
                    || (entails(known, right) && total(left))
            }
            Operator::Implies => {
                is_listed(known, expression) || (entails(known, right) && total(left))
            }
            Operator::Index | Operator::Intersect | Operator::Union => {
                is_listed(known, expression)
            }
            Operator::Less | Operator::LessOrEqual => is_listed(known, expression),
            Operator::Greater | Operator::GreaterOrEqual => is_listed(known, expression),
            Operator::Equal | Operator::NotEqual => is_listed(known, expression),
            Operator::In | Operator::Contains | Operator::Xor => is_listed(known, expression),
        },
        Expr::Empty | Expr::This | Expr::Resource | Expr::Context => is_listed(known, expression),
        Expr::Boolean(_) | Expr::Number(_) | Expr::Text(_) => is_listed(known, expression),
        Expr::Name(_) | Expr::Child(..) | Expr::Call(..) => is_listed(known, expression),
        Expr::Typed(..) | Expr::Filtered(..) => is_listed(known, expression),
    }
}
