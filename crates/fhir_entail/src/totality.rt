//! Expressions that can't fault.

ghost use Rattle.std.specs.Prelude.{◌≡◌};
ghost use Rattle.fhir_fp_syntax.specs.Expression.{expression_of};
ghost use Rattle.fhir_entail.specs.Total.{joins_truths, is_equality, joins_lists, takes_lists, tests_lists, is_negation, is_where, is_of_type, is_total, is_total_truth};

use fhir_fp_syntax::{Expr, Filter, Function, Operator, TypeTest};

pub(crate) fn joins_truths(operator: Operator) -> bool
    ensures { result ≡ joins_truths operator }
{
    matches!(
        operator,
        Operator::And | Operator::Or | Operator::Xor | Operator::Implies
    )
}

fn is_equality(operator: Operator) -> bool
    ensures { result ≡ is_equality operator }
{
    matches!(operator, Operator::Equal | Operator::NotEqual)
}

fn joins_lists(operator: Operator) -> bool
    ensures { result ≡ joins_lists operator }
{
    matches!(operator, Operator::Union | Operator::Intersect)
}

fn takes_lists(function: Function) -> bool
    ensures { result ≡ takes_lists function }
{
    matches!(
        function,
        Function::Children | Function::Descendants | Function::First | Function::Count
    )
}

fn tests_lists(function: Function) -> bool
    ensures { result ≡ tests_lists function }
{
    matches!(
        function,
        Function::Exists | Function::Empty | Function::HasValue
    )
}

fn is_negation(function: Function) -> bool
    ensures { result ≡ is_negation function }
{
    matches!(function, Function::Not)
}

fn is_where(filter: Filter) -> bool
    ensures { result ≡ is_where filter }
{
    matches!(filter, Filter::Where)
}

fn is_of_type(test: TypeTest) -> bool
    ensures { result ≡ is_of_type test }
{
    matches!(test, TypeTest::OfType)
}

/// Whether an expression has a result wherever it is evaluated.
#[cycle(total)]
fn is_total(expression: &Expr) -> bool
    ensures { result ≡ is_total (expression_of expression.now) }
{
    match expression {
        Expr::Empty => true,
        Expr::Boolean(_) => true,
        Expr::Number(_) => true,
        Expr::Text(_) => true,
        Expr::This => true,
        Expr::Resource => true,
        Expr::Context => true,
        Expr::Name(_) => true,
        Expr::Child(a, _) => is_total(a),
        Expr::Call(function, a) => takes_lists(*function) && is_total(a),
        Expr::Typed(test, a, _) => is_of_type(*test) && is_total(a),
        Expr::Filtered(filter, a, c) => is_where(*filter) && is_total(a) && total(c),
        Expr::Binary(operator, a, b) => joins_lists(*operator) && is_total(a) && is_total(b),
    }
}

/// Whether an expression has a truth (true, false or none) wherever it is evaluated, by its form alone: it can't fault.
#[cycle(total)]
pub fn total(expression: &Expr) -> bool
    ensures { result ≡ is_total_truth (expression_of expression.now) }
{
    match expression {
        Expr::Empty => false,
        Expr::Boolean(_) => true,
        Expr::Number(_) => false,
        Expr::Text(_) => false,
        Expr::This => false,
        Expr::Resource => false,
        Expr::Context => false,
        Expr::Name(_) => false,
        Expr::Child(_, _) => false,
        Expr::Call(function, a) => {
            (tests_lists(*function) && is_total(a)) || (is_negation(*function) && total(a))
        }
        Expr::Typed(_, _, _) => false,
        Expr::Filtered(filter, a, c) => !is_where(*filter) && is_total(a) && total(c),
        Expr::Binary(operator, a, b) => {
            (is_equality(*operator) && is_total(a) && is_total(b))
                || (joins_truths(*operator) && total(a) && total(b))
        }
    }
}
