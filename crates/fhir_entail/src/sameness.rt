//! Expressions that are the same.

ghost use Rattle.std.specs.Prelude.{◌≡◌};
ghost use Rattle.fhir_fp_syntax.specs.Expression.{expression_of};
ghost use Rattle.fhir_entail.specs.Same.{operator_number, function_number, filter_number, test_number, same_operator, same_function, same_filter, same_test, same_expression};

use fhir_fp_syntax::{Expr, Filter, Function, Operator, TypeTest};

pub(crate) fn operator_number(operator: Operator) -> u8
    ensures { result ≡ operator_number operator }
{
    match operator {
        Operator::Index => 0,
        Operator::Intersect => 1,
        Operator::Union => 2,
        Operator::Less => 3,
        Operator::LessOrEqual => 4,
        Operator::Greater => 5,
        Operator::GreaterOrEqual => 6,
        Operator::Equal => 7,
        Operator::NotEqual => 8,
        Operator::In => 9,
        Operator::Contains => 10,
        Operator::And => 11,
        Operator::Or => 12,
        Operator::Xor => 13,
        Operator::Implies => 14,
    }
}

pub(crate) fn function_number(function: Function) -> u8
    ensures { result ≡ function_number function }
{
    match function {
        Function::Exists => 0,
        Function::Empty => 1,
        Function::Count => 2,
        Function::First => 3,
        Function::Children => 4,
        Function::Descendants => 5,
        Function::Not => 6,
        Function::HasValue => 7,
    }
}

pub(crate) fn filter_number(filter: Filter) -> u8
    ensures { result ≡ filter_number filter }
{
    match filter {
        Filter::Where => 0,
        Filter::Exists => 1,
        Filter::All => 2,
    }
}

pub(crate) fn test_number(test: TypeTest) -> u8
    ensures { result ≡ test_number test }
{
    match test {
        TypeTest::OfType => 0,
        TypeTest::Is => 1,
        TypeTest::As => 2,
    }
}

fn same_operator(operator: Operator, other: Operator) -> bool
    ensures { result ≡ same_operator operator other }
{
    operator_number(operator) == operator_number(other)
}

fn same_function(function: Function, other: Function) -> bool
    ensures { result ≡ same_function function other }
{
    function_number(function) == function_number(other)
}

fn same_filter(filter: Filter, other: Filter) -> bool
    ensures { result ≡ same_filter filter other }
{
    filter_number(filter) == filter_number(other)
}

fn same_test(test: TypeTest, other: TypeTest) -> bool
    ensures { result ≡ same_test test other }
{
    test_number(test) == test_number(other)
}

/// Whether two expressions are of one form, with the same names, literals and parts.
pub fn same_expression(expression: &Expr, other: &Expr) -> bool
    ensures { result ≡ same_expression (expression_of expression.now) (expression_of other.now) }
{
    match (expression, other) {
        (Expr::Empty, Expr::Empty) => true,
        (Expr::Boolean(a), Expr::Boolean(b)) => *a == *b,
        (Expr::Number(s), Expr::Number(t)) => s == t,
        (Expr::Text(s), Expr::Text(t)) => s == t,
        (Expr::This, Expr::This) => true,
        (Expr::Resource, Expr::Resource) => true,
        (Expr::Context, Expr::Context) => true,
        (Expr::Name(m), Expr::Name(n)) => m == n,
        (Expr::Child(a, m), Expr::Child(b, n)) => m == n && same_expression(a, b),
        (Expr::Call(f, a), Expr::Call(g, b)) => same_function(*f, *g) && same_expression(a, b),
        (Expr::Typed(f, a, s), Expr::Typed(g, b, t)) => {
            same_test(*f, *g) && s == t && same_expression(a, b)
        }
        (Expr::Filtered(f, a, c), Expr::Filtered(g, b, d)) => {
            same_filter(*f, *g) && same_expression(a, b) && same_expression(c, d)
        }
        (Expr::Binary(f, a, c), Expr::Binary(g, b, d)) => {
            same_operator(*f, *g) && same_expression(a, b) && same_expression(c, d)
        }
        _ => false,
    }
}
