//! The walk over an expression, from the left.

ghost use Rattle.std.specs.Prelude.{◌≡◌, ◌+◌, length};
ghost use Rattle.std.specs.Option.{option_copied};
ghost use Rattle.idl_tree.specs.Expression.{spell_literal};
ghost use Rattle.idl_value.specs.Evaluation.{ahead, behind, operand_at};
ghost use Rattle.idl_value.specs.Term.{Literally, Named, and_term, before_last, exclusive_or_term, expression_term, primary_term, product_operator, product_term, shift_operator, shift_term, sum_operator, sum_term, unary_term};
ghost use Rattle.idl_value.specs.Walk.{stepped, walk_operator, walk_term};

use crate::constant_type::ConstantType;
use crate::operator::BinaryOperator;
use crate::part_value::{OperatorToken, PartValue, literal_part, named_part};
use crate::value::Value;
use idl_base::Seq;
use idl_tree::expression::{
    And, ExclusiveOr, Primary, Product, ProductOperator, Shift, ShiftOperator, Sum, SumOperator,
    Unary,
};
use idl_tree::{Expression, Literal, ScopedName, Several};

/// How many tokens of an expression stand before a part of it, and how many names.
#[derive(Clone, Copy)]
pub struct Passed {
    pub token: usize,
    pub name: usize,
}

/// What a part comes to, and the place behind it.
#[derive(Clone, Copy)]
pub struct Worked<'a> {
    pub part: PartValue<'a>,
    pub place: Passed,
}

/// What the expression is for, and the values of its names.
#[derive(Clone, Copy)]
pub struct Scene<'a> {
    pub target: &'a ConstantType,
    pub operands: &'a [Option<Value>],
}

impl Passed {
    /// So many tokens and names further.
    fn further(self, tokens: usize, names: usize) -> Passed
        ensures { result ≡ behind self tokens names }
    {
        Passed {
            token: self.token.saturating_add(tokens),
            name: self.name.saturating_add(names),
        }
    }
}

impl<'a> Scene<'a> {
    /// Operands with `|` between them.
    #[cycle(expression)]
    #[tactic(auto, unfolding(crate::specs::Term::expression_term))]
    pub fn expression(self, place: Passed, expression: &'a Expression) -> Worked<'a>
        ensures { stepped result
            ≡ walk_term self.entry.target.now self.entry.operands.now place
            (expression_term expression.now) }
    {
        let Expression { first, rest } = expression;
        let mut left = self.exclusive_or(place, first.get());
        for operand in rest.as_slice() {
            let right = self.exclusive_or(left.place.further(1, 0), operand);
            left = self.operated(BinaryOperator::Or, left, right);
        }
        left
    }

    /// Operands with `^` between them.
    #[cycle(expression)]
    #[tactic(auto, unfolding(crate::specs::Term::exclusive_or_term))]
    fn exclusive_or(self, place: Passed, exclusive_or: &'a ExclusiveOr) -> Worked<'a>
        ensures { stepped result
            ≡ walk_term self.entry.target.now self.entry.operands.now place
            (exclusive_or_term exclusive_or.now) }
    {
        let ExclusiveOr { first, rest } = exclusive_or;
        let mut left = self.and(place, first.get());
        for operand in rest.as_slice() {
            let right = self.and(left.place.further(1, 0), operand);
            left = self.operated(BinaryOperator::ExclusiveOr, left, right);
        }
        left
    }

    /// Operands with `&` between them.
    #[cycle(expression)]
    #[tactic(auto, unfolding(crate::specs::Term::and_term))]
    fn and(self, place: Passed, and: &'a And) -> Worked<'a>
        ensures { stepped result
            ≡ walk_term self.entry.target.now self.entry.operands.now place (and_term and.now) }
    {
        let And { first, rest } = and;
        let mut left = self.shift(place, first.get());
        for operand in rest.as_slice() {
            let right = self.shift(left.place.further(1, 0), operand);
            left = self.operated(BinaryOperator::And, left, right);
        }
        left
    }

    /// An operand, and shifts of it.
    #[cycle(expression)]
    #[tactic(auto, unfolding(crate::specs::Term::shift_term))]
    fn shift(self, place: Passed, shift: &'a Shift) -> Worked<'a>
        ensures { stepped result
            ≡ walk_term self.entry.target.now self.entry.operands.now place (shift_term shift.now) }
    {
        let Shift { first, rest } = shift;
        let mut left = self.sum(place, first.get());
        for (operator, operand) in rest.as_slice() {
            let right = self.sum(left.place.further(1, 0), operand);
            left = self.operated(shift_operator(*operator), left, right);
        }
        left
    }

    /// An operand, and what is added or taken away.
    #[cycle(expression)]
    #[tactic(auto, unfolding(crate::specs::Term::sum_term))]
    fn sum(self, place: Passed, sum: &'a Sum) -> Worked<'a>
        ensures { stepped result
            ≡ walk_term self.entry.target.now self.entry.operands.now place (sum_term sum.now) }
    {
        let Sum { first, rest } = sum;
        let mut left = self.product(place, first.get());
        for (operator, operand) in rest.as_slice() {
            let right = self.product(left.place.further(1, 0), operand);
            left = self.operated(sum_operator(*operator), left, right);
        }
        left
    }

    /// An operand, and factors and divisors.
    #[cycle(expression)]
    #[tactic(auto, unfolding(crate::specs::Term::product_term))]
    fn product(self, place: Passed, product: &'a Product) -> Worked<'a>
        ensures { stepped result
            ≡ walk_term self.entry.target.now self.entry.operands.now place
            (product_term product.now) }
    {
        let Product { first, rest } = product;
        let mut left = self.unary(place, first.get());
        for (operator, operand) in rest.as_slice() {
            let right = self.unary(left.place.further(1, 0), operand);
            left = self.operated(product_operator(*operator), left, right);
        }
        left
    }

    /// An operand, with at most one operator before it.
    #[cycle(expression)]
    #[tactic(auto, unfolding(crate::specs::Term::unary_term))]
    fn unary(self, place: Passed, unary: &'a Unary) -> Worked<'a>
        ensures { stepped result
            ≡ walk_term self.entry.target.now self.entry.operands.now place (unary_term unary.now) }
    {
        match unary.operator {
            None => self.primary(place, &unary.operand),
            Some(sign) => {
                let Worked {
                    part,
                    place: behind,
                } = self.primary(place.further(1, 0), &unary.operand);
                Worked {
                    part: part.with_sign(self.target, place.token, sign),
                    place: behind,
                }
            }
        }
    }

    /// An expression that is no operation.
    #[cycle(expression)]
    #[tactic(auto, unfolding(crate::specs::Term::primary_term))]
    fn primary(self, place: Passed, primary: &'a Primary) -> Worked<'a>
        ensures { stepped result
            ≡ walk_term self.entry.target.now self.entry.operands.now place
            (primary_term primary.now) }
    {
        match primary {
            Primary::Name(name) => self.named(place, name),
            Primary::Literal(literal) => self.literal(place, literal),
            Primary::Parentheses(inner) => {
                let Worked {
                    part,
                    place: behind,
                } = self.expression(place.further(1, 0), inner.get());
                Worked {
                    part,
                    place: behind.further(1, 0),
                }
            }
        }
    }

    // A name.
    fn named(self, place: Passed, name: &ScopedName) -> Worked<'a>
        ensures { stepped result
            ≡ walk_term self.entry.target.now self.entry.operands.now place
            (Named (before_last name.now)) }
    {
        let last = place.further(before_last(name), 0);
        Worked {
            part: named_part(self.target, last.token, self.operand(place.name)),
            place: last.further(1, 1),
        }
    }

    // The operand of a name by its number.
    fn operand(self, number: usize) -> Option<&'a Value>
        ensures { option_copied result ≡ operand_at self.entry.operands.now number }
    {
        match self.operands.get(number) {
            Some(Some(value)) => Some(value),
            _ => None,
        }
    }

    // A literal.
    fn literal(self, place: Passed, literal: &'a Literal) -> Worked<'a>
        ensures { stepped result
            ≡ walk_term self.entry.target.now self.entry.operands.now place
            (Literally literal.now) }
    {
        Worked {
            part: literal_part(self.target, place.token, literal),
            place: place.further(literal_length(literal), 0),
        }
    }

    // Two operands, and the operator between them.
    fn operated(self, operator: BinaryOperator, left: Worked<'a>, right: Worked<'a>) -> Worked<'a>
        ensures { stepped result
            ≡ walk_operator self.entry.target.now operator (stepped left.entry) (stepped right.entry) }
    {
        let mark = OperatorToken {
            operator,
            token: left.place.token,
        };
        Worked {
            part: left.part.combined(self.target, mark, right.part),
            place: right.place,
        }
    }
}

// How many tokens of a name stand before its last part.
fn before_last(name: &ScopedName) -> usize
    ensures { result ≡ ahead 0 (before_last name.now) }
{
    usize::from(name.is_global).saturating_add(name.rest.len().saturating_mul(2))
}

// How many tokens a literal is.
fn literal_length(literal: &Literal) -> usize
    ensures { result ≡ ahead 0 (length (spell_literal literal.now)) }
{
    match literal {
        Literal::Text(pieces) | Literal::WideText(pieces) => text_length(pieces),
        _ => 1,
    }
}

// How many tokens string literals are.
fn text_length(pieces: &Several<Seq<u16>>) -> usize
    ensures { result ≡ ahead 0 (length pieces.now.rest + 1) }
{
    pieces.rest.len().saturating_add(1)
}

fn shift_operator(operator: ShiftOperator) -> BinaryOperator
    ensures { result ≡ shift_operator operator }
{
    match operator {
        ShiftOperator::Left => BinaryOperator::ShiftLeft,
        ShiftOperator::Right => BinaryOperator::ShiftRight,
    }
}

fn sum_operator(operator: SumOperator) -> BinaryOperator
    ensures { result ≡ sum_operator operator }
{
    match operator {
        SumOperator::Plus => BinaryOperator::Add,
        SumOperator::Minus => BinaryOperator::Subtract,
    }
}

fn product_operator(operator: ProductOperator) -> BinaryOperator
    ensures { result ≡ product_operator operator }
{
    match operator {
        ProductOperator::Times => BinaryOperator::Multiply,
        ProductOperator::Divided => BinaryOperator::Divide,
        ProductOperator::Remainder => BinaryOperator::Remainder,
    }
}
