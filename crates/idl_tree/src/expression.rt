//! Expressions, one type for each rank of operators. Operators of a rank bind from the left.

use crate::literal::Literal;
use crate::name::ScopedName;
use idl_base::{Boxed, Seq};

/// `<<` or `>>`.
#[derive(Clone, Copy)]
pub enum ShiftOperator {
    Left,
    Right,
}

/// `+` or `-` between operands.
#[derive(Clone, Copy)]
pub enum SumOperator {
    Plus,
    Minus,
}

/// `*`, `/` or `%`.
#[derive(Clone, Copy)]
pub enum ProductOperator {
    Times,
    Divided,
    Remainder,
}

/// `-`, `+` or `~` before an operand.
#[derive(Clone, Copy)]
pub enum UnaryOperator {
    Minus,
    Plus,
    Complement,
}

/// Operands with `|` between them.
#[cycle(expression)]
#[derive(Drop)]
pub struct Expression {
    pub first: Boxed<ExclusiveOr>,
    pub rest: Seq<ExclusiveOr>,
}

/// Operands with `^` between them.
#[cycle(expression)]
#[derive(Drop)]
pub struct ExclusiveOr {
    pub first: Boxed<And>,
    pub rest: Seq<And>,
}

/// Operands with `&` between them.
#[cycle(expression)]
#[derive(Drop)]
pub struct And {
    pub first: Boxed<Shift>,
    pub rest: Seq<Shift>,
}

/// An operand, and shifts of it.
#[cycle(expression)]
#[derive(Drop)]
pub struct Shift {
    pub first: Boxed<Sum>,
    pub rest: Seq<(ShiftOperator, Sum)>,
}

/// An operand, and what is added or taken away.
#[cycle(expression)]
#[derive(Drop)]
pub struct Sum {
    pub first: Boxed<Product>,
    pub rest: Seq<(SumOperator, Product)>,
}

/// An operand, and factors and divisors.
#[cycle(expression)]
#[derive(Drop)]
pub struct Product {
    pub first: Boxed<Unary>,
    pub rest: Seq<(ProductOperator, Unary)>,
}

/// An operand, with at most one operator before it.
#[cycle(expression)]
#[derive(Drop)]
pub struct Unary {
    pub operator: Option<UnaryOperator>,
    pub operand: Primary,
}

/// An expression that is no operation.
#[cycle(expression)]
#[derive(Drop)]
pub enum Primary {
    Name(ScopedName),
    Literal(Literal),
    Parentheses(Boxed<Expression>),
}
