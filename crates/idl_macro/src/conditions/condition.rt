//! The value of a condition, by a stack of operators.

ghost use Rattle.std.specs.Prelude.{◌≡◌, List, ◌∷◌, ℤ, Some, IfOk, OnOk};
ghost use Rattle.idl_macro.specs.conditions.Arithmetic.{Value};
ghost use Rattle.idl_macro.specs.conditions.Condition.{Chain, Tail, condition, sign_of};
ghost use Rattle.idl_macro.specs.conditions.Grammar.{HasValue};
ghost use Rattle.idl_macro.specs.conditions.Waiting.{meaning, meaning_at, IsAbove, IsBelow, IsRising, IsComplete, IsSound};
ghost use Rattle.idl_macro.specs.declared.conditions.symbol.ConditionSymbol.{ConditionSymbol};

use crate::conditions::arithmetic::signed;
use crate::conditions::operator::{Operator, Sign};
use crate::conditions::stack::Waiting;
use crate::conditions::symbol::ConditionSymbol;
use idl_base::Stack;
use std::alloc::{AllocError, Global};

/// Where the reading of a condition stands.
#[derive(Clone, Copy)]
pub enum Awaited {
    /// An operand has to follow.
    BeforeOperand,
    /// An operator or a closing parenthesis has to follow, or the end. The operand has this value.
    AfterOperand(Option<i64>),
    /// No condition goes on like this.
    Nowhere,
}

/// The value of a condition, or `None` where it is faulty.
///
/// The operators and their ranks are C's (C 2011, 6.5 and 6.10.1), and all values are signed numbers of 64 bits. Faults are
/// an overflow, a division by zero, a shift whose count is not from 0 to 63 or whose left side is negative, and any other
/// text. A side of `&&` or `||` that is not needed may have any fault but that of its form.
pub fn evaluate(alloc: Global, symbols: &[ConditionSymbol]) -> Result<Option<i64>, AllocError>
    ensures { IfOk result (λ value. value ≡ condition symbols.now) }
{
    let mut stack = Stack::new(alloc);
    let mut place = Awaited::BeforeOperand;
    'symbols: for symbol in symbols {
        place = match place {
            Awaited::BeforeOperand => operand(&mut stack, *symbol)?,
            Awaited::AfterOperand(value) => operator(&mut stack, value, *symbol)?,
            Awaited::Nowhere => return Ok(None),
        };
    }
    let Awaited::AfterOperand(value) = place else {
        return Ok(None);
    };
    let value = settle(&mut stack, value, 0)?;
    match stack.pop() {
        None => Ok(value),
        Some(_waiting) => Ok(None),
    }
}

/// A condition has the value of the expression of C that its symbols are, and is faulty where they are none. This does
/// nothing: it carries the law.
pub fn grammar()
    ensures value { (symbols : List ConditionSymbol) (value : Value) →
        HasValue 1 symbols value → condition symbols ≡ value }
    ensures form { (symbols : List ConditionSymbol) (value : ℤ) →
        condition symbols ≡ Some value → HasValue 1 symbols (Some value) }
{}

// A symbol where an operand has to follow.
fn operand(stack: &mut Stack<Waiting>, symbol: ConditionSymbol) -> Result<Awaited, AllocError>
    requires { IsSound Awaited.BeforeOperand stack.old }
    ensures sound { IfOk result (λ place. IsSound place stack.new) }
    ensures meaning { IfOk result (λ place. (rest : List ConditionSymbol) →
        meaning_at place stack.new rest ≡ meaning_at Awaited.BeforeOperand stack.old (symbol ∷ rest)) }
{
    match symbol {
        ConditionSymbol::Number(number) => {
            let value = complete(stack, signed(number))?;
            Ok(Awaited::AfterOperand(value))
        }
        ConditionSymbol::Name => {
            let value = complete(stack, Some(0))?;
            Ok(Awaited::AfterOperand(value))
        }
        ConditionSymbol::Open => {
            stack.push(Waiting::Parenthesis)?;
            Ok(Awaited::BeforeOperand)
        }
        _ => match sign_of(symbol) {
            Some(sign) => {
                stack.push(Waiting::Prefix(sign))?;
                Ok(Awaited::BeforeOperand)
            }
            None => Ok(Awaited::Nowhere),
        },
    }
}

// A symbol after an operand with this value.
fn operator(
    stack: &mut Stack<Waiting>,
    value: Option<i64>,
    symbol: ConditionSymbol,
) -> Result<Awaited, AllocError>
    requires { IsSound (Awaited.AfterOperand value) stack.old }
    ensures sound { IfOk result (λ place. IsSound place stack.new) }
    ensures meaning { IfOk result (λ place. (rest : List ConditionSymbol) →
        meaning_at place stack.new rest ≡ meaning_at (Awaited.AfterOperand value) stack.old (symbol ∷ rest)) }
{
    match symbol {
        ConditionSymbol::Operator(operator) => {
            let left = settle(stack, value, operator.rank())?;
            stack.push(Waiting::Infix(left, operator))?;
            Ok(Awaited::BeforeOperand)
        }
        ConditionSymbol::Close => close(stack, value),
        _ => Ok(Awaited::Nowhere),
    }
}

// A closing parenthesis after an operand with this value.
fn close(stack: &mut Stack<Waiting>, value: Option<i64>) -> Result<Awaited, AllocError>
    requires { IsSound (Awaited.AfterOperand value) stack.old }
    ensures sound { IfOk result (λ place. IsSound place stack.new) }
    ensures meaning { IfOk result (λ place. (rest : List ConditionSymbol) →
        meaning_at place stack.new rest
        ≡ meaning_at (Awaited.AfterOperand value) stack.old (ConditionSymbol.Close ∷ rest)) }
{
    let inside = settle(stack, value, 0)?;
    let Some(entry) = stack.pop() else {
        return Ok(Awaited::Nowhere);
    };
    match entry {
        Waiting::Parenthesis => {
            let value = complete(stack, inside)?;
            Ok(Awaited::AfterOperand(value))
        }
        _ => Ok(Awaited::Nowhere),
    }
}

// The operand with this value, together with the operators that stand right before it.
fn complete(stack: &mut Stack<Waiting>, operand: Option<i64>) -> Result<Option<i64>, AllocError>
    requires { IsRising stack.old }
    ensures meaning { IfOk result (λ value. (c : Chain) (t : Tail) →
        meaning stack.new value c t ≡ meaning stack.old operand c t) }
    ensures rising { OnOk result (IsRising stack.new) }
    ensures complete { OnOk result (IsComplete stack.new) }
{
    let mut value = operand;
    'signs: while let Some(entry) = stack.pop() {
        match entry {
            Waiting::Prefix(sign) => value = sign.apply(value),
            _ => {
                stack.push(entry)?;
                return Ok(value);
            }
        }
    }
    Ok(value)
}

// The operand with this value, together with the operators before it that are of this rank or of a higher one, and with
// their left operands.
fn settle(
    stack: &mut Stack<Waiting>,
    operand: Option<i64>,
    floor: u8,
) -> Result<Option<i64>, AllocError>
    requires rising { IsRising stack.old }
    requires complete { IsComplete stack.old }
    ensures meaning { IfOk result (λ value. (c : Chain) (t : Tail) → IsBelow c floor →
        meaning stack.new value c t ≡ meaning stack.old operand c t) }
    ensures rising { OnOk result (IsRising stack.new) }
    ensures above { OnOk result (IsAbove stack.new floor) }
{
    let mut value = operand;
    'operators: while let Some(entry) = stack.pop() {
        match entry {
            Waiting::Infix(left, operator) if operator.rank() >= floor => {
                value = operator.apply(left, value);
            }
            _ => {
                stack.push(entry)?;
                return Ok(value);
            }
        }
    }
    Ok(value)
}

// The operator that a symbol is where an operand has to follow.
fn sign_of(symbol: ConditionSymbol) -> Option<Sign>
    ensures { result ≡ sign_of symbol }
{
    match symbol {
        ConditionSymbol::Not => Some(Sign::Not),
        ConditionSymbol::Complement => Some(Sign::Complement),
        ConditionSymbol::Operator(Operator::Subtract) => Some(Sign::Minus),
        ConditionSymbol::Operator(Operator::Add) => Some(Sign::Plus),
        _ => None,
    }
}
