//! Laws of values.
//!
//! Each function does nothing: it carries its laws as clauses. No expression that memory holds has 2^64 tokens.

ghost use Rattle.std.specs.Prelude.{◌≡◌, ◌≢◌, ◌⊎◌, ◌<◌, ◌^◌, [], All, drop, length, true};
ghost use Rattle.idl_tree.specs.Expression.{spell_expression};
ghost use Rattle.idl_tree.specs.declared.expression.Expression.{Expression};
ghost use Rattle.idl_value.specs.Evaluation.{Faulty, Operands, bound_of, fault, faults_of, read_term, start, value_of};
ghost use Rattle.idl_value.specs.Names.{AreGiven};
ghost use Rattle.idl_value.specs.Order.{IsAscending};
ghost use Rattle.idl_value.specs.Standing.{bears};
ghost use Rattle.idl_value.specs.Term.{expression_term};
ghost use Rattle.idl_value.specs.declared.outcome.ValueCode.TheVariants.{OutOfRange};
ghost use Rattle.idl_value.specs.declared.constant_type.ConstantType.{ConstantType};

/// The faults of an expression stand at tokens of its own, each at a later one than the fault before it. So the first is the
/// least, and no two are decided at one token.
pub fn ascending()
    ensures { (target : ConstantType) (operands : Operands) (e : Expression)
        → length (spell_expression e) < 2 ^ 64
        → IsAscending 0 (faults_of (value_of target operands e)) (length (spell_expression e)) }
{}

/// As many tokens are counted as the expression is spelled with.
pub fn counting()
    ensures { (target : ConstantType) (operands : Operands) (e : Expression)
        → length (spell_expression e) < 2 ^ 64
        → (read_term target operands start (expression_term e)).place.token
        ≡ length (spell_expression e) }
{}

/// Where each name of an expression has a value, the expression has one too, or a fault of its own. So nothing is told of it
/// only where a name of it is faulty.
pub fn deciding()
    ensures value { (target : ConstantType) (operands : Operands) (e : Expression)
        → AreGiven operands e → value_of target operands e ≢ Faulty [] }
    ensures bound { (operands : Operands) (e : Expression)
        → AreGiven operands e → bound_of operands e ≢ Faulty [] }
{}

/// A fault of an expression stands at an operator, a literal or the last part of a name; but for a whole value that is out of
/// range, which is told at the first token.
pub fn standing()
    ensures { (target : ConstantType) (operands : Operands) (e : Expression)
        → length (spell_expression e) < 2 ^ 64
        → All (λ f. (f ≡ fault 0 OutOfRange) ⊎ (bears (drop f.token (spell_expression e)) ≡ true))
        (faults_of (value_of target operands e)) }
{}
