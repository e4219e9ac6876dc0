//! The laws that a table has what several definitions say.

ghost use Rattle.std.specs.Prelude.{◌≡◌, ◌↔◌, ◌∷◌, ◌++◌, ◌+◌, ◌-◌, ◌^◌, ◌&&◌, [], ℕ, ℤ, Contains, Err, List, None, Ok, Some, flat_map, int_le, is_some, map, max, nat_eq, nat_le, nat_lt, neg_ℤ, pos, take, if◌then◌else◌};
ghost use Rattle.std.specs.List.{enumerate_from, prefix_len};
ghost use Rattle.std.specs.Map.{lookup};
ghost use Rattle.idl_check.specs.tables.Declaring.{Written, entity_of};
ghost use Rattle.idl_check.specs.told.Bodies.{Body, with_innermost, with_member};
ghost use Rattle.idl_check.specs.walk.Walk.{Walk, declared_visit, used_visit, with_scope};
ghost use Rattle.idl_check.specs.declared.tables.standing.Standing.{Standing};
ghost use Rattle.idl_entity.specs.declared.entity.Entity.{Entity};
ghost use Rattle.idl_env.specs.Facts.{World, after_step};
ghost use Rattle.idl_env.specs.declared.additions.addition.Step.{Step};
ghost use Rattle.idl_env.specs.declared.answering.answer.Scope.{Scope};
ghost use Rattle.idl_event.specs.Items.{spend};
ghost use Rattle.idl_event.specs.declared.told.allowance.Allowance.{Allowance};
ghost use Rattle.idl_event.specs.declared.told.event.Item.{Item};
ghost use Rattle.idl_fault.specs.Code.{number_of};
ghost use Rattle.idl_fault.specs.declared.code.Code.{Code};
ghost use Rattle.idl_lex.specs.bytes.Byte.{is_digit_of};
ghost use Rattle.idl_lex.specs.kinds.Literal.{by_number, simple_escape};
ghost use Rattle.idl_lex.specs.kinds.Marks.{marks as all_marks};
ghost use Rattle.idl_lex.specs.kinds.Number.{are_digits, based, integer_value, is_floating, number, number_kind};
ghost use Rattle.idl_lex.specs.declared.kinds.kind.Defect.TheVariants.{FloatingLiteral, IntegerTooLarge, MalformedInteger};
ghost use Rattle.idl_lex.specs.declared.kinds.kind.TokenKind.{TokenKind};
ghost use Rattle.idl_lex.specs.declared.kinds.kind.TokenKind.TheVariants.{Bad, Integer, Preprocessing, Punctuation};
ghost use Rattle.idl_parts.specs.ExpressionParts.{expression_parts};
ghost use Rattle.idl_parts.specs.declared.part.Declaration.{Declaration};
ghost use Rattle.idl_parts.specs.declared.part.Use.{Use};
ghost use Rattle.idl_plain.specs.Allowance.{left_behind};
ghost use Rattle.idl_plain.specs.Codes.{rows};
ghost use Rattle.idl_plain.specs.Declared.{declared, declared_at, member_in};
ghost use Rattle.idl_plain.specs.Expression.{read};
ghost use Rattle.idl_plain.specs.Marks.{letters, preprocessing, punctuation};
ghost use Rattle.idl_plain.specs.Operators.{before, between};
ghost use Rattle.idl_plain.specs.Ranks.{ranked_parts, ranked_term};
ghost use Rattle.idl_plain.specs.Steps.{stepped};
ghost use Rattle.idl_plain.specs.Tokens.{codes_behind};
ghost use Rattle.idl_plain.specs.Types.{of_basics, of_integers, of_types};
ghost use Rattle.idl_plain.specs.Used.{used_at};
ghost use Rattle.idl_repo.specs.TypeCode.{integer_word};
ghost use Rattle.idl_scope.specs.declared.found.Found.{Found};
ghost use Rattle.idl_tree.specs.DataType.{spell_basic, spell_discrete};
ghost use Rattle.idl_tree.specs.declared.declarations.data_type.BasicType.{BasicType};
ghost use Rattle.idl_tree.specs.declared.declarations.data_type.DiscreteType.{DiscreteType};
ghost use Rattle.idl_tree.specs.declared.expression.Expression.{Expression};
ghost use Rattle.idl_tree.specs.declared.expression.UnaryOperator.{UnaryOperator};
ghost use Rattle.idl_tree.specs.declared.name.ScopedName.{ScopedName};
ghost use Rattle.idl_unit.specs.TokenRules.{token_codes};
ghost use Rattle.idl_value.specs.ConstantType.{target_of};
ghost use Rattle.idl_value.specs.Evaluation.{Operands, combined, read_term, signed_value};
ghost use Rattle.idl_value.specs.Term.{Term, expression_term};
ghost use Rattle.idl_value.specs.Operate.{in_parts};
ghost use Rattle.idl_value.specs.integers.Integer.{holds, is_signed, width};
ghost use Rattle.idl_value.specs.declared.constant_type.ConstantType.{ConstantType};
ghost use Rattle.idl_value.specs.declared.integer.IntegerKind.{IntegerKind};
ghost use Rattle.idl_value.specs.declared.operator.BinaryOperator.{BinaryOperator};
ghost use Rattle.idl_value.specs.declared.outcome.ValueCode.TheVariants.{OutOfRange};
ghost use Rattle.idl_value.specs.declared.value.Value.{Value};
ghost use Rattle.idl_value.specs.declared.walk.Passed.{Passed};

/// Of each type of keywords one line tells how it is spelled, and what it is; of those that constants may have how wide, too.
pub fn types()
    ensures words { (k : IntegerKind) → integer_word k ≡ (of_integers k).0 }
    ensures widths { (k : IntegerKind) → width k ≡ (of_integers k).1.0 }
    ensures signs { (k : IntegerKind) → is_signed k ≡ (of_integers k).1.1 }
    ensures spelled { (t : DiscreteType) → spell_discrete t ≡ (of_types t).0 }
    ensures kinds { (t : DiscreteType) → target_of t ≡ (of_types t).1 }
    ensures basics { (t : BasicType) → spell_basic t ≡ (of_basics t).0 }
{}

/// Of each form of declaration one line tells what it declares; a scope begins as one that is declared so. And one line tells each rule.
pub fn declarations()
    ensures entities { (w : Written) (way : Declaration) (name : List ℕ) (scope : List (List ℕ))
        → entity_of w way name scope ≡ declared w (name ∷ scope) way }
    ensures scopes { (w : Written) (way : Declaration) (name : List ℕ) (s : Scope)
        (scopes : List Scope)
        → (with_scope way name [] ≡ []) × (with_scope way name (s ∷ scopes)
        ≡ (let e = declared w (name ∷ s.path) way in
        record { path = e.path; kind = e.kind; body = 1 } ∷ s ∷ scopes)) }
    ensures visits { (w : Walk) (way : Declaration) (s : Scope) (e : Entity) (standing : Standing)
        → declared_visit w way s e standing ≡ declared_at w way s e standing }
    ensures members { (way : Declaration) (e : Entity) (bodies : List Body)
        → with_member way e bodies ≡ with_innermost (member_in way e) bodies }
{}

/// Of each change of the open scopes, of the files entered, or of the prefix one line tells what it does.
pub fn steps()
    ensures { (w : World) (s : Step) → after_step w s ≡ stepped w s }
{}

/// Of each use of a name one line tells what it may denote, and the rules then; and one what it leaves behind.
pub fn uses()
    ensures { (w : Walk) (way : Use) (name : ScopedName) (found : Found) (behind : Entity)
        → used_visit w way name found behind ≡ used_at w way name found behind }
{}

/// The values of an integer type are those of its bits, with a sign or without; and each part of one is within those of 32 bits at least,
/// of both.
pub fn ranges()
    ensures values { (k : IntegerKind) (z : ℤ) → holds k z ≡ (
        let half = 2 ^ (width k - 1) in
        if is_signed k then int_le (neg_ℤ (pos half)) z && int_le z (pos (half - 1))
        else int_le (pos 0) z && int_le z (pos (2 ^ width k - 1))) }
    ensures parts { (k : IntegerKind) (z : ℤ) → in_parts k z ≡ (
        let bits = max 32 (width k) in
        if int_le (neg_ℤ (pos (2 ^ (bits - 1)))) z && int_le z (pos (2 ^ bits - 1)) then Ok z
        else Err OutOfRange) }
{}

/// An operator has a value at whole numbers alone, for an integer type.
pub fn operators()
    ensures between { (target : ConstantType) (operator : BinaryOperator) (a b : Value)
        → combined target operator a b ≡ between target operator a b }
    ensures before { (target : ConstantType) (sign : UnaryOperator) (a : Value)
        → signed_value target sign a ≡ before target sign a }
{}

/// A token is wrong by what it is, and by the kinds of those before it.
pub fn tokens()
    ensures { (before : List TokenKind) (kind : TokenKind)
        → token_codes before kind ≡ codes_behind before kind }
{}

/// A number is an integer where it has a value, and else wrong by its digits.
pub fn numbers()
    ensures { (spelling : List ℕ) → number_kind spelling
        ≡ (if is_some (integer_value spelling) then Integer
        else if are_digits (based spelling).0 (based spelling).1 then Bad IntegerTooLarge
        else if is_floating spelling then Bad FloatingLiteral else Bad MalformedInteger) }
{}

/// Of each item of an expansion one line tells what it leaves of the allowance.
pub fn allowances()
    ensures { (left : Allowance) (item : Item) → spend left item ≡ left_behind left item }
{}

/// Of each form of an expression one line tells what it comes to.
pub fn expressions()
    ensures { (target : ConstantType) (operands : Operands) (place : Passed) (term : Term)
        → read_term target operands place term ≡ read target operands place term }
{}

/// Codes have numbers by rows, each of which begins with one.
pub fn codes()
    ensures { (c : Code) (n : ℕ) → (number_of c ≡ n)
        ↔ Contains (flat_map (λ row. enumerate_from row.0 row.1) rows) (n, c) }
{}

/// The marks are those of the language, and those that the preprocessor alone knows.
pub fn marks()
    ensures { all_marks ≡ map (λ m. (m.0, Punctuation m.1)) punctuation
        ++ map (λ m. (m.0, Preprocessing m.1)) preprocessing }
{}

/// Behind a backslash a letter stands for a character, or as many digits as may be for one that is within a bound; and digits are an
/// integer below 2^64.
pub fn literals()
    ensures letters { (b : ℕ) → simple_escape b ≡ lookup (nat_eq b) letters }
    ensures digits { (base count most : ℕ) (bytes : List ℕ) → by_number base count most bytes
        ≡ (let n = prefix_len (is_digit_of base) (take count bytes) in
        let digits = take n bytes in
        let is_held = are_digits base digits && nat_le (number base digits) most in
        (if is_held then Some (number base digits) else None, n)) }
    ensures integers { (spelling : List ℕ) → integer_value spelling
        ≡ (let n = number (based spelling).0 (based spelling).1 in
        let is_held = are_digits (based spelling).0 (based spelling).1 && nat_lt n (2 ^ 64) in
        if is_held then Some n else None) }
{}

/// Expressions are told by the ranks of their operators: as terms that have values, and as parts of a unit.
pub fn ranks()
    ensures terms { (e : Expression) → expression_term e ≡ ranked_term e }
    ensures parts { (e : Expression) → expression_parts e ≡ ranked_parts e }
{}
