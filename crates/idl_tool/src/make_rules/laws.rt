//! A law of the definition of rules.

ghost use Rattle.std.specs.Prelude.{◌≡◌, All, List};
ghost use Rattle.idl_tool.specs.make_rules.Make.{IsMakeRule, Rule, rules_read, rules_text};

/// Rules with names that make can read are read as they are: their targets, and in order what each stands on, whether it has to
/// be there or not. This does nothing: it carries the law.
pub fn rules_read_back()
    ensures { (rules : List Rule) → All IsMakeRule rules → rules_read (rules_text rules) ≡ rules }
{}
