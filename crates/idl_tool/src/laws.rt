//! Laws of the rules, of the reports and of the changes that go out.

ghost use Rattle.std.specs.Prelude.{◌≡◌, ℕ, All, Bool, List, [], flat_map, true};
ghost use Rattle.std.specs.List.{IsDistinct};
ghost use Rattle.std.specs.Map.{keys_of};
ghost use Rattle.std.specs.Str.{bytes_eq};
ghost use Rattle.idl_source.specs.texts.Texts.{Texts};
ghost use Rattle.idl_tool.specs.make_rules.Make.{IsMakeRule, rules_read, rules_text};
ghost use Rattle.idl_driver.specs.Written.{Written};
ghost use Rattle.idl_loader.specs.declared.status.Status.{Status};
ghost use Rattle.idl_loader.specs.declared.status.Status.TheVariants.{Sound};
ghost use Rattle.idl_tool.specs.Checked.{AreReported, Entry, IsTold, Told};
ghost use Rattle.idl_tool.specs.Compared.{AreCompared, DoSpeak, Version};
ghost use Rattle.idl_tool.specs.Deps.{needs_in, needs_of, rules_in};
ghost use Rattle.idl_tool.specs.declared.request.Deps.{Deps};
ghost use Rattle.idl_inputs.specs.Project.{Inputs};
ghost use Rattle.idl_changes.specs.declared.rows.Weights.{Weights};

use crate::make_rules::rules_read_back;
use idl_changes::nothing_on_the_wire;

/// Who reads the rules of roots finds what compiling the roots asks for, or what is there of it: each file, in order, and whether it has
/// to be there. This does nothing: it carries the law.
pub fn rules_tell_what_is_asked()
    ensures { (deps : Deps) (inputs : Inputs) (roots : List (List ℕ))
        → All IsMakeRule (flat_map (rules_in deps inputs) roots)
        → needs_of (rules_read (rules_text (flat_map (rules_in deps inputs) roots)))
        ≡ flat_map (needs_in deps inputs) roots }
{
    // It does nothing: it carries the law of what is read of rules.
    rules_read_back();
}

/// Of findings each is told, and no two reports of them are alike. This does nothing: it carries the laws.
pub fn findings_are_told_once()
    ensures told { (files : Texts) (told : List Told) (reports : List Entry)
        → AreReported files told [] reports → All (IsTold files reports) told }
    ensures once { (files : Texts) (told : List Told) (reports : List Entry)
        → AreReported files told [] reports → IsDistinct bytes_eq (keys_of reports) }
{}

/// Where comparing two versions ends soundly, and a change on the wire is an error, programs that are built from them speak with each
/// other, if they are declared as IDL asks for. This does nothing: it carries the law.
pub fn sound_changes_speak()
    ensures { (is_json : Bool) (fails : Weights) (old new : Version) (before after : Written)
        → (status : Status) → AreCompared is_json fails old new before after status
        → fails.wire ≡ true → status ≡ Sound → DoSpeak old new }
{
    // It does nothing: it carries the law of changes none of which counts on the wire.
    nothing_on_the_wire();
}
