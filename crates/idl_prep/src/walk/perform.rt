//! Directives of one line, and lines of text.

ghost use Rattle.std.specs.Prelude.{◌≡◌, ◌∷◌, Some, IfOk, OnOk, Option};
ghost use Rattle.idl_fault.specs.declared.code.Code.TheVariants.{Error};
ghost use Rattle.idl_event.specs.declared.told.event.Event.TheVariants.{Fault};
ghost use Rattle.idl_event.specs.declared.told.event.Item.TheVariants.{Kept};
ghost use Rattle.idl_text.specs.Line.{Text, NullDirective, Directed};
ghost use Rattle.idl_text.specs.declared.groups.kind.DirectiveKind.TheVariants.{Alone};
ghost use Rattle.idl_prep.specs.Directive.{Enter, effect, parted};
ghost use Rattle.idl_prep.specs.Place.{place_in};
ghost use Rattle.idl_lex.specs.tokens.Tokens.{tokens_in};
ghost use Rattle.idl_prep.specs.Pass.{entered};
ghost use Rattle.idl_prep.specs.State.{ended, onward, telling};

use crate::directives::include::include;
use crate::directives::inclusion::Inclusion;
use crate::directives::line::DirectiveLine;
use crate::directives::pragma::pragma;
use crate::directives::text::parted;
use crate::walk::root::Root;
use crate::walk::walked_file::WalkedFile;
use idl_event::{Item, RootAnswer, RootBank, RootKey};
use idl_fault::{Code, FileName, Place};
use idl_text::{FileTokens, Plain};
use std::alloc::AllocError;

/// A line of text, which isn't skipped.
#[tactic(auto, unfolding(crate::specs::Directive::effect))]
pub fn act_text<B: RootBank>(
    root: &mut Root<B>,
    site: &WalkedFile<'_, B>,
    tokens: &FileTokens<'_>,
) -> Result<(), AllocError>
    ensures { let bank = B.at site.now.bank.now in OnOk result ((enter : Enter)
        → ended root.new
        ≡ onward bank (effect enter site.now.file.now (Text tokens.now)) root.old) }
{
    root.emit(site, tokens)
}

/// A `#` alone, which isn't skipped.
#[tactic(auto, unfolding(crate::specs::Directive::effect))]
pub fn act_bare<B: RootBank>(
    root: &mut Root<B>,
    file: &FileName,
    line: u32,
) -> Result<(), AllocError>
    ensures { OnOk result ((enter : Enter) (bank : RootKey → Option RootAnswer)
        → ended root.new ≡ onward bank (effect enter file.now (NullDirective line)) root.old) }
{
    root.tell(Item::Turn(Place {
        file: file.clone()?,
        line,
    }))?;
    Ok(())
}

/// A directive of one line, which isn't skipped: gives the file that is to be entered, if there is one.
pub fn act_directive<'b, B: RootBank>(
    root: &mut Root<B>,
    site: &WalkedFile<'b, B>,
    directive: &DirectiveLine<'_>,
    what: Plain,
) -> Result<Option<Inclusion<'b>>, AllocError>
    requires { directive.now.kind ≡ Alone what }
    ensures { let bank = B.at site.now.bank.now in IfOk result (λ inclusion. (enter : Enter)
        → onward bank (entered enter inclusion) root.new
        ≡ onward bank (effect enter site.now.file.now (Directed directive.now)) root.old) }
{
    root.turn(site.file, directive)?;
    match what {
        Plain::Include => include(root, site, directive),
        Plain::Define => {
            root.define(site, directive)?;
            Ok(None)
        }
        Plain::Undef => {
            root.undef(site.file, directive)?;
            Ok(None)
        }
        Plain::Error => {
            act_error(root, site.file, directive)?;
            Ok(None)
        }
        Plain::Pragma => {
            pragma(root, site.file, directive)?;
            Ok(None)
        }
        Plain::Ignored => Ok(None),
        Plain::Unknown => {
            root.fault_at(site.file, directive, Code::UnknownDirective)?;
            Ok(None)
        }
    }
}

// What an `error` says.
fn act_error<B: RootBank>(
    root: &mut Root<B>,
    file: &FileName,
    directive: &DirectiveLine<'_>,
) -> Result<(), AllocError>
    ensures { let text = parted (tokens_in (directive.now.word ∷ directive.now.operands)) in
        let fault = Fault (place_in file.now directive.now) Error (Some text) in
        OnOk result (root.new ≡ telling (Kept fault) root.old) }
{
    let text = parted(root.allocator(), directive.tokens().as_slice())?;
    root.fault(directive.place(file)?, Code::Error, &text)
}
