//! One line of a file after another, inside the groups that are open.

ghost use Rattle.std.specs.Prelude.{◌≡◌, ◌++◌, ◌∷◌, [], List, Option, IfOk, OnOk, map};
ghost use Rattle.idl_memo.specs.Query.{and_then};
ghost use Rattle.idl_lex.specs.tokens.Tokens.{lines_of};
ghost use Rattle.idl_text.specs.Line as spec;
ghost use Rattle.idl_text.specs.Line.{Directed, Text, NullDirective};
ghost use Rattle.idl_text.specs.Tree.{IsBranch, part};
ghost use Rattle.idl_text.specs.declared.groups.kind.DirectiveKind.TheVariants.{Endif};
ghost use Rattle.idl_prep.specs.Directive.{Enter};
ghost use Rattle.idl_prep.specs.Pass.{coming, entered, to_come};
ghost use Rattle.idl_prep.specs.State.{ended, onward};

use crate::directives::inclusion::Inclusion;
use crate::directives::line::{DirectiveLine, LineKind, read};
use crate::walk::branch::{begin_branch, begin_group, end_group, skip_group};
use crate::walk::groups::{Group, is_walked};
use crate::walk::perform::{act_bare, act_directive, act_text};
use crate::walk::root::Root;
use crate::walk::stray::{stray_inside, stray_outside};
use crate::walk::walked_file::WalkedFile;
use idl_base::Stack;
use idl_event::{RootAnswer, RootBank, RootKey};
use idl_fault::{Code, FileName, Place};
use idl_text::{DirectiveKind, FileTokens, TextLines};
use std::alloc::AllocError;

/// The next line of a file: gives the file that is to be entered, if there is one.
pub fn walk_line<'b, B: RootBank>(
    root: &mut Root<B>,
    groups: &mut Stack<Group>,
    site: &WalkedFile<'b, B>,
    tokens: &FileTokens<'_>,
) -> Result<Option<Inclusion<'b>>, AllocError>
    ensures { let bank = B.at site.now.bank.now in let file = site.now.file.now in
        IfOk result (λ inclusion. (enter : Enter) (lines : List spec.Line)
        → let after = coming enter file groups.new (part lines) in
        onward bank (λ s. and_then (entered enter inclusion s) after) root.new
        ≡ to_come bank enter file groups.old (spec.read tokens.now ∷ lines) root.old) }
{
    match read(tokens) {
        LineKind::Text(text) => {
            walk_text(root, groups, site, &text)?;
            Ok(None)
        }
        LineKind::NullDirective(line) => {
            walk_bare(root, groups, site.file, line)?;
            Ok(None)
        }
        LineKind::Directed(directive) => walk_directive(root, groups, site, &directive),
    }
}

/// Lines of text, one after another.
pub fn walk_texts<B: RootBank>(
    root: &mut Root<B>,
    groups: &Stack<Group>,
    site: &WalkedFile<'_, B>,
    text: &TextLines<'_>,
) -> Result<(), AllocError>
    ensures { let bank = B.at site.now.bank.now in let file = site.now.file.now in
        OnOk result ((enter : Enter) (lines : List spec.Line)
        → to_come bank enter file groups.now lines root.new
        ≡ to_come bank enter file groups.now (map Text (lines_of text.now) ++ lines) root.old) }
{
    if !is_walked(groups) {
        return Ok(());
    }
    root.emit_text(site, text)
}

// A line of text.
fn walk_text<B: RootBank>(
    root: &mut Root<B>,
    groups: &Stack<Group>,
    site: &WalkedFile<'_, B>,
    tokens: &FileTokens<'_>,
) -> Result<(), AllocError>
    ensures { let bank = B.at site.now.bank.now in let file = site.now.file.now in
        OnOk result ((enter : Enter) (lines : List spec.Line)
        → to_come bank enter file groups.now lines root.new
        ≡ to_come bank enter file groups.now (Text tokens.now ∷ lines) root.old) }
{
    if !is_walked(groups) {
        return Ok(());
    }
    act_text(root, site, tokens)
}

// A `#` alone.
fn walk_bare<B: RootBank>(
    root: &mut Root<B>,
    groups: &Stack<Group>,
    file: &FileName,
    line: u32,
) -> Result<(), AllocError>
    ensures { OnOk result ((bank : RootKey → Option RootAnswer) (enter : Enter) (lines : List spec.Line)
        → to_come bank enter file.now groups.now lines root.new
        ≡ to_come bank enter file.now groups.now (NullDirective line ∷ lines) root.old) }
{
    if !is_walked(groups) {
        return Ok(());
    }
    act_bare(root, file, line)
}

// A directive.
fn walk_directive<'b, B: RootBank>(
    root: &mut Root<B>,
    groups: &mut Stack<Group>,
    site: &WalkedFile<'b, B>,
    directive: &DirectiveLine<'_>,
) -> Result<Option<Inclusion<'b>>, AllocError>
    ensures { let bank = B.at site.now.bank.now in let file = site.now.file.now in
        IfOk result (λ inclusion. (enter : Enter) (lines : List spec.Line)
        → let after = coming enter file groups.new (part lines) in
        onward bank (λ s. and_then (entered enter inclusion s) after) root.new
        ≡ to_come bank enter file groups.old (Directed directive.now ∷ lines) root.old) }
{
    match directive.kind {
        DirectiveKind::Alone(what) if is_walked(groups) => {
            act_directive(root, site, directive, what)
        }
        DirectiveKind::Alone(_) => Ok(None),
        DirectiveKind::Opening(what) if is_walked(groups) => {
            let group = begin_group(root, site, directive, what)?;
            groups.push(group)?;
            Ok(None)
        }
        DirectiveKind::Opening(_) => {
            groups.push(skip_group(directive)?)?;
            Ok(None)
        }
        DirectiveKind::Elif | DirectiveKind::Else => {
            walk_branch(root, groups, site, directive)?;
            Ok(None)
        }
        DirectiveKind::Endif => {
            walk_endif(root, groups, site.file, directive)?;
            Ok(None)
        }
    }
}

// An `elif` or `else`: the innermost group goes on with another branch, if one is open.
fn walk_branch<B: RootBank>(
    root: &mut Root<B>,
    groups: &mut Stack<Group>,
    site: &WalkedFile<'_, B>,
    directive: &DirectiveLine<'_>,
) -> Result<(), AllocError>
    requires { IsBranch directive.now.kind }
    ensures { let bank = B.at site.now.bank.now in let file = site.now.file.now in
        OnOk result ((enter : Enter) (lines : List spec.Line)
        → to_come bank enter file groups.new lines root.new
        ≡ to_come bank enter file groups.old (Directed directive.now ∷ lines) root.old) }
{
    match groups.pop() {
        None => {
            stray_outside(root, site.file, directive)?;
            Ok(())
        }
        Some(group) if group.has_else => {
            stray_inside(root, &group, site.file, directive)?;
            groups.push(group)?;
            Ok(())
        }
        Some(mut group) => {
            begin_branch(root, &mut group, site, directive)?;
            groups.push(group)?;
            Ok(())
        }
    }
}

// An `endif`: the innermost group ends, if one is open.
fn walk_endif<B: RootBank>(
    root: &mut Root<B>,
    groups: &mut Stack<Group>,
    file: &FileName,
    directive: &DirectiveLine<'_>,
) -> Result<(), AllocError>
    requires { directive.now.kind ≡ Endif }
    ensures { OnOk result ((bank : RootKey → Option RootAnswer) (enter : Enter) (lines : List spec.Line)
        → to_come bank enter file.now groups.new lines root.new
        ≡ to_come bank enter file.now groups.old (Directed directive.now ∷ lines) root.old) }
{
    match groups.pop() {
        None => {
            stray_outside(root, file, directive)?;
            Ok(())
        }
        Some(group) => {
            end_group(root, &group, file, directive)?;
            Ok(())
        }
    }
}

/// The end of a file: the groups that are open are not closed, the innermost first.
pub fn end_file<B: RootBank>(
    root: &mut Root<B>,
    mut groups: Stack<Group>,
    file: &FileName,
) -> Result<(), AllocError>
    ensures { OnOk result ((enter : Enter) (bank : RootKey → Option RootAnswer)
        → ended root.new ≡ to_come bank enter file.now groups [] root.old) }
{
    'groups: while let Some(group) = groups.pop() {
        let place = Place {
            file: file.clone()?,
            line: group.opener.line,
        };
        root.fault(place, Code::NotClosed, &group.opener.word)?;
    }
    Ok(())
}
