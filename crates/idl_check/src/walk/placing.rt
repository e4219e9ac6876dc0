//! Where a unit may stand, and what it does to the open scopes.

ghost use Rattle.std.specs.Prelude.{◌≡◌, IfOk, if◌then◌else◌, option_to_list};
ghost use Rattle.idl_check.specs.walk.Placing.{faulty_step, heading_kind, is_module, opened_kind, opening_faults, place_faults, step_of};
ghost use Rattle.idl_check.specs.tables.Rules.{depth, is_interface, is_misplaced};
ghost use Rattle.idl_env.specs.declared.additions.addition.Step.TheVariants as steps;
ghost use Rattle.idl_unit.specs.Ending.{begins};
ghost use Rattle.idl_unit.specs.Faults.{least_fault};
ghost use Rattle.idl_unit.specs.Scoping.{is_closing_by};

use crate::tables::declaring::path_in;
use idl_entity::{Kind, Path};
use idl_env::{Facts, OpenScopes, Step};
use idl_fault::Code;
use idl_lex::Token;
use idl_tree::Tree;
use idl_tree::declarations::Forward;
use idl_unit::{Fault, Role, Rule, opening_brace, role_of, rule_of};
use std::alloc::{AllocError, Global};

/// So many scopes may be open beside the global one.
const MAX_OPEN: usize = 64;

// The kind of the scope that a heading opens.
fn heading_kind(tokens: &[Token]) -> Kind
    ensures { result ≡ heading_kind tokens.now }
{
    if begins_module(tokens) {
        Kind::Module
    } else {
        Kind::Interface
    }
}

// Whether `module` comes first.
fn begins_module(tokens: &[Token]) -> bool
    ensures { result ≡ begins is_module tokens.now }
{
    match tokens {
        [first, ..] => is_module(role_of(first)),
        [] => false,
    }
}

fn is_module(role: Role) -> bool
    ensures { result ≡ is_module role }
{
    match role {
        Role::Module => true,
        _ => false,
    }
}

/// The kind of the scope that a unit opens, if it is an opening.
pub fn opened_kind(tokens: &[Token]) -> Option<Kind>
    ensures { result ≡ opened_kind tokens.now }
{
    match opening_brace(tokens) {
        Some(_) => Some(heading_kind(tokens)),
        None => None,
    }
}

/// What a faulty unit does to the open scopes.
pub fn faulty_step(tokens: &[Token]) -> Step
    ensures { result ≡ faulty_step tokens.now }
{
    match opened_kind(tokens) {
        Some(kind) => Step::OpensNameless(kind),
        None => unopened_step(rule_of(tokens)),
    }
}

// What a faulty unit does that opens nothing.
fn unopened_step(rule: Rule) -> Step
    ensures { result ≡ (if is_closing_by rule then steps.Closes else steps.Stays) }
{
    match rule {
        Rule::Closing => Step::Closes,
        Rule::Heading | Rule::Declaration => Step::Stays,
    }
}

/// What a unit without fault does to the open scopes, in the scope at a path. Where what it adds has
/// the path of the scope that it opens, that is shared.
pub fn step_of(alloc: Global, own: &Facts, tree: &Tree, scope: &Path) -> Result<Step, AllocError>
    ensures { IfOk result (λ step. step ≡ step_of tree.now scope.now) }
{
    match tree {
        Tree::Closing => Ok(Step::Closes),
        Tree::Module(name) => {
            let path = path_in(alloc, own, name, scope)?;
            Ok(Step::Opens(path, Kind::Module))
        }
        Tree::Interface(interface) => {
            let path = path_in(alloc, own, &interface.name, scope)?;
            Ok(Step::Opens(path, Kind::Interface))
        }
        _ => Ok(Step::Stays),
    }
}

/// How many of these scopes are open beside the global one.
pub fn depth(scopes: &OpenScopes) -> usize
    ensures { result ≡ depth scopes.now }
{
    scopes.len().saturating_sub(1)
}

/// The fault of an opening where too many scopes are open.
pub fn opening_fault(tokens: &[Token], scopes: &OpenScopes) -> Option<Fault>
    ensures { option_to_list result ≡ opening_faults tokens.now scopes.now }
{
    let index = opening_brace(tokens)?;
    if depth(scopes) >= MAX_OPEN {
        return Some(Fault {
            index,
            code: Code::NestedTooDeep,
        });
    }
    None
}

/// The fault of a unit that the innermost of these scopes doesn't hold.
pub fn place_fault(tree: &Tree, scopes: &OpenScopes) -> Option<Fault>
    ensures { result ≡ least_fault (place_faults tree.now scopes.now) }
{
    if is_misplaced(tree, scopes) {
        return Some(Fault {
            index: 0,
            code: Code::MisplacedUnit,
        });
    }
    None
}

// Whether the innermost of these scopes doesn't hold the unit.
fn is_misplaced(tree: &Tree, scopes: &OpenScopes) -> bool
    ensures { result ≡ is_misplaced tree.now scopes.now }
{
    match tree {
        Tree::Closing => depth(scopes) == 0,
        Tree::Module(_) | Tree::Interface(_) => is_interface(scopes),
        Tree::Forward(Forward::Interface(_, _)) => is_interface(scopes),
        Tree::ReadonlyAttribute(_) => !is_interface(scopes),
        Tree::Attribute(_) => !is_interface(scopes),
        Tree::Operation(_) => !is_interface(scopes),
        _ => false,
    }
}

// Whether the innermost scope is an interface.
fn is_interface(scopes: &OpenScopes) -> bool
    ensures { result ≡ is_interface scopes.now }
{
    match scopes.innermost() {
        Some(innermost) => innermost.kind == Kind::Interface,
        None => false,
    }
}
