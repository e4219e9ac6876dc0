//! Names and lists.

ghost use Rattle.std.specs.Prelude.{OnOk};
ghost use Rattle.idl_lex.specs.declared.kinds.keyword.Keyword.TheVariants as word;
ghost use Rattle.idl_parts.specs.Item.{Pushes};
ghost use Rattle.idl_parts.specs.Part.{declared, listed, raised, used};

use crate::part::{Declaration, UnitPart, Use};
use idl_base::Bytes;
use idl_tree::{ScopedName, Several};
use std::alloc::AllocError;

/// Names that are declared, with commas between.
pub fn push_declared<'a>(
    sites: &mut Vec<UnitPart<'a>>,
    declaration: Declaration,
    names: &'a Several<Bytes>,
) -> Result<(), AllocError>
    ensures { OnOk result
        (Pushes sites.old.items sites.new.items (listed (declared declaration) names.now)) }
{
    sites.push(UnitPart::Declared(declaration, &names.first))?;
    for name in names.rest.as_slice() {
        sites.extend_from_slice(&[UnitPart::Tokens(1), UnitPart::Declared(declaration, name)])?;
    }
    Ok(())
}

/// Names that are used, with commas between.
pub fn push_used<'a>(
    sites: &mut Vec<UnitPart<'a>>,
    way: Use,
    names: &'a Several<ScopedName>,
) -> Result<(), AllocError>
    ensures { OnOk result (Pushes sites.old.items sites.new.items (used way names.now)) }
{
    sites.push(UnitPart::Used(way, &names.first))?;
    for name in names.rest.as_slice() {
        sites.extend_from_slice(&[UnitPart::Tokens(1), UnitPart::Used(way, name)])?;
    }
    Ok(())
}

/// A keyword, and exceptions in parentheses that are used so. Which keyword it is makes no difference.
pub fn push_raised<'a>(
    sites: &mut Vec<UnitPart<'a>>,
    way: Use,
    names: &'a Several<ScopedName>,
) -> Result<(), AllocError>
    ensures { OnOk result (Pushes sites.old.items sites.new.items (raised way word.Raises names.now)) }
{
    sites.extend_from_slice(&[UnitPart::Tokens(1), UnitPart::Tokens(1)])?;
    push_used(sites, way, names)?;
    sites.extend_from_slice(&[UnitPart::Tokens(1)])
}
