//! The examples of docs/EMBEDDING.md: an editor that holds a project, and a generator of code that walks the trees of a root and prints a
//! header of C.

mod editor;
mod generator;

use editor::editing;
use generator::shop_header;
use std::test::Fail;

const EDITING: &str = "absent: money.idl
shop.idl:2: E30 Money
touched: shop.idl
expanded: 1
refused: name not allowed
typedef long Money;
interface Shop {
  ::Money price ( );
};
declared: IDL:Money:1.0
declared: IDL:Shop:1.0
declared: IDL:Shop/price:1.0
";

#[test]
fn an_editor_is_told_this(rt: HostRuntime) -> Result<(), Fail> {
    let told = editing(rt.alloc())?;
    assert_eq!(rt; told.as_str(), EDITING);
    Ok(())
}

const HEADER: &str = "typedef struct {
    char * name;
    SEQUENCE(int32_t) prices[2][3];
} Shop_Item;
typedef struct {
    Shop_Item what;
} Shop_Gone;
typedef SEQUENCE(Shop_Item) Shop_Items;
typedef void *Shop_Till;
Shop_Items Shop_Till_sell(void *object, Shop_Item sold, bool *last); // Shop_Gone
";

#[test]
fn a_generator_makes_this_header(rt: HostRuntime) -> Result<(), Fail> {
    let header = shop_header(rt.alloc())?;
    assert_eq!(rt; header.as_str(), HEADER);
    Ok(())
}
