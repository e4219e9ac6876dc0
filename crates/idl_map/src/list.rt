//! A list whose copies share their items.

ghost use Rattle.std.specs.Prelude.{◌≡◌, ◌<◌, ◌↔◌, ◌++◌, ◌∷◌, [], IfOk, IfSome, IsNone, IsTrue, None, OnOk, OnErr, Some, length, refl, reverse};
ghost use Rattle.std.specs.Cmp.{partial_order_from_agreeing_total};
ghost use Rattle.std.specs.Cmp.Lexicographic.{pointwise, lists_per, lists_equiv};
ghost use Rattle.idl_base.specs.Exact.{same_list};
ghost use Rattle.idl_map.specs.Items.{items_of};
ghost use Rattle.idl_map.specs.Order.{backwards_cmp, backwards_ties, backwards_total};

use idl_base::Datum;
use std::alloc::{AllocError, Global};
use std::cmp::Ordering;
use std::marker::Model;
use std::rc::Rc;

/// Items in order. To every contract it is the list of them.
///
/// A copy is a pointer, and so is the list before the last item. To put an item last copies no other, whether the list
/// is shared or not.
pub struct SharedList<T> {
    last: Option<Rc<Node<T>>>,
}

impl<T> Model for SharedList<T> {
    ghost use Rattle.std.specs.Prelude.{List};
    ghost use Rattle.idl_map.specs.Items.{items_of};

    ghost Value = { List T };

    ghost view = { λ list. items_of list.last };
}

impl<T: Drop> Drop for SharedList<T> {
    fn drop(self) {
        let SharedList { last: _last } = self;
    }
}

// An item, and the node of the one before it.
struct Node<T> {
    before: Option<Rc<Node<T>>>,
    item: T,
}

impl<T> Model for Node<T> {
    ghost use Rattle.std.specs.Prelude.{List, ◌++◌, ◌∷◌, [], length};
    ghost use Rattle.idl_map.specs.Items.{items_of};

    ghost Value = { List T };

    ghost view = { λ node. items_of node.before ++ node.item ∷ [] };

    ghost size = { length };

    ghost use Rattle.std.proofs.Common.{arith, length-append};

    ghost size_decreases = { λ a h. Prim.grind (arith, length-append) };
}

// A loop, so that a long list is dropped in little stack.
impl<T: Drop> Drop for Node<T> {
    fn drop(self) {
        let mut link = self.into_before();
        while let Some(shared) = link {
            link = match Rc::into_inner(shared) {
                Some(node) => node.into_before(),
                None => None,
            };
        }
    }
}

impl<T: Drop> Node<T> {
    // Those before its item, which is dropped.
    fn into_before(self) -> Option<Rc<Node<T>>>
        ensures { length (items_of result) < length self }
    {
        let Node {
            before,
            item: _item,
        } = self;
        before
    }
}

impl<T: Drop> SharedList<T> {
    /// The list without items. It takes no memory.
    pub fn new() -> SharedList<T>
        ensures { result ≡ [] }
    {
        SharedList { last: None }
    }

    /// Puts an item last. Want of memory leaves the list as it was.
    pub fn push(&mut self, alloc: Global, item: T) -> Result<(), AllocError>
        ensures items { OnOk result (self.new ≡ self.old ++ item ∷ []) }
        ensures err { OnErr result (self.new ≡ self.old) }
    {
        let before = self.last.clone()?;
        let node = Rc::new(alloc, Node { before, item })?;
        self.last = Some(node);
        Ok(())
    }

    /// The list before the last item, and that item; nothing where there is none.
    pub fn split_last(&self) -> Result<Option<(SharedList<T>, &T)>, AllocError>
        ensures some { IfOk result (λ o. IfSome o (λ p. self.now ≡ p.0 ++ p.1.now ∷ [])) }
        ensures none { IfOk result (λ o. IsNone o ↔ (self.now ≡ [])) }
    {
        let Some(node) = &self.last else {
            return Ok(None);
        };
        let node: &Node<T> = node;
        let last = node.before.clone()?;
        Ok(Some((SharedList { last }, &node.item)))
    }
}

impl<T> SharedList<T> {
    /// The items, lent, the last first.
    pub fn links(&self) -> Links<'_, T>
        ensures { result ≡ reverse self.now }
    {
        Links { link: &self.last }
    }
}

/// Items of a list that are lent: to every contract the list of them, from one of them on, the last first.
#[derive(Drop)]
pub struct Links<'a, T> {
    link: &'a Option<Rc<Node<T>>>,
}

impl<'a, T> Model for Links<'a, T> {
    ghost use Rattle.std.specs.Prelude.{List, reverse};
    ghost use Rattle.idl_map.specs.Items.{items_of};

    ghost Value = { List T };

    ghost view = { λ links. reverse (items_of links.link.now) };
}

impl<'a, T> Links<'a, T> {
    /// The first item, and those behind it; nothing where there is none.
    pub fn split_first(self) -> Option<(&'a T, Links<'a, T>)>
        ensures some { IfSome result (λ p. self.entry ≡ p.0.now ∷ p.1) }
        ensures none { result ≡ None → self.entry ≡ [] }
    {
        match self.link {
            Some(shared) => {
                let node: &Node<T> = shared;
                let before = Links { link: &node.before };
                Some((&node.item, before))
            }
            None => None,
        }
    }
}

impl<T: Datum> SharedList<T> {
    /// Copies of the items in order.
    pub fn to_vec(&self, alloc: Global) -> Result<Vec<T>, AllocError>
        ensures { IfOk result (λ items. items.items ≡ self.now) }
    {
        let mut items = Vec::new(alloc);
        let mut link = &self.last;
        while let Some(shared) = link {
            let node: &Node<T> = shared;
            items.push(node.item.clone()?)?;
            link = &node.before;
        }
        items.reverse();
        Ok(items)
    }
}

impl<T: Drop> Clone for SharedList<T> {
    ghost is_clone = { λ list copy. copy ≡ list };

    fn clone(&self) -> Result<SharedList<T>, AllocError> {
        let last = self.last.clone()?;
        Ok(SharedList { last })
    }
}

impl<T: Datum> PartialEq for SharedList<T> {
    ghost eq = { pointwise T.eq };

    ghost laws = { lists_per T.PartialEq.laws };

    fn eq(&self, other: &SharedList<T>) -> bool
        ensures by_item { result ≡ pointwise T.eq self.now other.now }
        ensures exact { IsTrue result ↔ (self.now ≡ other.now) }
    {
        are_one(&self.last, &other.last)
    }
}

impl<T: Datum> Node<T> {
    // Those before its item, and that.
    fn parts(&self) -> (&Option<Rc<Node<T>>>, &T)
        ensures { self.now ≡ items_of result.0.now ++ result.1.now ∷ [] }
    {
        (&self.before, &self.item)
    }
}

// Whether the items are one, compared from the last one on: a loop, so that long lists are compared in little stack.
#[tactic(auto, using(crate::proofs::ListLemmas::same_last, crate::proofs::ListLemmas::other_last, crate::proofs::ListLemmas::longer, crate::proofs::ListLemmas::shorter))]
fn are_one<T: Datum>(first: &Option<Rc<Node<T>>>, second: &Option<Rc<Node<T>>>) -> bool
    ensures { result ≡ pointwise T.eq (items_of first.now) (items_of second.now) }
{
    let mut one = first;
    let mut two = second;
    while let Some(shared) = one {
        let node: &Node<T> = shared;
        let (before, item) = node.parts();
        let Some(beside) = two else {
            return false;
        };
        let beside: &Node<T> = beside;
        let (others, other) = beside.parts();
        if *item != *other {
            return false;
        }
        one = before;
        two = others;
    }
    let Some(more) = two else {
        return true;
    };
    let more: &Node<T> = more;
    let _parts = more.parts();
    false
}

impl<T: Datum> Eq for SharedList<T> {
    ghost laws = { lists_equiv T.Eq.laws };
}

// Which comes first, by the last items and then by those before them: a loop, as for `==`.
#[tactic(auto, using(crate::proofs::OrderLemmas::tied_last, crate::proofs::OrderLemmas::other_last, crate::proofs::OrderLemmas::longer, crate::proofs::OrderLemmas::shorter))]
fn order_of<T: Datum + Ord>(first: &Option<Rc<Node<T>>>, second: &Option<Rc<Node<T>>>) -> Ordering
    ensures { result ≡ backwards_cmp T.cmp (items_of first.now) (items_of second.now) }
{
    let mut one = first;
    let mut two = second;
    while let Some(shared) = one {
        let node: &Node<T> = shared;
        let (before, item) = node.parts();
        let Some(opposite) = two else {
            return Ordering::Greater;
        };
        let opposite: &Node<T> = opposite;
        let (others, other) = opposite.parts();
        let order = item.cmp(other);
        if order != Ordering::Equal {
            return order;
        }
        one = before;
        two = others;
    }
    let Some(more) = two else {
        return Ordering::Equal;
    };
    let more: &Node<T> = more;
    let _parts = more.parts();
    Ordering::Less
}

impl<T: Datum + Ord> PartialOrd for SharedList<T> {
    ghost partial_cmp = { λ x y. Some (backwards_cmp T.cmp x y) };

    ghost laws = { partial_order_from_agreeing_total (backwards_cmp T.cmp) (backwards_total T.total) (λ x y. refl) (backwards_ties T.cmp T.matches_eq) };

    fn partial_cmp(&self, other: &SharedList<T>) -> Option<Ordering> {
        Some(self.cmp(other))
    }
}

impl<T: Datum + Ord> Ord for SharedList<T> {
    ghost cmp = { backwards_cmp T.cmp };

    ghost total = { backwards_total T.total };

    ghost matches_partial_cmp = { λ x y. refl };

    ghost matches_eq = { backwards_ties T.cmp T.matches_eq };

    fn cmp(&self, other: &SharedList<T>) -> Ordering
        ensures { result ≡ backwards_cmp T.cmp self.now other.now }
    {
        order_of(&self.last, &other.last)
    }
}

impl<T: Datum> Datum for SharedList<T> {
    ghost same = { same_list T.eq T.same };

    ghost copy = { λ x y h. h };
}
