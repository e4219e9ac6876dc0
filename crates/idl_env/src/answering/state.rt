//! What the facts so far come to.

ghost use Rattle.std.specs.Prelude.{◌≡◌, ◌<◌, ◌++◌, [], IfOk, drop, map, OnOk, option_to_list, reverse};
ghost use Rattle.std.specs.Option.{option_map};
ghost use Rattle.idl_env.specs.Facts.{after, after_step, closed, closing, first_world, given_back, inherited, innermost, nameless, next_body, path_around, prefix_in, with_additions, count_in, entity_in, scopes_in, unstopped};
ghost use Rattle.idl_env.specs.Held.{closable, held};
ghost use Rattle.idl_env.specs.declared.additions.addition.Addition.TheVariants.{Declares};
ghost use Rattle.idl_env.specs.declared.additions.addition.Step.TheVariants.{Closes, Enters, Leaves, Opens, OpensNameless, Prefixes};
ghost use Rattle.idl_env.specs.declared.answering.answer.Answer.TheVariants as answers;
ghost use Rattle.idl_env.specs.declared.keys.key.Key.{Key};
ghost use Rattle.idl_env.specs.declared.keys.key.Key.TheVariants.{Cursor, Opened, Prefix as PrefixKey};
ghost use Rattle.idl_entity.specs.declared.kind.Stage.TheVariants as stages;
ghost use Rattle.idl_env.specs.Stamps.{stamped, stamped_in, stamped_over, stamps_of, with_one_more};
ghost use Rattle.idl_env.specs.Written.{adds_at, steps_at, writes_at};

use crate::additions::addition::{Addition, Step};
use crate::additions::digested_addition::DigestedAddition;
use crate::additions::facts::Facts;
use crate::answering::answer::{Answer, Scope, count_in, entity_in, prefix_in, scopes_in};
use crate::answering::answers::Answers;
use crate::answering::open_scopes::OpenScopes;
use crate::answering::operations::{add_inside, inherited, innermost, leave, put_last};
use crate::keys::digested::DigestedKey;
use crate::keys::key::Key;
use crate::keys::lent_key::LentKey;
use idl_base::{Bytes, Seq, Shared, copied};
use idl_entity::paths::shared_name;
use idl_entity::{Entity, Kind, Path, Prefix, Stage};
use idl_map::SharedList;
use itoa::Buffer;
use std::alloc::{AllocError, Global};

/// The answers at their keys, and beside them the paths of the operations and attributes so far of each open scope, and the
/// prefixes that were in force before the open scopes were opened and before files were entered, the innermost last.
pub struct State {
    pub answers: Answers,
    pub inside: Vec<Seq<Path>>,
    pub opened: SharedList<Shared<Prefix>>,
    pub entered: SharedList<Shared<Prefix>>,
}

impl Drop for State {
    fn drop(self) {
        let State {
            answers: _answers,
            inside: _inside,
            opened: _opened,
            entered: _entered,
        } = self;
    }
}

impl State {
    /// The global scope is open, and nothing is declared.
    pub fn new(alloc: Global) -> Result<State, AllocError>
        ensures world { IfOk result (λ state. held state ≡ first_world) }
        ensures stamps { IfOk result (λ state. (stamped_in state.answers).stamps ≡ stamps_of []) }
    {
        let scopes = Shared::new(alloc, OpenScopes::none().with(alloc, Scope::global())?)?;
        let prefix = Answer::InForce(Prefix::none(alloc)?);
        let mut inside = Vec::new(alloc);
        inside.push(Seq::new(alloc))?;
        let answers = Answers::new(alloc, Answer::Open(scopes), prefix)?;
        Ok(State {
            answers,
            inside,
            opened: SharedList::new(),
            entered: SharedList::new(),
        })
    }

    /// What it comes to with what a unit adds.
    pub fn add(&mut self, alloc: Global, facts: &Facts) -> Result<(), AllocError>
        requires counts { (key : Key)
            → count_in ((stamped_in self.old.answers).at key) < 18446744073709551615 }
        requires facts { (stamped_in self.old.answers).stamps.count < 18446744073709551615 }
        ensures world { OnOk result
            (held self.new ≡ after (held self.old) facts.now) }
        ensures stamps { OnOk result
            ((stamped_in self.new.answers).stamps
            ≡ stamped (writes_at (held self.old) facts.now)
            (with_one_more (stamped_in self.old.answers).stamps)) }
    {
        self.answers.count_one();
        self.add_all(alloc, facts)?;
        self.take(alloc, facts.step())
    }

    /// The same with facts whose additions are taken out of them.
    pub fn add_own(&mut self, alloc: Global, facts: &mut Facts) -> Result<(), AllocError>
        requires counts { (key : Key)
            → count_in ((stamped_in self.old.answers).at key) < 18446744073709551615 }
        requires facts { (stamped_in self.old.answers).stamps.count < 18446744073709551615 }
        ensures world { OnOk result
            (held self.new ≡ after (held self.old) facts.old) }
        ensures stamps { OnOk result
            ((stamped_in self.new.answers).stamps
            ≡ stamped (writes_at (held self.old) facts.old)
            (with_one_more (stamped_in self.old.answers).stamps)) }
    {
        self.answers.count_one();
        add_inside(&mut self.inside, facts)?;
        put_own(alloc, &mut self.answers, facts)?;
        self.take(alloc, facts.step())
    }

    // What it comes to with a change of the open scopes.
    fn take(&mut self, alloc: Global, step: &Step) -> Result<(), AllocError>
        requires { (key : Key)
            → count_in ((stamped_in self.old.answers).at key) < 18446744073709551615 }
        ensures world { OnOk result
            (held self.new ≡ after_step (held self.old) step.now) }
        ensures stamps { OnOk result
            ((stamped_in self.new.answers).stamps
            ≡ stamped (steps_at (held self.old) step.now) (stamped_in self.old.answers).stamps) }
    {
        match step {
            Step::Stays => Ok(()),
            Step::Opens(path, kind) => self.open(alloc, path, *kind),
            Step::OpensNameless(kind) => self.open_nameless(alloc, *kind),
            Step::Closes => self.close(alloc),
            Step::Prefixes(text) => self.put_prefix(alloc, text),
            Step::Enters => self.enter(alloc),
            Step::Leaves => self.leave(alloc),
        }
    }

    // What it comes to with the additions.
    fn add_all(&mut self, alloc: Global, facts: &Facts) -> Result<(), AllocError>
        ensures world { OnOk result
            (held self.new ≡ with_additions facts.now.additions (held self.old)) }
        ensures stamps { OnOk result
            ((stamped_in self.new.answers).stamps
            ≡ stamped (adds_at (held self.old) facts.now) (stamped_in self.old.answers).stamps) }
    {
        put_unstopped(alloc, &mut self.answers, facts)?;
        add_inside(&mut self.inside, facts)
    }

    // The open scopes; those that are lent where none is told.
    fn cursor<'a>(&'a self, none: &'a OpenScopes) -> &'a OpenScopes
        requires { none.now ≡ [] }
        ensures { result.now ≡ scopes_in ((stamped_in self.now.answers).at Cursor) }
    {
        scopes_in(Some(self.answers.cursor()), none)
    }

    // What it comes to with one more body of a scope.
    fn open(&mut self, alloc: Global, path: &Path, kind: Kind) -> Result<(), AllocError>
        requires { count_in ((stamped_in self.old.answers).at (Opened path.now))
            < 18446744073709551615 }
        ensures world { OnOk result
            (held self.new ≡ after_step (held self.old) (Opens path.now kind)) }
        ensures stamps { OnOk result
            ((stamped_in self.new.answers).stamps
            ≡ stamped (steps_at (held self.old) (Opens path.now kind))
            (stamped_in self.old.answers).stamps) }
    {
        let scope = self.next_body(alloc, path, kind)?;
        let body = scope.body;
        let key = DigestedKey::opened(alloc, &scope.path)?;
        let none = OpenScopes::none();
        let scopes = Shared::new(alloc, self.cursor(&none).with(alloc, scope)?)?;
        let prefix = self.prefix(alloc)?;
        self.answers.insert(key, Answer::Count(body))?;
        self.answers.put_cursor(Answer::Open(scopes));
        self.inside.push(Seq::new(alloc))?;
        self.opened.push(alloc, prefix)?;
        Ok(())
    }

    // The next body of a scope.
    fn next_body(&self, alloc: Global, path: &Path, kind: Kind) -> Result<Scope, AllocError>
        requires { count_in ((stamped_in self.now.answers).at (Opened path.now))
            < 18446744073709551615 }
        ensures { IfOk result (λ scope.
            scope
            ≡ record {
              path = path.now;
              kind = kind;
              body = next_body (held self.now) path.now;
            }) }
    {
        let key = DigestedKey::opened(alloc, path)?;
        let body = count_in(self.answers.get(&key)) + 1;
        let path = path.clone()?;
        Ok(Scope { path, kind, body })
    }

    // What it comes to with a nameless scope.
    fn open_nameless(&mut self, alloc: Global, kind: Kind) -> Result<(), AllocError>
        requires { (key : Key)
            → count_in ((stamped_in self.old.answers).at key) < 18446744073709551615 }
        ensures world { OnOk result
            (held self.new ≡ after_step (held self.old) (OpensNameless kind)) }
        ensures stamps { OnOk result
            ((stamped_in self.new.answers).stamps
            ≡ stamped (steps_at (held self.old) (OpensNameless kind))
            (stamped_in self.old.answers).stamps) }
    {
        let key = DigestedKey::nameless();
        let number = count_in(self.answers.get(&key));
        let name = nameless_name(alloc, number)?;
        let none = OpenScopes::none();
        let path = path_of_first(self.cursor(&none))?.child(alloc, &name)?;
        self.answers.insert(key, Answer::Count(number + 1))?;
        self.open(alloc, &path, kind)
    }

    // What it comes to with the innermost scope closed, if it isn't the global one.
    fn close(&mut self, alloc: Global) -> Result<(), AllocError>
        ensures world { OnOk result
            (held self.new ≡ after_step (held self.old) Closes) }
        ensures stamps { OnOk result
            ((stamped_in self.new.answers).stamps
            ≡ stamped (steps_at (held self.old) Closes) (stamped_in self.old.answers).stamps) }
    {
        let none = OpenScopes::none();
        let Some((scope, outer)) = closable(self.cursor(&none)) else {
            return Ok(());
        };
        let scopes = Shared::new(alloc, outer.clone()?)?;
        let closing = self.closing(alloc, scope)?;
        put_closing(alloc, &mut self.answers, &closing)?;
        self.answers.put_cursor(Answer::Open(scopes));
        leave(&mut self.inside);
        let prefix = taken_last(alloc, &mut self.opened)?;
        self.answers.put_prefix(Answer::InForce(prefix));
        Ok(())
    }

    // The prefix in force.
    fn prefix(&self, alloc: Global) -> Result<Shared<Prefix>, AllocError>
        ensures { IfOk result (λ prefix.
            prefix ≡ prefix_in ((stamped_in self.now.answers).at PrefixKey)) }
    {
        match prefix_in(Some(self.answers.prefix())) {
            Some(prefix) => prefix.clone(),
            None => Prefix::none(alloc),
        }
    }

    // What it comes to with a prefix pragma.
    fn put_prefix(&mut self, alloc: Global, text: &Bytes) -> Result<(), AllocError>
        ensures world { OnOk result
            (held self.new ≡ after_step (held self.old) (Prefixes text.now)) }
        ensures stamps { OnOk result
            ((stamped_in self.new.answers).stamps
            ≡ stamped (steps_at (held self.old) (Prefixes text.now))
            (stamped_in self.old.answers).stamps) }
    {
        let text = text.clone()?;
        let none = OpenScopes::none();
        let scope = path_of_first(self.cursor(&none))?;
        let prefix = Shared::new(alloc, Prefix { text, scope })?;
        self.answers.put_prefix(Answer::InForce(prefix));
        Ok(())
    }

    // What it comes to with a file entered.
    fn enter(&mut self, alloc: Global) -> Result<(), AllocError>
        ensures world { OnOk result
            (held self.new ≡ after_step (held self.old) Enters) }
        ensures stamps { OnOk result
            ((stamped_in self.new.answers).stamps
            ≡ stamped (steps_at (held self.old) Enters) (stamped_in self.old.answers).stamps) }
    {
        let prefix = self.prefix(alloc)?;
        let none = Prefix::none(alloc)?;
        self.answers.put_prefix(Answer::InForce(none));
        self.entered.push(alloc, prefix)?;
        Ok(())
    }

    // What it comes to with a file left.
    fn leave(&mut self, alloc: Global) -> Result<(), AllocError>
        ensures world { OnOk result
            (held self.new ≡ after_step (held self.old) Leaves) }
        ensures stamps { OnOk result
            ((stamped_in self.new.answers).stamps
            ≡ stamped (steps_at (held self.old) Leaves) (stamped_in self.old.answers).stamps) }
    {
        let prefix = taken_last(alloc, &mut self.entered)?;
        self.answers.put_prefix(Answer::InForce(prefix));
        Ok(())
    }

    // The interface that is closed with this scope, if it is of one.
    fn closing(&self, alloc: Global, scope: &Scope) -> Result<Option<Shared<Entity>>, AllocError>
        ensures { IfOk result (λ entity.
            closing (held self.now) scope.now
            ≡ map Declares (option_to_list entity)) }
    {
        if !scope.kind.is_interface() {
            return Ok(None);
        }
        let key = LentKey::of_entity(alloc, &scope.path);
        let Some(entity) = entity_in(self.answers.get_lent(&key)?) else {
            return Ok(None);
        };
        let interface = entity.get();
        let operations = self.operations(alloc, interface)?;
        let closed = closed(alloc, interface, operations)?;
        Ok(Some(Shared::new(alloc, closed)?))
    }

    // The operations and attributes of an interface that closes: the inherited ones and then its own.
    fn operations(&self, alloc: Global, interface: &Entity) -> Result<SharedList<Path>, AllocError>
        ensures { IfOk result (λ paths.
            paths
            ≡ inherited (stamped_in self.now.answers).at interface.now.bases
            ++ innermost (reverse self.now.inside.items)) }
    {
        let mut paths = inherited(alloc, &self.answers, interface.bases())?;
        put_last(alloc, &mut paths, innermost(self.inside.as_slice()))?;
        Ok(paths)
    }
}

/// The innermost of the open scopes and those outward of it, if it isn't the global one.
pub fn closable(scopes: &OpenScopes) -> Option<(&Scope, &OpenScopes)>
    ensures { option_map (λ p. (p.0.now, p.1.now)) result ≡ closable scopes.now }
{
    let (scope, outer) = scopes.split_first()?;
    let (_around, _others) = outer.split_first()?;
    Some((scope, outer))
}

// The answers with that of an interface that closes, if one does.
fn put_closing(
    alloc: Global,
    answers: &mut Answers,
    closing: &Option<Shared<Entity>>,
) -> Result<(), AllocError>
    ensures { OnOk result
        (stamped_in answers.new
        ≡ stamped_over (map Declares (option_to_list closing.now)) (stamped_in answers.old)) }
{
    let Some(entity) = closing else {
        return Ok(());
    };
    let key = Key::of_entity(alloc, entity.get().path())?;
    let entity = entity.clone()?;
    answers.insert(key, Answer::Known(entity))
}

// The prefix that was put there last, taken off.
fn taken_last(
    alloc: Global,
    before: &mut SharedList<Shared<Prefix>>,
) -> Result<Shared<Prefix>, AllocError>
    ensures prefix { IfOk result (λ prefix. prefix ≡ given_back (reverse before.old)) }
    ensures others { IfOk result (λ prefix. reverse before.new ≡ drop 1 (reverse before.old)) }
{
    let Some((earlier, last)) = before.split_last()? else {
        return Prefix::none(alloc);
    };
    let prefix = last.clone()?;
    *before = earlier;
    Ok(prefix)
}

// An interface as it is once it is closed, with these operations and attributes.
fn closed(
    alloc: Global,
    interface: &Entity,
    operations: SharedList<Path>,
) -> Result<Entity, AllocError>
    ensures { IfOk result (λ entity.
        entity ≡ record interface.now { stage = stages.Complete; operations = operations }) }
{
    let mut entity = interface.clone()?;
    entity.set_stage(Stage::Complete);
    entity.set_operations(alloc, operations)?;
    Ok(entity)
}

// The answers with those of the additions that are not stopped.
fn put_unstopped(alloc: Global, answers: &mut Answers, facts: &Facts) -> Result<(), AllocError>
    ensures { OnOk result
        (stamped_in answers.new
        ≡ stamped_over (unstopped (stamped_in answers.old).at facts.now.additions)
        (stamped_in answers.old)) }
{
    if !facts.may_be_stopped() {
        return put_all(alloc, answers, facts);
    }
    let left = facts.unstopped(alloc, answers)?;
    put_few(alloc, answers, left)?;
    Ok(())
}

// The answers with those of the additions.
fn put_all(alloc: Global, answers: &mut Answers, facts: &Facts) -> Result<(), AllocError>
    ensures { OnOk result
        (stamped_in answers.new ≡ stamped_over facts.now.additions (stamped_in answers.old)) }
{
    let count = facts.len();
    for back in 0..count {
        let Some(addition) = facts.digested(count - 1 - back) else {
            continue;
        };
        let key = addition.key(alloc)?;
        let answer = addition.addition().answer(alloc)?;
        answers.insert(key, answer)?;
    }
    Ok(())
}

// The same, where the additions may be taken out of the facts.
fn put_own(alloc: Global, answers: &mut Answers, facts: &mut Facts) -> Result<(), AllocError>
    ensures answers { OnOk result
        (stamped_in answers.new
        ≡ stamped_over (unstopped (stamped_in answers.old).at facts.old.additions)
        (stamped_in answers.old)) }
    ensures step { OnOk result (facts.new.step ≡ facts.old.step) }
{
    if facts.may_be_stopped() {
        return put_unstopped(alloc, answers, facts);
    }
    put_taken(alloc, answers, facts)
}

// The answers with those of the additions, which are taken out of the facts, unless they are many.
#[inline]
fn put_taken(alloc: Global, answers: &mut Answers, facts: &mut Facts) -> Result<(), AllocError>
    ensures answers { OnOk result
        (stamped_in answers.new ≡ stamped_over facts.old.additions (stamped_in answers.old)) }
    ensures step { OnOk result (facts.new.step ≡ facts.old.step) }
{
    let Some(additions) = facts.take_few() else {
        return put_all(alloc, answers, facts);
    };
    let list = put_few(alloc, answers, additions)?;
    facts.give_list(list);
    Ok(())
}

// The answers with those of these additions; their list, in which none is left.
fn put_few(
    alloc: Global,
    answers: &mut Answers,
    additions: Vec<DigestedAddition>,
) -> Result<Vec<DigestedAddition>, AllocError>
    ensures answers { OnOk result
        (stamped_in answers.new ≡ stamped_over additions.items (stamped_in answers.old)) }
    ensures none { IfOk result (λ list. list.items ≡ []) }
{
    let mut additions = additions;
    'additions: while let Some(addition) = additions.pop() {
        let (key, answer) = addition.into_entry(alloc)?;
        answers.insert(key, answer)?;
    }
    Ok(additions)
}

// The path of the innermost of the scopes.
fn path_of_first(scopes: &OpenScopes) -> Result<Path, AllocError>
    ensures { IfOk result (λ path. path ≡ path_around scopes.now) }
{
    match scopes.split_first() {
        None => Ok(Path::global()),
        Some((innermost, _outer)) => innermost.path.clone(),
    }
}

// The name of the nameless scope with this number.
fn nameless_name(alloc: Global, number: usize) -> Result<Bytes, AllocError>
    ensures { IfOk result (λ name. name ≡ nameless number) }
{
    let mut buffer = Buffer::new();
    let mut name = Vec::from_slice(alloc, b"?")?;
    name.extend_from_slice(buffer.format(number).as_bytes())?;
    shared_name(alloc, name.as_slice())
}
