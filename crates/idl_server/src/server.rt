//! The server: a step of it for each message.

ghost use Rattle.std.specs.Prelude.{◌≡◌, ◌⊎◌, ◌++◌, ◌∷◌, [], ℕ, List, Contains, None, IfOk, IfSome, IsErr, OnErr, OnOk};
ghost use Rattle.serde_json.specs.View.{view};
ghost use Rattle.idl_loader.specs.Holding.{Holding};
ghost use Rattle.idl_editor.specs.messages.Said.{said_by};
ghost use Rattle.idl_editor.specs.documents.Notices.{told_by_message, told_by_notice};
ghost use Rattle.idl_editor.specs.messages.Answers.{error_json};
ghost use Rattle.idl_editor.specs.messages.Message.{IsMessage};
ghost use Rattle.idl_editor.specs.declared.messages.answer.ErrorCode.TheVariants.{Internal};
ghost use Rattle.idl_editor.specs.declared.messages.message.Message.{Message};
ghost use Rattle.idl_server.specs.Messages.{IsAnswered, IsMessageOf, IsRead, answered, next_by, outcome_by};
ghost use Rattle.idl_server.specs.Published.{ArePublished};
ghost use Rattle.idl_editor.specs.declared.messages.method.Method.TheVariants.{DidChange};
ghost use Rattle.idl_server.specs.Late.{CatchesUp, IsChange, IsChangeOf, TakesIn};
ghost use Rattle.idl_server.specs.Server.{HasTaken, IsNew, IsSettled, if_running};
ghost use Rattle.idl_server.specs.declared.server.Phase.TheVariants.{Running};
ghost use Rattle.idl_server.specs.declared.workspace.Workspace.{Workspace};

use crate::publishing::PublishedDiagnostics;
use crate::requests::RequestOutcome;
use crate::workspace::Workspace;
use idl_editor::Encoding;
use idl_editor::documents::{RefusedEdit, changes_told, shown_params};
use idl_editor::messages::{ErrorCode, Message, Method, Outbox, message_of, version_of};
use idl_editor::uris::Folders;
use idl_loader::PathLoader;
use idl_project::Session;
use idl_source::Name;
use indexmap::{IndexMap, IndexSet};
use serde_json::Value;
use std::alloc::{AllocError, Global};

// How far a server has come.
#[derive(Clone, Copy)]
enum Phase {
    // It waits for `initialize`.
    Waiting,
    Running,
    // It was told that no further request comes.
    ShutDown,
}

impl Phase {
    // What a notice comes to.
    fn outcome_by(self, method: Method) -> StepOutcome
        ensures { result ≡ outcome_by self method }
    {
        match (self, method) {
            (Phase::ShutDown, Method::Exit) => StepOutcome::Ends,
            (_, Method::Exit) => StepOutcome::BreaksOff,
            _ => StepOutcome::Goes,
        }
    }
}

/// What is next after a step.
#[derive(Clone, Copy, Debug, PartialEq, Eq)]
pub enum StepOutcome {
    /// A further message.
    Goes,
    /// The end, as an editor has it: no further request was to come.
    Ends,
    /// The end without that.
    BreaksOff,
}

/// A language server. What it tells of a file is what the texts that it was told, and the files of the loader, compile to.
#[derive(Drop)]
pub struct Server {
    phase: Phase,
    pub(crate) workspace: Workspace,
    told: PublishedDiagnostics,
    // The documents that changed while more was there to be taken in: the session gets their texts later.
    late: IndexSet<Name>,
}

impl Server {
    /// A server that was told nothing.
    pub fn new(alloc: Global) -> Server
        ensures settled { (told : List ℕ → Holding) → IsSettled told result }
        ensures first { IsNew result }
    {
        let session = Session::new(alloc);
        let documents = IndexMap::new(alloc);
        let tried = IndexSet::new(alloc);
        let late = IndexSet::new(alloc);
        let workspace = Workspace {
            encoding: Encoding::Utf16,
            folders: Folders::new(alloc),
            session,
            documents,
            tried,
            unread: IndexSet::new(alloc),
            turned_away: IndexSet::new(alloc),
            touched: IndexSet::new(alloc),
            dropped: IndexSet::new(alloc),
            refused: Vec::new(alloc),
        };
        Server {
            phase: Phase::Waiting,
            workspace,
            told: PublishedDiagnostics::new(alloc),
            late,
        }
    }

    /// Does what a message asks for, and gathers what is to be said. After it no document is late.
    pub fn step<L: PathLoader>(
        &mut self,
        loader: &mut L,
        body: &[u8],
        out: &mut Outbox,
    ) -> Result<StepOutcome, AllocError>
        ensures settled { IsSettled (L.told_of loader.old) self.old
            → OnOk result (IsSettled (L.told_of loader.old) self.new) }
        ensures taken { OnOk result (TakesIn body.now self.old self.new
            (said_by out.old) (said_by out.new)) }
        ensures on_time { OnOk result (self.new.late.keys ≡ []) }
        ensures answered { IfOk result (λ outcome. (message : Message)
            × IsMessageOf body.now message × IsAnswered message self.old.phase self.new.phase
            (said_by out.old) (said_by out.new) outcome) }
        ensures stays { L.told_of loader.new ≡ L.told_of loader.old }
    {
        let Some(value) = value_of(body, out)? else {
            self.catch_up(loader, out)?;
            return Ok(StepOutcome::Goes);
        };
        let Some((name, params)) = self.late_change(&value)? else {
            self.catch_up(loader, out)?;
            return self.take_value(loader, &value, out);
        };
        self.put_off(&name, params, out)?;
        self.catch_up(loader, out)?;
        Ok(StepOutcome::Goes)
    }

    /// The same for a message behind which more has come: after a change of a document that may be late.
    pub fn step_early<L: PathLoader>(
        &mut self,
        loader: &mut L,
        body: &[u8],
        out: &mut Outbox,
    ) -> Result<StepOutcome, AllocError>
        ensures settled { IsSettled (L.told_of loader.old) self.old
            → OnOk result (IsSettled (L.told_of loader.old) self.new) }
        ensures taken { OnOk result (TakesIn body.now self.old self.new
            (said_by out.old) (said_by out.new)) }
        ensures answered { IfOk result (λ outcome. (message : Message)
            × IsMessageOf body.now message × IsAnswered message self.old.phase self.new.phase
            (said_by out.old) (said_by out.new) outcome) }
        ensures stays { L.told_of loader.new ≡ L.told_of loader.old }
    {
        let Some(value) = value_of(body, out)? else {
            return Ok(StepOutcome::Goes);
        };
        let Some((name, params)) = self.changed_by(&value)? else {
            self.catch_up(loader, out)?;
            return self.take_value(loader, &value, out);
        };
        self.put_off(&name, params, out)?;
        Ok(StepOutcome::Goes)
    }

    // The open document that a message changes, where a server runs, and the parameters that tell the change.
    fn changed_by<'v>(&self, value: &'v Value) -> Result<Option<(Name, &'v Value)>, AllocError>
        ensures { IfOk result (λ found. IfSome found (λ change. (self.now.phase ≡ Running)
            × IsChange (view value.now) (view change.1.now)
            × IsChangeOf self.now.workspace change.0 (view change.1.now))) }
    {
        let Phase::Running = self.phase else {
            return Ok(None);
        };
        let Some(params) = change_in(value) else {
            return Ok(None);
        };
        match self.workspace.open_in(params)? {
            Some(name) => Ok(Some((name, params))),
            None => Ok(None),
        }
    }

    // The same of a document that is late.
    fn late_change<'v>(&self, value: &'v Value) -> Result<Option<(Name, &'v Value)>, AllocError>
        ensures { IfOk result (λ found. IfSome found (λ change. (self.now.phase ≡ Running)
            × IsChange (view value.now) (view change.1.now)
            × IsChangeOf self.now.workspace change.0 (view change.1.now))) }
    {
        let Some((name, params)) = self.changed_by(value)? else {
            return Ok(None);
        };
        if !self.late.contains(&name) {
            return Ok(None);
        }
        Ok(Some((name, params)))
    }

    // Changes the text of an open document, of which the session gets it later. Nothing of it is said before that.
    fn put_off(&mut self, name: &Name, params: &Value, out: &mut Outbox) -> Result<(), AllocError>
        requires change { IsChangeOf self.old.workspace name.now (view params.now) }
        requires runs { self.old.phase ≡ Running }
        ensures settled { (told : List ℕ → Holding)
            → IsSettled told self.old → OnOk result (IsSettled told self.new) }
        ensures taken { OnOk result (HasTaken (told_by_notice self.old.workspace.folders
            DidChange (view params.now)) self.old self.new) }
        ensures published { (w : Workspace)
            → OnOk result (ArePublished w (said_by out.old) (said_by out.new)) }
        ensures answers { OnOk result (answered (said_by out.new) ≡ answered (said_by out.old)) }
        ensures phase { self.new.phase ≡ self.old.phase }
    {
        let Some(changes) = changes_told(out.alloc(), params)? else {
            self.workspace.keep_bad_change(name)?;
            return show_refused(&mut self.workspace.refused, out);
        };
        self.late.insert(name.copied())?;
        self.workspace.put_off(name, version_of(params), &changes)
    }

    // Hands the session the texts of the documents that are late, and tells what is found then.
    fn catch_up<L: PathLoader>(
        &mut self,
        loader: &mut L,
        out: &mut Outbox,
    ) -> Result<(), AllocError>
        ensures settled { IsSettled (L.told_of loader.old) self.old
            → OnOk result (IsSettled (L.told_of loader.old) self.new) }
        ensures caught { OnOk result (CatchesUp self.old self.new) }
        ensures on_time { OnOk result (self.new.late.keys ≡ []) }
        ensures published { OnOk result (ArePublished self.new.workspace
            (said_by out.old) (said_by out.new)) }
        ensures answers { OnOk result (answered (said_by out.new) ≡ answered (said_by out.old)) }
        ensures phase { self.new.phase ≡ self.old.phase }
        ensures stays { L.told_of loader.new ≡ L.told_of loader.old }
    {
        // A text is put off only where the server runs.
        let Phase::Running = self.phase else {
            self.late.clear();
            return Ok(());
        };
        if self.late.is_empty() {
            return Ok(());
        }
        self.workspace.put_each(self.late.as_slice())?;
        self.workspace.settle(loader)?;
        self.late.clear();
        show_refused(&mut self.workspace.refused, out)?;
        self.told.publish(&mut self.workspace, out)
    }

    // The same for the JSON that the message is.
    fn take_value<L: PathLoader>(
        &mut self,
        loader: &mut L,
        value: &Value,
        out: &mut Outbox,
    ) -> Result<StepOutcome, AllocError>
        requires on_time { self.old.late.keys ≡ [] }
        ensures settled { IsSettled (L.told_of loader.old) self.old
            → OnOk result (IsSettled (L.told_of loader.old) self.new) }
        ensures taken { OnOk result (HasTaken (if_running self.old.phase
            (told_by_message self.old.workspace.folders (view value.now))) self.old self.new) }
        ensures published { OnOk result (ArePublished self.new.workspace
            (said_by out.old) (said_by out.new)) }
        ensures answered { IfOk result (λ outcome. (message : Message)
            × IsMessage (view value.now) message × IsAnswered message self.old.phase self.new.phase
            (said_by out.old) (said_by out.new) outcome) }
        ensures late { self.new.late ≡ self.old.late }
        ensures stays { L.told_of loader.new ≡ L.told_of loader.old }
    {
        let nothing = Value::Null;
        match message_of(value) {
            Message::Request(id, method, params) => {
                self.take_request(id, method, params.unwrap_or(&nothing), out)?;
                Ok(StepOutcome::Goes)
            }
            Message::Notice(method, params) => match self.phase.outcome_by(method) {
                StepOutcome::Goes => {
                    self.take_notice(loader, method, params.unwrap_or(&nothing), out)?;
                    Ok(StepOutcome::Goes)
                }
                end => Ok(end),
            },
            Message::Answer => Ok(StepOutcome::Goes),
            Message::Invalid => {
                out.refuse(&Value::Null, ErrorCode::NoMessage)?;
                Ok(StepOutcome::Goes)
            }
        }
    }

    // Answers a request.
    fn take_request(
        &mut self,
        id: &Value,
        method: Method,
        params: &Value,
        out: &mut Outbox,
    ) -> Result<(), AllocError>
        requires on_time { self.old.late.keys ≡ [] }
        ensures settled { (told : List ℕ → Holding)
            → IsSettled told self.old → OnOk result (IsSettled told self.new) }
        ensures taken { OnOk result (HasTaken None self.old self.new) }
        ensures published { (w : Workspace)
            → OnOk result (ArePublished w (said_by out.old) (said_by out.new)) }
        ensures answers { OnOk result (answered (said_by out.new)
            ≡ answered (said_by out.old) ++ view id.now ∷ []) }
        ensures led { OnOk result ((self.new.phase ≡ next_by self.old.phase method)
            ⊎ ((self.new.phase ≡ self.old.phase)
            × Contains (said_by out.new) (error_json (view id.now) Internal))) }
        ensures late { self.new.late ≡ self.old.late }
    {
        say_outcome(id, self.outcome(method, params), out)?;
        show_refused(&mut self.workspace.refused, out)
    }

    // What comes of a request.
    fn outcome(&mut self, method: Method, params: &Value) -> Result<RequestOutcome, AllocError>
        requires on_time { self.old.late.keys ≡ [] }
        ensures settled { (told : List ℕ → Holding)
            → IsSettled told self.old → IsSettled told self.new }
        ensures taken { HasTaken None self.old self.new }
        ensures led { OnOk result (self.new.phase ≡ next_by self.old.phase method) }
        ensures kept { OnErr result (self.new.phase ≡ self.old.phase) }
        ensures late { self.new.late ≡ self.old.late }
    {
        match self.phase {
            Phase::Waiting => match method {
                Method::Initialize => {
                    let abilities = self.workspace.begin(params)?;
                    self.phase = Phase::Running;
                    Ok(RequestOutcome::Done(abilities))
                }
                _ => Ok(RequestOutcome::Refused(ErrorCode::NotInitialized)),
            },
            Phase::Running => match method {
                Method::Initialize => Ok(RequestOutcome::Refused(ErrorCode::NoMessage)),
                Method::Shutdown => {
                    self.phase = Phase::ShutDown;
                    Ok(RequestOutcome::Done(Value::Null))
                }
                _ => self.workspace.answer(method, params),
            },
            Phase::ShutDown => Ok(RequestOutcome::Refused(ErrorCode::NoMessage)),
        }
    }

    // Takes in what a notice tells, and tells what is found then.
    fn take_notice<L: PathLoader>(
        &mut self,
        loader: &mut L,
        method: Method,
        params: &Value,
        out: &mut Outbox,
    ) -> Result<(), AllocError>
        requires on_time { self.old.late.keys ≡ [] }
        ensures settled { IsSettled (L.told_of loader.old) self.old
            → OnOk result (IsSettled (L.told_of loader.old) self.new) }
        ensures taken { OnOk result (HasTaken (if_running self.old.phase
            (told_by_notice self.old.workspace.folders method (view params.now)))
            self.old self.new) }
        ensures published { OnOk result (ArePublished self.new.workspace
            (said_by out.old) (said_by out.new)) }
        ensures answers { OnOk result (answered (said_by out.new) ≡ answered (said_by out.old)) }
        ensures phase { self.new.phase ≡ self.old.phase }
        ensures late { self.new.late ≡ self.old.late }
        ensures stays { L.told_of loader.new ≡ L.told_of loader.old }
    {
        let Phase::Running = self.phase else {
            return Ok(());
        };
        self.workspace.take_told(loader, method, params)?;
        self.workspace.settle(loader)?;
        show_refused(&mut self.workspace.refused, out)?;
        self.told.publish(&mut self.workspace, out)
    }
}

// The JSON that a body is. Of one that is none that is told.
fn value_of(body: &[u8], out: &mut Outbox) -> Result<Option<Value>, AllocError>
    ensures { IfOk result (λ found.
        IsRead body.now found (said_by out.old) (said_by out.new)) }
{
    match Value::from_slice(out.alloc(), body) {
        Ok(value) => Ok(Some(value)),
        Err(error) => {
            if error.is_memory() {
                return Err(AllocError);
            }
            out.refuse(&Value::Null, ErrorCode::NoJson)?;
            Ok(None)
        }
    }
}

// The parameters by which a message changes a document.
fn change_in(value: &Value) -> Option<&Value>
    ensures { IfSome result (λ params. IsChange (view value.now) (view params.now)) }
{
    match message_of(value) {
        Message::Notice(method, params) if method == Method::DidChange => params,
        _ => None,
    }
}

// Shows what was refused.
fn show_refused(refused: &mut Vec<RefusedEdit>, out: &mut Outbox) -> Result<(), AllocError>
    ensures published { (w : Workspace)
        → OnOk result (ArePublished w (said_by out.old) (said_by out.new)) }
    ensures answers { OnOk result (answered (said_by out.new) ≡ answered (said_by out.old)) }
{
    'refused: for one in refused.as_slice() {
        let params = shown_params(out.alloc(), one)?;
        out.tell("window/showMessage", &params)?;
    }
    refused.clear();
    Ok(())
}

// Says what comes of a request.
fn say_outcome(
    id: &Value,
    outcome: Result<RequestOutcome, AllocError>,
    out: &mut Outbox,
) -> Result<(), AllocError>
    ensures published { (w : Workspace)
        → OnOk result (ArePublished w (said_by out.old) (said_by out.new)) }
    ensures answers { OnOk result (answered (said_by out.new)
        ≡ answered (said_by out.old) ++ view id.now ∷ []) }
    ensures memory { IsErr outcome
        → OnOk result (Contains (said_by out.new) (error_json (view id.now) Internal)) }
{
    match outcome {
        Ok(RequestOutcome::Done(value)) => out.answer(id, &value),
        Ok(RequestOutcome::Refused(code)) => out.refuse(id, code),
        Err(_) => out.refuse(id, ErrorCode::Internal),
    }
}
