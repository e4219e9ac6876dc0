//! The methods that a server knows.

ghost use Rattle.std.specs.Prelude.{◌≡◌};
ghost use Rattle.idl_editor.specs.messages.Method.{method_of};

/// What a message asks for, or tells.
#[derive(Clone, Copy, Debug, PartialEq, Eq)]
pub enum Method {
    /// `initialize`: the server begins, with what the editor offers.
    Initialize,
    /// `initialized`: the editor has the answer to `initialize`.
    Initialized,
    /// `shutdown`: no further request comes.
    Shutdown,
    /// `exit`: the server ends.
    Exit,
    /// `$/cancelRequest`: an answer isn't waited for any more.
    Cancel,
    /// `textDocument/didOpen`
    DidOpen,
    /// `textDocument/didChange`
    DidChange,
    /// `textDocument/didClose`
    DidClose,
    /// `textDocument/didSave`
    DidSave,
    /// `workspace/didChangeWatchedFiles`
    DidChangeWatchedFiles,
    /// `textDocument/documentSymbol`
    DocumentSymbol,
    /// `textDocument/definition`
    Definition,
    /// `textDocument/hover`
    Hover,
    /// `textDocument/references`
    References,
    /// `textDocument/documentHighlight`
    DocumentHighlight,
    /// Any other.
    Unknown,
}

/// The method of this name.
#[tactic(auto, unfolding(crate::specs::messages::Method::method_of))]
pub fn method_of(name: &str) -> Method
    ensures { result ≡ method_of name.now }
{
    match name {
        "initialize" => Method::Initialize,
        "initialized" => Method::Initialized,
        "shutdown" => Method::Shutdown,
        "exit" => Method::Exit,
        "$/cancelRequest" => Method::Cancel,
        "textDocument/didOpen" => Method::DidOpen,
        "textDocument/didChange" => Method::DidChange,
        "textDocument/didClose" => Method::DidClose,
        "textDocument/didSave" => Method::DidSave,
        "workspace/didChangeWatchedFiles" => Method::DidChangeWatchedFiles,
        "textDocument/documentSymbol" => Method::DocumentSymbol,
        "textDocument/definition" => Method::Definition,
        "textDocument/hover" => Method::Hover,
        "textDocument/references" => Method::References,
        "textDocument/documentHighlight" => Method::DocumentHighlight,
        _ => Method::Unknown,
    }
}
