//! What the server writes for messages of an editor, and how it ends.

use super::support::TextFiles;
use idl_loader::Service;
use idl_server::LanguageServer;
use idl_source::devices::{BufferSink, SliceSource};
use std::alloc::{AllocError, Global};
use std::test::Fail;

// Over these files, the server has this status at the end of the input, and has written this.
fn is_served(alloc: Global, text: &str, input: &str, code: u8, want: &str) -> Result<(), Fail> {
    let mut loader = TextFiles { alloc, text };
    let mut source = SliceSource::new(input.as_bytes());
    let mut output = BufferSink::new(alloc, 100_000)?;
    let service = LanguageServer::new(alloc);
    let status = service.serve(&mut loader, &mut source, &mut output)?;
    if status.code() == code && output.as_bytes() == want.as_bytes() {
        return Ok(());
    }
    let found = str::from_utf8(output.as_bytes()).unwrap_or("");
    Err(Fail::new(format_args!("{status:?}: {found}, not {code}: {want}")))
}

// A status, files, messages, and behind a `=` what is written. A line that begins with blanks goes on with the one before it.
static SCRIPTS: [&str; 8] = [
    // A document is opened beside a header of the disk, in units of UTF-16, mended, and asked about.
    r##"0 /p/b.idl: typedef long Money;
{"id":1,"method":"textDocument/hover"}
={"error":{"code":-32002,"message":"not initialized"},"id":1,"jsonrpc":"2.0"}
{"id":"a","method":"initialize","params":{"rootUri":"file:///p"}}
={"id":"a","jsonrpc":"2.0","result":{"capabilities":{"definitionProvider":true,"documentHighlightProvider":true,
    "documentSymbolProvider":true,"hoverProvider":true,
    "positionEncoding":"utf-16","referencesProvider":true,"textDocumentSync":{"change":2,"openClose":true,"save":true}},
    "serverInfo":{"name":"idltool","version":"0.1.0"}}}
{"method":"textDocument/didOpen","params":{"textDocument":{"uri":"file:///p/%c3%bc.idl",
    "text":"#include \"b.idl\"\n\r/* é😀 */ module M { struct S { Mony x; }; };\n"}}}
={"jsonrpc":"2.0","method":"textDocument/publishDiagnostics","params":{"diagnostics":[{"code":"E30",
    "message":"`Mony` isn't declared here or in a scope around\n
    Look at the spelling, at a missing include, and at rows above: a declaration with an error declares nothing. Names are declared before use.",
    "range":{"end":{"character":36,"line":2},"start":{"character":32,"line":2}},
    "relatedInformation":[{"location":{"range":{"end":{"character":18,"line":0},"start":{"character":13,"line":0}},
    "uri":"file:///p/b.idl"},"message":"near: Money"}],"severity":1,"source":"idltool"}],"uri":"file:///p/%c3%bc.idl"}}
{"method":"textDocument/didChange","params":{"textDocument":{"uri":"file:///p/%c3%bc.idl"},"contentChanges":[
    {"range":{"start":{"line":2,"character":34},"end":{"line":2,"character":36}},"text":"ney"},
    {"range":{"start":{"line":2,"character":43},"end":{"line":2,"character":43}},"text":" typedef S R;"}]}}
={"jsonrpc":"2.0","method":"textDocument/publishDiagnostics","params":{"diagnostics":[],"uri":"file:///p/%c3%bc.idl"}}
{"id":2,"method":"textDocument/definition","params":{"textDocument":{"uri":"file:///p/%C3%BC.idl"},"position":{"line":2,"character":32}}}
={"id":2,"jsonrpc":"2.0","result":{"range":{"end":{"character":18,"line":0},"start":{"character":13,"line":0}},"uri":"file:///p/b.idl"}}
{"id":3,"method":"textDocument/hover","params":{"textDocument":{"uri":"file:///p/%c3%bc.idl"},"position":{"line":2,"character":53}}}
={"id":3,"jsonrpc":"2.0","result":{"contents":{"kind":"plaintext",
    "value":"struct M::S\nIDL:M/S:1.0\nstruct M::S IDL:M/S:1.0 tk_struct(IDL:M/S:1.0,S,x:@IDL:Money:1.0)
    \n\r/* é😀 */ module M { struct S { Money x; }; typedef S R; };"}}}
{"id":4,"method":"textDocument/documentSymbol","params":{"textDocument":{"uri":"file:///p/%c3%bc.idl"}}}
={"id":4,"jsonrpc":"2.0","result":[{"children":[
    {"children":[],"kind":23,"name":"S","range":{"end":{"character":43,"line":2},"start":{"character":21,"line":2}},
    "selectionRange":{"end":{"character":29,"line":2},"start":{"character":28,"line":2}}},
    {"children":[],"kind":26,"name":"R","range":{"end":{"character":56,"line":2},"start":{"character":44,"line":2}},
    "selectionRange":{"end":{"character":55,"line":2},"start":{"character":54,"line":2}}}],
    "kind":2,"name":"M","range":{"end":{"character":59,"line":2},"start":{"character":10,"line":2}},
    "selectionRange":{"end":{"character":18,"line":2},"start":{"character":17,"line":2}}}]}
{"id":5,"method":"frob"}
={"error":{"code":-32601,"message":"unknown method"},"id":5,"jsonrpc":"2.0"}
{"id":6
={"error":{"code":-32700,"message":"no JSON"},"id":null,"jsonrpc":"2.0"}
{"id":7,"method":"shutdown"}
={"id":7,"jsonrpc":"2.0","result":null}
{"method":"exit"}"##,
    // A document in units of UTF-8, changed as a whole and closed; a change of it that waits makes no sense, and one is of none. No further
    // message comes.
    r##"1 /p/q/a.idl: typedef No T;
{"id":1,"method":"initialize","params":{"capabilities":{"general":{"positionEncodings":["utf-16","utf-8"]}},
    "workspaceFolders":[{"uri":"file:///p/q/"}]}}
={"id":1,"jsonrpc":"2.0","result":{"capabilities":{"definitionProvider":true,"documentHighlightProvider":true,
    "documentSymbolProvider":true,"hoverProvider":true,
    "positionEncoding":"utf-8","referencesProvider":true,"textDocumentSync":{"change":2,"openClose":true,"save":true}},
    "serverInfo":{"name":"idltool","version":"0.1.0"}}}
{"method":"textDocument/didOpen","params":{"textDocument":{"uri":"file:///p/q/a.idl","text":""}}}
{"method":"textDocument/didChange","params":{"textDocument":{"uri":"file:///p/q/a.idl"},"contentChanges":[
    {"range":null,"text":"/* é😀 */ interface F;\n"}]}}
{"method":"textDocument/didChange","params":{"textDocument":{"uri":"file:///p/q/a.idl"},"contentChanges":[
    {"text":"interface G;\n"},{"range":{"start":{"line":0,"character":0}},"text":"x"}]}}
={"jsonrpc":"2.0","method":"window/showMessage","params":{"message":"a.idl: a change makes no sense, so the text stays as it was",
    "type":1}}
={"jsonrpc":"2.0","method":"textDocument/publishDiagnostics","params":{"diagnostics":[{"code":"W80",
    "message":"the interface `F` is declared forward and never defined\n
    It may stay so: no code can call it through this file. Include the file that defines it.",
    "range":{"end":{"character":24,"line":0},"start":{"character":23,"line":0}},"relatedInformation":[],"severity":2,
    "source":"idltool"}],"uri":"file:///p/q/a.idl"}}
{"method":"textDocument/didChange","params":{"textDocument":{"uri":"file:///p/q/b.idl"},"contentChanges":[{}]}}
{"method":"textDocument/didClose","params":{"textDocument":{"uri":"file:///p/q/a.idl"}}}
={"jsonrpc":"2.0","method":"textDocument/publishDiagnostics","params":{"diagnostics":[],"uri":"file:///p/q/a.idl"}}"##,
    // A header is found in a directory that is named by its whole path, and opened. What a message tells of is in its own letters.
    r##"0 /p/inc/b.idl: typedef long Money;
{"id":1,"method":"initialize","params":{"rootUri":"file:///p","initializationOptions":{"search":["/p/inc"]}}}
={"id":1,"jsonrpc":"2.0","result":{"capabilities":{"definitionProvider":true,"documentHighlightProvider":true,
    "documentSymbolProvider":true,"hoverProvider":true,
    "positionEncoding":"utf-16","referencesProvider":true,"textDocumentSync":{"change":2,"openClose":true,"save":true}},
    "serverInfo":{"name":"idltool","version":"0.1.0"}}}
{"method":"textDocument/didOpen","params":{"textDocument":{"uri":"file:///p/a.idl",
    "text":"#include \"b.idl\"\nconst char C = 'é';\ntypedef Money X;\n"}}}
={"jsonrpc":"2.0","method":"textDocument/publishDiagnostics","params":{"diagnostics":[{"code":"E03",
    "message":"'é' isn't exactly one character\n
    A text of more characters is a string and stands in double quotes.","range":{"end":{"character":18,"line":1},"start":{"character":15,"line":1}},
    "relatedInformation":[],"severity":1,"source":"idltool"}],"uri":"file:///p/a.idl"}}
{"method":"textDocument/didOpen","params":{"textDocument":{"uri":"file:///p/inc/b.idl","text":"typedef long Cash;\n"}}}
={"jsonrpc":"2.0","method":"textDocument/publishDiagnostics","params":{"diagnostics":[{"code":"E03",
    "message":"'é' isn't exactly one character\n
    A text of more characters is a string and stands in double quotes.","range":{"end":{"character":18,"line":1},"start":{"character":15,"line":1}},
    "relatedInformation":[],"severity":1,"source":"idltool"},{"code":"E30",
    "message":"`Money` isn't declared here or in a scope around\n
    Look at the spelling, at a missing include, and at rows above: a declaration with an error declares nothing. Names are declared before use.",
    "range":{"end":{"character":13,"line":2},"start":{"character":8,"line":2}},"relatedInformation":[],"severity":1,
    "source":"idltool"}],"uri":"file:///p/a.idl"}}
{"id":2,"method":"shutdown"}
={"id":2,"jsonrpc":"2.0","result":null}
{"method":"exit"}"##,
    // Of several second places three are told, and how many more there are.
    r##"1
{"id":1,"method":"initialize","params":{"rootUri":"file:///p"}}
={"id":1,"jsonrpc":"2.0","result":{"capabilities":{"definitionProvider":true,"documentHighlightProvider":true,
    "documentSymbolProvider":true,"hoverProvider":true,
    "positionEncoding":"utf-16","referencesProvider":true,"textDocumentSync":{"change":2,"openClose":true,"save":true}},
    "serverInfo":{"name":"idltool","version":"0.1.0"}}}
{"method":"textDocument/didOpen","params":{"textDocument":{"uri":"file:///p/a.idl",
    "text":"interface A { typedef long T; };\ninterface B { typedef long T; };\ninterface C { typedef long T; };\n
    interface D { typedef long T; };\ninterface E : A, B, C, D { attribute T x; };\n"}}}
={"jsonrpc":"2.0","method":"textDocument/publishDiagnostics","params":{"diagnostics":[{"code":"E31",
    "message":"`T` means different things in different bases\n
    Say which one is meant: A::T or B::T.",
    "range":{"end":{"character":38,"line":4},"start":{"character":37,"line":4}},"relatedInformation":[
    {"location":{"range":{"end":{"character":28,"line":0},"start":{"character":27,"line":0}},
    "uri":"file:///p/a.idl"},"message":"declared: T"},
    {"location":{"range":{"end":{"character":28,"line":1},"start":{"character":27,"line":1}},
    "uri":"file:///p/a.idl"},"message":"declared: T"},
    {"location":{"range":{"end":{"character":28,"line":2},"start":{"character":27,"line":2}},
    "uri":"file:///p/a.idl"},"message":"declared: T, and 1 more"}],"severity":1,"source":"idltool"}],"uri":"file:///p/a.idl"}}"##,
    // A directory counts from each folder, and what is no list of texts is told.
    r##"1 /w/q/inc/b.idl: typedef long Money;
{"id":1,"method":"initialize","params":{"workspaceFolders":[{"uri":"file:///w/p"},{"uri":"file:///w/q"}],
    "initializationOptions":{"search":["inc",7],"define":"X"}}}
={"id":1,"jsonrpc":"2.0","result":{"capabilities":{"definitionProvider":true,"documentHighlightProvider":true,
    "documentSymbolProvider":true,"hoverProvider":true,
    "positionEncoding":"utf-16","referencesProvider":true,"textDocumentSync":{"change":2,"openClose":true,"save":true}},
    "serverInfo":{"name":"idltool","version":"0.1.0"}}}
={"jsonrpc":"2.0","method":"window/showMessage","params":{"message":"define: a list of texts is wanted, and what is none is left out",
    "type":1}}
={"jsonrpc":"2.0","method":"window/showMessage","params":{"message":"search: a list of texts is wanted, and what is none is left out",
    "type":1}}
{"method":"textDocument/didOpen","params":{"textDocument":{"uri":"file:///w/q/a.idl","text":"#include \"b.idl\"\ntypedef Money T;\n"}}}
{"id":2,"method":"textDocument/definition","params":{"textDocument":{"uri":"file:///w/q/a.idl"},"position":{"line":1,"character":9}}}
={"id":2,"jsonrpc":"2.0","result":{"range":{"end":{"character":18,"line":0},"start":{"character":13,"line":0}},"uri":"file:///w/q/inc/b.idl"}}"##,
    // A file beside the only folder is what an include of it finds, and has a plain path. What is found is told with the version.
    r##"1 /w/c/b.idl: typedef long Money;
{"id":1,"method":"initialize","params":{"rootUri":"file:///w/p"}}
={"id":1,"jsonrpc":"2.0","result":{"capabilities":{"definitionProvider":true,"documentHighlightProvider":true,
    "documentSymbolProvider":true,"hoverProvider":true,
    "positionEncoding":"utf-16","referencesProvider":true,"textDocumentSync":{"change":2,"openClose":true,"save":true}},
    "serverInfo":{"name":"idltool","version":"0.1.0"}}}
{"method":"textDocument/didOpen","params":{"textDocument":{"uri":"file:///w/p/a.idl","text":"#include \"../c/b.idl\"\ntypedef Money T;\n"}}}
{"id":2,"method":"textDocument/definition","params":{"textDocument":{"uri":"file:///w/p/a.idl"},"position":{"line":1,"character":9}}}
={"id":2,"jsonrpc":"2.0","result":{"range":{"end":{"character":18,"line":0},"start":{"character":13,"line":0}},"uri":"file:///w/c/b.idl"}}
{"method":"textDocument/didOpen","params":{"textDocument":{"uri":"file:///w/c/b.idl","version":3,"text":"interface Money;\n"}}}
={"jsonrpc":"2.0","method":"textDocument/publishDiagnostics","params":{"diagnostics":[{"code":"W80",
    "message":"the interface `Money` is declared forward and never defined\n
    It may stay so: no code can call it through this file. Include the file that defines it.",
    "range":{"end":{"character":15,"line":0},"start":{"character":10,"line":0}},"relatedInformation":[],"severity":2,
    "source":"idltool"}],"uri":"file:///w/c/b.idl","version":3}}
{"method":"textDocument/didChange","params":{"textDocument":{"uri":"file:///w/c/b.idl","version":4},"contentChanges":[{"text":"\ninterface Money;\n"}]}}
={"jsonrpc":"2.0","method":"textDocument/publishDiagnostics","params":{"diagnostics":[{"code":"W80",
    "message":"the interface `Money` is declared forward and never defined\n
    It may stay so: no code can call it through this file. Include the file that defines it.",
    "range":{"end":{"character":15,"line":1},"start":{"character":10,"line":1}},"relatedInformation":[],"severity":2,
    "source":"idltool"}],"uri":"file:///w/c/b.idl","version":4}}"##,
    // Enumerators and members are declared somewhere, too; a hover shows the lines of a declaration, and the comment above it.
    r##"1
{"id":1,"method":"initialize","params":{"rootUri":"file:///p"}}
={"id":1,"jsonrpc":"2.0","result":{"capabilities":{"definitionProvider":true,"documentHighlightProvider":true,
    "documentSymbolProvider":true,"hoverProvider":true,
    "positionEncoding":"utf-16","referencesProvider":true,"textDocumentSync":{"change":2,"openClose":true,"save":true}},
    "serverInfo":{"name":"idltool","version":"0.1.0"}}}
{"method":"textDocument/didOpen","params":{"textDocument":{"uri":"file:///p/a.idl",
    "text":"/* Colors\n   of a lamp. */\r\nenum Color { red, green };\r\n\n// No comment\n\n// of this.\nconst Color C =\n  green;\n
    struct S {\n  Color hue; /* x */\n  long low;\n};\n"}}}
{"id":2,"method":"textDocument/definition","params":{"textDocument":{"uri":"file:///p/a.idl"},"position":{"line":8,"character":4}}}
={"id":2,"jsonrpc":"2.0","result":{"range":{"end":{"character":23,"line":2},"start":{"character":18,"line":2}},"uri":"file:///p/a.idl"}}
{"id":3,"method":"textDocument/definition","params":{"textDocument":{"uri":"file:///p/a.idl"},"position":{"line":10,"character":9}}}
={"id":3,"jsonrpc":"2.0","result":{"range":{"end":{"character":11,"line":10},"start":{"character":8,"line":10}},"uri":"file:///p/a.idl"}}
{"id":4,"method":"textDocument/hover","params":{"textDocument":{"uri":"file:///p/a.idl"},"position":{"line":7,"character":13}}}
={"id":4,"jsonrpc":"2.0","result":{"contents":{"kind":"plaintext",
    "value":"const C\nIDL:C:1.0\nconst C IDL:C:1.0 @IDL:Color:1.0 green\n// of this.\nconst Color C =\n  green;"}}}
{"id":5,"method":"textDocument/hover","params":{"textDocument":{"uri":"file:///p/a.idl"},"position":{"line":8,"character":4}}}
={"id":5,"jsonrpc":"2.0","result":{"contents":{"kind":"plaintext",
    "value":"green\n/* Colors\n   of a lamp. */\nenum Color { red, green };"}}}
{"id":6,"method":"textDocument/hover","params":{"textDocument":{"uri":"file:///p/a.idl"},"position":{"line":11,"character":8}}}
={"id":6,"jsonrpc":"2.0","result":{"contents":{"kind":"plaintext","value":"S::low\n  long low;"}}}"##,
    // From an include to its file; where a name is declared and used; and what stands before a fault.
    r##"1 /p/b.idl: typedef long Money;
{"id":1,"method":"initialize","params":{"rootUri":"file:///p"}}
={"id":1,"jsonrpc":"2.0","result":{"capabilities":{"definitionProvider":true,"documentHighlightProvider":true,
    "documentSymbolProvider":true,"hoverProvider":true,
    "positionEncoding":"utf-16","referencesProvider":true,"textDocumentSync":{"change":2,"openClose":true,"save":true}},
    "serverInfo":{"name":"idltool","version":"0.1.0"}}}
{"method":"textDocument/didOpen","params":{"textDocument":{"uri":"file:///p/a.idl",
    "text":"# include  \"b.idl\" // b\nstruct S { Money x; };\nstruct T { Money y; No z; };\n"}}}
={"jsonrpc":"2.0","method":"textDocument/publishDiagnostics","params":{"diagnostics":[{"code":"E30",
    "message":"`No` isn't declared here or in a scope around\n
    Look at the spelling, at a missing include, and at rows above: a declaration with an error declares nothing. Names are declared before use.",
    "range":{"end":{"character":22,"line":2},"start":{"character":20,"line":2}},
    "relatedInformation":[],"severity":1,"source":"idltool"}],"uri":"file:///p/a.idl"}}
{"id":2,"method":"textDocument/definition","params":{"textDocument":{"uri":"file:///p/a.idl"},"position":{"line":0,"character":14}}}
={"id":2,"jsonrpc":"2.0","result":{"range":{"end":{"character":0,"line":0},"start":{"character":0,"line":0}},"uri":"file:///p/b.idl"}}
{"id":3,"method":"textDocument/definition","params":{"textDocument":{"uri":"file:///p/a.idl"},"position":{"line":0,"character":4}}}
={"id":3,"jsonrpc":"2.0","result":null}
{"id":4,"method":"textDocument/references","params":{"textDocument":{"uri":"file:///p/a.idl"},"position":{"line":1,"character":13},
    "context":{"includeDeclaration":true}}}
={"id":4,"jsonrpc":"2.0","result":[{"range":{"end":{"character":18,"line":0},"start":{"character":13,"line":0}},"uri":"file:///p/b.idl"},
    {"range":{"end":{"character":16,"line":1},"start":{"character":11,"line":1}},"uri":"file:///p/a.idl"},
    {"range":{"end":{"character":16,"line":2},"start":{"character":11,"line":2}},"uri":"file:///p/a.idl"}]}
{"id":5,"method":"textDocument/documentHighlight","params":{"textDocument":{"uri":"file:///p/a.idl"},"position":{"line":1,"character":13}}}
={"id":5,"jsonrpc":"2.0","result":[{"range":{"end":{"character":16,"line":1},"start":{"character":11,"line":1}}},
    {"range":{"end":{"character":16,"line":2},"start":{"character":11,"line":2}}}]}
{"id":6,"method":"textDocument/references","params":{"textDocument":{"uri":"file:///p/a.idl"},"position":{"line":1,"character":8},
    "context":{"includeDeclaration":false}}}
={"id":6,"jsonrpc":"2.0","result":[]}"##,
];

#[test]
fn messages_are_answered(rt: HostRuntime) -> Result<(), Fail> {
    for script in SCRIPTS {
        is_answered(rt.alloc(), script)?;
    }
    Ok(())
}

fn is_answered(alloc: Global, script: &str) -> Result<(), Fail> {
    let script = script.replace(alloc, "\n    ", "")?;
    let (head, lines) = script.split_once('\n').unwrap_or(("", ""));
    let (code, file) = head.split_once(' ').unwrap_or((head, ""));
    let (input, want) = parted(alloc, lines)?;
    is_served(
        alloc,
        file,
        input.as_str(),
        code.parse().unwrap_or(2),
        want.as_str(),
    )
}

// The messages of lines, and those that are written, which have `=` before them.
fn parted(alloc: Global, lines: &str) -> Result<(String, String), AllocError> {
    let (mut input, mut want) = (String::new(alloc), String::new(alloc));
    for line in lines.split('\n') {
        match line.strip_prefix('=') {
            Some(body) => push_message(body, &mut want)?,
            None => push_message(line, &mut input)?,
        }
    }
    Ok((input, want))
}

fn push_message(body: &str, messages: &mut String) -> Result<(), AllocError> {
    write!(messages, "Content-Length: {}\r\n\r\n{body}", body.len())
}

// Inputs that no message, or only a part of one, stands at the end of.
static BROKEN: [&str; 6] = [
    "",
    "Content-Length: 2\r\n",
    "Content-Length: 3\r\n\r\n{}",
    "Content-Type: x\r\n\r\n",
    "Content-Length: 67108865\r\n\r\n",
    "Content-Length: 17\r\n\r\n{\"method\":\"exit\"}",
];

#[test]
fn inputs_that_break_off_end_it(rt: HostRuntime) -> Result<(), Fail> {
    for input in BROKEN {
        is_served(rt.alloc(), "", input, 1, "")?;
    }
    Ok(())
}
