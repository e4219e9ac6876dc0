//! How a server begins: macros and directories that an editor sets.

ghost use Rattle.idl_server.specs.Server.{OnlySets};

use crate::workspace::Workspace;
use idl_editor::beginning::{
    abilities, add_folders, check_options, directories_in, encoding_in, texts_in,
};
use idl_editor::documents::push_refused;
use idl_source::{Line, Refusal, first_part};
use serde_json::Value;
use std::alloc::AllocError;

impl Workspace {
    /// Begins with what an editor offers and sets, and tells what the server can do.
    pub fn begin(&mut self, params: &Value) -> Result<Value, AllocError>
        ensures { OnlySets self.old self.new }
    {
        self.encoding = encoding_in(params);
        add_folders(self.session.allocator(), &mut self.folders, params)?;
        if let Some(options) = params.get("initializationOptions") {
            self.set_options(options)?;
        }
        abilities(self.session.allocator(), self.encoding)
    }

    // Defines macros and has directories searched, as an editor sets them.
    fn set_options(&mut self, options: &Value) -> Result<(), AllocError>
        ensures { OnlySets self.old self.new }
    {
        let alloc = self.session.allocator();
        check_options(&mut self.refused, options)?;
        let defines = texts_in(alloc, &mut self.refused, options, "define")?;
        self.define_all(&defines)?;
        let directories = texts_in(alloc, &mut self.refused, options, "search")?;
        self.search_all(&directories)
    }

    // Defines macros, each by `NAME` or `NAME=BODY`.
    fn define_all(&mut self, words: &[&[u8]]) -> Result<(), AllocError>
        ensures { OnlySets self.old self.new }
    {
        'words: for word in words {
            self.define(*word)?;
        }
        Ok(())
    }

    // Defines `NAME`, whose body is `1`, or `NAME=BODY`.
    fn define(&mut self, word: &[u8]) -> Result<(), AllocError>
        ensures { OnlySets self.old self.new }
    {
        let (name, value) = first_part(word, b'=');
        let body = match value {
            Some(value) => value,
            None => b"1",
        };
        let Some(line) = Line::new(self.session.allocator(), body)? else {
            return push_refused(&mut self.refused, word, Refusal::BadMacro);
        };
        match self.session.define(name, line) {
            Ok(_) => Ok(()),
            Err(refusal) => push_refused(&mut self.refused, word, refusal),
        }
    }

    // Has included files searched in these directories.
    fn search_all(&mut self, words: &[&[u8]]) -> Result<(), AllocError>
        ensures { OnlySets self.old self.new }
    {
        let alloc = self.session.allocator();
        let directories = directories_in(alloc, &self.folders, &mut self.refused, words)?;
        let mut texts: Vec<&[u8]> = Vec::with_capacity(alloc, directories.len())?;
        'directories: for directory in &directories {
            texts.push(directory.as_bytes())?;
        }
        match self.session.search(&texts) {
            Ok(_) => Ok(()),
            Err(refusal) => push_refused(&mut self.refused, b"search", refusal),
        }
    }
}
