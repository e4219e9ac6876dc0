//! What a generator of C makes of the details of a root. It is the second example of docs/EMBEDDING.md.

use idl_entity::{Layer, Unvalued};
use idl_repo::details::{
    ElementTree, LayeredType, MemberTree, OperationTree, ParameterTree, Reference, RowDetails,
    RowTree, TypeCodeParts,
};
use idl_session::{Details, Session};
use idl_source::cut;
use idl_value::{ConstantType, IntegerKind};
use std::alloc::{AllocError, AllocGlobal, Global};

// What a header is made of.
#[derive(Drop)]
struct Generator<'a> {
    alloc: Global,
    details: &'a Details,
}

// The name of a path in C.
fn name_of(alloc: Global, path: &[u8]) -> Result<String, AllocError> {
    str::from_utf8(path).unwrap_or("").replace(alloc, "::", "_")
}

// The word of a type of which there are constants.
fn word_of(target: &ConstantType) -> &'static str {
    match target {
        ConstantType::Integer(IntegerKind::Octet | IntegerKind::Uint8) => "uint8_t",
        ConstantType::Integer(IntegerKind::Int8) => "int8_t",
        ConstantType::Integer(IntegerKind::Short) => "int16_t",
        ConstantType::Integer(IntegerKind::UnsignedShort) => "uint16_t",
        ConstantType::Integer(IntegerKind::Long) => "int32_t",
        ConstantType::Integer(IntegerKind::UnsignedLong) => "uint32_t",
        ConstantType::Integer(IntegerKind::LongLong) => "int64_t",
        ConstantType::Integer(IntegerKind::UnsignedLongLong) => "uint64_t",
        ConstantType::Boolean => "bool",
        ConstantType::Character => "char",
        ConstantType::WideCharacter => "wchar_t",
        ConstantType::Text(_) => "char *",
        ConstantType::WideText(_) => "wchar_t *",
        ConstantType::Enumeration(_) => "int",
    }
}

// The word of another type of keywords.
fn unvalued_word_of(kind: Unvalued) -> &'static str {
    match kind {
        Unvalued::Float => "float",
        Unvalued::Double => "double",
        Unvalued::LongDouble => "long double",
        Unvalued::Any => "any",
        Unvalued::Object => "void *",
    }
}

impl<'a> Generator<'a> {
    // What all names come to, in the order of the listing: each type stands before those that it is in.
    fn header(&self) -> Result<String, AllocError> {
        let mut text = String::new(self.alloc);
        for entry in self.details.entries.as_slice() {
            self.push_entry(&mut text, &entry.tree)?;
        }
        Ok(text)
    }

    // What one name comes to. Modules, constants, attributes and some types come to nothing here.
    fn push_entry(&self, text: &mut String, tree: &RowTree) -> Result<(), AllocError> {
        let name = name_of(self.alloc, tree.path.as_bytes())?;
        match &tree.details {
            RowDetails::Type(declared) => self.push_type(text, &declared.code.parts, &name),
            RowDetails::Operation(operation) => self.push_operation(text, operation, &name),
            RowDetails::Nothing | RowDetails::Constant(_) | RowDetails::Attribute(_) => Ok(()),
        }
    }

    // A declared type. What its members are called, and of which types they are, its TypeCode tells.
    fn push_type(
        &self,
        text: &mut String,
        parts: &TypeCodeParts,
        name: &str,
    ) -> Result<(), AllocError> {
        match parts {
            TypeCodeParts::Structure(members) | TypeCodeParts::Exception(members) => {
                let members = self.members(members.as_slice())?;
                write!(text, "typedef struct {{\n{members}}} {name};\n")
            }
            TypeCodeParts::Alias(data_type) => {
                let declared = self.declared(data_type, name)?;
                write!(text, "typedef {declared};\n")
            }
            TypeCodeParts::ObjectReference => write!(text, "typedef void *{name};\n"),
            _ => Ok(()),
        }
    }

    // The members of a struct or an exception, one on a line.
    fn members(&self, members: &[MemberTree]) -> Result<String, AllocError> {
        let mut text = String::new(self.alloc);
        for member in members {
            let name = name_of(self.alloc, member.name.as_bytes())?;
            let declared = self.declared(&member.data_type, &name)?;
            write!(text, "    {declared};\n")?;
        }
        Ok(text)
    }

    // An operation, of which the object comes first. An interface that inherits it has no entry for it.
    fn push_operation(
        &self,
        text: &mut String,
        operation: &OperationTree,
        name: &str,
    ) -> Result<(), AllocError> {
        let declared = self.declared(&operation.data_type, name)?;
        write!(text, "{declared}(void *object")?;
        for parameter in operation.parameters.as_slice() {
            let declared = self.parameter(parameter)?;
            write!(text, ", {declared}")?;
        }
        text.push_str(");")?;
        for reference in operation.raised.as_slice() {
            let exception = self.named(reference)?;
            write!(text, " // {exception}")?;
        }
        text.push('\n')
    }

    // A parameter: what comes out is told to a place.
    fn parameter(&self, parameter: &ParameterTree) -> Result<String, AllocError> {
        let name = name_of(self.alloc, parameter.member.name.as_bytes())?;
        let star = if parameter.comes_out { "*" } else { "" };
        let place = format!(in self.alloc; "{star}{name}")?;
        self.declared(&parameter.member.data_type, &place)
    }

    // A name of a type: around what the type is of stand its sequences and arrays, the innermost first.
    fn declared(&self, data_type: &LayeredType, name: &str) -> Result<String, AllocError> {
        let mut words = self.element(&data_type.element)?;
        let mut lengths = String::new(self.alloc);
        for layer in data_type.layers.as_slice() {
            match layer {
                Layer::Sequence(_bound) => {
                    words = format!(in self.alloc; "SEQUENCE({words})")?;
                }
                Layer::Array(length) => {
                    lengths = format!(in self.alloc; "[{length}]{lengths}")?;
                }
            }
        }
        format!(in self.alloc; "{words} {name}{lengths}")
    }

    // What a type is of.
    fn element(&self, element: &ElementTree) -> Result<String, AllocError> {
        match element {
            ElementTree::Void => String::from_str(self.alloc, "void"),
            ElementTree::Constants(target) => String::from_str(self.alloc, word_of(target)),
            ElementTree::Unvalued(kind) => String::from_str(self.alloc, unvalued_word_of(*kind)),
            ElementTree::Named(reference) => self.named(reference),
        }
    }

    // The name in C of a named type, or an exception.
    fn named(&self, reference: &Reference) -> Result<String, AllocError> {
        name_of(self.alloc, reference.path.as_bytes())
    }
}

// What is compiled.
const SHOP: &str = "\
module Shop {
    struct Item { string name; sequence<long> prices[2][3]; };
    exception Gone { Item what; };
    typedef sequence<Item> Items;
    interface Till { Items sell(in Item sold, out boolean last) raises (Gone); };
};
";

/// The header of the shop. It is empty where the shop has no details.
pub fn shop_header(alloc: Global) -> Result<String, AllocError> {
    let mut session = Session::new(alloc);
    let lines = cut(alloc, SHOP.as_bytes())?;
    let mut header = String::new(alloc);
    if session.put(b"shop.idl", lines).is_ok() && session.add_root(b"shop.idl").is_ok() {
        if let Some(details) = &session.details(b"shop.idl")? {
            header = Generator { alloc, details }.header()?;
        }
    }
    Ok(header)
}
