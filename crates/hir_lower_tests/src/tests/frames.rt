//! A text of JSON that is written from left to right, with what stands open in it.

use bridge_decl::NoMemory;
use std::alloc::Global;
use std::fmt::Write;

/// What stands open.
#[derive(Clone, Copy, PartialEq, Drop)]
pub enum Frame {
    /// Nothing.
    Nothing,
    /// The items of a module.
    Items,
    /// Its aliases.
    Aliases,
    /// The modules in it.
    Modules,
    /// An item that isn't a function.
    Item,
    /// Fields.
    Fields,
    /// Variants.
    Variants,
    /// Methods.
    Methods,
    /// A function or a method.
    Signature,
    /// Parameters.
    Params,
    /// A field, a variant or a parameter.
    Part,
    /// The lifetimes of an item.
    Generics,
    /// The lifetimes of a function or a method.
    Declared,
    /// The lifetimes of a path.
    Lifetimes,
    /// A reference, or what a function that is a type returns: it ends with the type in it.
    Reference,
    /// A path.
    Path,
    /// A slice.
    Slice,
    /// An option or a box.
    Single,
    /// A result at its first type.
    Success,
    /// A result at its second type.
    Failure,
    /// A function that is a type.
    Callback,
    /// What it takes.
    Taken,
}

/// How it ends.
fn end_of(frame: Frame) -> &'static str {
    match frame {
        Frame::Nothing => "",
        Frame::Items | Frame::Aliases | Frame::Modules => "]}",
        Frame::Item | Frame::Signature | Frame::Part | Frame::Single => "}",
        Frame::Fields | Frame::Variants | Frame::Methods | Frame::Params => "]",
        Frame::Generics | Frame::Declared | Frame::Lifetimes | Frame::Taken => "]",
        Frame::Reference | Frame::Path | Frame::Slice | Frame::Callback => "}}",
        Frame::Success | Frame::Failure => "}}",
    }
}

/// Whether it is a list of a module.
fn is_section(frame: Frame) -> bool {
    match frame {
        Frame::Items | Frame::Aliases | Frame::Modules => true,
        _ => false,
    }
}

/// Whether a brace ends it.
fn is_braced(frame: Frame) -> bool {
    match frame {
        Frame::Fields | Frame::Variants | Frame::Methods => true,
        _ => is_section(frame),
    }
}

/// Whether it is a type that ends before that token.
fn is_ended(frame: Frame, token: &str) -> bool {
    match frame {
        Frame::Reference => true,
        Frame::Path => token != "<",
        Frame::Callback => token != "->",
        _ => false,
    }
}

/// The text so far.
#[derive(Drop)]
pub struct Writer {
    text: String,
    open: Vec<Frame>,
}

impl Writer {
    /// The text in which the root is open.
    pub fn new(alloc: Global) -> Result<Writer, NoMemory> {
        let mut writer = Writer {
            text: String::new(alloc),
            open: Vec::new(alloc),
        };
        writer.open(Frame::Items, r#"{"root":{"items":["#)?;
        Ok(writer)
    }

    /// Writes a piece.
    pub fn put(&mut self, piece: &str) -> Result<(), NoMemory> {
        self.text.push_str(piece)
    }

    /// Writes a piece with others around it.
    pub fn put_in(&mut self, before: &str, piece: &str, after: &str) -> Result<(), NoMemory> {
        self.text.push_str(before)?;
        self.text.push_str(piece)?;
        self.text.push_str(after)
    }

    /// Writes a number with others around it.
    pub fn put_number(&mut self, before: &str, number: usize, after: &str) -> Result<(), NoMemory> {
        self.text.push_str(before)?;
        write!(self.text, "{number}")?;
        self.text.push_str(after)
    }

    /// Writes a comma, where an element stands before.
    pub fn put_next(&mut self) -> Result<(), NoMemory> {
        if self.text.as_str().ends_with("[") {
            return Ok(());
        }
        self.text.push_str(",")
    }

    /// Writes a piece, after which this stands open.
    pub fn open(&mut self, frame: Frame, piece: &str) -> Result<(), NoMemory> {
        self.open.push(frame)?;
        self.text.push_str(piece)
    }

    /// Writes a piece, after which this stands open in place of what stood open innermost.
    pub fn turn(&mut self, frame: Frame, piece: &str) -> Result<(), NoMemory> {
        let _before = self.open.pop();
        self.open(frame, piece)
    }

    /// What stands open innermost.
    pub fn top(&self) -> Frame {
        match self.open.last() {
            Some(frame) => *frame,
            None => Frame::Nothing,
        }
    }

    /// Ends what stands open innermost.
    pub fn end(&mut self) -> Result<(), NoMemory> {
        match self.open.pop() {
            Some(frame) => self.text.push_str(end_of(frame)),
            None => Ok(()),
        }
    }

    /// Ends what stands open innermost, where it is this.
    pub fn end_if(&mut self, frame: Frame) -> Result<(), NoMemory> {
        if self.top() == frame {
            return self.end();
        }
        Ok(())
    }

    /// Ends the item of a module that stands open.
    pub fn end_item(&mut self) -> Result<(), NoMemory> {
        for _ in 0..self.open.len() {
            if is_section(self.top()) {
                return Ok(());
            }
            self.end()?;
        }
        Ok(())
    }

    /// Ends all up to what a brace ends, that too.
    pub fn end_braced(&mut self) -> Result<(), NoMemory> {
        for _ in 0..self.open.len() {
            let frame = self.top();
            self.end()?;
            if is_braced(frame) {
                return Ok(());
            }
        }
        Ok(())
    }

    /// Ends types that end before that token.
    pub fn end_types(&mut self, token: &str) -> Result<(), NoMemory> {
        for _ in 0..self.open.len() {
            if !is_ended(self.top(), token) {
                return Ok(());
            }
            self.end()?;
        }
        Ok(())
    }

    /// Ends all.
    pub fn end_all(&mut self) -> Result<(), NoMemory> {
        for _ in 0..self.open.len() {
            self.end()?;
        }
        Ok(())
    }

    /// The text.
    pub fn into_text(self) -> String {
        let Writer { text, .. } = self;
        text
    }
}
