//! The names of definitions.

ghost use Rattle.std.specs.Prelude.{◌≡◌, IfOk, Some};
ghost use Rattle.bridge_text.specs.Ident.{IsIdent};

use bridge_decl::{IdentBuf, NoMemory};
use std::alloc::Global;
use std::fmt;

/// The name of a definition or of a method, as `diplomat_core::hir::LocIdent`, whose place in the
/// source isn't kept here.
#[derive(Drop)]
pub struct Ident(IdentBuf);

impl Ident {
    /// The name that is this identifier.
    pub fn new(name: IdentBuf) -> Ident
        ensures { result.0 ≡ name }
    {
        Ident(name)
    }

    /// The name's text.
    pub fn as_str(&self) -> &str
        ensures value { result.now ≡ self.now.0 }
        ensures valid { IsIdent self.now.0 }
    {
        self.0.as_str()
    }

    /// The name as an identifier.
    pub fn ident(&self) -> &IdentBuf
        ensures { result.now ≡ self.now.0 }
    {
        &self.0
    }

    /// An equal name.
    pub fn try_clone(&self, alloc: Global) -> Result<Ident, NoMemory>
        ensures { IfOk result (λ copy. copy ≡ self.now) }
    {
        Ok(Ident(self.0.try_clone(alloc)?))
    }
}

impl fmt::Display for Ident {
    ghost output = { λ name. Some name.0 };

    fn fmt<W: fmt::Write>(&self, f: &mut fmt::Formatter<W>) -> fmt::Result {
        f.write_str(self.as_str())
    }
}
