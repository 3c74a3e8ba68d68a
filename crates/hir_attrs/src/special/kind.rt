//! The kinds of special methods.

ghost use Rattle.std.specs.Prelude.{◌≡◌, find};
ghost use Rattle.hir_attrs.specs.Special.{every_special, is_special_called, special_named, special_text, takes_name};

/// A kind of special method, by the names that marks have for them.
#[derive(Clone, Copy)]
pub enum SpecialKind {
    /// Makes a value of the type.
    Constructor,
    /// Makes one under a name of its own.
    NamedConstructor,
    /// Reads a property.
    Getter,
    /// Writes a property.
    Setter,
    /// Makes a text of a value.
    Stringifier,
    /// Compares two values.
    Comparison,
    /// Gives the next element.
    Iterator,
    /// Makes an iterator.
    Iterable,
    /// The operator `[]`.
    Indexer,
    /// The operator `+`.
    Add,
    /// The operator `-`.
    Sub,
    /// The operator `*`.
    Mul,
    /// The operator `/`.
    Div,
    /// The operator `+=`.
    AddAssign,
    /// The operator `-=`.
    SubAssign,
    /// The operator `*=`.
    MulAssign,
    /// The operator `/=`.
    DivAssign,
}

impl SpecialKind {
    /// The name by which a mark spells it.
    #[tactic(auto, unfolding(crate::specs::Special::special_text))]
    pub fn text(self) -> &'static str
        ensures { result.now ≡ special_text self }
    {
        match self {
            SpecialKind::Constructor => "constructor",
            SpecialKind::NamedConstructor => "named_constructor",
            SpecialKind::Getter => "getter",
            SpecialKind::Setter => "setter",
            SpecialKind::Stringifier => "stringifier",
            SpecialKind::Comparison => "comparison",
            SpecialKind::Iterator => "iterator",
            SpecialKind::Iterable => "iterable",
            SpecialKind::Indexer => "indexer",
            SpecialKind::Add => "add",
            SpecialKind::Sub => "sub",
            SpecialKind::Mul => "mul",
            SpecialKind::Div => "div",
            SpecialKind::AddAssign => "add_assign",
            SpecialKind::SubAssign => "sub_assign",
            SpecialKind::MulAssign => "mul_assign",
            SpecialKind::DivAssign => "div_assign",
        }
    }

    /// All of them.
    #[tactic(auto, unfolding(crate::specs::Special::every_special))]
    fn all() -> &'static [SpecialKind]
        ensures { result.now ≡ every_special }
    {
        &[
            SpecialKind::Constructor,
            SpecialKind::NamedConstructor,
            SpecialKind::Getter,
            SpecialKind::Setter,
            SpecialKind::Stringifier,
            SpecialKind::Comparison,
            SpecialKind::Iterator,
            SpecialKind::Iterable,
            SpecialKind::Indexer,
            SpecialKind::Add,
            SpecialKind::Sub,
            SpecialKind::Mul,
            SpecialKind::Div,
            SpecialKind::AddAssign,
            SpecialKind::SubAssign,
            SpecialKind::MulAssign,
            SpecialKind::DivAssign,
        ]
    }

    /// The one of that name, if there is one.
    pub fn named(name: &str) -> Option<SpecialKind>
        ensures { result ≡ special_named name.now }
    {
        first_named(SpecialKind::all(), name)
    }

    /// Whether a mark of that kind takes a name as its argument.
    #[tactic(auto, unfolding(crate::specs::Special::takes_name))]
    pub fn takes_name(self) -> bool
        ensures { result ≡ takes_name self }
    {
        match self {
            SpecialKind::Constructor => false,
            SpecialKind::NamedConstructor => true,
            SpecialKind::Getter => true,
            SpecialKind::Setter => true,
            SpecialKind::Stringifier => false,
            SpecialKind::Comparison => false,
            SpecialKind::Iterator => false,
            SpecialKind::Iterable => false,
            SpecialKind::Indexer => false,
            SpecialKind::Add => false,
            SpecialKind::Sub => false,
            SpecialKind::Mul => false,
            SpecialKind::Div => false,
            SpecialKind::AddAssign => false,
            SpecialKind::SubAssign => false,
            SpecialKind::MulAssign => false,
            SpecialKind::DivAssign => false,
        }
    }
}

/// Whether it has that name.
fn is_special_called(it: SpecialKind, name: &str) -> bool
    ensures { result ≡ is_special_called name.now it }
{
    it.text() == name
}

/// The first of these that has that name.
fn first_named(all: &[SpecialKind], name: &str) -> Option<SpecialKind>
    ensures { result ≡ find (is_special_called name.now) all.now }
{
    match all {
        [] => None,
        [first, ..] if is_special_called(*first, name) => Some(*first),
        [_, rest @ ..] => first_named(rest, name),
    }
}
