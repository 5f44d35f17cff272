// The tree of a JSON text.
ghost use Rattle.std.specs.Prelude.{◌≡◌};
ghost use Rattle.gp_tree.specs.Plain.{plain_trees, plain_items, plain_members, plain_entries};

use crate::lexeme::Lexeme;

/// A JSON value (RFC 8259, section 3). Order and spelling count: two trees are the same where they
/// print the same text.
#[cycle(tree)]
#[derive(Drop)]
pub enum Tree {
    /// `null`.
    Null,
    /// `true` or `false`.
    Truth(bool),
    /// A number (section 6).
    Number(Lexeme),
    /// A string (section 7).
    Text(Lexeme),
    /// An array (section 5).
    List(Trees),
    /// An object (section 4).
    Members(Members),
}

/// The items of an array, in order.
#[cycle(tree)]
#[derive(Drop)]
pub struct Trees {
    /// The items.
    pub items: Vec<Tree>,
}

/// A member of an object (RFC 8259, section 4).
#[cycle(tree)]
#[derive(Drop)]
pub struct Member {
    /// What stands between the quotes of its name.
    pub key: Lexeme,
    /// Its value.
    pub value: Tree,
}

/// The members of an object, in order.
#[cycle(tree)]
#[derive(Drop)]
pub struct Members {
    /// The members.
    pub items: Vec<Member>,
}

impl Trees {
    /// The list with these items.
    pub fn from_vec(items: Vec<Tree>) -> Trees
        ensures { plain_trees result ≡ plain_items items.items }
    {
        Trees { items }
    }

    /// The items.
    pub fn into_vec(self) -> Vec<Tree>
        ensures { plain_items result.items ≡ plain_trees self }
    {
        self.items
    }

    /// The items, borrowed.
    pub fn as_slice(&self) -> &[Tree]
        ensures { plain_items result.now ≡ plain_trees self.now }
    {
        self.items.as_slice()
    }
}

impl Members {
    /// The object with these members. Whether their keys differ is the caller's care.
    pub fn from_vec(items: Vec<Member>) -> Members
        ensures { plain_members result ≡ plain_entries items.items }
    {
        Members { items }
    }

    /// The members.
    pub fn into_vec(self) -> Vec<Member>
        ensures { plain_entries result.items ≡ plain_members self }
    {
        self.items
    }

    /// The members, borrowed.
    pub fn as_slice(&self) -> &[Member]
        ensures { plain_entries result.now ≡ plain_members self.now }
    {
        self.items.as_slice()
    }
}
