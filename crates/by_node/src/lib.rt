//! What each node of a system has, by its name.
#![tactic(auto)]

ghost use Rattle.std.specs.Prelude.{◌≡◌};
ghost use Rattle.std.specs.Borrow.{sem};
ghost use Rattle.by_node.specs.Each.{at, with_at, every};
ghost use Rattle.by_node.specs.Lending.{LendsOf};

use rdf_types::records::Node;
use std::marker::Model;

/// What each node has.
#[derive(Drop)]
pub struct ByNode<T> {
    a: T,
    b: T,
    c: T,
}

impl<T> Model for ByNode<T> {
    ghost use Rattle.by_node.specs.Each.{Each};

    ghost Value = { Each T };

    ghost view = { λ x. record { a = x.a; b = x.b; c = x.c } };
}

impl<T> ByNode<T> {
    /// These three.
    pub fn new(a: T, b: T, c: T) -> ByNode<T>
        ensures { result ≡ record { a = a; b = b; c = c } }
    {
        ByNode { a, b, c }
    }

    /// The same one for each.
    pub fn every(value: T) -> ByNode<T>
    where
        T: Copy,
        ensures { result ≡ every value }
    {
        ByNode {
            a: value,
            b: value,
            c: value,
        }
    }

    /// That of the node.
    pub fn get(&self, node: Node) -> &T
        ensures { result.now ≡ at self.now node }
    {
        match node {
            Node::A => &self.a,
            Node::B => &self.b,
            Node::C => &self.c,
        }
    }

    /// That of the node, to be changed.
    pub fn get_mut(&mut self, node: Node) -> &mut T
        ensures* writes_back { sem 𝓛 (LendsOf T.row self.entry node result) }
        ensures value { result.now ≡ at self.old node }
    {
        match node {
            Node::A => &mut self.a,
            Node::B => &mut self.b,
            Node::C => &mut self.c,
        }
    }

    /// Another one of the node.
    pub fn set(&mut self, node: Node, value: T)
    where
        T: Drop,
        ensures { self.new ≡ with_at self.old node value }
    {
        match node {
            Node::A => self.a = value,
            Node::B => self.b = value,
            Node::C => self.c = value,
        }
    }

    /// Gives up all three, in the order of their nodes.
    pub fn split(self) -> (T, T, T)
        ensures { (result.0 ≡ self.a) × (result.1 ≡ self.b) × (result.2 ≡ self.c) }
    {
        (self.a, self.b, self.c)
    }
}
