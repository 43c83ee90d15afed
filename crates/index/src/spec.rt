// Index types, and what belongs together in one kind of graph.
ghost use Rattle.std.specs.Prelude.{◌≡◌, ℕ};
ghost use Rattle.std.proofs.Common.{rules};

use crate::records::{EdgeRecord, FeatureEdge, PackageLink};
use std::marker::PhantomData;

// A node's index. Its meaning is a number, and no two indexes of one type have the same.
// `new` and `index` have the original's names; `From` both ways would be two impls in place of this one.
pub trait IndexType: Copy {
    ghost number: { Self → ℕ };

    fn new(x: u32) -> Self
        ensures { number result ≡ x };

    fn index(self) -> u32
        ensures { result ≡ number self };

    ghost same: { (x : Self) (y : Self) → number x ≡ number y → x ≡ y };
}

// The node, the edge record and the index type of one kind of graph. A type of this trait is a marker: a value of it
// says which kind a draft, a graph or a set is of, and holds nothing.
pub trait GraphSpec: Copy {
    type Node: Copy;

    type Edge: EdgeRecord;

    type Ix: IndexType;
}

// An index of a node in graphs of the kind K. Indexes of two kinds have two types, so that none passes for another.
#[derive(Clone, Copy, PartialEq, Eq, Debug)]
pub struct NodeIx<K>(u32, PhantomData<K>);

pub type PackageIx = NodeIx<PackageGraphSpec>;

pub type FeatureIx = NodeIx<FeatureGraphSpec>;

impl<K: Copy> IndexType for NodeIx<K> {
    ghost number = { λ x. x.0 };

    ghost same = { Prim.search rules };

    fn new(x: u32) -> NodeIx<K> {
        NodeIx(x, PhantomData)
    }

    fn index(self) -> u32 {
        self.0 // the kind is in the type alone
    }
}

// What a node of a package graph stands for. Nodes carry no data here: the index says which one.
#[derive(Clone, Copy, PartialEq, Eq, Debug)]
pub struct PackageId(pub PackageIx);

// What a node of a feature graph stands for: a feature of a package, or a package's base.
#[derive(Clone, Copy, PartialEq, Eq, Debug)]
pub struct FeatureNode(pub FeatureIx);

#[derive(Clone, Copy, PartialEq, Eq, Debug)]
pub struct PackageGraphSpec;

#[derive(Clone, Copy, PartialEq, Eq, Debug)]
pub struct FeatureGraphSpec;

impl GraphSpec for PackageGraphSpec {
    type Node = PackageId;

    type Edge = PackageLink;

    type Ix = PackageIx;
}

impl GraphSpec for FeatureGraphSpec {
    type Node = FeatureNode;

    type Edge = FeatureEdge;

    type Ix = FeatureIx;
}
