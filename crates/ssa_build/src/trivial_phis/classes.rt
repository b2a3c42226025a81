// Definitions in classes.

ghost use Rattle.std.specs.Prelude.{◌≡◌, ◌≢◌, ◌<◌, ◌≤◌, ◌^◌, ℕ, IfOk, length, slice_index};
ghost use Rattle.ssa_build.specs.trivial_phis.Classes.{SameClasses, Joined, count_of, find_in, root_in};

use std::alloc::{AllocError, Global};
use std::marker::Model;

/// Definitions, numbered from 0, in classes. One definition of each class stands for all of it.
#[derive(Drop)]
pub(crate) struct Classes {
    parents: Vec<u32>,
    stands: Vec<u32>,
}

impl Model for Classes {
    ghost use Rattle.ssa_build.specs.trivial_phis.Classes.{ClassesView, AreClasses};

    ghost Value = { ClassesView };

    ghost view = { λ c. record { parents = c.parents.items; stands = c.stands.items } };

    ghost invariant = { λ c. AreClasses (record { parents = c.parents.items; stands = c.stands.items }) };
}

/// The numbers below a count. The only error is out of memory.
pub(crate) fn numbers(alloc: Global, count: u32) -> Result<Vec<u32>, AllocError>
    ensures long { IfOk result (λ list. length list.items ≡ count) }
    ensures own { IfOk result (λ list. (d : ℕ) → d < count → slice_index list.items d ≡ d) }
{
    let mut list = Vec::new(alloc);
    for d in 0..count {
        list.push(d)?;
    }
    Ok(list)
}

impl Classes {
    /// So many definitions, each in a class of its own.
    pub(crate) fn new(alloc: Global, count: u32) -> Result<Classes, AllocError>
        ensures count { IfOk result (λ classes. count_of classes ≡ count) }
        ensures own { IfOk result (λ classes. (d : ℕ) → d < count → find_in classes d ≡ d) }
    {
        let parents = numbers(alloc, count)?;
        let stands = numbers(alloc, count)?;
        Ok(Classes { parents, stands })
    }

    /// The number of definitions. Takes no memory.
    pub(crate) fn len(&self) -> usize
        ensures { result ≡ count_of self.now }
    {
        self.parents.len()
    }

    // The root of a definition's class. The parents on the way become those of their parents, so that the next search is
    // shorter.
    fn root(&mut self, d: u32) -> u32
        requires { d < count_of self.old }
        ensures root { result ≡ root_in self.old.parents d }
        ensures within { result < count_of self.old }
        ensures parent { slice_index self.new.parents result ≡ result }
        ensures same { SameClasses self.old self.new }
        ensures roots { (x : ℕ) → x < count_of self.old → root_in self.new.parents x ≡ root_in self.old.parents x }
        ensures stands { self.new.stands ≡ self.old.stands }
    {
        let mut node = d;
        while self.parents[node as usize] != node {
            let parent = self.parents[node as usize];
            let above = self.parents[parent as usize];
            self.parents[node as usize] = above;
            node = above;
        }
        node
    }

    /// The definition that stands for another. Takes no memory.
    pub(crate) fn find(&mut self, d: u32) -> u32
        requires { d < count_of self.old }
        ensures found { result ≡ find_in self.old d }
        ensures within { result < count_of self.old }
        ensures same { SameClasses self.old self.new }
    {
        let root = self.root(d);
        self.stands[root as usize]
    }

    /// Joins the class for which `y` stands to that for which `z` stands, which stands for both then. Takes no memory.
    pub(crate) fn join(&mut self, y: u32, z: u32)
        requires y { y < count_of self.old }
        requires z { z < count_of self.old }
        requires y_stands { find_in self.old y ≡ y }
        requires z_stands { find_in self.old z ≡ z }
        requires differ { y ≢ z }
        ensures { Joined y z self.old self.new }
    {
        let a = self.root(y);
        let b = self.root(z);
        if a < b {
            self.parents[b as usize] = a;
            self.stands[a as usize] = z;
        } else {
            self.parents[a as usize] = b;
            self.stands[b as usize] = z;
        }
    }
}
