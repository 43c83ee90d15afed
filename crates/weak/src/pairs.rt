// The calls on weak pairs.
ghost use Rattle.std.specs.Prelude.{◌≡◌, ℕ, ◌%◌, ◌≤◌, List, [], map, length};
ghost use Rattle.std.specs.Option.{option_map};
ghost use Rattle.std.specs.List.{slice_get};
ghost use Rattle.theory.specs.Limits.{weak_limit};
ghost use Rattle.theory.specs.Pairs.{place};
ghost use Rattle.weak.specs.Registered.{register, registered, weak_index, KnownOnce};

use crate::table::{Entry, WeakDependencies};
use arrayvec::ArrayVec;
use index::limits::WEAK_LIMIT;
use index::records::WeakIndex;
use index::refusal::Refusal;

// The bucket of a package edge.
fn bucket(package_edge: u32) -> usize
    ensures { result ≡ package_edge % 1024 }
{
    package_edge as usize % 1024
}

impl WeakDependencies {
    // No pair yet.
    pub fn new() -> WeakDependencies
        ensures { result ≡ [] }
    {
        WeakDependencies {
            entries: ArrayVec::new(),
            release_nodes: ArrayVec::new(),
            heads: [None; 1024],
        }
    }

    // No pair again.
    pub fn clear(&mut self)
        ensures { self.new ≡ [] }
    {
        self.entries.clear();
        self.release_nodes.clear();
        self.heads.fill(None);
    }

    // How many pairs there are: weak indexes lie below. No two have one package edge.
    pub fn len(&self) -> u32
        ensures count { result ≡ length self.now }
        ensures few { result ≤ weak_limit }
        ensures known_once { KnownOnce self.now }
    {
        self.entries.len() as u32 // an index a pair
    }

    // The node that releases a weak index, if it is registered.
    pub fn release_node(&self, index: WeakIndex) -> Option<u32>
        ensures { result ≡ option_map (λ p. p.release) (slice_get self.now index.0) }
    {
        self.releases().get(index.0 as usize).copied()
    }

    // The release nodes, by weak index.
    pub fn releases(&self) -> &[u32]
        ensures nodes { result.now ≡ map (λ p. p.release) self.now }
        ensures few { length result.now ≤ weak_limit }
    {
        self.release_nodes.as_slice()
    }

    // The weak index of a package edge, if it is known.
    pub fn find(&self, package_edge: u32) -> Option<WeakIndex>
        ensures { result ≡ option_map weak_index (place package_edge self.now) }
    {
        let entries = self.entries.as_slice();
        let mut at = usize::from(self.heads[bucket(package_edge)]?);
        // By hand: `find` asks for an iterator that is known to end, and std's `successors` is not.
        while entries[at].package_edge != package_edge {
            at = usize::from(entries[at].next?);
        }
        Some(WeakIndex(at as u32)) // below 1,024
    }

    // Registers a pair. A package edge that is known keeps its index and its release node.
    pub fn insert(&mut self, package_edge: u32, release: u32) -> Result<WeakIndex, Refusal>
        ensures answer { result ≡ register self.old (record { package_edge = package_edge; release = release }) }
        ensures after { self.new ≡ registered self.old (record { package_edge = package_edge; release = release }) }
    {
        if let Some(index) = self.find(package_edge) {
            return Ok(index);
        }
        let i = self.entries.len() as u16;
        if u32::from(i) >= WEAK_LIMIT {
            return Err(Refusal::WeakIndexesFull);
        }
        let next = self.heads[bucket(package_edge)].replace(i);
        self.entries.push(Entry { package_edge, next });
        self.release_nodes.push(release);
        Ok(WeakIndex(u32::from(i)))
    }
}
