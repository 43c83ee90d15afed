// The weak indexes that each node releases.
ghost use Rattle.std.specs.Prelude.{◌≡◌, ◌≤◌, length};
ghost use Rattle.std.specs.Iterator.{YieldsFirst, item_count};
ghost use Rattle.buffers.specs.Buffers.{Firsts, Nexts, Inside, left, released};

use index::limits::NODE_LIMIT;

// `nodes` has the release node of each index. The indexes of a bucket are linked, ascending, where the bucket of a node is
// its remainder by 4,096: `firsts` has for each bucket its first index, `nexts` for each index the next one of its bucket.
// The tables are of a fixed size, for all the buckets and indexes that there may be, since no call may want for memory.
#[derive(Drop)]
pub struct Releases<'a> {
    pub(crate) nodes: &'a [u32],
    pub(crate) firsts: [Option<u16>; 4096],
    pub(crate) nexts: [Option<u16>; 1024],
    ghost few: { length nodes.now ≤ 1024 },
    ghost starts: { Firsts nodes.now firsts },
    ghost follows: { Nexts nodes.now nexts },
}

impl<'a> Releases<'a> {
    pub(crate) fn new(nodes: &'a [u32]) -> Releases<'a>
        requires { length nodes.now ≤ 1024 }
        ensures { result.nodes.now ≡ nodes.now }
    {
        let mut firsts = [None; 4096];
        let mut nexts = [None; 1024];
        // By a range: the loop's invariant names the last index that is linked, which an iterator's state does not say.
        for index in (0..nodes.len()).rev() {
            let bucket = (nodes[index] % NODE_LIMIT) as usize;
            nexts[index] = firsts[bucket];
            firsts[bucket] = Some(index as u16);
        }
        Releases {
            nodes,
            firsts,
            nexts,
        }
    }

    // The indexes that a node releases, ascending.
    pub(crate) fn of<'r>(&'r self, node: u32) -> ReleasedBy<'r, 'a>
        ensures { left result.releases.now.nodes.now result.node result.link ≡ released self.now.nodes.now node 0 (length self.now.nodes.now) }
    {
        ReleasedBy {
            releases: self,
            node,
            link: self.firsts[(node % NODE_LIMIT) as usize],
        }
    }
}

// Those of the node's indexes that are still to come: the link leads to the next index of the node's bucket.
#[derive(Drop)]
pub struct ReleasedBy<'r, 'a> {
    pub(crate) releases: &'r Releases<'a>,
    pub(crate) node: u32,
    pub(crate) link: Option<u16>,
    ghost inside: { Inside releases.now.nodes.now node link },
}

impl<'r, 'a> Iterator for ReleasedBy<'r, 'a> {
    type Item = usize;

    ghost next_gives = { YieldsFirst (λ s. left s.releases.now.nodes.now s.node s.link) };

    ghost remaining = { item_count (λ s. left s.releases.now.nodes.now s.node s.link) };

    fn next(&mut self) -> Option<usize> {
        while let Some(link) = self.link {
            let index = usize::from(link);
            self.link = self.releases.nexts[index];
            if self.releases.nodes[index] == self.node {
                return Some(index);
            }
        }
        None
    }
}
