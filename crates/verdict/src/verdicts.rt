// The mask verdict and the table verdict.
ghost use Rattle.verdict.specs.Verdicts.{shares, marked};

use crate::verdict::Verdict;
use index::links::Link;

// Accepts a link that has a bit in common with the wanted mask.
#[derive(Clone, Copy, PartialEq, Eq, Debug)]
pub struct MaskVerdict {
    pub wanted: u8,
}

impl Verdict for MaskVerdict {
    ghost accepts = { λ v link. shares v.wanted link.mask };

    #[tactic(auto, using(crate::proofs::Sharing::and_shares))]
    fn accept(&mut self, link: Link) -> bool {
        self.wanted & link.mask != 0
    }
}

// Accepts a link whose byte is not 0: the byte at 3 × the edge's number + the number of the half. A link whose place lies
// past the table is rejected.
#[derive(Clone, Copy, PartialEq, Eq, Debug)]
pub struct TableVerdict<'a> {
    pub bytes: &'a [u8],
}

impl<'a> Verdict for TableVerdict<'a> {
    ghost accepts = { λ v link. marked v.bytes.now link.edge link.half };

    fn accept(&mut self, link: Link) -> bool {
        let place = 3 * link.edge as usize + u32::from(link.half) as usize;
        self.bytes.get(place).is_some_and(|&byte| byte != 0)
    }
}
