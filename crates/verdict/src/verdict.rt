// A verdict is the object that accepts or rejects links.
ghost use Rattle.std.specs.Prelude.{◌≡◌, Bool};
ghost use Rattle.index.specs.declared.links.Link.{Link as AnyLink};

use index::links::Link;

// Its meaning is a set of links, and its answer says whether a link is in the set. Asking leaves the set as it is, though
// an implementation may keep state, as a count of what it was asked.
pub trait Verdict {
    ghost accepts: { Self → AnyLink → Bool };

    fn accept(&mut self, link: Link) -> bool
        ensures answer { result ≡ accepts self.old link }
        ensures same { accepts self.new ≡ accepts self.old };
}

// A verdict that is lent is a verdict of the same meaning.
impl<V: Verdict> Verdict for &mut V {
    ghost accepts = { λ v. V.Verdict.accepts v.now };

    fn accept(&mut self, link: Link) -> bool {
        (**self).accept(link)
    }
}
