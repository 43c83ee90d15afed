// A page that each of its methods adds to, and a page made from bytes.
use crate::page::Page;
use draft::draft::Draft;
use index::records::PackageLink;
use index::refusal::{Refusal, Told};
use index::spec::{IndexType, PackageGraphSpec, PackageIx};
use records::Complaint;
use std::test::Fail;
use words::Span;

#[test]
fn each_answer_is_added(rt: HostRuntime) -> Result<(), Fail> {
    let mut page = Page::new(rt.alloc());
    page.refusal(Told::from(Refusal::EdgesFull), 12)?;
    page.add(b"; ")?;
    let word = Span { start: 4, end: 6 };
    page.complaint(Complaint::NoNumber(word), b"out xy", 3)?;
    page.add(b"; ")?;
    page.pair(5)?;
    page.add(b"; ")?;
    page.size(4, 3, 1)?;
    assert_eq!(rt;
        page.bytes(),
        b"refused 7 graph 0 12; bad line 3: no number: xy; pair 5; size 4 3 1".as_slice()
    );
    page.clear();
    assert!(rt; page.bytes().is_empty());
    Ok(())
}

#[test]
fn lists_go_on_from_bytes(rt: HostRuntime) -> Result<(), Fail> {
    let mut table = [0u32; 40];
    let mut draft = Draft::new(&mut table, PackageGraphSpec);
    draft.set_up(3)?;
    let link = PackageLink { mask: 1 };
    draft.add_edge(PackageIx::new(0), PackageIx::new(1), link)?;
    draft.add_edge(PackageIx::new(0), PackageIx::new(2), link)?;
    let graph = draft.finish();
    let mut page = Page::from(vec![in rt.alloc(); b'>']?);
    page.outgoing(&graph, 0)?;
    page.add(b"; ")?;
    page.incoming(&graph, 2)?;
    let bytes = page.into_bytes();
    assert_eq!(rt;
        bytes.as_slice(),
        b">out 0 2 0>2#1 0>1#0; into 2 1 0>2#1".as_slice()
    );
    Ok(())
}
