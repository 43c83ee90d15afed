// A page of answers: the bytes that are to be written out.
// A method adds one answer, as a line without its end; it fails only for want of memory.
ghost use Rattle.std.specs.Prelude.{◌≡◌, [], OnOk};
ghost use Rattle.std.specs.Fmt.{AppendsText};
ghost use Rattle.orders.specs.Wording.{Writes, refusal_text, complaint_text, pair_text, size_text};

use index::refusal::Told;
use records::Complaint;
use std::alloc::{AllocError, Global};
use std::fmt::Display;
use std::marker::Model;

#[derive(Drop)]
pub struct Page {
    bytes: Vec<u8>,
}

impl Model for Page {
    ghost use Rattle.std.specs.Prelude.{List, ℕ};

    ghost Value = { List ℕ };

    ghost view = { λ page. page.bytes.items };
}

// A page goes on from bytes that are there already.
impl From<Vec<u8>> for Page {
    ghost from_gives = { λ bytes page. page ≡ bytes.items };

    fn from(bytes: Vec<u8>) -> Page {
        Page { bytes } // nothing of them goes
    }
}

impl Page {
    pub fn new(heap: Global) -> Page
        ensures { result ≡ [] }
    {
        Page::from(Vec::new(heap))
    }

    pub fn into_bytes(self) -> Vec<u8>
        ensures { result.items ≡ self }
    {
        self.bytes // with the answers behind those that were there
    }

    pub fn bytes(&self) -> &[u8]
        ensures { result.now ≡ self.now }
    {
        self.bytes.as_slice()
    }

    pub fn clear(&mut self)
        ensures { self.new ≡ [] }
    {
        self.bytes.clear();
    }

    // Adds bytes as they stand.
    pub fn add(&mut self, bytes: &[u8]) -> Result<(), AllocError>
        ensures { Writes result self.old bytes.now self.new }
    {
        self.bytes.extend_from_slice(bytes)
    }

    // What `write!` calls.
    pub fn write_fmt<D: Display + Drop>(&mut self, value: D) -> Result<(), AllocError>
        ensures { OnOk result (AppendsText self.old self.new (D.output value)) }
    {
        let text = String::format(*self.bytes.allocator(), value)?;
        self.bytes.extend_from_slice(text.as_bytes())
    }

    // A refusal, with the number of the line that was refused.
    pub fn refusal(&mut self, told: Told, line: usize) -> Result<(), AllocError>
        ensures { Writes result self.old (refusal_text told line) self.new }
    {
        write!(self, "refused {told} {line}")
    }

    // What is wrong with a line, with the line's number and the word that is wrong as it stands.
    pub fn complaint(
        &mut self,
        complaint: Complaint,
        line: &[u8],
        number: usize,
    ) -> Result<(), AllocError>
        ensures { Writes result self.old (complaint_text complaint line.now number) self.new }
    {
        write!(self, "bad line {number}: {complaint}")?;
        if let Some(word) = complaint.word() {
            self.add(word.of(line))?;
        }
        Ok(())
    }

    // The weak index of a pair.
    pub fn pair(&mut self, index: u32) -> Result<(), AllocError>
        ensures { Writes result self.old (pair_text index) self.new }
    {
        write!(self, "pair {index}")
    }

    // How many nodes, edges and weak indexes a graph has.
    pub fn size(&mut self, nodes: u32, edges: u32, weak: u32) -> Result<(), AllocError>
        ensures { Writes result self.old (size_text nodes edges weak) self.new }
    {
        write!(self, "size {nodes} {edges} {weak}")
    }
}
