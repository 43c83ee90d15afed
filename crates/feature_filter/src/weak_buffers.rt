// Weak buffers: each weak index is Buffered or Released, and one match says what it makes of an event.
ghost use Rattle.std.specs.Prelude.{◌≡◌, ◌+◌, ◌<◌, ◌≤◌, Bool, map, length, None as Nothing, Some as SomeOf, filter, Option, slice_set, slice_get};
ghost use Rattle.std.specs.Option.{MatchOption};
ghost use Rattle.theory.specs.Rules.{was_told, held_for};
ghost use Rattle.index.specs.declared.direction.DependencyDirection.TheVariants.{Forward as Ahead};
ghost use Rattle.index.specs.declared.links.Link.{Link as AnyLink};
ghost use Rattle.index.specs.declared.links.EdgeLinks.TheVariants.{Weak as WeakLinks};
ghost use Rattle.filter.specs.Filters.{Discovers};
ghost use Rattle.buffers.specs.Rules.{links, waiting, wanted, goes_out, feature_rule};
ghost use Rattle.buffers.specs.Buffers.{meaning, state_of, told_by, edge_of, held_in, lets_out, handed, Blank, Next, Linked, Chained, Okay, Ready, extended, relinked, Met, Moved, at_place};

use crate::releases::Releases;
use buffers::states::{Chain, Event, Outcome, SingleBufferState};
use filter::buffered::Held;
use graph::edge::EdgeRef;
use index::links::{EdgeLinks, edge_to_links};
use index::records::FeatureEdge;
use index::spec::FeatureIx;
use verdict::verdict::Verdict;

// The state of each index, and how many entries of the hold table are in use. Both tables are of a fixed size, as no call may
// want for memory: the hold table is the caller's, and what lies in it are its first `used` entries.
#[derive(Drop)]
pub struct WeakBuffers {
    pub(crate) states: [SingleBufferState; 1024],
    pub(crate) used: usize,
}

// Contracts name states, used and hold apart, since the hold table is the caller's and no value has all three. What a clause
// `same` says of a verdict is the trait's own promise, once for each function that asks it.
impl WeakBuffers {
    pub(crate) fn new() -> WeakBuffers {
        WeakBuffers {
            states: [SingleBufferState::Buffered(None); 1024],
            used: 0,
        }
    }

    // The first indexes are buffered again, and no edge lies in the table. The states of the others never change.
    pub(crate) fn begin(&mut self, count: usize)
        requires { count ≤ 1024 }
        ensures blank { Blank count self.new.states }
        ensures unused { self.new.used ≡ 0 }
        ensures long { length self.new.states ≡ 1024 }
    {
        self.states[..count].fill(SingleBufferState::Buffered(None));
        self.used = 0;
    }

    // An index meets an event: the one match on its state and the event together.
    #[tactic(auto, using(buffers::proofs::Chaining::met_arrives, buffers::proofs::Chaining::last_before))]
    fn meets(
        &mut self,
        index: usize,
        event: Event,
        hold: &mut [Held<EdgeRef<FeatureIx, FeatureEdge>>],
    ) -> Outcome
        requires known { index < 1024 }
        requires ready { Ready index self.old.states self.old.used hold.old event }
        ensures { Met index self.old.states self.new.states self.old.used self.new.used hold.old hold.new (state_of self.old.states index) event result }
    {
        match (self.states[index], event) {
            (SingleBufferState::Buffered(chain), Event::Arrives(edge)) => {
                let longer = append(hold, self.used, edge, chain);
                self.states[index] = SingleBufferState::Buffered(Some(longer));
                self.used += 1;
                Outcome::Holds
            }
            (SingleBufferState::Released, Event::Arrives(_)) => Outcome::Judges,
            (SingleBufferState::Buffered(chain), Event::Told) => {
                self.states[index] = SingleBufferState::Released;
                chain.map_or(Outcome::Nothing, |chain| Outcome::Frees(chain.first))
            }
            (SingleBufferState::Released, Event::Told) => Outcome::Nothing,
        }
    }

    // A weak edge arrives, in Forward: whether its optional link is to be judged now, as its index was released before.
    pub(crate) fn arrives(
        &mut self,
        releases: &Releases,
        index: usize,
        edge: EdgeRef<FeatureIx, FeatureEdge>,
        hold: &mut [Held<EdgeRef<FeatureIx, FeatureEdge>>],
    ) -> bool
        requires weak { (q : Option AnyLink) × ((o : AnyLink) × (links (meaning edge) ≡ SomeOf (WeakLinks q o (record { 0 = index })))) }
        requires okay { Okay releases.now.nodes.now self.old.states self.old.used hold.old }
        requires room { self.old.used < length hold.old }
        ensures okay { Okay releases.now.nodes.now self.new.states self.new.used hold.new }
        ensures used { self.new.used ≤ self.old.used + 1 }
        ensures told { told_by releases.now.nodes.now self.new.states ≡ told_by releases.now.nodes.now self.old.states }
        ensures answer { result ≡ was_told (told_by releases.now.nodes.now self.old.states) (slice_get releases.now.nodes.now index) }
        ensures held { (accepts : AnyLink → Bool) → held_in accepts self.new.states self.new.used hold.new ≡ held_for (told_by releases.now.nodes.now self.old.states) (held_in accepts self.old.states self.old.used hold.old) (meaning edge) (waiting accepts releases.now.nodes.now (links (meaning edge))) }
    {
        let registered = releases.nodes.len();
        if index >= registered {
            return false; // there is no node to wait on
        }
        matches!(
            self.meets(index, Event::Arrives(edge), hold),
            Outcome::Judges
        )
    }

    // The release node of an index is told: the index moves on, and what it held goes out to the front of the hand-out table,
    // first held first; answers how many edges they are.
    fn release<V: Verdict>(
        &mut self,
        verdict: &mut V,
        index: usize,
        hold: &mut [Held<EdgeRef<FeatureIx, FeatureEdge>>],
        hand: &mut [EdgeRef<FeatureIx, FeatureEdge>],
    ) -> usize
        requires known { index < 1024 }
        requires fits { self.old.used ≤ length hold.old }
        requires chained { Chained index self.old.used hold.old (state_of self.old.states index) }
        requires room { length (lets_out (V.Verdict.accepts verdict.old) index self.old.states self.old.used hold.old) ≤ length hand.old }
        ensures same { V.Verdict.accepts verdict.new ≡ V.Verdict.accepts verdict.old }
        ensures rests { (self.new.used ≡ self.old.used) × (hold.new ≡ hold.old) }
        ensures moved { Moved index self.old.states self.new.states }
        ensures goes { handed result hand.new ≡ lets_out (V.Verdict.accepts verdict.old) index self.old.states self.old.used hold.old }
        ensures counts { result ≡ length (lets_out (V.Verdict.accepts verdict.old) index self.old.states self.old.used hold.old) }
    {
        match self.meets(index, Event::Told, hold) {
            Outcome::Frees(first) => follow(verdict, &hold[..self.used], index, first, hand),
            Outcome::Holds | Outcome::Judges | Outcome::Nothing => 0,
        }
    }

    // A node is told, in Forward: each index that it releases moves on, in ascending order.
    pub(crate) fn tell<V: Verdict>(
        &mut self,
        verdict: &mut V,
        releases: &Releases,
        node: u32,
        hold: &mut [Held<EdgeRef<FeatureIx, FeatureEdge>>],
        hand: &mut [EdgeRef<FeatureIx, FeatureEdge>],
    ) -> usize
        requires okay { Okay releases.now.nodes.now self.old.states self.old.used hold.old }
        requires room { self.old.used ≤ length hand.old }
        ensures same { V.Verdict.accepts verdict.new ≡ V.Verdict.accepts verdict.old }
        ensures okay { Okay releases.now.nodes.now self.new.states self.new.used hold.new }
        ensures used { self.new.used ≡ self.old.used }
        ensures within { result ≤ length hand.old }
        ensures discovers { Discovers (feature_rule (V.Verdict.accepts verdict.old) releases.now.nodes.now Ahead) node (told_by releases.now.nodes.now self.old.states) (told_by releases.now.nodes.now self.new.states) (held_in (V.Verdict.accepts verdict.old) self.old.states self.old.used hold.old) (held_in (V.Verdict.accepts verdict.old) self.new.states self.new.used hold.new) (handed result hand.new) }
    {
        let mut out = 0;
        for index in releases.of(node) {
            out += self.release(verdict, index, hold, &mut hand[out..]);
        }
        out
    }
}

// Writes an edge to an entry, and links the last edge of a chain with it: the chain that ends there.
#[tactic(auto, using(buffers::proofs::Chaining::set_linked))]
fn append(
    hold: &mut [Held<EdgeRef<FeatureIx, FeatureEdge>>],
    place: usize,
    edge: EdgeRef<FeatureIx, FeatureEdge>,
    chain: Option<Chain>,
) -> Chain
    requires room { place < length hold.old }
    requires last { MatchOption chain (Unit {0}) (λ c. c.last < place) }
    ensures chain { result ≡ extended place chain }
    ensures hold { hold.new ≡ relinked place chain (slice_set hold.old place (record { edge = edge; next = Nothing })) }
{
    hold[place] = Held { edge, next: None };
    match chain {
        None => Chain {
            first: place,
            last: place,
        },
        Some(chain) => {
            hold[chain.last].next = Some(place);
            Chain {
                last: place,
                ..chain
            }
        }
    }
}

// Whether the verdict accepts the optional link of an edge.
fn wants<V: Verdict>(verdict: &mut V, edge: EdgeRef<FeatureIx, FeatureEdge>) -> bool
    ensures answer { result ≡ wanted (V.Verdict.accepts verdict.old) (links (meaning edge)) }
    ensures same { V.Verdict.accepts verdict.new ≡ V.Verdict.accepts verdict.old }
{
    match edge_to_links(edge.number, edge.weight) {
        Some(EdgeLinks::Weak { optional, .. }) => verdict.accept(optional),
        Some(EdgeLinks::NonWeak(_)) | None => false,
    }
}

// Hands out the edges of an index that are wanted, from a place on along the links.
fn follow<V: Verdict>(
    verdict: &mut V,
    lying: &[Held<EdgeRef<FeatureIx, FeatureEdge>>],
    index: usize,
    first: usize,
    hand: &mut [EdgeRef<FeatureIx, FeatureEdge>],
) -> usize
    requires linked { Next (at_place index lying.now) (length lying.now) 0 (SomeOf first) × Linked index (length lying.now) lying.now }
    requires room { length (filter (goes_out (V.Verdict.accepts verdict.old) index) (map edge_of lying.now)) ≤ length hand.old }
    ensures same { V.Verdict.accepts verdict.new ≡ V.Verdict.accepts verdict.old }
    ensures goes { handed result hand.new ≡ filter (goes_out (V.Verdict.accepts verdict.old) index) (map edge_of lying.now) }
    ensures counts { result ≡ length (filter (goes_out (V.Verdict.accepts verdict.old) index) (map edge_of lying.now)) }
{
    let mut link = Some(first);
    let mut out = 0;
    // By hand: a loop asks for an iterator that is known to end, and std's `successors` is not; `out` is what is answered.
    while let Some(place) = link {
        let entry = lying[place];
        if wants(verdict, entry.edge) {
            hand[out] = entry.edge;
            out += 1;
        }
        link = entry.next;
    }
    out // behind the last edge
}
