//! A table of known edges.

ghost use Rattle.std.specs.Prelude.{◌≡◌, ℕ, ◌+◌, ◌<◌, ◌≤◌, ◌^◌, length, set, IfSome, Some};
ghost use Rattle.rx_program.specs.Programs.{ByteProgram};
ghost use Rattle.rx_walks.specs.Finds.{Search};
ghost use Rattle.rx_onepass.specs.Edges.{AreEdges, IsEdge, note_if};
ghost use Rattle.rx_onepass.specs.Alone.{AreAhead, IsAlone};

use crate::noted::Noted;
use rx_steps::Node;
use rx_util::{NonMaxUsize, PatternID};
use std::alloc::Global;
use std::marker::Model;
use std::mem::size_of;

/// The number of places for edges, a power of 2.
const PLACES: usize = 1024;

/// The distance between the places of the edges of two states, and between those of two nodes of
/// one state's automaton.
const STATE_STEP: usize = 67;

const WITHIN_STEP: usize = 257;

/// Where the step of a single thread leads: to a single thread at a node, or else to no thread and
/// the end of a match.
#[derive(Clone, Copy, Debug, PartialEq, Eq)]
pub(crate) struct Way {
    pub(crate) node: Option<Node>,
    // The pattern of the match that ends if there is no node.
    pub(crate) pattern: PatternID,
}

/// A step of a single thread from a node before a byte, or where no byte can be read: where it
/// leads, and the slots that it notes.
#[derive(Clone, Copy, Debug)]
pub(crate) struct Edge {
    pub(crate) from: Node,
    pub(crate) byte: Option<u8>,
    pub(crate) way: Way,
    pub(crate) noted: Option<Noted>,
}

impl Edge {
    /// Writes an offset into the slots that the edge notes.
    #[inline(always)]
    pub(crate) fn note(&self, slots: &mut [Option<NonMaxUsize>], at: usize)
        requires fits { at + 1 < 2 ^ 64 }
        ensures { slots.new ≡ note_if self.now.noted at slots.old }
    {
        if let Some(noted) = &self.noted {
            noted.put(slots, NonMaxUsize::new(at).unwrap());
        }
    }
}

/// Returns the place of the edge from a node before a byte.
#[inline(always)]
fn place_of(from: Node, byte: Option<u8>) -> usize {
    let column = match byte {
        Some(byte) => usize::from(byte),
        None => 256,
    };
    let row = from
        .state()
        .as_usize()
        .wrapping_mul(STATE_STEP)
        .wrapping_add(from.within().wrapping_mul(WITHIN_STEP));
    row.wrapping_add(column) % PLACES
}

/// The edges that are known. Each has one place, which the last one learnt takes.
#[derive(Debug, Drop)]
pub(crate) struct Edges {
    // Empty until an edge is learnt.
    places: Vec<Option<Edge>>,
}

impl Model for Edges {
    ghost use Rattle.std.specs.Prelude.{List, Option};
    ghost use Rattle.rx_onepass.specs.declared.edges.Edge.{Edge};

    ghost Value = { List (Option Edge) };

    ghost view = { λ e. e.places.items };
}

impl Edges {
    /// Returns this without edges.
    pub(crate) fn new(alloc: Global) -> Edges
        ensures { (p : ByteProgram) (len : ℕ) → AreEdges p len result }
    {
        Edges {
            places: Vec::new(alloc),
        }
    }

    /// Forgets all edges.
    pub(crate) fn clear(&mut self)
        ensures { (p : ByteProgram) (len : ℕ) → AreEdges p len self.new }
    {
        self.places.clear();
    }

    /// Returns the approximate number of bytes of the table.
    pub(crate) fn memory_usage(&self) -> usize {
        self.places
            .capacity()
            .saturating_mul(size_of::<Option<Edge>>())
    }

    /// Returns the edge in a place, if there is one.
    #[inline(always)]
    fn at(&self, place: usize) -> Option<&Edge>
        ensures { IfSome result (λ edge. (p : ByteProgram) (len : ℕ)
            → AreEdges p len self.now → IsEdge p len edge.now) }
    {
        match self.places.get(place) {
            Some(Some(edge)) => Some(edge),
            _ => None,
        }
    }

    /// Returns the edge from a node before a byte, if it is known.
    #[inline(always)]
    pub(crate) fn find(&self, from: Node, byte: Option<u8>) -> Option<&Edge>
        ensures from { IfSome result (λ edge. edge.now.from ≡ from) }
        ensures byte { IfSome result (λ edge. edge.now.byte ≡ byte) }
        ensures is { IfSome result (λ edge. (p : ByteProgram) (len : ℕ)
            → AreEdges p len self.now → IsEdge p len edge.now) }
    {
        let edge = self.at(place_of(from, byte))?;
        if edge.from == from && edge.byte == byte {
            Some(edge)
        } else {
            None
        }
    }

    /// Makes the places, if there are none and there is memory for them.
    fn make_room(&mut self)
        ensures { (p : ByteProgram) (len : ℕ) → AreEdges p len self.old → AreEdges p len self.new }
    {
        if self.places.len() < PLACES {
            let _made = self.places.resize(PLACES, None);
        }
    }

    /// Puts an edge into a place, if there is that place.
    fn put(&mut self, place: usize, edge: Edge)
        ensures { self.new ≡ set self.old place (Some edge) }
    {
        if place < self.places.len() {
            self.places[place] = Some(edge);
        }
    }

    /// Learns an edge, in the place of another one, unless there is no memory for places.
    pub(crate) fn learn(&mut self, edge: Edge)
        ensures { (p : ByteProgram) (len : ℕ) → AreEdges p len self.old → IsEdge p len edge
            → AreEdges p len self.new }
    {
        self.make_room();
        self.put(place_of(edge.from, edge.byte), edge);
    }

    /// Follows known edges over bytes, from a node at an offset, and notes slots. Returns how many
    /// bytes it read, and the node after them.
    pub(crate) fn run(
        &self,
        from: Node,
        at: usize,
        bytes: &[u8],
        slots: &mut [Option<NonMaxUsize>],
    ) -> (usize, Node)
        requires fits { at + length bytes.now + 1 < 2 ^ 64 }
        ensures within { result.0 ≤ length bytes.now }
        ensures alone { (p : ByteProgram) (s : Search) (q len : ℕ) → AreEdges p len self.now
            → AreAhead s at bytes.now → IsAlone p s q len at slots.old from
            → IsAlone p s q len (at + result.0) slots.new result.1 }
    {
        let mut node = from;
        let mut read = 0_usize;
        for byte in bytes {
            let Some(edge) = self.find(node, Some(*byte)) else {
                break;
            };
            let Some(next) = edge.way.node else {
                break;
            };
            edge.note(slots, at + read);
            node = next;
            read += 1;
        }
        (read, node)
    }
}
