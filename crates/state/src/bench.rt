// The whole bench as bytes: what a run was lent, as the run has left it, and where the run stands.
ghost use Rattle.state.specs.Parts.{There, Few};

use buffer::Page;
use definitions::{Nodes, Version};
use frames::frame::Frame;
use frames::owner::Owner;
use nodes::Results;
use run::Standing;
use snapshot::{bytes, frame, node, thread};

// In version 1 no frames are lent.
#[derive(Clone, Copy)]
pub struct Bench<'a> {
    pub nodes: &'a Nodes,
    pub depths: &'a [u16],
    pub results: &'a [Option<u64>],
    pub lent: &'a [Frame],
    pub standing: Standing,
    pub version: Version,
    ghost few: { Few standing },
    ghost there: { There version lent.now },
}

impl<'a> Bench<'a> {
    ghost use Rattle.std.specs.Prelude.{◌≡◌, ◌<◌, [], ◌∷◌};
    ghost use Rattle.buffer.specs.Page.{page, put_all};
    ghost use Rattle.buffer.specs.Writes.{Writes};
    ghost use Rattle.nodes.specs.Stores.{stores};
    ghost use Rattle.snapshot.specs.Layout.{each, shared_bytes, thread_bytes, node_bytes};
    ghost use Rattle.state.specs.Parts.{head_bytes};
    ghost use Rattle.state.specs.Bench.{threads_in, nodes_in, bytes_in};

    // The first 16 bytes.
    fn put_head(&self, out: &mut Page)
        ensures { Writes out.old out.new (head_bytes self.now.version self.now.standing) }
    {
        let s = self.standing;
        let refusal = run::code(s.refusal);
        out.put_all(&[1, self.version]);
        bytes::put_number::<2>(out, s.done as u64);
        out.put_all(&[refusal, s.root]);
        bytes::put_number::<2>(out, s.used as u64);
        bytes::put_number::<1>(out, s.shown as u64);
        out.put(u8::from(self.version == 3));
        bytes::put_number::<1>(out, s.count as u64);
        bytes::put_zeros(out, 5);
    }

    // Thread t, 816 bytes. t is a number of the loop below: an `Owner` is made where its frames are there.
    fn put_thread(&self, t: usize, out: &mut Page)
        requires { t < 4 }
        ensures { Writes out.old out.new (thread_bytes (self.now.version ∷ []) (threads_in self.now t)) }
    {
        let notes = self.standing.threads[t];
        if self.version == 1 {
            thread::put_head(out, notes, 0);
            bytes::put_zeros(out, 784);
        } else {
            let n = self.standing.frames[t];
            let place = notes.place;
            thread::put_head(out, notes, n as u64);
            frame::put_frames(out, self.lent, Owner::new(t, n), place);
        }
    }

    // The four threads.
    fn put_threads(&self, out: &mut Page)
        ensures { Writes out.old out.new (each (λ t. thread_bytes (self.now.version ∷ []) (threads_in self.now t)) 4) }
    {
        for t in 0..4 {
            self.put_thread(t, out);
        }
    }

    // The nodes in use; `ranges` has the ranges of those that are reachable.
    fn put_nodes(&self, ranges: &Results, out: &mut Page)
        ensures { Writes out.old out.new (each (λ x. node_bytes (self.now.version ∷ []) (stores ranges.now x) (nodes_in self.now x)) self.now.standing.used) }
    {
        for x in 0..self.standing.used {
            let range = nodes::result_at(ranges, x as u8);
            node::put_node(out, self.nodes, self.depths, self.version, range, x as u8);
        }
    }

    // The stores that are shown.
    fn put_stores(&self, out: &mut Page)
        ensures { Writes out.old out.new (each (λ j. shared_bytes (stores self.now.results.now j)) self.now.standing.shown) }
    {
        for j in 0..self.standing.shown {
            bytes::put_shared(out, nodes::result_at(self.results, j as u8));
        }
    }

    // The whole. There is no heap: the ranges are kept here.
    fn put(&self, out: &mut Page)
        ensures { Writes out.old out.new (bytes_in self.now) }
    {
        let mut ranges = [None; 256];
        node::reach(self.nodes, &mut ranges, self.standing.root, u64::MAX, 63);
        self.put_head(out);
        self.put_threads(out);
        self.put_nodes(&ranges, out);
        self.put_stores(out);
    }

    // The same from the start of a buffer; gives its length.
    pub fn write(&self, out: &mut [u8]) -> usize
        ensures { page out.new result ≡ put_all (page out.old 0) (bytes_in self.now) }
    {
        let mut bytes = Page { bytes: out, at: 0 };
        self.put(&mut bytes);
        bytes.at
    }
}
