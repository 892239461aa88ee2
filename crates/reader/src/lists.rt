// What has been read of a text, and the lists into which it goes.
ghost use Rattle.std.specs.Prelude.{◌≡◌};
ghost use Rattle.reader.specs.State.{nothing_yet, Within, arcs_there, all_there};

// How many junctions and arcs the `p` line told.
#[derive(Clone, Copy, PartialEq, Eq)]
pub struct Sizes {
    pub junctions: usize,
    pub arcs: usize,
}

// What has been read: what the `p` line told, once it was read, and how many arcs, order entries and questions came since.
#[derive(Clone, Copy, PartialEq, Eq)]
pub struct State {
    pub sizes: Option<Sizes>,
    pub listed: usize,
    pub seated: usize,
    pub asked: usize,
}

impl State {
    // Nothing has been read.
    pub fn new() -> Self
        ensures { result ≡ nothing_yet }
    {
        Self {
            sizes: None,
            listed: 0,
            seated: 0,
            asked: 0,
        }
    }

    // What the `p` line told, once all arcs have been read.
    pub(crate) fn with_arcs(self) -> Option<Sizes>
        ensures { result ≡ arcs_there self }
    {
        self.sizes.filter(|sizes| self.listed == sizes.arcs)
    }

    // What the `p` line told, once all arcs and the whole order have been read.
    pub(crate) fn with_order(self) -> Option<Sizes>
        ensures { result ≡ all_there self }
    {
        self.with_arcs()
            .filter(|sizes| self.seated == sizes.junctions)
    }
}

// A text's lists, and what has been read into them. Fixed lists: there is no heap; `state` tells how much of each is filled.
#[derive(Drop)]
pub struct Lists {
    pub state: State,
    pub tails: [u32; 1024],
    pub heads: [u32; 1024],
    pub costs: [u32; 1024],
    pub order: [u32; 256],
    pub froms: [u32; 64],
    pub tos: [u32; 64],
    ghost within: { Within state },
}

impl Lists {
    // Empty lists, into which nothing has been read.
    pub fn new() -> Self
        ensures { result.state ≡ nothing_yet }
    {
        Self {
            state: State::new(),
            tails: [0; 1024],
            heads: [0; 1024],
            costs: [0; 1024],
            order: [0; 256],
            froms: [0; 64],
            tos: [0; 64],
        }
    }
}
