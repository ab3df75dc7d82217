//! Scripts with the colours of their frames, and the outcomes of their entries.

use doc_model::{Outcome, TreeFault};

/// A script, the colours of the first row of each of its frames, and its outcomes.
pub struct Row {
    /// Its text.
    pub script: &'static [u8],
    /// Red, green and blue, frame after frame.
    pub colours: &'static [[u8; 3]],
    /// One for each entry, in order.
    pub outcomes: &'static [Outcome],
}

const WHITE: [u8; 3] = [255, 255, 255];

const RED: [u8; 3] = [255, 0, 0];

const GREEN: [u8; 3] = [0, 255, 0];

const BLUE: [u8; 3] = [0, 0, 255];

/// Scripts on small canvases, with the colours of all columns.
pub const ROWS: [Row; 17] = [
    Row {
        script: b"canvas 1 1 336699\nexport\n",
        colours: &[[51, 102, 153]],
        outcomes: &[Outcome::Done],
    },
    Row {
        script: b"canvas 1 1\nlayer 1 0 0\nstroke 1 1\nfill 1 seq 0 0 1 1 c8c8c8ff over 255\nfill 1 seq 0 0 1 1 646464ff multiply 255\nend 1\nexport\n",
        colours: &[[78, 78, 78]],
        outcomes: &[Outcome::Done, Outcome::Done, Outcome::Done],
    },
    Row {
        script: b"canvas 3 3\nlayer 1 0 0\nstroke 1 1\ndab 1 seq 1 1 1 soft 000000ff over 255\nend 1\nexport\n",
        colours: &[WHITE, [128, 128, 128], WHITE],
        outcomes: &[Outcome::Done, Outcome::Done, Outcome::Done],
    },
    // Two dabs of a path, over one another.
    Row {
        script: b"canvas 1 1\nlayer 1 0 0\nstroke 1 1\npath 1 1 hard ff000080 over 255 1 0 0 1 0\nend 1\nexport\n",
        colours: &[[255, 63, 63]],
        outcomes: &[Outcome::Done, Outcome::Done, Outcome::Done],
    },
    // A cancelled stroke keeps what can be redone.
    Row {
        script: b"canvas 3 1\nlayer 1 0 0\nstroke 1 1\nfill 1 seq 0 0 3 1 ff0000ff over 255\nend 1\nundo\nstroke 2 1\nfill 2 con 0 0 1 1 00ff00ff over 255\nfill 2 con 1 0 1 1 00ff00ff over 255\nfill 2 con 2 0 1 1 00ff00ff over 255\ncancel 2\nredo\nexport\n",
        colours: &[RED, RED, RED],
        outcomes: &[
            Outcome::Done,
            Outcome::Done,
            Outcome::Done,
            Outcome::Cancelled,
            Outcome::Done,
            Outcome::Done,
        ],
    },
    // An overlap is told also of a cancelled stroke.
    Row {
        script: b"canvas 3 1\nlayer 1 0 0\nstroke 1 1\nfill 1 con 0 0 2 1 ff0000ff over 255\nfill 1 con 2 0 1 1 ff0000ff over 255\nfill 1 con 1 0 1 1 0000ffff over 255\ncancel 1\nexport\n",
        colours: &[WHITE, WHITE, WHITE],
        outcomes: &[
            Outcome::Done,
            Outcome::Overlap {
                first: 1,
                second: 3,
            },
            Outcome::Done,
        ],
    },
    Row {
        script: b"canvas 1 1\nundo\nexport\n",
        colours: &[WHITE],
        outcomes: &[Outcome::NothingToUndo, Outcome::Done],
    },
    Row {
        script: b"canvas 1 1\nlayer 1 0 0\nstroke 1 1\nfill 1 seq 0 0 1 1 ff0000ff over 255\nend 1\nexport\nundo\nexport\nredo\nexport\n",
        colours: &[RED, WHITE, RED],
        outcomes: &[Outcome::Done; 7],
    },
    Row {
        script: b"canvas 1 1\ngroup 1 0 0\nlayer 2 1 0\nlook 1 77 over on\nstroke 1 2\nfill 1 seq 0 0 1 1 000000ff over 255\nend 1\nremove 1\nexport\nundo\nexport\n",
        colours: &[WHITE, [178, 178, 178]],
        outcomes: &[Outcome::Done; 8],
    },
    // Both rectangles of a move, on a layer with a default pixel.
    Row {
        script: b"canvas 2 1\nlayer 1 0 0 00ff00ff\nstroke 1 1\nfill 1 seq 0 0 1 1 ff0000ff over 255\nmove 1 seq 0 0 1 1 1 0\nend 1\nexport\nundo\nexport\n",
        colours: &[GREEN, RED, GREEN, GREEN],
        outcomes: &[Outcome::Done; 5],
    },
    Row {
        script: b"canvas 2 1\nlayer 1 0 0\nstroke 1 1 exclusive\nfill 1 con 0 0 1 1 ff0000ff over 255\nfill 1 bar 1 0 1 1 0000ffff over 255\nend 1\nexport\n",
        colours: &[RED, BLUE],
        outcomes: &[Outcome::Done; 3],
    },
    Row {
        script: b"canvas 3 1\nlayer 1 0 0\nstroke 1 1\nfill 1 seq 1 0 1 1 ff0000ff over 255\nblur 1 seq 0 0 3 1 1\nend 1\nexport\n",
        colours: &[[255, 227, 227], [255, 227, 227], [255, 227, 227]],
        outcomes: &[Outcome::Done; 3],
    },
    Row {
        script: b"canvas 1 1\nlayer 1 0 0\nstroke 1 1\nfill 1 seq 0 0 1 1 ff0000ff over 255\nend 1\nremove 1\nlayer 1 0 0\nstroke 2 1\nfill 2 seq 0 0 1 1 0000ffff over 255\nend 2\npurge 2\nundo\nundo\nundo\nexport\nredo\nredo\nredo\nexport\n",
        colours: &[WHITE, BLUE],
        outcomes: &[
            Outcome::Done,
            Outcome::Done,
            Outcome::Done,
            Outcome::Done,
            Outcome::Done,
            Outcome::Done,
            Outcome::Done,
            Outcome::Done,
            Outcome::NothingToUndo,
            Outcome::Done,
            Outcome::Done,
            Outcome::Done,
            Outcome::NothingToRedo,
            Outcome::Done,
        ],
    },
    // A move from all rows of a tile but the last.
    Row {
        script: b"canvas 1 64\nlayer 1 0 0 00ff00ff\nstroke 1 1\nfill 1 seq 0 0 64 63 ff0000ff over 255\nmove 1 seq 0 0 64 63 64 0\nend 1\nexport\n",
        colours: &[GREEN],
        outcomes: &[Outcome::Done; 3],
    },
    // What is painted in the second row of tiles alone.
    Row {
        script: b"canvas 1 65\nlayer 1 0 0\nexport\nstroke 1 1\nfill 1 seq 0 64 1 1 ff0000ff over 255\nend 1\nexport\n",
        colours: &[WHITE, WHITE],
        outcomes: &[Outcome::Done; 4],
    },
    Row {
        script: b"canvas 1 1\nlayer 1 0 0\nundo\nlayer 2 0 0\nredo\n",
        colours: &[],
        outcomes: &[
            Outcome::Done,
            Outcome::Done,
            Outcome::Done,
            Outcome::NothingToRedo,
        ],
    },
    Row {
        script: b"canvas 1 1\ngroup 1 0 0\nlayer 2 1 0\nlayer 2 0 0\nlayer 3 9 0\nlayer 3 2 0\nlayer 3 0 2\nplace 1 1 0\nremove 7\nstroke 1 1\nend 1\nstroke 2 8\nend 2\n",
        colours: &[],
        outcomes: &[
            Outcome::Done,
            Outcome::Done,
            Outcome::Tree(TreeFault::Taken(2)),
            Outcome::Tree(TreeFault::NoNode(9)),
            Outcome::Tree(TreeFault::NotGroup(2)),
            Outcome::Tree(TreeFault::BadPlace(2)),
            Outcome::Tree(TreeFault::IntoItself(1)),
            Outcome::Tree(TreeFault::NoNode(7)),
            Outcome::NotPaint(1),
            Outcome::NoLayer(8),
        ],
    },
];

/// Scripts on a canvas of 129 columns, with the colours of columns 0, 64 and 128, which stand in three tiles.
pub const WIDE: [Row; 9] = [
    // A small stroke, and undone and redone.
    Row {
        script: b"canvas 129 1\nlayer 1 0 0\nexport\nstroke 1 1\nfill 1 seq 64 0 1 1 ff0000ff over 255\nend 1\nexport\nundo\nexport\nredo\nexport\n",
        colours: &[
            WHITE, WHITE, WHITE, WHITE, RED, WHITE, WHITE, WHITE, WHITE, WHITE, RED, WHITE,
        ],
        outcomes: &[Outcome::Done; 8],
    },
    // Both rectangles of a move, in two tiles.
    Row {
        script: b"canvas 129 1\nlayer 1 0 0\nstroke 1 1\nfill 1 seq 0 0 1 1 ff0000ff over 255\nend 1\nexport\nstroke 2 1\nmove 2 seq 0 0 1 1 128 0\nend 2\nexport\nundo\nexport\n",
        colours: &[RED, WHITE, WHITE, WHITE, WHITE, RED, RED, WHITE, WHITE],
        outcomes: &[Outcome::Done; 7],
    },
    // A move by one tile over many others, once with few tiles and once with many.
    Row {
        script: b"canvas 129 1\nlayer 1 0 0\nstroke 1 1\nfill 1 seq 0 0 64 1 ff0000ff over 255\nfill 1 seq 64 0 64 1 00ff00ff over 255\nend 1\nstroke 2 1\nmove 2 seq 0 0 129 1 64 0\nend 2\nexport\nundo\nexport\nstroke 3 1\nmove 3 seq 0 0 1088 1 64 0\nend 3\nexport\n",
        colours: &[WHITE, RED, GREEN, RED, GREEN, WHITE, WHITE, RED, GREEN],
        outcomes: &[Outcome::Done; 8],
    },
    // A refused change and a cancelled stroke leave all as it is.
    Row {
        script: b"canvas 129 1\nlayer 1 0 0\nstroke 1 1\nfill 1 seq 0 0 129 1 0000ffff over 255\nend 1\nexport\nremove 7\nstroke 2 1\nfill 2 seq 64 0 1 1 ff0000ff over 255\ncancel 2\nexport\nstroke 3 1\nfill 3 seq 128 0 1 1 00ff00ff over 255\nend 3\nexport\n",
        colours: &[BLUE, BLUE, BLUE, BLUE, BLUE, BLUE, BLUE, BLUE, GREEN],
        outcomes: &[
            Outcome::Done,
            Outcome::Done,
            Outcome::Done,
            Outcome::Tree(TreeFault::NoNode(7)),
            Outcome::Cancelled,
            Outcome::Done,
            Outcome::Done,
            Outcome::Done,
        ],
    },
    // A change of the tree, two undos before one export, and a purge between.
    Row {
        script: b"canvas 129 1\nlayer 1 0 0\nstroke 1 1\nfill 1 seq 0 0 129 1 ff0000ff over 255\nend 1\nlook 1 255 over off\nexport\nundo\nundo\npurge 1\nexport\nredo\nexport\n",
        colours: &[WHITE, WHITE, WHITE, WHITE, WHITE, WHITE, RED, RED, RED],
        outcomes: &[Outcome::Done; 10],
    },
    // A fill over two tiles of one colour each.
    Row {
        script: b"canvas 129 1\nlayer 1 0 0\nstroke 1 1\nfill 1 seq 0 0 64 64 ff0000ff over 255\nfill 1 seq 64 0 64 64 0000ffff over 255\nfill 1 seq 0 0 128 64 ffffff80 over 255\nend 1\nexport\n",
        colours: &[[255, 128, 128], [128, 128, 255], WHITE],
        outcomes: &[Outcome::Done; 3],
    },
    // Runs of jobs in one tile, with a dab over two tiles between.
    Row {
        script: b"canvas 129 1\nlayer 1 0 0\nstroke 1 1\nfill 1 seq 0 0 1 1 ff0000ff over 255\nfill 1 con 1 0 1 1 00ff00ff over 255\nfill 1 seq 0 0 1 1 0000ff80 over 255\nfill 1 seq 64 0 1 1 00ff00ff over 255\ndab 1 seq 64 0 1 hard 0000ffff over 255\nfill 1 seq 64 0 1 1 ff000080 over 255\nfill 1 seq 128 0 1 1 ff0000ff over 255\nfill 1 seq 128 0 64 64 00ff00ff over 255\nend 1\nexport\n",
        colours: &[[127, 0, 128], [128, 0, 127], GREEN],
        outcomes: &[Outcome::Done; 3],
    },
    // The same jobs, each in a stroke of its own.
    Row {
        script: b"canvas 129 1\nlayer 1 0 0\nstroke 1 1\nfill 1 seq 0 0 1 1 ff0000ff over 255\nend 1\nstroke 2 1\nfill 2 con 1 0 1 1 00ff00ff over 255\nend 2\nstroke 3 1\nfill 3 seq 0 0 1 1 0000ff80 over 255\nend 3\nstroke 4 1\nfill 4 seq 64 0 1 1 00ff00ff over 255\nend 4\nstroke 5 1\ndab 5 seq 64 0 1 hard 0000ffff over 255\nend 5\nstroke 6 1\nfill 6 seq 64 0 1 1 ff000080 over 255\nend 6\nstroke 7 1\nfill 7 seq 128 0 1 1 ff0000ff over 255\nend 7\nstroke 8 1\nfill 8 seq 128 0 64 64 00ff00ff over 255\nend 8\nexport\n",
        colours: &[[127, 0, 128], [128, 0, 127], GREEN],
        outcomes: &[Outcome::Done; 10],
    },
    // Two dabs from above. The first one's square meets the second tile, and its circle doesn't. The
    // rim of the second one's meets the third tile in one point.
    Row {
        script: b"canvas 129 1\nlayer 1 0 0 00ff00ff\nstroke 1 1\ndab 1 seq 60 -4 5 hard ff0000ff over 255\ndab 1 seq 125 -4 5 hard 0000ffff over 255\nend 1\nexport\nundo\nexport\n",
        colours: &[GREEN, GREEN, BLUE, GREEN, GREEN, GREEN],
        outcomes: &[Outcome::Done; 5],
    },
];
