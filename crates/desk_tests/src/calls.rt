//! The desk's calls, one after another.

use crate::plays::Call::{
    self, Beside, End, Feed, Frame, Group, Late, Look, OnGreen, Publish, Settle, Stray, Take, Whole,
};
use crate::plays::{Play, first_odd};
use crate::tickets::Took::{Did, Idle, Paint, Settled, Walk};
use desk_core::Ended::{self, Done};
use desk_core::Fresh::{Clean, Dirty};
use desk_core::Published::{Nothing, Stored};
use desk_core::SlotId;
use std::test::Fail;

/// A fill of half its alpha.
const FILL: &[u8] =
    b"canvas 1 1\nlayer 1 0 0\nstroke 1 1\nfill 1 seq 0 0 1 1 ff000080 over 255\nend 1\nexport\n";

/// Two fills side by side in one tile.
const HALVES: &[u8] =
    b"canvas 64 1\nlayer 1 0 0\nstroke 1 1\nfill 1 con 0 0 32 1 ff0000ff over 255\nfill 1 con 32 0 32 1 0000ffff over 255\nend 1\nexport\n";

/// Three fills side by side, of a stroke that is cancelled.
const CANCELLED: &[u8] =
    b"canvas 3 1\nlayer 1 0 0\nstroke 1 1\nfill 1 con 0 0 1 1 ff0000ff over 255\nfill 1 con 1 0 1 1 ff0000ff over 255\nfill 1 con 2 0 1 1 ff0000ff over 255\ncancel 1\nexport\n";

/// A fill, by which a walk from before it is out of date.
const RED: &[u8] =
    b"canvas 1 1\nlayer 1 0 0\nstroke 1 1\nfill 1 seq 0 0 1 1 ff0000ff over 255\nend 1\nexport\n";

/// Two fills, one over the other.
const TWICE: &[u8] =
    b"canvas 1 1\nlayer 1 0 0\nstroke 1 1\nfill 1 seq 0 0 1 1 0000ffff over 255\nfill 1 seq 0 0 1 1 ff000080 over 255\nend 1\nexport\n";

/// The second job is taken. It has the same slot on any desk.
const FIRST_JOB: &[Call] = &[
    Feed(5),
    Take(Did),
    Take(Did),
    Take(Paint),
    Publish(0, 0, Stored),
    End(0, Done),
    Take(Paint),
];

/// The same, and what was painted by the ticket 1, of another desk, is not taken.
const REFUSED_JOB: &[Call] = &[
    Feed(5),
    Take(Did),
    Take(Did),
    Take(Paint),
    Publish(2, 2, Stored),
    End(2, Done),
    Take(Paint),
    End(1, Ended::Nothing),
    Publish(1, 1, Nothing),
    Settle,
    Frame(0, 0, [128, 0, 127]),
];

/// The same, and it is taken.
const STORED_JOB: &[Call] = &[
    Feed(5),
    Take(Did),
    Take(Did),
    Take(Paint),
    Publish(2, 2, Stored),
    End(2, Done),
    Take(Paint),
    End(1, Ended::Nothing),
    Publish(1, 1, Stored),
    Settle,
    Frame(0, 0, [128, 0, 127]),
];

/// The first walk is taken.
const FIRST_WALK: &[Call] = &[Feed(1), Take(Did), Take(Walk)];

/// The same, and what was composed by the ticket 0, of another desk, is not taken.
const REFUSED_WALK: &[Call] = &[
    Feed(1),
    Take(Did),
    Take(Walk),
    End(0, Ended::Nothing),
    Publish(0, 0, Nothing),
    Whole(0, 0, Nothing),
    Settle,
    Frame(0, 0, [128, 0, 127]),
];

/// The same, and it is taken.
const STORED_WALK: &[Call] = &[
    Feed(1),
    Take(Did),
    Take(Walk),
    End(0, Ended::Nothing),
    Whole(0, 0, Stored),
    End(0, Ended::Nothing),
    Settle,
    Frame(0, 0, [128, 0, 127]),
];

/// The ticket 0 is of a job that writes two tiles.
const WIDE_JOB: Play = Play {
    script: b"canvas 65 1\nlayer 1 0 0\nstroke 1 1\nfill 1 seq 0 0 65 1 ff0000ff over 255\nend 1\n",
    slots: 1,
    calls: &[Feed(4), Take(Did), Take(Did), Take(Paint)],
};

/// What is shown, and the calls of a desk, or of two, one after the other.
const ROWS: [(&str, &[Play]); 38] = [
    (
        "a new desk is settled, and exports its paper",
        &[Play {
            script: b"canvas 1 1\nexport\n",
            slots: 1,
            calls: &[
                Take(Settled),
                Feed(1),
                Take(Did),
                Take(Settled),
                Look(0, [0; 4], Clean),
                Frame(0, 0, [255; 3]),
            ],
        }],
    ),
    (
        "two jobs of one tile, published in their order",
        &[Play {
            script: HALVES,
            slots: 3,
            calls: &[
                Feed(5),
                Take(Did),
                Take(Did),
                Take(Paint),
                Take(Paint),
                Publish(0, 0, Stored),
                Publish(0, 0, Nothing),
                Publish(1, 1, Stored),
                Publish(1, 1, Nothing),
                End(0, Done),
                End(0, Ended::Nothing),
                End(1, Done),
                Settle,
                Frame(0, 31, [255, 0, 0]),
                Frame(0, 32, [0, 0, 255]),
                Look(0, [255, 0, 0, 255], Clean),
            ],
        }],
    ),
    (
        "the same the other way round",
        &[Play {
            script: HALVES,
            slots: 3,
            calls: &[
                Feed(5),
                Take(Did),
                Take(Did),
                Take(Paint),
                Take(Paint),
                Publish(1, 1, Stored),
                Publish(0, 0, Stored),
                End(1, Done),
                End(0, Done),
                Settle,
                Frame(0, 31, [255, 0, 0]),
                Frame(0, 32, [0, 0, 255]),
                Look(0, [255, 0, 0, 255], Clean),
            ],
        }],
    ),
    (
        "a job ends once its tiles are published",
        &[Play {
            script: FILL,
            slots: 1,
            calls: &[
                Feed(4),
                Take(Did),
                Take(Did),
                Take(Paint),
                End(0, Ended::Nothing),
                Publish(0, 0, Stored),
                Look(0, [0; 4], Dirty),
                End(0, Done),
                Settle,
                Look(0, [255, 0, 0, 128], Clean),
            ],
        }],
    ),
    (
        "what was painted from other pixels is not taken",
        &[Play {
            script: FILL,
            slots: 3,
            calls: &[
                Feed(4),
                Take(Did),
                Take(Did),
                Take(Paint),
                OnGreen(0, Nothing),
                Settle,
                Look(0, [255, 0, 0, 128], Clean),
            ],
        }],
    ),
    (
        "a stroke that is open waits for jobs",
        &[Play {
            script: FILL,
            slots: 1,
            calls: &[
                Feed(2),
                Take(Did),
                Take(Did),
                Take(Walk),
                Take(Idle),
                Publish(0, 0, Stored),
                End(0, Done),
                Take(Idle),
                Feed(1),
                Take(Paint),
            ],
        }],
    ),
    (
        "a ticket is thrown away",
        &[Play {
            script: FILL,
            slots: 1,
            calls: &[
                Feed(5),
                Take(Did),
                Take(Did),
                Take(Paint),
                Settle,
                Take(Settled),
                Frame(0, 0, [255, 127, 127]),
            ],
        }],
    ),
    (
        "a walk",
        &[Play {
            script: FILL,
            slots: 1,
            calls: &[
                Feed(1),
                Take(Did),
                Take(Walk),
                End(0, Ended::Nothing),
                Publish(0, 0, Stored),
                Publish(0, 0, Nothing),
                Group(0, 9, Nothing),
                End(0, Done),
                End(0, Ended::Nothing),
                Take(Settled),
            ],
        }],
    ),
    (
        "a walk that comes whole, some of which is published",
        &[Play {
            script: FILL,
            slots: 1,
            calls: &[
                Feed(1),
                Take(Did),
                Take(Walk),
                Publish(0, 0, Stored),
                Whole(0, 0, Stored),
                Look(0, [0; 4], Clean),
                Whole(0, 0, Nothing),
                End(0, Ended::Nothing),
                Take(Settled),
            ],
        }],
    ),
    (
        "no work has a place that isn't there, or a serial that was never drawn",
        &[Play {
            script: FILL,
            slots: 2,
            calls: &[
                Feed(1),
                Take(Did),
                Take(Walk),
                Feed(2),
                Take(Did),
                Take(Paint),
                Stray(
                    0,
                    SlotId {
                        place: 0,
                        serial: 99,
                    },
                ),
                Stray(
                    1,
                    SlotId {
                        place: 1,
                        serial: 99,
                    },
                ),
                Stray(
                    1,
                    SlotId {
                        place: 17,
                        serial: 1,
                    },
                ),
                Stray(
                    0,
                    SlotId {
                        place: 255,
                        serial: 0,
                    },
                ),
                Settle,
                Frame(0, 0, [255, 127, 127]),
            ],
        }],
    ),
    (
        "a job is in the one slot: another place, a serial that isn't drawn or has ended, another tile",
        &[
            WIDE_JOB,
            Play {
                script: TWICE,
                slots: 1,
                calls: &[
                    Feed(1),
                    Take(Did),
                    Take(Walk),
                    Publish(1, 1, Stored),
                    End(1, Done),
                    Feed(2),
                    Take(Did),
                    Take(Paint),
                    Stray(
                        2,
                        SlotId {
                            place: 17,
                            serial: 1,
                        },
                    ),
                    Stray(
                        2,
                        SlotId {
                            place: 0,
                            serial: 2,
                        },
                    ),
                    Late(2, 1),
                    Late(1, 1),
                    Late(1, 2),
                    Beside(0, 2),
                    Publish(2, 2, Stored),
                    End(2, Done),
                    Settle,
                    Frame(0, 0, [128, 0, 127]),
                ],
            },
        ],
    ),
    (
        "a walk is in the one slot: the same, and a group that isn't on its path",
        &[
            WIDE_JOB,
            Play {
                script: b"canvas 1 1\nlayer 1 0 0\nlook 1 9 over on\nexport\n",
                slots: 1,
                calls: &[
                    Feed(1),
                    Take(Did),
                    Take(Walk),
                    Publish(1, 1, Stored),
                    End(1, Done),
                    Feed(1),
                    Take(Did),
                    Take(Walk),
                    Stray(
                        2,
                        SlotId {
                            place: 17,
                            serial: 1,
                        },
                    ),
                    Stray(
                        2,
                        SlotId {
                            place: 0,
                            serial: 2,
                        },
                    ),
                    Late(2, 1),
                    Late(1, 1),
                    Late(0, 2),
                    Beside(2, 2),
                    Group(2, 1, Nothing),
                    Whole(2, 2, Stored),
                    Settle,
                    Frame(0, 0, [255; 3]),
                ],
            },
        ],
    ),
    (
        "a stroke is cancelled after two of its jobs",
        &[Play {
            script: CANCELLED,
            slots: 3,
            calls: &[
                Feed(5),
                Take(Did),
                Take(Did),
                Take(Paint),
                Take(Paint),
                Publish(0, 0, Stored),
                End(0, Done),
                Publish(1, 1, Stored),
                End(1, Done),
                Feed(1),
                Take(Did),
                Publish(0, 0, Nothing),
                Settle,
                Frame(0, 0, [255; 3]),
                Frame(0, 1, [255; 3]),
                Frame(0, 2, [255; 3]),
            ],
        }],
    ),
    (
        "a stroke is cancelled while jobs are at work",
        &[Play {
            script: CANCELLED,
            slots: 3,
            calls: &[
                Feed(5),
                Take(Did),
                Take(Did),
                Take(Paint),
                Take(Paint),
                Take(Paint),
                Publish(0, 0, Stored),
                End(0, Done),
                Publish(1, 1, Stored),
                Feed(1),
                Publish(2, 2, Stored),
                End(1, Done),
                Settle,
                Frame(0, 0, [255; 3]),
                Frame(0, 1, [255; 3]),
                Frame(0, 2, [255; 3]),
                Look(0, [0; 4], Clean),
            ],
        }],
    ),
    (
        "a walk has read the layer from before a job, which ends first",
        &[Play {
            script: RED,
            slots: 3,
            calls: &[
                Feed(2),
                Take(Did),
                Take(Did),
                Take(Walk),
                Feed(1),
                Take(Paint),
                Look(0, [0; 4], Dirty),
                Publish(1, 1, Stored),
                End(1, Done),
                Take(Idle),
                Publish(0, 0, Stored),
                End(0, Done),
                Look(0, [0; 4], Dirty),
                Take(Walk),
                Look(0, [0; 4], Dirty),
                Publish(2, 2, Stored),
                End(2, Done),
                Look(0, [255, 0, 0, 255], Clean),
                Settle,
                Frame(0, 0, [255, 0, 0]),
            ],
        }],
    ),
    (
        "the same, and the walk ends first",
        &[Play {
            script: RED,
            slots: 3,
            calls: &[
                Feed(2),
                Take(Did),
                Take(Did),
                Take(Walk),
                Feed(1),
                Take(Paint),
                Publish(0, 0, Stored),
                End(0, Done),
                Look(0, [0; 4], Dirty),
                Publish(1, 1, Stored),
                End(1, Done),
                Look(0, [0; 4], Dirty),
                Take(Walk),
                Look(0, [0; 4], Dirty),
                Publish(2, 2, Stored),
                End(2, Done),
                Look(0, [255, 0, 0, 255], Clean),
                Settle,
                Frame(0, 0, [255, 0, 0]),
            ],
        }],
    ),
    (
        "an exclusive stroke begins beside no walk, and no walk starts beside it",
        &[Play {
            script: b"canvas 1 1\nlayer 1 0 0\nlayer 2 0 0\nstroke 1 1 exclusive\nend 1\nexport\n",
            slots: 3,
            calls: &[
                Feed(1),
                Take(Did),
                Take(Walk),
                Feed(2),
                Take(Idle),
                Publish(0, 0, Stored),
                End(0, Done),
                Take(Did),
                Take(Did),
                Look(0, [0; 4], Dirty),
                Take(Idle),
                Settle,
                Look(0, [0; 4], Clean),
            ],
        }],
    ),
    (
        "work that has ended",
        &[Play {
            script: TWICE,
            slots: 1,
            calls: &[
                Feed(1),
                Take(Did),
                Take(Walk),
                Publish(0, 0, Stored),
                End(0, Done),
                Feed(2),
                Take(Did),
                Take(Paint),
                Publish(1, 1, Stored),
                End(1, Done),
                Publish(0, 0, Nothing),
                Publish(1, 1, Nothing),
                End(0, Ended::Nothing),
                End(1, Ended::Nothing),
                Feed(1),
                Take(Paint),
                Publish(0, 0, Nothing),
                Publish(1, 1, Nothing),
                End(0, Ended::Nothing),
                End(1, Ended::Nothing),
                Settle,
                Frame(0, 0, [128, 0, 127]),
            ],
        }],
    ),
    (
        "tickets that were kept too long",
        &[Play {
            script: TWICE,
            slots: 2,
            calls: &[
                Feed(1),
                Take(Did),
                Take(Walk),
                Feed(2),
                Take(Did),
                Take(Paint),
                Settle,
                Publish(0, 0, Nothing),
                Publish(1, 1, Nothing),
                End(0, Ended::Nothing),
                End(1, Ended::Nothing),
                Take(Settled),
                Frame(0, 0, [128, 0, 127]),
            ],
        }],
    ),
    (
        "a job's ticket serves no walk, and a walk's no job",
        &[Play {
            script: TWICE,
            slots: 2,
            calls: &[
                Feed(1),
                Take(Did),
                Take(Walk),
                Feed(2),
                Take(Did),
                Take(Paint),
                Publish(1, 0, Nothing),
                Publish(0, 1, Nothing),
                Whole(0, 1, Nothing),
                Settle,
                Frame(0, 0, [128, 0, 127]),
            ],
        }],
    ),
    (
        "another job",
        &[
            Play {
                script: b"canvas 1 1\nlayer 1 0 0\nstroke 1 1\nfill 1 seq 0 0 1 1 0000ffff over 255\nfill 1 seq 0 0 1 1 ff000081 over 255\nend 1\nexport\n",
                slots: 1,
                calls: FIRST_JOB,
            },
            Play {
                script: TWICE,
                slots: 1,
                calls: REFUSED_JOB,
            },
        ],
    ),
    (
        "the same job over another pixel",
        &[
            Play {
                script: b"canvas 1 1\nlayer 1 0 0\nstroke 1 1\nfill 1 seq 0 0 1 1 0000fffe over 255\nfill 1 seq 0 0 1 1 ff000080 over 255\nend 1\nexport\n",
                slots: 1,
                calls: FIRST_JOB,
            },
            Play {
                script: TWICE,
                slots: 1,
                calls: REFUSED_JOB,
            },
        ],
    ),
    (
        "the same job over the same pixel, on a layer with a default pixel of its own",
        &[
            Play {
                script: b"canvas 1 1\nlayer 1 0 0 00ff00ff\nstroke 1 1\nfill 1 seq 0 0 1 1 0000ffff over 255\nfill 1 seq 0 0 1 1 ff000080 over 255\nend 1\nexport\n",
                slots: 1,
                calls: FIRST_JOB,
            },
            Play {
                script: TWICE,
                slots: 1,
                calls: REFUSED_JOB,
            },
        ],
    ),
    (
        "the same job over the same pixels",
        &[
            Play {
                script: b"canvas 9 9\nlayer 7 0 0\nstroke 8 7\nfill 8 seq 0 0 1 1 0000ffff over 255\nfill 8 seq 0 0 1 1 ff000080 over 255\nend 8\nexport\n",
                slots: 1,
                calls: FIRST_JOB,
            },
            Play {
                script: TWICE,
                slots: 1,
                calls: STORED_JOB,
            },
        ],
    ),
    (
        "the same job over the same pixel, beside other pixels, which it doesn't read",
        &[
            Play {
                script: b"canvas 9 9\nlayer 7 0 0\nstroke 8 7\nfill 8 seq 0 0 9 9 0000ffff over 255\nfill 8 seq 0 0 1 1 ff000080 over 255\nend 8\nexport\n",
                slots: 1,
                calls: FIRST_JOB,
            },
            Play {
                script: TWICE,
                slots: 1,
                calls: STORED_JOB,
            },
        ],
    ),
    (
        "a walk of another layer's pixels",
        &[
            Play {
                script: b"canvas 1 1\nlayer 1 0 0 00ff00ff\n",
                slots: 1,
                calls: FIRST_WALK,
            },
            Play {
                script: TWICE,
                slots: 1,
                calls: REFUSED_WALK,
            },
        ],
    ),
    (
        "a walk of a layer of another number",
        &[
            Play {
                script: b"canvas 1 1\nlayer 2 0 0\n",
                slots: 1,
                calls: FIRST_WALK,
            },
            Play {
                script: TWICE,
                slots: 1,
                calls: REFUSED_WALK,
            },
        ],
    ),
    (
        "a walk of another patch",
        &[
            Play {
                script: b"canvas 2 1\nlayer 1 0 0\n",
                slots: 1,
                calls: FIRST_WALK,
            },
            Play {
                script: TWICE,
                slots: 1,
                calls: REFUSED_WALK,
            },
        ],
    ),
    (
        "a walk of the same",
        &[
            Play {
                script: b"canvas 1 1\nlayer 1 0 0\n",
                slots: 1,
                calls: FIRST_WALK,
            },
            Play {
                script: TWICE,
                slots: 1,
                calls: STORED_WALK,
            },
        ],
    ),
    (
        "above four layers: what lies round what was painted, reaches over its end, and lies in it",
        &[Play {
            script: b"canvas 12 1\nlayer 1 0 0 0000ffff\nlayer 2 0 1 ff000040\nlayer 3 0 2 00ff0040\nlayer 4 0 3 ff000040\nlayer 5 0 4\nstroke 1 5\nfill 1 seq 4 0 2 1 ff000080 over 255\nfill 1 seq 2 0 6 1 00ff0080 over 255\nfill 1 seq 6 0 4 1 ff000080 over 255\nfill 1 seq 3 0 6 1 0000ffff over 255\nend 1\n",
            slots: 1,
            calls: &[
                Feed(5),
                Take(Did),
                Take(Did),
                Take(Did),
                Take(Did),
                Take(Did),
                Take(Walk),
                Whole(0, 0, Stored),
                Feed(1),
                Take(Did),
                Feed(1),
                Take(Paint),
                Publish(1, 1, Stored),
                End(1, Done),
                Take(Walk),
                Whole(2, 2, Stored),
                Look(4, [178, 24, 53, 255], Clean),
                Feed(1),
                Take(Paint),
                Publish(3, 3, Stored),
                End(3, Done),
                Take(Walk),
                Whole(4, 4, Stored),
                Look(2, [50, 152, 53, 255], Clean),
                Feed(1),
                Take(Paint),
                Publish(5, 5, Stored),
                End(5, Done),
                Take(Walk),
                Whole(6, 6, Stored),
                Look(9, [178, 24, 53, 255], Clean),
                Feed(1),
                Take(Paint),
                Publish(7, 7, Stored),
                End(7, Done),
                Take(Walk),
                Whole(8, 8, Stored),
                Look(4, [0, 0, 255, 255], Clean),
                Look(9, [178, 24, 53, 255], Clean),
            ],
        }],
    ),
    (
        "above four layers: what lies between two points that were painted",
        &[Play {
            script: b"canvas 5 1\nlayer 1 0 0 0000ffff\nlayer 2 0 1 ff000040\nlayer 3 0 2 00ff0040\nlayer 4 0 3 ff000040\nlayer 5 0 4\nstroke 1 5\nfill 1 seq 0 0 1 1 ff000080 over 255\nfill 1 seq 4 0 1 1 ff000080 over 255\nfill 1 seq 2 0 1 1 00ff0080 over 255\nend 1\n",
            slots: 1,
            calls: &[
                Feed(5),
                Take(Did),
                Take(Did),
                Take(Did),
                Take(Did),
                Take(Did),
                Take(Walk),
                Whole(0, 0, Stored),
                Feed(1),
                Take(Did),
                Feed(1),
                Take(Paint),
                Publish(1, 1, Stored),
                End(1, Done),
                Take(Walk),
                Whole(2, 2, Stored),
                Feed(1),
                Take(Paint),
                Publish(3, 3, Stored),
                End(3, Done),
                Take(Walk),
                Whole(4, 4, Stored),
                Look(4, [178, 24, 53, 255], Clean),
                Feed(1),
                Take(Paint),
                Publish(5, 5, Stored),
                End(5, Done),
                Take(Walk),
                Whole(6, 6, Stored),
                Look(2, [50, 152, 53, 255], Clean),
            ],
        }],
    ),
    (
        "above four layers of a group, whose root has others",
        &[Play {
            script: b"canvas 1 1\nlayer 1 0 0 0000ffff\ngroup 2 0 1\nlayer 3 2 0 ff0000ff\nlayer 4 2 1 00ff0040\nlayer 5 2 2 ff000040\nlayer 6 2 3 00ff0040\nlayer 7 2 4\nlook 2 128 over on\nstroke 1 7\nfill 1 seq 0 0 1 1 ffffff80 over 255\nfill 1 seq 0 0 1 1 000000ff over 255\nend 1\n",
            slots: 1,
            calls: &[
                Feed(8),
                Take(Did),
                Take(Did),
                Take(Did),
                Take(Did),
                Take(Did),
                Take(Did),
                Take(Did),
                Take(Did),
                Take(Walk),
                Whole(0, 0, Stored),
                Feed(1),
                Take(Did),
                Feed(1),
                Take(Paint),
                Publish(1, 1, Stored),
                End(1, Done),
                Take(Walk),
                Whole(2, 2, Stored),
                Look(0, [103, 89, 191, 255], Clean),
                Feed(1),
                Take(Paint),
                Publish(3, 3, Stored),
                End(3, Done),
                Take(Walk),
                Whole(4, 4, Stored),
                Look(0, [0, 0, 127, 255], Clean),
            ],
        }],
    ),
    (
        "above four layers, of which one is painted then",
        &[Play {
            script: b"canvas 1 1\nlayer 6 0 0 0000ffff\nlayer 2 0 1 ff000040\nlayer 3 0 2 00ff0040\nlayer 4 0 3 ff000040\nlayer 5 0 4\nstroke 1 5\nfill 1 seq 0 0 1 1 ffffff80 over 255\nend 1\nstroke 2 6\nfill 2 seq 0 0 1 1 00ff00ff over 255\nend 2\n",
            slots: 1,
            calls: &[
                Feed(5),
                Take(Did),
                Take(Did),
                Take(Did),
                Take(Did),
                Take(Did),
                Take(Walk),
                Whole(0, 0, Stored),
                Feed(1),
                Take(Did),
                Feed(1),
                Take(Paint),
                Publish(1, 1, Stored),
                End(1, Done),
                Take(Walk),
                Whole(2, 2, Stored),
                Look(0, [178, 152, 181, 255], Clean),
                Feed(2),
                Take(Did),
                Take(Did),
                Feed(1),
                Take(Paint),
                Publish(3, 3, Stored),
                End(3, Done),
                Take(Walk),
                Whole(4, 4, Stored),
                Look(0, [178, 205, 128, 255], Clean),
            ],
        }],
    ),
    (
        "above four layers, of which one loses a stroke by an undo",
        &[Play {
            script: b"canvas 1 1\nlayer 1 0 0 0000ffff\nlayer 2 0 1 ff000040\nlayer 3 0 2 00ff0040\nlayer 4 0 3 ff000040\nlayer 5 0 4\nstroke 1 1\nfill 1 seq 0 0 1 1 00ff00ff over 255\nend 1\nstroke 2 5\nfill 2 seq 0 0 1 1 ffffff80 over 255\nend 2\nundo\nundo\nstroke 3 5\nfill 3 seq 0 0 1 1 ffffff80 over 255\nend 3\n",
            slots: 1,
            calls: &[
                Feed(5),
                Take(Did),
                Take(Did),
                Take(Did),
                Take(Did),
                Take(Did),
                Take(Walk),
                Whole(0, 0, Stored),
                Feed(2),
                Take(Did),
                Take(Paint),
                Publish(1, 1, Stored),
                End(1, Done),
                Take(Walk),
                Whole(2, 2, Stored),
                Feed(3),
                Take(Did),
                Take(Did),
                Take(Paint),
                Publish(3, 3, Stored),
                End(3, Done),
                Take(Walk),
                Whole(4, 4, Stored),
                Look(0, [178, 205, 128, 255], Clean),
                Feed(5),
                Take(Did),
                Take(Did),
                Take(Did),
                Take(Did),
                Take(Paint),
                Publish(5, 5, Stored),
                End(5, Done),
                Take(Walk),
                Whole(6, 6, Stored),
                Look(0, [178, 152, 181, 255], Clean),
            ],
        }],
    ),
    (
        "above four layers, of which one was painted after a walk had read it, which ends beside another",
        &[Play {
            script: b"canvas 257 1\nlayer 1 0 0 0000ffff\nlayer 2 0 1 ff000040\nlayer 3 0 2 00ff0040\nlayer 4 0 3 ff000040\nlayer 5 0 4\nstroke 1 5\nfill 1 seq 0 0 1 1 ffffff80 over 255\nend 1\nstroke 2 4\nfill 2 seq 0 0 1 1 00ff00ff over 255\nend 2\nstroke 3 5\nfill 3 seq 256 0 1 1 ffffff80 over 255\nend 3\n",
            slots: 3,
            calls: &[
                Feed(5),
                Take(Did),
                Take(Did),
                Take(Did),
                Take(Did),
                Take(Did),
                Take(Walk),
                Take(Walk),
                Whole(0, 0, Stored),
                Whole(1, 1, Stored),
                Feed(2),
                Take(Did),
                Take(Paint),
                Whole(2, 2, Stored),
                Take(Walk),
                Feed(3),
                Take(Did),
                Take(Did),
                Take(Paint),
                Whole(4, 4, Stored),
                Feed(3),
                Take(Did),
                Take(Did),
                Take(Paint),
                Whole(5, 5, Stored),
                Take(Walk),
                Whole(3, 3, Stored),
                Whole(6, 6, Stored),
                Take(Walk),
                Whole(7, 7, Stored),
                Look(0, [128, 255, 128, 255], Clean),
            ],
        }],
    ),
    (
        "a job that comes whole, over pixels that it reads",
        &[Play {
            script: TWICE,
            slots: 1,
            calls: &[
                Feed(5),
                Take(Did),
                Take(Did),
                Take(Paint),
                Whole(0, 0, Stored),
                Whole(0, 0, Nothing),
                Take(Paint),
                Whole(1, 1, Stored),
                Settle,
                Frame(0, 0, [128, 0, 127]),
            ],
        }],
    ),
    (
        "a blur that comes whole, of other pixels at the edge of what it reads",
        &[
            Play {
                script: b"canvas 9 1\nlayer 1 0 0\nstroke 1 1\nfill 1 seq 6 0 1 1 0000ffff over 255\nblur 1 seq 4 0 1 1 2\nend 1\nexport\n",
                slots: 1,
                calls: &[
                    Feed(5),
                    Take(Did),
                    Take(Did),
                    Take(Paint),
                    Publish(0, 0, Stored),
                    End(0, Done),
                    Take(Paint),
                ],
            },
            Play {
                script: b"canvas 9 1\nlayer 1 0 0\nstroke 1 1\nfill 1 seq 6 0 1 1 ff0000ff over 255\nblur 1 seq 4 0 1 1 2\nend 1\nexport\n",
                slots: 1,
                calls: &[
                    Feed(5),
                    Take(Did),
                    Take(Did),
                    Take(Paint),
                    Publish(2, 2, Stored),
                    End(2, Done),
                    Take(Paint),
                    Whole(1, 1, Nothing),
                    Whole(3, 3, Stored),
                    Settle,
                    Frame(0, 4, [255, 245, 245]),
                ],
            },
        ],
    ),
    (
        "a walk ends once all its groups are published, the root first",
        &[Play {
            script: b"canvas 1 1\ngroup 1 0 0\nlayer 2 1 0 ff0000ff\nexport\n",
            slots: 1,
            calls: &[
                Feed(2),
                Take(Did),
                Take(Did),
                Take(Walk),
                Group(0, 0, Stored),
                End(0, Ended::Nothing),
                Group(0, 1, Stored),
                End(0, Done),
                Settle,
                Frame(0, 0, [255, 0, 0]),
            ],
        }],
    ),
];

#[test]
fn calls_answer_as_told(rt: HostRuntime) -> Result<(), Fail> {
    for (shows, plays) in ROWS {
        assert_eq!(rt; first_odd(rt.alloc(), plays)?, None, "{shows}");
    }
    Ok(())
}
