//! Second revisions: under domains that lost a value, and under a bound on the cost that cuts.

use crate::parts::{Part, Rule};
use crate::running::{Case, Revision, answers};
use hk_base::LIM;

/// Three variables that differ, of which the first two are not 0.
const NONZERO: &[Part] = &[
    Part {
        rule: Rule::AllDifferent,
        scope: &[0, 1, 2],
    },
    Part {
        rule: Rule::Among(0b110, 2, 2),
        scope: &[0, 1],
    },
];

/// Two variables with a sum and a cost.
const COSTLY: &[Part] = &[
    Part {
        rule: Rule::Sum(&[1, 1], 2, 4),
        scope: &[0, 1],
    },
    Part {
        rule: Rule::Objective(&[2, -1]),
        scope: &[0, 1],
    },
];

/// Two variables whose sum weighs the second more.
const WEIGHED: &[Part] = &[Part {
    rule: Rule::Sum(&[1, 3], 2, 4),
    scope: &[0, 1],
}];

const CASES: &[Case] = &[
    Case {
        parts: NONZERO,
        sets: &[0b111, 0b111, 0b111],
        width: 16,
        revisions: &[
            Revision {
                domains: &[0b111, 0b111, 0b111],
                best: LIM,
                text: "layer 1\n\
                       row [{};{};0..0] [{0,1,2};{0,1,2};2..2] 0 d0,l1,l2\n\
                       layer 3\n\
                       row [{0};{0};0..0] - 0 c,d0,d1\n\
                       row [{1};{1};1..1] [{0,2};{0,2};1..1] 0 d0,c,l2\n\
                       row [{2};{2};1..1] [{0,1};{0,1};1..1] 0 d1,l2,c\n\
                       layer 3\n\
                       row [{0,1};{0,1};1..1] [{2};{2};0..0] 0 c,c,l0\n\
                       row [{0,2};{0,2};1..1] [{1};{1};0..0] 0 c,l0,c\n\
                       row [{1,2};{1,2};2..2] [{0};{0};0..0] 0 l1,c,c\n\
                       layer 2\n\
                       row [{0,1,2};{0,1,2};1..1] [{};{};0..0] 0 -\n\
                       row [{0,1,2};{0,1,2};2..2] [{};{};0..0] 0 -\n",
            },
            Revision {
                domains: &[0b110, 0b110, 0b1],
                best: LIM,
                text: "layer 1\n\
                       row [{};{};0..0] [{0,1,2};{0,1,2};2..2] 0 g,l0,l1\n\
                       layer 2\n\
                       row [{1};{1};1..1] [{0,2};{0,2};1..1] 1 g,g,l0\n\
                       row [{2};{2};1..1] [{0,1};{0,1};1..1] 2 g,l0,g\n\
                       layer 1\n\
                       row [{1,2};{1,2};2..2] [{0};{0};0..0] 2 l0,g,g\n\
                       layer 1\n\
                       row [{0,1,2};{0,1,2};2..2] [{};{};0..0] 1 -\n",
            },
        ],
    },
    Case {
        parts: COSTLY,
        sets: &[0b111, 0b111],
        width: 16,
        revisions: &[
            Revision {
                domains: &[0b111, 0b111],
                best: LIM,
                text: "layer 1\n\
                       row [0..0;0] [2..4;-2] 0 l0,l1,l2\n\
                       layer 3\n\
                       row [0..0;0] [2..2;-2] 0 d0,d1,l3\n\
                       row [1..1;2] [1..2;-2] 0 d2,l4,l6\n\
                       row [2..2;4] [0..2;-2] 0 l5,l7,l8\n\
                       layer 9\n\
                       row [0..0;0] [0..0;0] 0 -\n\
                       row [1..1;-1] [0..0;0] 0 -\n\
                       row [1..1;2] [0..0;0] 0 -\n\
                       row [2..2;-2] [0..0;0] 0 -\n\
                       row [2..2;1] [0..0;0] 0 -\n\
                       row [2..2;4] [0..0;0] 0 -\n\
                       row [3..3;0] [0..0;0] 0 -\n\
                       row [3..3;3] [0..0;0] 0 -\n\
                       row [4..4;2] [0..0;0] 0 -\n",
            },
            Revision {
                domains: &[0b110, 0b111],
                best: -2,
                text: "layer 1\n\
                       row [0..0;0] - 0 g,d0,d1\n\
                       layer 2\n\
                       row [1..1;2] - 1 g,d0,d2\n\
                       row [2..2;4] - 2 d1,d3,d4\n\
                       layer 5\n\
                       row [2..2;1] [0..0;0] 4 -\n\
                       row [2..2;4] [0..0;0] 5 -\n\
                       row [3..3;0] [0..0;0] 6 -\n\
                       row [3..3;3] [0..0;0] 7 -\n\
                       row [4..4;2] [0..0;0] 8 -\n",
            },
        ],
    },
    // At most two steps go to one row.
    Case {
        parts: WEIGHED,
        sets: &[0b111, 0b111],
        width: 5,
        revisions: &[Revision {
            domains: &[0b111, 0b111],
            best: LIM,
            text: "layer 1\n\
                       row [0..0] [2..4] 0 l0,l1,l2\n\
                       layer 3\n\
                       row [0..0] [3..3] 0 d0,l1,d3\n\
                       row [1..1] [3..3] 0 d0,l2,d3\n\
                       row [2..2] [0..0] 0 l1,d2,d4\n\
                       layer 5\n\
                       row [0..1] [0..0] 0 -\n\
                       row [2..3] [0..0] 0 -\n\
                       row [4..5] [0..0] 0 -\n\
                       row [6..7] [0..0] 0 -\n\
                       row [8..8] [0..0] 0 -\n",
        }],
    },
    // Three do.
    Case {
        parts: WEIGHED,
        sets: &[0b111, 0b111],
        width: 3,
        revisions: &[Revision {
            domains: &[0b111, 0b111],
            best: LIM,
            text: "layer 1\n\
                       row [0..0] [2..4] 0 l0,l1,l2\n\
                       layer 3\n\
                       row [0..0] [3..3] 0 d0,l1,d2\n\
                       row [1..1] [3..3] 0 d0,l1,d2\n\
                       row [2..2] [0..0] 0 l0,d1,d2\n\
                       layer 3\n\
                       row [0..2] [0..0] 0 -\n\
                       row [3..5] [0..0] 0 -\n\
                       row [6..8] [0..0] 0 -\n",
        }],
    },
    // All do.
    Case {
        parts: WEIGHED,
        sets: &[0b111, 0b111],
        width: 1,
        revisions: &[Revision {
            domains: &[0b111, 0b111],
            best: LIM,
            text: "layer 1\n\
                       row [0..0] [0..5] 0 l0,l0,l0\n\
                       layer 1\n\
                       row [0..2] [0..3] 0 l0,l0,d0\n\
                       layer 1\n\
                       row [0..8] [0..0] 0 -\n",
        }],
    },
];

#[test]
fn later_tables_are_made_of_the_ones_before(rt: HostRuntime) {
    for case in CASES {
        assert_eq!(rt;
            answers(rt.alloc(), case),
            Some([true, true]),
            "width {}",
            case.width
        );
    }
}
