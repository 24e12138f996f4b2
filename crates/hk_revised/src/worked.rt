//! Tables worked out by hand: a sum and a cost of two variables at two widths, and three variables that
//! are never pairwise distinct.

use crate::parts::{Part, Rule};
use crate::running::{Case, Revision, answers};
use hk_base::LIM;

/// Two variables of which one is 1, where each costs 1.
const ONE_OF_TWO: &[Part] = &[
    Part {
        rule: Rule::Sum(&[1, 1], 1, 1),
        scope: &[0, 1],
    },
    Part {
        rule: Rule::Objective(&[1, 1]),
        scope: &[0, 1],
    },
];

/// Three variables that differ.
const DIFFERENT: &[Part] = &[Part {
    rule: Rule::AllDifferent,
    scope: &[0, 1, 2],
}];

const CASES: &[Case] = &[
    // The root, and the two passes of its first node.
    Case {
        parts: ONE_OF_TWO,
        sets: &[0b11, 0b11],
        width: 16,
        revisions: &[
            Revision {
                domains: &[0b11, 0b11],
                best: LIM,
                text: "layer 1\n\
                       row [0..0;0] [1..1;1] 0 l0,l1\n\
                       layer 2\n\
                       row [0..0;0] [1..1;1] 0 d0,l1\n\
                       row [1..1;1] [0..0;0] 0 l1,d2\n\
                       layer 3\n\
                       row [0..0;0] [0..0;0] 0 -\n\
                       row [1..1;1] [0..0;0] 0 -\n\
                       row [2..2;2] [0..0;0] 0 -\n",
            },
            Revision {
                domains: &[0b1, 0b11],
                best: LIM,
                text: "layer 1\n\
                       row [0..0;0] [1..1;1] 0 l0,g\n\
                       layer 1\n\
                       row [0..0;0] [1..1;1] 0 g,l0\n\
                       layer 1\n\
                       row [1..1;1] [0..0;0] 1 -\n",
            },
            Revision {
                domains: &[0b1, 0b10],
                best: LIM,
                text: "layer 1\n\
                       row [0..0;0] [1..1;1] 0 l0,g\n\
                       layer 1\n\
                       row [0..0;0] [1..1;1] 0 g,l0\n\
                       layer 1\n\
                       row [1..1;1] [0..0;0] 0 -\n",
            },
        ],
    },
    // The root, and its second node under the cost that the first one found.
    Case {
        parts: ONE_OF_TWO,
        sets: &[0b11, 0b11],
        width: 16,
        revisions: &[
            Revision {
                domains: &[0b11, 0b11],
                best: LIM,
                text: "layer 1\n\
                       row [0..0;0] [1..1;1] 0 l0,l1\n\
                       layer 2\n\
                       row [0..0;0] [1..1;1] 0 d0,l1\n\
                       row [1..1;1] [0..0;0] 0 l1,d2\n\
                       layer 3\n\
                       row [0..0;0] [0..0;0] 0 -\n\
                       row [1..1;1] [0..0;0] 0 -\n\
                       row [2..2;2] [0..0;0] 0 -\n",
            },
            Revision {
                domains: &[0b10, 0b11],
                best: 1,
                text: "layer 1\n\
                       row [0..0;0] - 0 g,d0\n\
                       layer 1\n\
                       row [1..1;1] - 1 d0,g\n\
                       layer 1\n\
                       row [1..1;1] [0..0;0] 1 -\n",
            },
        ],
    },
    Case {
        parts: ONE_OF_TWO,
        sets: &[0b11, 0b11],
        width: 2,
        revisions: &[Revision {
            domains: &[0b11, 0b11],
            best: LIM,
            text: "layer 1\n\
                       row [0..0;0] [1..1;1] 0 l0,l1\n\
                       layer 2\n\
                       row [0..0;0] [1..1;1] 0 d0,l0\n\
                       row [1..1;1] [0..0;0] 0 l0,d1\n\
                       layer 2\n\
                       row [0..1;0] [0..0;0] 0 -\n\
                       row [2..2;2] [0..0;0] 0 -\n",
        }],
    },
    Case {
        parts: DIFFERENT,
        sets: &[0b11, 0b11, 0b11],
        width: 1,
        revisions: &[Revision {
            domains: &[0b11, 0b11, 0b11],
            best: LIM,
            text: "layer 1\n\
                       row [{};{}] - 0 d0,d0\n\
                       layer 1\n\
                       row [{0,1};{}] - 0 d0,d0\n\
                       layer 1\n\
                       row [{0,1};{}] - 0 c,c\n\
                       layer 0\n",
        }],
    },
];

#[test]
fn worked_rows_are_made(rt: HostRuntime) {
    for case in CASES {
        assert_eq!(rt;
            answers(rt.alloc(), case),
            Some([true, true]),
            "width {}",
            case.width
        );
    }
}
