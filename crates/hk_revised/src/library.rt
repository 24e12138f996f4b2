//! Groups of the library's constraints.

use crate::parts::{Part, Rule};
use crate::running::{Case, Revision, answers};
use hk_base::LIM;

/// In each window of three days one is a 1.
const WINDOWS: &[Part] = &[Part {
    rule: Rule::Sequence(3, 0b10, 1, 1),
    scope: &[0, 1, 2, 3, 4, 5, 6],
}];

/// A week with four or five days that cost, and at least cost.
const WEEK: &[Part] = &[
    Part {
        rule: Rule::Sequence(7, 0b10, 4, 5),
        scope: &[0, 1, 2, 3, 4, 5, 6],
    },
    Part {
        rule: Rule::Objective(&[6, 2, 7, 3, 8, 4, 9]),
        scope: &[0, 1, 2, 3, 4, 5, 6],
    },
];

/// One 1 and at most one 2.
const COUNTED: &[Part] = &[Part {
    rule: Rule::Gcc(&[(1, 1, 1), (2, 0, 1)]),
    scope: &[0, 1, 2],
}];

/// Two constraints with one variable in common.
const CROSSED: &[Part] = &[
    Part {
        rule: Rule::AllDifferent,
        scope: &[0, 2],
    },
    Part {
        rule: Rule::Sum(&[1, 1], 2, 3),
        scope: &[0, 1],
    },
];

const CASES: &[Case] = &[
    Case {
        parts: WINDOWS,
        sets: &[0b11, 0b11, 0b11, 0b11, 0b11, 0b11, 0b11],
        width: 3,
        revisions: &[
            Revision {
                domains: &[0b11, 0b11, 0b11, 0b11, 0b11, 0b11, 0b11],
                best: LIM,
                text: "layer 1\n\
                       row [0..0;0..0;0..0] [] 0 l0,l1\n\
                       layer 2\n\
                       row [0..0;0..0;0..0] [] 0 l0,l0\n\
                       row [1..1;0..0;0..0] [] 0 l1,d2\n\
                       layer 3\n\
                       row [0..1;0..0;0..0] [] 0 l0,l2\n\
                       row [1..1;1..1;0..0] [] 0 l1,c\n\
                       row [2..2;1..1;0..0] - 0 c,c\n\
                       layer 3\n\
                       row [0..1;0..1;0..0] [] 0 l0,l0\n\
                       row [1..1;1..1;1..1] [] 0 c,l2\n\
                       row [1..2;0..1;0..0] [] 0 l1,c\n\
                       layer 3\n\
                       row [0..2;0..1;0..1] [] 0 l0,l1\n\
                       row [1..2;1..2;0..1] [] 0 l0,l2\n\
                       row [2..2;1..1;1..1] [] 0 l1,c\n\
                       layer 3\n\
                       row [0..2;0..2;0..2] [] 0 l0,l0\n\
                       row [1..3;0..2;0..1] [] 0 l1,l2\n\
                       row [2..3;1..2;1..2] [] 0 l1,l2\n\
                       layer 3\n\
                       row [0..3;0..2;0..2] [] 0 l0,l1\n\
                       row [1..3;1..3;0..2] [] 0 l0,l1\n\
                       row [2..4;1..3;0..2] [] 0 l2,l2\n\
                       layer 3\n\
                       row [0..3;0..3;0..3] [] 0 -\n\
                       row [1..4;0..3;0..3] [] 0 -\n\
                       row [2..5;2..4;1..3] [] 0 -\n",
            },
            Revision {
                domains: &[0b1, 0b11, 0b11, 0b11, 0b11, 0b11, 0b11],
                best: LIM,
                text: "layer 1\n\
                       row [0..0;0..0;0..0] [] 0 l0,g\n\
                       layer 1\n\
                       row [0..0;0..0;0..0] [] 0 l0,l1\n\
                       layer 2\n\
                       row [0..0;0..0;0..0] [] 0 c,l0\n\
                       row [1..1;0..0;0..0] [] 0 l1,c\n\
                       layer 2\n\
                       row [1..1;0..0;0..0] [] 2 l0,g\n\
                       row [1..1;1..1;0..0] [] 0 l1,c\n\
                       layer 2\n\
                       row [1..1;1..1;0..0] [] 1 l0,c\n\
                       row [1..1;1..1;1..1] [] 0 c,l1\n\
                       layer 2\n\
                       row [1..1;1..1;1..1] [] 0 c,l0\n\
                       row [2..2;1..1;1..1] [] 1 l1,c\n\
                       layer 2\n\
                       row [2..2;1..1;1..1] [] 0 l0,c\n\
                       row [2..2;2..2;1..1] [] 1 l1,c\n\
                       layer 2\n\
                       row [2..2;2..2;1..1] [] 0 -\n\
                       row [2..2;2..2;2..2] [] 0 -\n",
            },
        ],
    },
    Case {
        parts: WEEK,
        sets: &[0b11, 0b11, 0b11, 0b11, 0b11, 0b11, 0b11],
        width: 2,
        revisions: &[
            Revision {
                domains: &[0b11, 0b11, 0b11, 0b11, 0b11, 0b11, 0b11],
                best: LIM,
                text: "layer 1\n\
                       row [0..0;0..0;0..0;0..0;0..0;0..0;0..0;0] [0] 0 l0,l1\n\
                       layer 2\n\
                       row [0..0;0..0;0..0;0..0;0..0;0..0;0..0;0] [0] 0 l0,l0\n\
                       row [1..1;0..0;0..0;0..0;0..0;0..0;0..0;6] [0] 0 l1,l1\n\
                       layer 2\n\
                       row [0..1;0..0;0..0;0..0;0..0;0..0;0..0;0] [0] 0 l0,l0\n\
                       row [1..2;1..1;0..0;0..0;0..0;0..0;0..0;6] [0] 0 l1,l1\n\
                       layer 2\n\
                       row [0..2;0..1;0..0;0..0;0..0;0..0;0..0;0] [0] 0 l0,l0\n\
                       row [1..3;1..2;1..1;0..0;0..0;0..0;0..0;6] [0] 0 l1,l1\n\
                       layer 2\n\
                       row [0..3;0..2;0..1;0..0;0..0;0..0;0..0;0] [0] 0 l0,l0\n\
                       row [1..4;1..3;1..2;1..1;0..0;0..0;0..0;6] [0] 0 l1,l1\n\
                       layer 2\n\
                       row [0..4;0..3;0..2;0..1;0..0;0..0;0..0;0] [0] 0 l0,l0\n\
                       row [1..5;1..4;1..3;1..2;1..1;0..0;0..0;6] [0] 0 l1,l1\n\
                       layer 2\n\
                       row [0..5;0..4;0..3;0..2;0..1;0..0;0..0;0] [0] 0 l0,l0\n\
                       row [1..6;1..5;1..4;1..3;1..2;1..1;0..0;6] [0] 0 l1,l1\n\
                       layer 2\n\
                       row [0..6;0..5;0..4;0..3;0..2;0..1;0..0;0] [0] 0 -\n\
                       row [1..7;1..6;1..5;1..4;1..3;1..2;1..1;6] [0] 0 -\n",
            },
            Revision {
                domains: &[0b1, 0b11, 0b11, 0b11, 0b11, 0b11, 0b11],
                best: LIM,
                text: "layer 1\n\
                       row [0..0;0..0;0..0;0..0;0..0;0..0;0..0;0] [0] 0 l0,g\n\
                       layer 1\n\
                       row [0..0;0..0;0..0;0..0;0..0;0..0;0..0;0] [0] 0 l0,l1\n\
                       layer 2\n\
                       row [0..0;0..0;0..0;0..0;0..0;0..0;0..0;0] [0] 0 l0,l0\n\
                       row [1..1;0..0;0..0;0..0;0..0;0..0;0..0;2] [0] 0 l1,l1\n\
                       layer 2\n\
                       row [0..1;0..0;0..0;0..0;0..0;0..0;0..0;0] [0] 0 l0,l0\n\
                       row [1..2;1..1;0..0;0..0;0..0;0..0;0..0;2] [0] 0 l1,l1\n\
                       layer 2\n\
                       row [0..2;0..1;0..0;0..0;0..0;0..0;0..0;0] [0] 0 l0,l0\n\
                       row [1..3;1..2;1..1;0..0;0..0;0..0;0..0;2] [0] 0 l1,l1\n\
                       layer 2\n\
                       row [0..3;0..2;0..1;0..0;0..0;0..0;0..0;0] [0] 0 l0,l0\n\
                       row [1..4;1..3;1..2;1..1;0..0;0..0;0..0;2] [0] 0 l1,l1\n\
                       layer 2\n\
                       row [0..4;0..3;0..2;0..1;0..0;0..0;0..0;0] [0] 0 l0,l0\n\
                       row [1..5;1..4;1..3;1..2;1..1;0..0;0..0;2] [0] 0 l1,l1\n\
                       layer 2\n\
                       row [0..5;0..4;0..3;0..2;0..1;0..0;0..0;0] [0] 0 -\n\
                       row [1..6;1..5;1..4;1..3;1..2;1..1;0..0;2] [0] 0 -\n",
            },
        ],
    },
    Case {
        parts: COUNTED,
        sets: &[0b111, 0b111, 0b111],
        width: 4,
        revisions: &[
            Revision {
                domains: &[0b111, 0b111, 0b111],
                best: LIM,
                text: "layer 1\n\
                       row [0..0;0..0] [1..1;0..2] 0 l0,l2,l1\n\
                       layer 3\n\
                       row [0..0;0..0] [1..1;0..1] 0 l0,l2,l0\n\
                       row [0..0;1..1] [1..1;0..1] 0 l0,l2,d1\n\
                       row [1..1;0..0] [0..0;0..2] 0 l2,d3,l2\n\
                       layer 4\n\
                       row [0..0;0..1] [1..1;0..0] 0 d0,l1,d0\n\
                       row [0..0;2..2] - 0 d0,d2,d1\n\
                       row [1..1;0..1] [0..0;0..1] 0 l1,d2,l1\n\
                       row [2..2;0..0] - 0 d2,d3,d3\n\
                       layer 4\n\
                       row [0..0;0..2] [0..0;0..0] 0 -\n\
                       row [0..1;0..3] [0..0;0..0] 0 -\n\
                       row [1..2;0..2] [0..0;0..0] 0 -\n\
                       row [2..3;0..1] [0..0;0..0] 0 -\n",
            },
            Revision {
                domains: &[0b1, 0b111, 0b111],
                best: LIM,
                text: "layer 1\n\
                       row [0..0;0..0] [1..1;0..1] 0 l0,g,g\n\
                       layer 1\n\
                       row [0..0;0..0] [1..1;0..1] 0 l0,l2,l1\n\
                       layer 3\n\
                       row [0..0;0..0] [1..1;0..0] 0 g,l0,g\n\
                       row [0..0;1..1] [1..1;0..0] 0 g,l1,g\n\
                       row [1..1;0..0] [0..0;0..1] 2 l0,g,l1\n\
                       layer 2\n\
                       row [1..1;0..0] [0..0;0..0] 1 -\n\
                       row [1..1;1..1] [0..0;0..0] 1 -\n",
            },
        ],
    },
    Case {
        parts: CROSSED,
        sets: &[0b111, 0b111, 0b111],
        width: 5,
        revisions: &[Revision {
            domains: &[0b111, 0b111, 0b111],
            best: LIM,
            text: "layer 1\n\
                       row [{};{};0..0] [{0,1,2};{};2..3] 0 l0,l1,l2\n\
                       layer 3\n\
                       row [{0};{0};0..0] [{0,1,2};{};2..2] 0 d0,d0,l1\n\
                       row [{1};{1};1..1] [{0,2};{};1..2] 0 d1,l2,l2\n\
                       row [{2};{2};2..2] [{0,1};{};0..1] 0 l3,l3,d4\n\
                       layer 5\n\
                       row [{0};{0};0..1] [{1,2};{};0..0] 0 c,l1,l2\n\
                       row [{0,1};{};1..2] [{0,1,2};{};0..0] 0 l0,l0,l4\n\
                       row [{1};{1};2..3] [{0,2};{};0..0] 0 l1,c,l3\n\
                       row [{2};{2};2..3] [{0,1};{};0..0] 0 l2,l3,c\n\
                       row [{2};{2};4..4] [{0,1};{};0..0] 0 l3,l4,c\n\
                       layer 5\n\
                       row [{0,1};{};1..2] [{};{};0..0] 0 -\n\
                       row [{0,1};{0,1};0..3] [{};{};0..0] 0 -\n\
                       row [{0,2};{0,2};0..3] [{};{};0..0] 0 -\n\
                       row [{0,1,2};{2};2..4] [{};{};0..0] 0 -\n\
                       row [{0,1,2};{2};1..4] [{};{};0..0] 0 -\n",
        }],
    },
];

#[test]
fn library_groups_are_revised(rt: HostRuntime) {
    for case in CASES {
        assert_eq!(rt;
            answers(rt.alloc(), case),
            Some([true, true]),
            "width {}",
            case.width
        );
    }
}
