//! A specification that a text writes, with a property of each kind on both sides.

use crate::parts::{Part, Rule};
use crate::running::{Case, Revision, answers};
use hk_base::LIM;

/// The specification.
const KINDS: &str = "spec kinds ()\n\
     down least Min 9\n\
     down most Max 0\n\
     down sum Interval 0..0\n\
     down some SomeBits {}\n\
     down all AllBits {1, 3}\n\
     up low Min 5\n\
     up high Max 0\n\
     up rest Interval 0..1\n\
     up later SomeBits {}\n\
     up every AllBits {0}\n\
     test (((((sum.lo + v) + rest.lo) <= 4) and ((v notin all) or (high >= 1))) and (((card((some | later)) >= i) and ((v in later) or ((v notin every) or (low <= 1)))) and ((least <= 9) and (most >= 0))))\n\
     step least min(least, v)\n\
     step most max(most, v)\n\
     step sum (sum.lo + v) (sum.hi + v)\n\
     step some (some | {v})\n\
     step all (all \\ {v})\n\
     step low min(low, v)\n\
     step high max(high, v)\n\
     step rest (rest.lo + v) (rest.hi + v)\n\
     step later (later | {v})\n\
     step every (every \\ {v})\n\
     end\n";

/// It alone.
const EACH_KIND: &[Part] = &[Part {
    rule: Rule::Written(KINDS),
    scope: &[0, 1, 2],
}];

const CASES: &[Case] = &[
    Case {
        parts: EACH_KIND,
        sets: &[0b111, 0b1010, 0b11],
        width: 16,
        revisions: &[
            Revision {
                domains: &[0b111, 0b1010, 0b11],
                best: LIM,
                text: "layer 1\n\
                       row [9;0;0..0;{};{1,3}] [0;2;2..5;{0,1,2};{}] 0 l0,d1,l2\n\
                       layer 3\n\
                       row [0;0;0..0;{0};{1,3}] [1;1;2..3;{1};{0}] 0 l0,d1\n\
                       row [1;1;1..1;{1};{3}] - 0 d2,d4\n\
                       row [2;2;2..2;{2};{1,3}] [1;1;2..3;{1};{0}] 0 l3,d5\n\
                       layer 6\n\
                       row [0;1;1..1;{0,1};{3}] [1;1;1..2;{1};{0}] 0 d0,l1\n\
                       row [0;3;3..3;{0,3};{1}] - 0 d3,d4\n\
                       row [1;1;2..2;{1};{3}] - 0 d1,d6\n\
                       row [1;2;3..3;{1,2};{3}] [1;1;1..2;{1};{0}] 0 d2,l7\n\
                       row [1;3;4..4;{1,3};{}] - 0 d4,d8\n\
                       row [2;3;5..5;{2,3};{1}] - 0 d5,d9\n\
                       layer 10\n\
                       row [0;1;1..1;{0,1};{3}] [5;0;0..1;{};{0}] 0 -\n\
                       row [0;1;2..2;{0,1};{3}] [5;0;0..1;{};{0}] 0 -\n\
                       row [0;2;3..3;{0,1,2};{3}] [5;0;0..1;{};{0}] 0 -\n\
                       row [0;3;3..3;{0,3};{1}] [5;0;0..1;{};{0}] 0 -\n\
                       row [0;3;4..4;{0,1,3};{}] [5;0;0..1;{};{0}] 0 -\n\
                       row [0;3;5..5;{0,2,3};{1}] [5;0;0..1;{};{0}] 0 -\n\
                       row [1;1;3..3;{1};{3}] [5;0;0..1;{};{0}] 0 -\n\
                       row [1;2;4..4;{1,2};{3}] [5;0;0..1;{};{0}] 0 -\n\
                       row [1;3;5..5;{1,3};{}] [5;0;0..1;{};{0}] 0 -\n\
                       row [1;3;6..6;{1,2,3};{}] [5;0;0..1;{};{0}] 0 -\n",
            },
            Revision {
                domains: &[0b101, 0b10, 0b10],
                best: LIM,
                text: "layer 1\n\
                       row [9;0;0..0;{};{1,3}] [0;2;2..5;{0,1,2};{}] 0 l0,g,l1\n\
                       layer 2\n\
                       row [0;0;0..0;{0};{1,3}] [1;1;2..3;{1};{0}] 0 l0,g\n\
                       row [2;2;2..2;{2};{1,3}] [1;1;2..3;{1};{0}] 2 l1,g\n\
                       layer 2\n\
                       row [0;1;1..1;{0,1};{3}] [1;1;1..2;{1};{0}] 0 g,l0\n\
                       row [1;2;3..3;{1,2};{3}] [1;1;1..2;{1};{0}] 3 g,l1\n\
                       layer 2\n\
                       row [0;1;2..2;{0,1};{3}] [5;0;0..1;{};{0}] 1 -\n\
                       row [1;2;4..4;{1,2};{3}] [5;0;0..1;{};{0}] 7 -\n",
            },
        ],
    },
    Case {
        parts: EACH_KIND,
        sets: &[0b111, 0b1010, 0b11],
        width: 3,
        revisions: &[
            Revision {
                domains: &[0b111, 0b1010, 0b11],
                best: LIM,
                text: "layer 1\n\
                       row [9;0;0..0;{};{1,3}] [0;3;2..5;{0,1,2,3};{}] 0 l0,l1,l2\n\
                       layer 3\n\
                       row [0;0;0..0;{0};{1,3}] [1;3;2..5;{1,3};{0}] 0 l0,l0\n\
                       row [1;1;1..1;{1};{3}] [1;1;2..3;{1};{0}] 0 l1,d2\n\
                       row [2;2;2..2;{2};{1,3}] [1;1;2..3;{1};{0}] 0 l1,d2\n\
                       layer 3\n\
                       row [0;3;1..3;{0,1,3};{}] [1;1;1..2;{1};{0}] 0 d0,l1\n\
                       row [1;2;2..3;{1,2};{3}] [1;1;1..2;{1};{0}] 0 d0,l2\n\
                       row [1;3;4..5;{1,2,3};{}] - 0 d1,d2\n\
                       layer 3\n\
                       row [0;3;1..3;{0,1,2,3};{}] [5;0;0..1;{};{0}] 0 -\n\
                       row [0;3;2..5;{0,1,2,3};{}] [5;0;0..1;{};{0}] 0 -\n\
                       row [1;3;3..6;{1,2,3};{}] [5;0;0..1;{};{0}] 0 -\n",
            },
            Revision {
                domains: &[0b111, 0b1010, 0b10],
                best: LIM,
                text: "layer 1\n\
                       row [9;0;0..0;{};{1,3}] [0;3;2..5;{0,1,2,3};{}] 0 l0,d1,l2\n\
                       layer 3\n\
                       row [0;0;0..0;{0};{1,3}] [1;3;2..5;{1,3};{0}] 0 l0,l0\n\
                       row [1;1;1..1;{1};{3}] - 1 d1,g\n\
                       row [2;2;2..2;{2};{1,3}] [1;1;2..3;{1};{0}] 2 l2,g\n\
                       layer 3\n\
                       row [0;3;1..3;{0,1,3};{}] [1;1;1..2;{1};{0}] 0 g,l0\n\
                       row [1;1;2..2;{1};{3}] - 1 g,d1\n\
                       row [1;2;3..3;{1,2};{3}] [1;1;1..2;{1};{0}] 1 g,l2\n\
                       layer 3\n\
                       row [0;3;2..4;{0,1,3};{}] [5;0;0..1;{};{0}] 1 -\n\
                       row [1;1;3..3;{1};{3}] [5;0;0..1;{};{0}] 2 -\n\
                       row [1;2;4..4;{1,2};{3}] [5;0;0..1;{};{0}] 2 -\n",
            },
        ],
    },
    Case {
        parts: EACH_KIND,
        sets: &[0b111, 0b1010, 0b11],
        width: 1,
        revisions: &[Revision {
            domains: &[0b111, 0b1010, 0b11],
            best: LIM,
            text: "layer 1\n\
                       row [9;0;0..0;{};{1,3}] [0;3;2..7;{0,1,2,3};{}] 0 l0,l0,l0\n\
                       layer 1\n\
                       row [0;2;0..2;{0,1,2};{3}] [1;3;2..5;{1,3};{0}] 0 l0,l0\n\
                       layer 1\n\
                       row [0;3;1..5;{0,1,2,3};{}] [1;1;1..2;{1};{0}] 0 d0,l0\n\
                       layer 1\n\
                       row [0;3;1..6;{0,1,2,3};{}] [5;0;0..1;{};{0}] 0 -\n",
        }],
    },
];

#[test]
fn each_kind_is_stepped_and_joined(rt: HostRuntime) {
    for case in CASES {
        assert_eq!(rt;
            answers(rt.alloc(), case),
            Some([true, true]),
            "width {}",
            case.width
        );
    }
}
