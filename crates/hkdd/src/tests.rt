//! Rows of runs over a host in memory: the words, the model, and the status and the text that are due.

ghost use Rattle.std.specs.Prelude.{IfOk};
ghost use Rattle.hk_base.specs.Memory.{view_of};
ghost use Rattle.hkdd.specs.Runs.{IsFresh};

use crate::run::run;
use hk_base::{CallKind, Gate, MemoryHost, Slot};
use std::alloc::{AllocError, Global};
use std::test::Fail;
use std::thread::Threads;

struct Quiet;

impl Gate for Quiet {
    fn enter(&self, _piece: u32) {}
}

const OUT_BYTES: usize = 1_048_576;

/// The number of no reading.
const NONE: u64 = 0;

const PAIR: &str = "hkm 1\nvar x in 0..1\nvar y in 0..1\nalldifferent (x, y)\n";

const THREE: &str = "hkm 1\nvar x in 0..1\nvar y in 0..1\nvar z in 0..1\nalldifferent (x, y, z)\n";

const SUM: &str = "hkm 1\nvar x in 0..1\nvar y in 0..1\nsum (1*x, 1*y) 1..1\nminimize (1*x, 1*y)\n";

const LEAST: &str = "hkm 1\nvar x in 0..1\nvar y in 0..1\nsum (1*x, 1*y) 1..1\nminimize (-1*x)\n";

const LARGE: &str = "hkm 1\nvar x in 0..1\nvar y in 0..1\nsum (1000001*x, 1*y) 1..1\n";

const TURNED: &str = "hkm 1\nvar x in 0..1\nvar y in 0..1\nalldifferent (y, x)\n";

const WINDOW: &str = "hkm 1\nvar x in 0..1\nvar y in 0..1\nsequence 3 (x, y) {1} 2..2\n";

const OCCURS: &str = "hkm 1\nvar x in 0..1\nvar y in 0..1\ngcc (x, y) 1:3..3\n";

const AMONG: &str = "hkm 1\nvar x in 0..1\nvar y in 0..1\namong (x, y) {1} 2..2\n";

/// Two values that rise, by a specification of that.
const RISE: &str =
    "hkm 1\nvar x in 0..3\nvar y in 0..3\nspec rise ()\ndown m Min 0\ntest ((i < 1) or (m < v))\nstep m v\nend\npost rise () (x, y)\n";

/// The same with a property that grows, so that its test may begin to fail where states are merged.
const RISE_BY_MAX: &str =
    "hkm 1\nvar x in 0..3\nvar y in 0..3\nspec rise ()\ndown m Max 0\ntest ((i < 1) or (m < v))\nstep m v\nend\npost rise () (x, y)\n";

const AT_LEAST: &str =
    "hkm 1\nvar x in 0..2\nspec atleast (num a)\ntest (v >= a)\nend\npost atleast (2) (x)\n";

const TWO_BOUNDS: &str =
    "hkm 1\nvar x in 0..2\nspec atleast (num a)\ntest (v >= a)\nend\npost atleast (2, 3) (x)\n";

/// Distinct values, by a specification that counts them. One side of its test rises, and the other falls.
const NAIVE: &str =
    "hkm 1\nvar x in 0..1\nspec naive ()\ndown some SomeBits {}\ntest ((card(some) > i) or (v notin some))\nstep some (some | {v})\nend\npost naive () (x)\n";

const TWICE: &str = "hkm 1\nvar x in 0..1\nvar x in 0..1\nalldifferent (x, y)\n";

const COSTS: &str =
    "# Two painters, Ann and Ben, and three jobs. Each job is given to one of the two; 1 stands for \"does it\".
#
# Shows: sums that count and that limit hours, and an objective.
#
# Prints:
#   optimal 106
#   ann_painting 0
#   ben_painting 1
#   ann_wiring 1
#   ben_wiring 0
#   ann_cleaning 1
#   ben_cleaning 0

hkm 1

var ann_painting in 0..1
var ben_painting in 0..1
var ann_wiring in 0..1
var ben_wiring in 0..1
var ann_cleaning in 0..1
var ben_cleaning in 0..1

# each job is done by one of them
sum (1*ann_painting, 1*ben_painting) 1..1
sum (1*ann_wiring, 1*ben_wiring) 1..1
sum (1*ann_cleaning, 1*ben_cleaning) 1..1

# a job takes each of them so many hours, and nobody works more than eight
sum (4*ann_painting, 5*ann_wiring, 2*ann_cleaning) 0..8
sum (3*ben_painting, 6*ben_wiring, 2*ben_cleaning) 0..8

# what it costs
minimize (40*ann_painting, 36*ben_painting, 50*ann_wiring, 72*ben_wiring, 20*ann_cleaning, 24*ben_cleaning)
";

const DIFFER: &str =
    "# Three guides and three tours. The value of a variable is the tour that the guide leads.
#
# Shows: a constraint of the planner's own with two properties, each of which moves one way only where
# states are merged: `some` rises and `all` falls.
#
# Prints:
#   solution
#   ann 0
#   ben 1
#   cleo 2

hkm 1

var ann in 0..2
var ben in 0..2
var cleo in 0..2

# no two guides lead the same tour
spec differ ()
down some SomeBits {}
down all AllBits {}
test ((card((some | {v})) > i) and (v notin all))
step some (some | {v})
step all (all | {v})
end

post differ () (ann, ben, cleo)
";

const DUTIES: &str =
    "# A week of opening and closing duties at a branch. The value of a variable is a
# weekday: 0 is Monday and 4 is Friday. Ann, Ben and Cleo each open on one day
# and close on one day.
#
# Shows: several constraints about the same variables, and ranges that keep a
# person to the days on which that person can come.
#
# Prints:
#   solution
#   ann_opens 0
#   ann_closes 1
#   ben_opens 1
#   ben_closes 0
#   cleo_opens 2
#   cleo_closes 3

hkm 1

var ann_opens in 0..4
var ann_closes in 0..1     # Ann can stay late on Monday and Tuesday only
var ben_opens in 0..4
var ben_closes in 0..4
var cleo_opens in 1..3     # Cleo isn't there on Monday and on Friday
var cleo_closes in 1..3

# One person opens on a day, and one closes.
alldifferent (ann_opens, ben_opens, cleo_opens)
alldifferent (ann_closes, ben_closes, cleo_closes)

# Nobody opens and closes on the same day.
alldifferent (ann_opens, ann_closes)
alldifferent (ben_opens, ben_closes)
alldifferent (cleo_opens, cleo_closes)
";

const EARLY: &str =
    "# Three things that happen one after the other, each at least one day after the one before.
#
# Shows: a constraint of the planner's own, which keeps the last value and tests each new one against it.
#
# Prints:
#   solution
#   first 0
#   second 1
#   third 2

hkm 1

var first in 0..3
var second in 0..3
var third in 0..3

# each value is at least `gap` above the last one
spec rise (num gap)
down last Min -100
test ((last + gap) <= v)
step last v
end

post rise (1) (first, second, third)
";

const PAIRS: &str = "# Two lorries and two loading bays. The lorries are at the depot at the same
# time, so that they need different bays.
#
# Shows: the header, a variable for each decision, and one constraint.
#
# Prints:
#   solution
#   lorry_a 0
#   lorry_b 1

hkm 1

var lorry_a in 0..1    # bay 0 or bay 1
var lorry_b in 0..1

alldifferent (lorry_a, lorry_b)
";

const SHORT_WEEK: &str =
    "# Four late shifts in a short week of three days, 0 to 2. Nobody is to share a
# late shift, and four people can't have different days out of three.
#
# Shows: a model without a solution.
#
# Prints:
#   infeasible

hkm 1

var ann in 0..2
var ben in 0..2
var cleo in 0..2
var dora in 0..2

alldifferent (ann, ben, cleo, dora)
";

const CAR_SEQUENCE: &str =
    "# Eight cars on a line. The value of a place is the class of the car that is built there: 0 has no extra, 1 a
# sunroof, 2 a tow bar, and 3 has both.
#
# Shows: the demand for each class as a `gcc`, and what a station can do as a `sequence` each.
#
# Prints:
#   solution
#   first 0
#   second 1
#   third 2
#   fourth 1
#   fifth 0
#   sixth 1
#   seventh 2
#   eighth 3

hkm 1

var first in 0..3
var second in 0..3
var third in 0..3
var fourth in 0..3
var fifth in 0..3
var sixth in 0..3
var seventh in 0..3
var eighth in 0..3

# so many cars of each class are ordered
gcc (first, second, third, fourth, fifth, sixth, seventh, eighth) 0:2..2, 1:3..3, 2:2..2, 3:1..1

# the station for sunroofs can take one car of two in a row
sequence 2 (first, second, third, fourth, fifth, sixth, seventh, eighth) {1, 3} 0..1

# the station for tow bars can take two cars of five in a row
sequence 5 (first, second, third, fourth, fifth, sixth, seventh, eighth) {2..3} 0..2
";

const ROSTER: &str =
    "# Ten days of one nurse, from a Monday to the Wednesday of the week after. The value of a day is the shift: 0 is a
# day off, 1 the early shift and 2 the late one.
#
# Shows: `sequence` over any days in a row, `gcc` for how often each shift stands, `among` for some days, and an
# objective.
#
# Prints:
#   optimal 0
#   monday 0
#   tuesday 1
#   wednesday 1
#   thursday 1
#   friday 2
#   saturday 0
#   sunday 0
#   next_monday 2
#   next_tuesday 0
#   next_wednesday 2

hkm 1

var monday in 0..2
var tuesday in 0..2
var wednesday in 0..2
var thursday in 0..2
var friday in 0..2
var saturday in 0..2
var sunday in 0..2
var next_monday in 0..2
var next_tuesday in 0..2
var next_wednesday in 0..2

# in any seven days in a row, four or five are worked
sequence 7 (monday, tuesday, wednesday, thursday, friday, saturday, sunday, next_monday, next_tuesday, next_wednesday) {1, 2} 4..5

# in any two days in a row, at most one is late
sequence 2 (monday, tuesday, wednesday, thursday, friday, saturday, sunday, next_monday, next_tuesday, next_wednesday) {2} 0..1

# three or four early shifts and three late ones
gcc (monday, tuesday, wednesday, thursday, friday, saturday, sunday, next_monday, next_tuesday, next_wednesday) 1:3..4, 2:3..3

# one day of the weekend is off, or both are
among (saturday, sunday) {0} 1..2

# a quiet weekend, where a late shift counts twice
minimize (1*saturday, 1*sunday)
";

/// A host with one input, `m`, so many bytes of room for what goes out, and one reading that fails,
/// by its number from 1.
fn host_with(
    alloc: Global,
    model: &[u8],
    room: usize,
    failing: u64,
) -> Result<MemoryHost, AllocError>
    ensures { IfOk result (λ host. IsFresh (view_of host)) }
{
    let mut host = MemoryHost::new(alloc);
    host.put("m", model)?;
    host.room(Slot::Out, room)?;
    host.fail(CallKind::Reading, failing)?;
    Ok(host)
}

/// The words of a command line.
fn words_of(alloc: Global, line: &str) -> Result<Vec<String>, AllocError> {
    let mut words = Vec::new(alloc);
    for word in line.split_whitespace() {
        words.push(String::from_str(alloc, word)?)?;
    }
    Ok(words)
}

/// A model with no variables, filled with empty lines to this length.
fn padded(alloc: Global, length: usize) -> Result<Vec<u8>, AllocError> {
    let mut model = b"hkm 1\n".to_vec(alloc)?;
    model.resize(length, b'\n')?;
    Ok(model)
}

/// Whether a run on a command line answers this status and prints this text.
fn ends_with<R: Threads + Sync>(
    rt: &R,
    alloc: Global,
    line: &str,
    host: &mut MemoryHost,
    status: u8,
    text: &str,
) -> Result<bool, AllocError>
    requires { IsFresh (view_of host.old) }
{
    let words = words_of(alloc, line)?;
    let ended = run(rt, alloc, words.as_slice(), host, &Quiet);
    Ok(ended == status && host.written(Slot::Out) == text.as_bytes())
}

/// A command line, the model in `m`, and the status and the text that are due.
type Row = (&'static str, &'static str, u8, &'static str);

const ROWS: &[Row] = &[
    ("solve m", "hkm 1\n", 0, "solution\n"),
    ("solve m", PAIR, 0, "solution\nx 0\ny 1\n"),
    ("solve m", THREE, 0, "infeasible\n"),
    ("solve m", SUM, 0, "optimal 1\nx 0\ny 1\n"),
    ("solve m", LEAST, 0, "optimal -1\nx 1\ny 0\n"),
    ("solve m", LARGE, 3, "refused line 4 Limit\n"),
    ("solve m", "hkm 1\nvar x in {127}\n", 0, "solution\nx 127\n"),
    (
        "solve m",
        "hkm 1\nvar x in 0..128\n",
        3,
        "refused line 2 Limit\n",
    ),
    ("solve m", "hkm 1\nvar $\n", 3, "refused line 2 Text\n"),
    ("solve m", "hkm 2\n", 3, "refused line 1 Syntax\n"),
    ("solve m", "hkm 1\ngroup 1\n", 3, "refused line 2 Syntax\n"),
    ("solve m", "group\nhkm 1\n", 3, "refused line 1 Syntax\n"),
    ("solve m", "hkm 1\ngroup\ngroup\n", 0, "solution\n"),
    ("solve m", WINDOW, 0, "solution\nx 0\ny 0\n"),
    ("solve m", OCCURS, 0, "infeasible\n"),
    ("solve m", AMONG, 0, "solution\nx 1\ny 1\n"),
    ("solve m", TURNED, 3, "refused line 4 Scope\n"),
    ("solve m", TWICE, 3, "refused line 3 Name\n"),
    ("solve m", "", 3, "refused line 1 Unfinished\n"),
    ("solve m", RISE, 0, "solution\nx 0\ny 1\n"),
    ("solve m", RISE_BY_MAX, 3, "refused line 6 Grade\n"),
    ("solve m", AT_LEAST, 0, "solution\nx 2\n"),
    ("solve m", TWO_BOUNDS, 3, "refused line 6 Name\n"),
    ("solve m", NAIVE, 3, "refused line 5 Grade\n"),
    (
        "solve m",
        "hkm 1\nspec s ()\n",
        3,
        "refused line 3 Unfinished\n",
    ),
    ("solve q", PAIR, 4, "read fault\n"),
    ("", PAIR, 2, "usage: hkdd solve FILE\n"),
    ("solve", PAIR, 2, "usage: hkdd solve FILE\n"),
    ("solve m m", PAIR, 2, "usage: hkdd solve FILE\n"),
    ("solve m width 0", PAIR, 2, "usage: hkdd solve FILE\n"),
    (
        "solve m budget 5 width 2",
        PAIR,
        2,
        "usage: hkdd solve FILE\n",
    ),
    ("demo 01", PAIR, 2, "usage: hkdd solve FILE\n"),
];

/// The models of `examples/`, as the files have them, with the text that each comment shows.
const EXAMPLES: &[Row] = &[
    (
        "solve m",
        CAR_SEQUENCE,
        0,
        "solution\nfirst 0\nsecond 1\nthird 2\nfourth 1\nfifth 0\nsixth 1\nseventh 2\neighth 3\n",
    ),
    (
        "solve m",
        COSTS,
        0,
        "optimal 106\nann_painting 0\nben_painting 1\nann_wiring 1\nben_wiring 0\nann_cleaning 1\nben_cleaning 0\n",
    ),
    ("solve m", DIFFER, 0, "solution\nann 0\nben 1\ncleo 2\n"),
    (
        "solve m",
        DUTIES,
        0,
        "solution\nann_opens 0\nann_closes 1\nben_opens 1\nben_closes 0\ncleo_opens 2\ncleo_closes 3\n",
    ),
    (
        "solve m",
        EARLY,
        0,
        "solution\nfirst 0\nsecond 1\nthird 2\n",
    ),
    ("solve m", PAIRS, 0, "solution\nlorry_a 0\nlorry_b 1\n"),
    (
        "solve m",
        ROSTER,
        0,
        "optimal 0\nmonday 0\ntuesday 1\nwednesday 1\nthursday 1\nfriday 2\nsaturday 0\nsunday 0\nnext_monday 2\nnext_tuesday 0\nnext_wednesday 2\n",
    ),
    ("solve m", SHORT_WEEK, 0, "infeasible\n"),
];

#[test]
fn prints_what_is_due(rt: HostRuntime) -> Result<(), Fail> {
    for (line, model, status, text) in ROWS.iter().chain(EXAMPLES) {
        let mut host = host_with(rt.alloc(), model.as_bytes(), OUT_BYTES, NONE)?;
        let ended = ends_with(&rt, rt.alloc(), line, &mut host, *status, text)?;
        assert!(rt; ended, "{line:?} on {model:?}");
    }
    Ok(())
}

#[test]
fn stops_where_it_must(rt: HostRuntime) -> Result<(), Fail> {
    let rows = [
        (1_048_576, OUT_BYTES, NONE, 0, "solution\n"),
        (1_048_577, OUT_BYTES, NONE, 8, "too large\n"),
        (6, OUT_BYTES, 2, 4, "read fault\n"),
        (6, 8, NONE, 5, ""),
    ];
    for (length, room, failing, status, text) in rows {
        let model = padded(rt.alloc(), length)?;
        let mut host = host_with(rt.alloc(), model.as_slice(), room, failing)?;
        let ended = ends_with(&rt, rt.alloc(), "solve m", &mut host, status, text)?;
        assert!(rt;
            ended,
            "{length} bytes, {room} of room, reading {failing} fails"
        );
    }
    Ok(())
}
