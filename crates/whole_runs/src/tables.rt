// Rows of runs of `cdpp`: words, models and events, and what is answered to them.
use crate::models;
use crate::rows::Row;
use memory_runs::models::{RING, RING_LOG, SERVED, USAGE};

/// The ring under several words, and a blinker that is drawn.
pub(crate) const CELLS_FOLLOW_THEIR_NEIGHBOURS: [Row<'static>; 4] = [
    Row {
        files: &[("row1.ma", RING)],
        words: "cdpp -m row1.ma -t 00:00:00:100 -l log.txt",
        status: 0,
        shown: "end 00:00:00:100 cycles 2\n",
        complained: "",
        made: &[("log.txt", RING_LOG)],
    },
    Row {
        files: &[("row1.ma", RING)],
        words: "cdpp -mrow1.ma -l=log.txt -t0:0:0:100",
        status: 0,
        shown: "end 00:00:00:100 cycles 2\n",
        complained: "",
        made: &[("log.txt", RING_LOG)],
    },
    Row {
        files: &[("row1.ma", RING)],
        words: "cdpp -m row1.ma -t 00:00:00:100 -l log.txt -L YS",
        status: 0,
        shown: "end 00:00:00:100 cycles 2\n",
        complained: "",
        made: &[(
            "log.txt",
            "Y / 00:00:00:000 / line(0,0) / out / 0.00000
Y / 00:00:00:000 / line(0,1) / out / 1.00000
Y / 00:00:00:000 / line(0,2) / out / 0.00000
S / 00:00:00:000 / line(0,0) / 1.00000 / 00:00:00:100
S / 00:00:00:000 / line(0,1) / 1.00000 / ...
S / 00:00:00:000 / line(0,2) / 1.00000 / 00:00:00:100
Y / 00:00:00:100 / line(0,0) / out / 1.00000
Y / 00:00:00:100 / line(0,2) / out / 1.00000
S / 00:00:00:100 / line(0,0) / 0.00000 / 00:00:00:200
S / 00:00:00:100 / line(0,1) / 0.00000 / 00:00:00:200
S / 00:00:00:100 / line(0,2) / 0.00000 / 00:00:00:200
",
        )],
    },
    Row {
        files: &[("life.ma", models::LIFE)],
        words: "cdpp -m life.ma -t 00:00:00:300 -l log.txt -d f.txt -g Life -w 2",
        status: 0,
        shown: "end 00:00:00:300 cycles 4\n",
        complained: "",
        made: &[
            ("log.txt", models::LIFE_LOG),
            (
                "f.txt",
                "Time: 00:00:00:000
+----------+
| 0 0 0 0 0|
| 0 0 0 0 0|
| 0 1 1 1 0|
| 0 0 0 0 0|
| 0 0 0 0 0|
+----------+

Time: 00:00:00:100
+----------+
| 0 0 0 0 0|
| 0 0 1 0 0|
| 0 0 1 0 0|
| 0 0 1 0 0|
| 0 0 0 0 0|
+----------+

Time: 00:00:00:200
+----------+
| 0 0 0 0 0|
| 0 0 0 0 0|
| 0 1 1 1 0|
| 0 0 0 0 0|
| 0 0 0 0 0|
+----------+

Time: 00:00:00:300
+----------+
| 0 0 0 0 0|
| 0 0 1 0 0|
| 0 0 1 0 0|
| 0 0 1 0 0|
| 0 0 0 0 0|
+----------+

",
            ),
        ],
    },
];

/// Neighbours that are one cell, that lie on one side alone, and that are beyond the border.
pub(crate) const CELLS_SEE_WHAT_LIES_AROUND_THEM: [Row<'static>; 3] = [
    Row {
        files: &[("pair.ma", models::PAIR)],
        words: "cdpp -m pair.ma -t 00:00:00:100 -l log.txt -L YS",
        status: 0,
        shown: "end 00:00:00:100 cycles 2\n",
        complained: "",
        made: &[(
            "log.txt",
            "Y / 00:00:00:000 / line(0,0) / out / 0.00000
Y / 00:00:00:000 / line(0,1) / out / 1.00000
S / 00:00:00:000 / line(0,0) / 1.00000 / 00:00:00:100
S / 00:00:00:000 / line(0,1) / 0.00000 / 00:00:00:100
Y / 00:00:00:100 / line(0,0) / out / 1.00000
Y / 00:00:00:100 / line(0,1) / out / 0.00000
S / 00:00:00:100 / line(0,0) / 0.00000 / 00:00:00:200
S / 00:00:00:100 / line(0,1) / 1.00000 / 00:00:00:200
",
        )],
    },
    Row {
        files: &[("side.ma", models::ONE_SIDE)],
        words: "cdpp -m side.ma -t 00:00:00:200 -l log.txt -L YS",
        status: 0,
        shown: "end 00:00:00:200 cycles 3\n",
        complained: "",
        made: &[(
            "log.txt",
            "Y / 00:00:00:000 / line(0,0) / out / 0.00000
Y / 00:00:00:000 / line(0,1) / out / 0.00000
Y / 00:00:00:000 / line(0,2) / out / 1.00000
S / 00:00:00:000 / line(0,0) / 0.00000 / ...
S / 00:00:00:000 / line(0,1) / 1.00000 / 00:00:00:100
S / 00:00:00:000 / line(0,2) / 1.00000 / ...
Y / 00:00:00:100 / line(0,1) / out / 1.00000
S / 00:00:00:100 / line(0,0) / 1.00000 / 00:00:00:200
S / 00:00:00:100 / line(0,1) / 1.00000 / ...
Y / 00:00:00:200 / line(0,0) / out / 1.00000
S / 00:00:00:200 / line(0,0) / 1.00000 / ...
",
        )],
    },
    Row {
        files: &[("corner.ma", models::CORNERS)],
        words: "cdpp -m corner.ma -t 00:00:00:100 -l log.txt",
        status: 0,
        shown: "end 00:00:00:100 cycles 2\n",
        complained: "",
        made: &[(
            "log.txt",
            "Y / 00:00:00:000 / life(0,0) / out / 0.00000
Y / 00:00:00:000 / life(0,1) / out / 0.00000
Y / 00:00:00:000 / life(1,0) / out / 0.00000
Y / 00:00:00:000 / life(1,1) / out / 0.00000
Y / 00:00:00:100 / life(0,0) / out / 5.00000
Y / 00:00:00:100 / life(0,1) / out / 5.00000
Y / 00:00:00:100 / life(1,0) / out / 5.00000
Y / 00:00:00:100 / life(1,1) / out / 5.00000
",
        )],
    },
];

/// A cell with a port: its delays, its rule, a delay below zero, and events that are sorted and
/// skipped.
pub(crate) const VALUES_COME_AT_PORTS: [Row<'static>; 5] = [
    Row {
        files: &[
            ("port.ma", models::PORT_CELL),
            (
                "events.txt",
                "00:00:00:010 p 1
00:00:00:050 p 0
",
            ),
        ],
        words: "cdpp -m port.ma -t 00:00:00:200 -e events.txt -l log.txt",
        status: 0,
        shown: "end 00:00:00:200 cycles 5\n",
        complained: "",
        made: &[(
            "log.txt",
            "Y / 00:00:00:000 / g(0,0) / out / 0.00000
Y / 00:00:00:110 / g(0,0) / out / 1.00000
Y / 00:00:00:150 / g(0,0) / out / 0.00000
",
        )],
    },
    Row {
        files: &[
            ("port.ma", models::LATE_CELL),
            (
                "events.txt",
                "00:00:00:010 p 1
00:00:00:050 p 0
",
            ),
        ],
        words: "cdpp -m port.ma -t 00:00:00:200 -e events.txt -l log.txt",
        status: 0,
        shown: "end 00:00:00:200 cycles 4\n",
        complained: "",
        made: &[(
            "log.txt",
            "Y / 00:00:00:000 / g(0,0) / out / 0.00000
Y / 00:00:00:150 / g(0,0) / out / 0.00000
",
        )],
    },
    Row {
        files: &[
            ("port.ma", models::PORT_RULE),
            (
                "events.txt",
                "00:00:00:010 p 1
00:00:00:060 p 2
",
            ),
        ],
        words: "cdpp -m port.ma -t 00:00:00:200 -e events.txt -l log.txt",
        status: 0,
        shown: "end 00:00:00:200 cycles 4\n",
        complained: "",
        made: &[(
            "log.txt",
            "Y / 00:00:00:000 / g(0,0) / out / 0.00000
Y / 00:00:00:110 / g(0,0) / out / 2.00000
",
        )],
    },
    Row {
        files: &[
            ("port.ma", models::PORT_RULE),
            (
                "events.txt",
                "00:00:00:010 p 1
00:00:00:060 p 2
00:00:00:120 p 3
",
            ),
        ],
        words: "cdpp -m port.ma -t 00:00:00:200 -e events.txt -l log.txt",
        status: 10,
        shown: "",
        complained: "bad delay: g(0,0) at 00:00:00:120: -10.00000\n",
        made: &[(
            "log.txt",
            "Y / 00:00:00:000 / g(0,0) / out / 0.00000
Y / 00:00:00:110 / g(0,0) / out / 2.00000
",
        )],
    },
    Row {
        files: &[
            ("port.ma", models::PORT_CELL),
            (
                "events.txt",
                "00:00:00:050 p 2
00:00:00:010 p 1
00:00:00:050 p 3
00:00:00:051 p 4
",
            ),
        ],
        words: "cdpp -m port.ma -t 00:00:00:050 -e events.txt -l log.txt -L YXS",
        status: 0,
        shown: "end 00:00:00:050 cycles 3\n",
        complained: "",
        made: &[(
            "log.txt",
            "Y / 00:00:00:000 / g(0,0) / out / 0.00000
S / 00:00:00:000 / g(0,0) / 0.00000 / ...
X / 00:00:00:010 / g(0,0) / v / 1.00000
S / 00:00:00:010 / g(0,0) / 1.00000 / 00:00:00:110
X / 00:00:00:050 / g(0,0) / v / 2.00000
X / 00:00:00:050 / g(0,0) / v / 3.00000
S / 00:00:00:050 / g(0,0) / 3.00000 / 00:00:00:110
",
        )],
    },
];

/// Runs that a limit, a rule or a value stops, and the largest value.
pub(crate) const RUNS_STOP_EARLY: [Row<'static>; 9] = [
    Row {
        files: &[("k.ma", models::FLIPPING)],
        words: "cdpp -m k.ma -t 00:00:00:100 -l log.txt -c 5",
        status: 11,
        shown: "",
        complained: "too many cycles: limit 5 at 00:00:00:000\n",
        made: &[(
            "log.txt",
            "Y / 00:00:00:000 / g(0,0) / out / 0.00000
Y / 00:00:00:000 / g(0,0) / out / 1.00000
Y / 00:00:00:000 / g(0,0) / out / 0.00000
Y / 00:00:00:000 / g(0,0) / out / 1.00000
Y / 00:00:00:000 / g(0,0) / out / 0.00000
",
        )],
    },
    Row {
        files: &[("k.ma", models::COMPARED)],
        words: "cdpp -m k.ma -t 00:00:00:100 -l log.txt -o out.txt",
        status: 8,
        shown: "",
        complained: "no true rule: g(0,0) at 00:00:00:000\n",
        made: &[("log.txt", ""), ("out.txt", "")],
    },
    Row {
        files: &[("k.ma", models::TOO_LARGE)],
        words: "cdpp -m k.ma -t 00:00:00:100 -l log.txt",
        status: 9,
        shown: "",
        complained: "overflow: g(0,0) at 00:00:00:000\n",
        made: &[("log.txt", "")],
    },
    Row {
        files: &[("k.ma", models::LARGEST)],
        words: "cdpp -m k.ma -t 00:00:00:100 -l log.txt",
        status: 0,
        shown: "end 00:00:00:100 cycles 2\n",
        complained: "",
        made: &[(
            "log.txt",
            "Y / 00:00:00:000 / g(0,0) / out / 0.00000
Y / 00:00:00:100 / g(0,0) / out / 10000000000.00000
",
        )],
    },
    Row {
        files: &[("c.ma", models::COUNTING)],
        words: "cdpp -m c.ma -t 00:00:01:000 -l log.txt -o out.txt",
        status: 9,
        shown: "",
        complained: "overflow: c at 00:00:00:010\n",
        made: &[
            (
                "log.txt",
                "Y / 00:00:00:000 / g / out / 1.00000
Y / 00:00:00:000 / c / out / 6000000000.00000
",
            ),
            (
                "out.txt",
                "00:00:00:000 o 6000000000.00000
",
            ),
        ],
    },
    Row {
        files: &[("k.ma", models::BACK)],
        words: "cdpp -m k.ma -t 00:00:00:100 -l log.txt",
        status: 10,
        shown: "",
        complained: "bad delay: g(0,0) at 00:00:00:000: -10.00000\n",
        made: &[("log.txt", "")],
    },
    Row {
        files: &[("k.ma", models::NO_TIME)],
        words: "cdpp -m k.ma -t 00:00:00:100 -l log.txt",
        status: 10,
        shown: "",
        complained: "bad delay: g(0,0) at 00:00:00:000: ?\n",
        made: &[("log.txt", "")],
    },
    Row {
        files: &[("k.ma", models::HALF)],
        words: "cdpp -m k.ma -t 00:00:00:100 -l log.txt",
        status: 10,
        shown: "",
        complained: "bad delay: g(0,0) at 00:00:00:000: 0.50000\n",
        made: &[("log.txt", "")],
    },
    Row {
        files: &[("k.ma", models::GROWING)],
        words: "cdpp -m k.ma -t 00:00:00:100 -l log.txt",
        status: 9,
        shown: "",
        complained: "overflow: g at 00:00:00:000\n",
        made: &[("log.txt", "")],
    },
];

/// Generators with a queue, and a queue alone.
pub(crate) const BOXES_SERVE: [Row<'static>; 2] = [
    Row {
        files: &[("t.ma", SERVED)],
        words: "cdpp -m t.ma -t 00:00:00:000 -l log.txt -o out.txt -L YXS",
        status: 0,
        shown: "end 00:00:00:000 cycles 2\n",
        complained: "",
        made: &[
            (
                "log.txt",
                "Y / 00:00:00:000 / g / out / 7.00000
Y / 00:00:00:000 / h / out / 8.00000
X / 00:00:00:000 / q / in / 8.00000
X / 00:00:00:000 / q / in / 7.00000
X / 00:00:00:000 / q / in / 7.00000
S / 00:00:00:000 / g / - / ...
S / 00:00:00:000 / h / - / ...
S / 00:00:00:000 / q / - / 00:00:00:000
Y / 00:00:00:000 / q / out / 8.00000
S / 00:00:00:000 / q / - / ...
",
            ),
            (
                "out.txt",
                "00:00:00:000 o 8.00000
",
            ),
        ],
    },
    Row {
        files: &[(
            "t.ma",
            "[top]
components : q@queue
",
        )],
        words: "cdpp -m t.ma -t 00:00:00:100",
        status: 0,
        shown: "end 00:00:00:100 cycles 0\n",
        complained: "",
        made: &[],
    },
];

/// A plane that is drawn, a file of values that is missing, and a plane that is not there.
pub(crate) const PLANES_ARE_DRAWN: [Row<'static>; 3] = [
    Row {
        files: &[
            ("m.ma", models::PLANES),
            (
                "v.val",
                "(0,0,1) = -0.4
(0,1,1) = 12
",
            ),
        ],
        words: "cdpp -m m.ma -t 00:00:00:000 -d f.txt -g g -f 1",
        status: 0,
        shown: "end 00:00:00:000 cycles 1\n",
        complained: "",
        made: &[(
            "f.txt",
            "Time: 00:00:00:000
+------+
|  0 12|
+------+

",
        )],
    },
    Row {
        files: &[("m.ma", models::PLANES)],
        words: "cdpp -m m.ma -t 00:00:00:000 -d f.txt -g g -f 1",
        status: 3,
        shown: "",
        complained: "missing: v.val\n",
        made: &[],
    },
    Row {
        files: &[
            ("m.ma", models::PLANES),
            (
                "v.val",
                "(0,0,1) = -0.4
(0,1,1) = 12
",
            ),
        ],
        words: "cdpp -m m.ma -t 00:00:00:000 -d f.txt -g g -f 2",
        status: 6,
        shown: "",
        complained: "model refused: line 0: 29 NoSuchPlane\n",
        made: &[],
    },
];

/// Words that are refused with the line of usage.
pub(crate) const WORDS_ARE_REFUSED: [Row<'static>; 4] = [
    Row {
        files: &[("row1.ma", RING)],
        words: "cdpp -m row1.ma",
        status: 2,
        shown: "",
        complained: USAGE,
        made: &[],
    },
    Row {
        files: &[("row1.ma", RING)],
        words: "cdpp -h",
        status: 2,
        shown: "",
        complained: USAGE,
        made: &[],
    },
    Row {
        files: &[("row1.ma", RING)],
        words: "cdpp -m row1.ma -t 00:00:00:100 -l row1.ma",
        status: 2,
        shown: "",
        complained: USAGE,
        made: &[],
    },
    Row {
        files: &[("row1.ma", RING)],
        words: "cdpp -G 4 -t 00:00:01:000",
        status: 2,
        shown: "",
        complained: USAGE,
        made: &[],
    },
];

/// Files that are missing, and events that are refused.
pub(crate) const FILES_ARE_REFUSED: [Row<'static>; 4] = [
    Row {
        files: &[],
        words: "cdpp -m row1.ma -t 00:00:00:100 -l log.txt",
        status: 3,
        shown: "",
        complained: "missing: row1.ma\n",
        made: &[],
    },
    Row {
        files: &[("port.ma", models::PORT_CELL)],
        words: "cdpp -m port.ma -t 00:00:00:100 -e events.txt -l log.txt",
        status: 3,
        shown: "",
        complained: "missing: events.txt\n",
        made: &[],
    },
    Row {
        files: &[
            ("port.ma", models::PORT_CELL),
            (
                "events.txt",
                "00:00:00:010 q 1
",
            ),
        ],
        words: "cdpp -m port.ma -t 00:00:00:100 -e events.txt -l log.txt",
        status: 7,
        shown: "",
        complained: "events refused: line 1: 2 UnknownPort\n",
        made: &[],
    },
    Row {
        files: &[
            ("port.ma", models::PORT_CELL),
            (
                "events.txt",
                "00:60:00:000 p 1
",
            ),
        ],
        words: "cdpp -m port.ma -t 00:00:00:100 -e events.txt -l log.txt",
        status: 7,
        shown: "",
        complained: "events refused: line 1: 1 BadEventLine\n",
        made: &[],
    },
];

/// Models that the program makes itself.
pub(crate) const MODELS_ARE_MADE: [Row<'static>; 2] = [
    Row {
        files: &[],
        words: "cdpp -G 5 -t 00:00:00:300",
        status: 0,
        shown: "made 5 cells 25 cycles 4 y 37 s 88 ones 3\n",
        complained: "",
        made: &[],
    },
    Row {
        files: &[],
        words: "cdpp -G 100 -t 00:00:01:000",
        status: 0,
        shown: "made 100 cells 10000 cycles 11 y 26000 s 94000 ones 1200\n",
        complained: "",
        made: &[],
    },
];
