// Rows of models with further keys.
use crate::models;
use crate::rows::Row;
use memory_runs::models::RING_LOG;

/// What a cell with two ports gives.
const TWO_PORTS_LOG: &str = "Y / 00:00:00:000 / g(0,0) / out / 0.00000
N / 00:00:00:000 / g(0,0) / p / 0.00000
S / 00:00:00:000 / g(0,0) / 0.00000 / 00:00:00:100
N / 00:00:00:100 / g(0,0) / p / 1.00000
S / 00:00:00:100 / g(0,0) / 1.00000 / 00:00:00:200
Y / 00:00:00:200 / g(0,0) / out / 1.00000
N / 00:00:00:200 / g(0,0) / p / 2.00000
S / 00:00:00:200 / g(0,0) / 1.00000 / ...
";

/// What a cell gives that counts down.
const COUNTS_DOWN_LOG: &str = "Y / 00:00:00:000 / g(0,0) / out / 0.00000
Y / 00:00:00:100 / g(0,0) / out / 3.00000
Y / 00:00:00:200 / g(0,0) / out / 2.00000
Y / 00:00:00:300 / g(0,0) / out / 1.00000
Y / 00:00:00:400 / g(0,0) / out / 9.00000
";

/// What three cells in two zones give.
const ZONES_LOG: &str = "Y / 00:00:00:000 / line(0,0) / out / 0.00000
Y / 00:00:00:000 / line(0,1) / out / 0.00000
Y / 00:00:00:000 / line(0,2) / out / 0.00000
Y / 00:00:00:100 / line(0,0) / out / 1.00000
Y / 00:00:00:100 / line(0,1) / out / 1.00000
";

/// What three cells give, of which the middle one counts the others.
const REPLACED_LOG: &str = "Y / 00:00:00:000 / line(0,0) / out / 0.00000
Y / 00:00:00:000 / line(0,1) / out / 0.00000
Y / 00:00:00:000 / line(0,2) / out / 0.00000
Y / 00:00:00:010 / line(0,0) / out / 1.00000
Y / 00:00:00:030 / line(0,2) / out / 1.00000
Y / 00:00:00:130 / line(0,1) / out / 2.00000
";

/// Models with further keys.
pub(crate) const FURTHER_KEYS: [Row<'static>; 5] = [
    Row {
        files: &[("m.ma", models::SHOUTED)],
        words: "cdpp -m m.ma -t 00:00:00:100 -l log.txt",
        status: 0,
        shown: "end 00:00:00:100 cycles 2\n",
        complained: "",
        made: &[("log.txt", RING_LOG)],
    },
    Row {
        files: &[("m.ma", models::TWO_PORTS)],
        words: "cdpp -m m.ma -t 00:00:01:000 -l log.txt -L YNS",
        status: 0,
        shown: "end 00:00:01:000 cycles 3\n",
        complained: "",
        made: &[("log.txt", TWO_PORTS_LOG)],
    },
    Row {
        files: &[("m.ma", models::COUNTS_DOWN)],
        words: "cdpp -m m.ma -t 00:00:01:000 -l log.txt",
        status: 0,
        shown: "end 00:00:01:000 cycles 5\n",
        complained: "",
        made: &[("log.txt", COUNTS_DOWN_LOG)],
    },
    Row {
        files: &[("m.ma", models::ZONES)],
        words: "cdpp -m m.ma -t 00:00:00:100 -l log.txt",
        status: 0,
        shown: "end 00:00:00:100 cycles 2\n",
        complained: "",
        made: &[("log.txt", ZONES_LOG)],
    },
    Row {
        files: &[("m.ma", models::REPLACED)],
        words: "cdpp -m m.ma -t 00:00:00:200 -l log.txt",
        status: 0,
        shown: "end 00:00:00:200 cycles 4\n",
        complained: "",
        made: &[("log.txt", REPLACED_LOG)],
    },
];

/// A light that takes an event before it changes by itself, and one at that very time.
pub(crate) const LIGHTS: [Row<'static>; 2] = [
    Row {
        files: &[
            ("m.ma", models::LIGHT),
            ("events.txt", "00:00:00:040 p 9\n"),
        ],
        words: "cdpp -m m.ma -t 00:00:00:100 -e events.txt -o out.txt",
        status: 0,
        shown: "end 00:00:00:100 cycles 3\n",
        complained: "",
        made: &[(
            "out.txt",
            "00:00:00:030 o 1.00000\n00:00:00:070 o 1.00000\n",
        )],
    },
    Row {
        files: &[
            ("m.ma", models::LIGHT),
            ("events.txt", "00:00:00:030 p 9\n"),
        ],
        words: "cdpp -m m.ma -t 00:00:00:100 -e events.txt -o out.txt",
        status: 0,
        shown: "end 00:00:00:100 cycles 2\n",
        complained: "",
        made: &[(
            "out.txt",
            "00:00:00:030 o 1.00000\n00:00:00:060 o 1.00000\n",
        )],
    },
];
