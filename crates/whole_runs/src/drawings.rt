// Rows of runs of `drawlog`: words and logs, and what is answered to them.
use crate::rows::Row;
use memory_runs::models::RING_LOG;

/// The log of the ring without its last three bytes.
const CUT_LOG: &str = "Y / 00:00:00:000 / line(0,0) / out / 0.00000
Y / 00:00:00:000 / line(0,1) / out / 1.00000
Y / 00:00:00:000 / line(0,2) / out / 0.00000
Y / 00:00:00:100 / line(0,0) / out / 1.00000
Y / 00:00:00:100 / line(0,2) / out / 1.000";

/// The frames of the ring, two characters a cell.
const FRAMES: &str = "Time: 00:00:00:000
+------+
| 0 1 0|
+------+

Time: 00:00:00:100
+------+
| 1 1 1|
+------+

";

/// How words are refused.
const USAGE: &str = "usage: drawlog -l LOG -g GROUP -s SIZE [-w WIDTH] [-p DECIMALS] [-f PLANE]\n";

/// The log of the ring that is drawn, one that is cut, one of another size, one that is missing,
/// and words that are refused.
pub(crate) const DRAWINGS: [Row<'static>; 7] = [
    Row {
        files: &[("log.txt", RING_LOG)],
        words: "drawlog -l log.txt -g line -s 1,3 -w 2",
        status: 0,
        shown: FRAMES,
        complained: "",
        made: &[],
    },
    Row {
        files: &[("log.txt", CUT_LOG)],
        words: "drawlog -l log.txt -g line -s 1,3 -w 2",
        status: 13,
        shown: "",
        complained: "log refused: line 5\n",
        made: &[],
    },
    Row {
        files: &[("log.txt", RING_LOG)],
        words: "drawlog -l log.txt -g line -s 1,2 -w 2",
        status: 13,
        shown: "",
        complained: "log refused: line 3\n",
        made: &[],
    },
    Row {
        files: &[],
        words: "drawlog -l log.txt -g line -s 1,3 -w 2",
        status: 3,
        shown: "",
        complained: "missing: log.txt\n",
        made: &[],
    },
    Row {
        files: &[("log.txt", RING_LOG)],
        words: "drawlog -l log.txt -g line",
        status: 2,
        shown: "",
        complained: USAGE,
        made: &[],
    },
    Row {
        files: &[("log.txt", RING_LOG)],
        words: "drawlog -l log.txt -g line -s 0,3",
        status: 2,
        shown: "",
        complained: USAGE,
        made: &[],
    },
    Row {
        files: &[("log.txt", RING_LOG)],
        words: "drawlog -l log.txt -g line -s 1,3 -f 1",
        status: 2,
        shown: "",
        complained: USAGE,
        made: &[],
    },
];
