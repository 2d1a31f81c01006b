// The models that are run, and what their runs make.

pub(crate) use memory_runs::models::{RING, RING_LOG};

/// Life with a blinker.
pub(crate) const LIFE: &str = "[Top]
components : Life
[Life]          % Conway
type : cell
width : 5
height : 5
delay : transport
defaultDelayTime : 100
border : wrapped
neighbors : life(-1,-1) life(-1,0) life(-1,1)
neighbors : life(0,-1) life(0,0) life(0,1)
neighbors : life(1,-1) life(1,0) life(1,1)
initialvalue : 0
initialrowvalue : 2 01110
localtransition : life-rule
[life-rule]
rule : 1 100 { (0,0) = 1 and
   (trueCount = 3 or trueCount = 4) }
rule : 1 100 { (0,0) = 0 and trueCount = 3 }
rule : 0 100 { t }
";

/// The log of the blinker up to 300.
pub(crate) const LIFE_LOG: &str = "Y / 00:00:00:000 / life(0,0) / out / 0.00000
Y / 00:00:00:000 / life(0,1) / out / 0.00000
Y / 00:00:00:000 / life(0,2) / out / 0.00000
Y / 00:00:00:000 / life(0,3) / out / 0.00000
Y / 00:00:00:000 / life(0,4) / out / 0.00000
Y / 00:00:00:000 / life(1,0) / out / 0.00000
Y / 00:00:00:000 / life(1,1) / out / 0.00000
Y / 00:00:00:000 / life(1,2) / out / 0.00000
Y / 00:00:00:000 / life(1,3) / out / 0.00000
Y / 00:00:00:000 / life(1,4) / out / 0.00000
Y / 00:00:00:000 / life(2,0) / out / 0.00000
Y / 00:00:00:000 / life(2,1) / out / 1.00000
Y / 00:00:00:000 / life(2,2) / out / 1.00000
Y / 00:00:00:000 / life(2,3) / out / 1.00000
Y / 00:00:00:000 / life(2,4) / out / 0.00000
Y / 00:00:00:000 / life(3,0) / out / 0.00000
Y / 00:00:00:000 / life(3,1) / out / 0.00000
Y / 00:00:00:000 / life(3,2) / out / 0.00000
Y / 00:00:00:000 / life(3,3) / out / 0.00000
Y / 00:00:00:000 / life(3,4) / out / 0.00000
Y / 00:00:00:000 / life(4,0) / out / 0.00000
Y / 00:00:00:000 / life(4,1) / out / 0.00000
Y / 00:00:00:000 / life(4,2) / out / 0.00000
Y / 00:00:00:000 / life(4,3) / out / 0.00000
Y / 00:00:00:000 / life(4,4) / out / 0.00000
Y / 00:00:00:100 / life(1,2) / out / 1.00000
Y / 00:00:00:100 / life(2,1) / out / 0.00000
Y / 00:00:00:100 / life(2,3) / out / 0.00000
Y / 00:00:00:100 / life(3,2) / out / 1.00000
Y / 00:00:00:200 / life(1,2) / out / 0.00000
Y / 00:00:00:200 / life(2,1) / out / 1.00000
Y / 00:00:00:200 / life(2,3) / out / 1.00000
Y / 00:00:00:200 / life(3,2) / out / 0.00000
Y / 00:00:00:300 / life(1,2) / out / 1.00000
Y / 00:00:00:300 / life(2,1) / out / 0.00000
Y / 00:00:00:300 / life(2,3) / out / 0.00000
Y / 00:00:00:300 / life(3,2) / out / 1.00000
";

/// Its frames.
pub(crate) const LIFE_FRAMES: &str = "Time: 00:00:00:000
+----------+
| 0 0 0 0 0|
| 0 0 0 0 0|
| 0 1 1 1 0|
| 0 0 0 0 0|
| 0 0 0 0 0|
+----------+

Time: 00:00:00:100
+----------+
| 0 0 0 0 0|
| 0 0 1 0 0|
| 0 0 1 0 0|
| 0 0 1 0 0|
| 0 0 0 0 0|
+----------+

Time: 00:00:00:200
+----------+
| 0 0 0 0 0|
| 0 0 0 0 0|
| 0 1 1 1 0|
| 0 0 0 0 0|
| 0 0 0 0 0|
+----------+

Time: 00:00:00:300
+----------+
| 0 0 0 0 0|
| 0 0 1 0 0|
| 0 0 1 0 0|
| 0 0 1 0 0|
| 0 0 0 0 0|
+----------+

";

/// A cell that takes values at a port, each with a delay up to 110.
pub(crate) const LATE: &str = "[top]
components : g
in : p
link : p in@g
[g]
type : cell
dim : (1,1)
delay : transport
defaultDelayTime : 100
border : nowrapped
initialvalue : 0
in : in
link : in v@g(0,0)
portInTransition : v@g(0,0) pr
localtransition : r
[r]
rule : 0 100 { t }
[pr]
rule : { portValue(thisPort) } { 110 - time } { t }
";

/// Values of which the third comes after 110.
pub(crate) const LATE_EVENTS: &str = "00:00:00:010 p 1
00:00:00:060 p 2
00:00:00:120 p 3
";

/// The log of the cell up to the third value.
pub(crate) const LATE_LOG: &str = "Y / 00:00:00:000 / g(0,0) / out / 0.00000
Y / 00:00:00:110 / g(0,0) / out / 2.00000
";

/// Two generators, of which one stands in a coupled model, and a queue.
pub(crate) const BOXES: &str = "[top]
components : s h@generator q@queue
out : o
link : out@h in@q
link : a@s in@q
link : b@s in@q
link : out@q o
[s]
components : g@generator
out : a b
link : out@g a
link : out@g b
[g]
value : 7
count : 1
[h]
value : 8
count : 1
";

/// Their log.
pub(crate) const BOXES_LOG: &str = "Y / 00:00:00:000 / g / out / 7.00000
Y / 00:00:00:000 / h / out / 8.00000
X / 00:00:00:000 / q / in / 8.00000
X / 00:00:00:000 / q / in / 7.00000
X / 00:00:00:000 / q / in / 7.00000
S / 00:00:00:000 / g / - / ...
S / 00:00:00:000 / h / - / ...
S / 00:00:00:000 / q / - / 00:00:00:000
Y / 00:00:00:000 / q / out / 8.00000
S / 00:00:00:000 / q / - / ...
";
