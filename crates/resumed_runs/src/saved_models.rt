// The models that are run, and what is written of the ring.

pub(crate) use memory_runs::models::{RING, RING_LOG};

/// Its log from there up to 200.
pub(crate) const LATER_LOG: &str = "Y / 00:00:00:200 / line(0,0) / out / 0.00000
Y / 00:00:00:200 / line(0,1) / out / 0.00000
Y / 00:00:00:200 / line(0,2) / out / 0.00000
";

/// Both logs, one behind the other.
pub(crate) const WHOLE_LOG: &str = "Y / 00:00:00:000 / line(0,0) / out / 0.00000
Y / 00:00:00:000 / line(0,1) / out / 1.00000
Y / 00:00:00:000 / line(0,2) / out / 0.00000
Y / 00:00:00:100 / line(0,0) / out / 1.00000
Y / 00:00:00:100 / line(0,2) / out / 1.00000
Y / 00:00:00:200 / line(0,0) / out / 0.00000
Y / 00:00:00:200 / line(0,1) / out / 0.00000
Y / 00:00:00:200 / line(0,2) / out / 0.00000
";

/// The state of the ring at 100: six lines with 163 bytes.
pub(crate) const RING_STATE: &str = "state 1
at 00:00:00:100
cell line(0,0) 1.00000 0.00000 1 200 0.00000
cell line(0,1) 1.00000 0.00000 1 200 0.00000
cell line(0,2) 1.00000 0.00000 1 200 0.00000
end
";

/// A cell that takes values at a port.
pub(crate) const PORT_CELL: &str = "[top]
components : g
in : p
link : p in@g
[g]
type : cell
dim : (1,1)
delay : transport
defaultDelayTime : 100
border : nowrapped
initialvalue : 0
in : in
link : in v@g(0,0)
localtransition : r
[r]
rule : 0 100 { t }
";

/// A cell whose one rule compares with `?`.
pub(crate) const COMPARED: &str = "[top]
components : g
[g]
type : cell
dim : (1,1)
neighbors : g(0,0)
initialvalue : 0
localtransition : r
[r]
rule : 1 100 { (0,0) > ? }
";

/// Two generators and a queue.
pub(crate) const SERVED: &str = "[top]
components : s h@generator q@queue
out : o
link : out@h in@q
link : a@s in@q
link : b@s in@q
link : out@q o
[s]
components : g@generator
out : a b
link : out@g a
link : out@g b
[g]
value : 7
count : 1
[h]
value : 8
count : 1
";

/// A generator of three values, and a queue that gives the first when it is prepared.
pub(crate) const WAITING: &str = "[top]
components : g@generator q@queue
out : o
link : out@g in@q
link : out@q o
[g]
value : 5
step : 1
period : 00:00:00:100
count : 3
[q]
preparation : 00:00:00:150
";
