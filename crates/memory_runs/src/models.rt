// Models that several crates of tests run, and what they say.

/// Three cells in a ring: a cell is 1 where one of the three is.
pub const RING: &str = "[top]
components : line
[line]
type : cell
dim : (1,3)
delay : transport
defaultDelayTime : 100
border : wrapped
neighbors : line(0,-1) line(0,0) line(0,1)
initialvalue : 0
initialrowvalue : 0 010
localtransition : r
[r]
rule : 1 100 { truecount = 1 }
rule : 0 100 { t }
";

/// The log of the ring: five lines of 45 bytes.
pub const RING_LOG: &str = "Y / 00:00:00:000 / line(0,0) / out / 0.00000
Y / 00:00:00:000 / line(0,1) / out / 1.00000
Y / 00:00:00:000 / line(0,2) / out / 0.00000
Y / 00:00:00:100 / line(0,0) / out / 1.00000
Y / 00:00:00:100 / line(0,2) / out / 1.00000
";

/// Two generators and a queue.
pub const SERVED: &str = "[top]
components : s h@generator q@queue
out : o
link : out@h in@q
link : a@s in@q
link : b@s in@q
link : out@q o
[s]
components : g@generator
out : a b
link : out@g a
link : out@g b
[g]
value : 7
count : 1
[h]
value : 8
count : 1
";

/// How words are refused of `cdpp`.
pub const USAGE: &str =
    "usage: cdpp (-m MODEL | -G N) -t END [-e EVENTS] [-l LOG] [-o OUT] [-d FRAMES -g GROUP] [-L LETTERS] [-c LIMIT] [-w WIDTH] [-p DECIMALS] [-f PLANE] [-T SEED] [-S SAVE] [-R STATE]\n";
