// The models that are run, and long logs of them.

/// Life with a blinker, a comment, capitals, and a rule over two lines.
pub(crate) const LIFE: &str = "[Top]
components : Life
[Life]          % Conway
type : cell
width : 5
height : 5
delay : transport
defaultDelayTime : 100
border : wrapped
neighbors : life(-1,-1) life(-1,0) life(-1,1)
neighbors : life(0,-1) life(0,0) life(0,1)
neighbors : life(1,-1) life(1,0) life(1,1)
initialvalue : 0
initialrowvalue : 2 01110
localtransition : life-rule
[life-rule]
rule : 1 100 { (0,0) = 1 and
   (trueCount = 3 or trueCount = 4) }
rule : 1 100 { (0,0) = 0 and trueCount = 3 }
rule : 0 100 { t }
";

/// The log of the blinker up to 300.
pub(crate) const LIFE_LOG: &str = "Y / 00:00:00:000 / life(0,0) / out / 0.00000
Y / 00:00:00:000 / life(0,1) / out / 0.00000
Y / 00:00:00:000 / life(0,2) / out / 0.00000
Y / 00:00:00:000 / life(0,3) / out / 0.00000
Y / 00:00:00:000 / life(0,4) / out / 0.00000
Y / 00:00:00:000 / life(1,0) / out / 0.00000
Y / 00:00:00:000 / life(1,1) / out / 0.00000
Y / 00:00:00:000 / life(1,2) / out / 0.00000
Y / 00:00:00:000 / life(1,3) / out / 0.00000
Y / 00:00:00:000 / life(1,4) / out / 0.00000
Y / 00:00:00:000 / life(2,0) / out / 0.00000
Y / 00:00:00:000 / life(2,1) / out / 1.00000
Y / 00:00:00:000 / life(2,2) / out / 1.00000
Y / 00:00:00:000 / life(2,3) / out / 1.00000
Y / 00:00:00:000 / life(2,4) / out / 0.00000
Y / 00:00:00:000 / life(3,0) / out / 0.00000
Y / 00:00:00:000 / life(3,1) / out / 0.00000
Y / 00:00:00:000 / life(3,2) / out / 0.00000
Y / 00:00:00:000 / life(3,3) / out / 0.00000
Y / 00:00:00:000 / life(3,4) / out / 0.00000
Y / 00:00:00:000 / life(4,0) / out / 0.00000
Y / 00:00:00:000 / life(4,1) / out / 0.00000
Y / 00:00:00:000 / life(4,2) / out / 0.00000
Y / 00:00:00:000 / life(4,3) / out / 0.00000
Y / 00:00:00:000 / life(4,4) / out / 0.00000
Y / 00:00:00:100 / life(1,2) / out / 1.00000
Y / 00:00:00:100 / life(2,1) / out / 0.00000
Y / 00:00:00:100 / life(2,3) / out / 0.00000
Y / 00:00:00:100 / life(3,2) / out / 1.00000
Y / 00:00:00:200 / life(1,2) / out / 0.00000
Y / 00:00:00:200 / life(2,1) / out / 1.00000
Y / 00:00:00:200 / life(2,3) / out / 1.00000
Y / 00:00:00:200 / life(3,2) / out / 0.00000
Y / 00:00:00:300 / life(1,2) / out / 1.00000
Y / 00:00:00:300 / life(2,1) / out / 0.00000
Y / 00:00:00:300 / life(2,3) / out / 0.00000
Y / 00:00:00:300 / life(3,2) / out / 1.00000
";

/// A cell that takes values at a port.
pub(crate) const PORT_CELL: &str = "[top]
components : g
in : p
link : p in@g
[g]
type : cell
dim : (1,1)
delay : transport
defaultDelayTime : 100
border : nowrapped
initialvalue : 0
in : in
link : in v@g(0,0)
localtransition : r
[r]
rule : 0 100 { t }
";

/// The same with an inertial delay.
pub(crate) const LATE_CELL: &str = "[top]
components : g
in : p
link : p in@g
[g]
type : cell
dim : (1,1)
delay : inertial
defaultDelayTime : 100
border : nowrapped
initialvalue : 0
in : in
link : in v@g(0,0)
localtransition : r
[r]
rule : 0 100 { t }
";

/// The same with a rule of its port, whose delay shrinks with the time.
pub(crate) const PORT_RULE: &str = "[top]
components : g
in : p
link : p in@g
[g]
type : cell
dim : (1,1)
delay : transport
defaultDelayTime : 100
border : nowrapped
initialvalue : 0
in : in
link : in v@g(0,0)
localtransition : r
portInTransition : v@g(0,0) pr
[r]
rule : 0 100 { t }
[pr]
rule : { portValue(thisPort) } { 110 - time } { t }
";

/// A cell whose one rule compares with `?`.
pub(crate) const COMPARED: &str = "[top]
components : g
[g]
type : cell
dim : (1,1)
neighbors : g(0,0)
initialvalue : 0
localtransition : r
[r]
rule : 1 100 { (0,0) > ? }
";

/// Two cells in a ring, each of which has the other twice as a neighbour.
pub(crate) const PAIR: &str = "[top]
components : line
[line]
type : cell
dim : (1,2)
delay : transport
defaultDelayTime : 100
border : wrapped
neighbors : line(0,-1) line(0,1)
initialvalue : 0
initialrowvalue : 0 01
localtransition : r
[r]
rule : 1 100 { truecount = 2 }
rule : 0 100 { t }
";

/// Each cell sees the next one alone.
pub(crate) const ONE_SIDE: &str = "[top]
components : line
[line]
type : cell
dim : (1,3)
delay : transport
defaultDelayTime : 100
border : nowrapped
neighbors : line(0,1)
initialvalue : 0
initialrowvalue : 0 001
localtransition : r
[r]
rule : { (0,1) } 100 { not isundefined((0,1)) }
rule : 0 100 { t }
";

/// Each cell of four counts what it does not see.
pub(crate) const CORNERS: &str = "[Top]
components : Life
[Life]          % Conway
type : cell
width : 2
height : 2
delay : transport
defaultDelayTime : 100
border : nowrapped
neighbors : life(-1,-1) life(-1,0) life(-1,1)
neighbors : life(0,-1) life(0,0) life(0,1)
neighbors : life(1,-1) life(1,0) life(1,1)
initialvalue : 0
localtransition : life-rule
[life-rule]
rule : { undefcount } 100 { t }
";

/// A cell that changes without a delay.
pub(crate) const FLIPPING: &str = "[top]
components : g
[g]
type : cell
dim : (1,1)
neighbors : g(0,0)
initialvalue : 0
localtransition : r
[r]
rule : { 1 - (0,0) } 0 { t }
";

/// A product that is too large.
pub(crate) const TOO_LARGE: &str = "[top]
components : g
[g]
type : cell
dim : (1,1)
neighbors : g(0,0)
initialvalue : 0
localtransition : r
[r]
rule : { 100000 * 100001 } 100 { t }
";

/// The largest product.
pub(crate) const LARGEST: &str = "[top]
components : g
[g]
type : cell
dim : (1,1)
neighbors : g(0,0)
initialvalue : 0
localtransition : r
[r]
rule : { 100000 * 100000 } 100 { t }
";

/// Four cells in two planes, whose values come from a file.
pub(crate) const PLANES: &str = "[top]
components : g
[g]
type : cell
dim : (1,2,2)
initialvalue : 1
initialcellsvalue : v.val
localtransition : r
[r]
rule : 0 100 { t }
";

/// A generator and a counter, which grows too large.
pub(crate) const COUNTING: &str = "[top]
components : g@generator c@counter
out : o
link : out@g in@c
link : out@c o
[g]
period : 00:00:00:010
[c]
step : 6000000000
";

/// A cell, before its rules.
pub(crate) const RULED: &str = "[top]
components : g
[g]
type : cell
dim : (1,1)
neighbors : g(0,0)
initialvalue : 0
localtransition : r
[r]
";

/// Four links from a component to a queue, before the sections of its parts.
pub(crate) const PATHS: &str = "[top]
components : s15 q@queue
link : a@s15 in@q
link : a@s15 done@q
link : b@s15 in@q
link : b@s15 done@q
";

/// The same with an output.
pub(crate) const PATHS_OUT: &str = "[top]
components : s15 q@queue
out : o
link : out@q o
link : a@s15 in@q
link : a@s15 done@q
link : b@s15 in@q
link : b@s15 done@q
";

/// A generator in fifteen components, each of which doubles the paths from it.
pub(crate) const DOUBLED: &str = "[s15]
components : s14
out : a b
link : a@s14 a
link : a@s14 b
link : b@s14 a
link : b@s14 b
[s14]
components : s13
out : a b
link : a@s13 a
link : a@s13 b
link : b@s13 a
link : b@s13 b
[s13]
components : s12
out : a b
link : a@s12 a
link : a@s12 b
link : b@s12 a
link : b@s12 b
[s12]
components : s11
out : a b
link : a@s11 a
link : a@s11 b
link : b@s11 a
link : b@s11 b
[s11]
components : s10
out : a b
link : a@s10 a
link : a@s10 b
link : b@s10 a
link : b@s10 b
[s10]
components : s9
out : a b
link : a@s9 a
link : a@s9 b
link : b@s9 a
link : b@s9 b
[s9]
components : s8
out : a b
link : a@s8 a
link : a@s8 b
link : b@s8 a
link : b@s8 b
[s8]
components : s7
out : a b
link : a@s7 a
link : a@s7 b
link : b@s7 a
link : b@s7 b
[s7]
components : s6
out : a b
link : a@s6 a
link : a@s6 b
link : b@s6 a
link : b@s6 b
[s6]
components : s5
out : a b
link : a@s5 a
link : a@s5 b
link : b@s5 a
link : b@s5 b
[s5]
components : s4
out : a b
link : a@s4 a
link : a@s4 b
link : b@s4 a
link : b@s4 b
[s4]
components : s3
out : a b
link : a@s3 a
link : a@s3 b
link : b@s3 a
link : b@s3 b
[s3]
components : s2
out : a b
link : a@s2 a
link : a@s2 b
link : b@s2 a
link : b@s2 b
[s2]
components : s1
out : a b
link : a@s1 a
link : a@s1 b
link : b@s1 a
link : b@s1 b
[s1]
components : g@generator
out : a b
link : out@g a
link : out@g b
";

/// Life in a large space, whose values come from a file.
pub(crate) const QUIET: &str = "[Top]
components : Life
[Life]          % Conway
type : cell
width : 50
height : 50
delay : transport
defaultDelayTime : 100
border : wrapped
neighbors : life(-1,-1) life(-1,0) life(-1,1)
neighbors : life(0,-1) life(0,0) life(0,1)
neighbors : life(1,-1) life(1,0) life(1,1)
initialvalue : 0
initialcellsvalue : blink.val
localtransition : life-rule
[life-rule]
rule : 1 100 { (0,0) = 1 and
   (trueCount = 3 or trueCount = 4) }
rule : 1 100 { (0,0) = 0 and trueCount = 3 }
rule : 0 100 { t }
";

/// The ring in capitals, with a comment and a rule over two lines.
pub(crate) const SHOUTED: &str = "[TOP]
COMPONENTS : LINE
[LINE]
TYPE : CELL
DIM : (1,3) % X
DELAY : TRANSPORT
DEFAULTDELAYTIME : 100
BORDER : WRAPPED
NEIGHBORS : LINE(0,-1) LINE(0,0) LINE(0,1)
INITIALVALUE : 0
INITIALROWVALUE : 0 010
LOCALTRANSITION : R
[R]
RULE : 1 100 {
 TRUECOUNT = 1 }
RULE : 0 100 { T }
";

/// A cell with a port besides `out`.
pub(crate) const TWO_PORTS: &str = "[top]
components : g
[g]
type : cell
dim : (1,1)
neighbors : g(0,0)
neighborports : p
portvalues : 0
initialvalue : 0
localtransition : r
[r]
rule : { ~p := (0,0)~p + 1; ~out := (0,0) + (0,0)~p; } 100 { time < 200 }
rule : { (0,0) } 100 { t }
";

/// A cell that counts down in a variable.
pub(crate) const COUNTS_DOWN: &str = "[top]
components : g
[g]
type : cell
dim : (1,1)
neighbors : g(0,0)
statevariables : n
statevalues : 3
initialvalue : 0
localtransition : r
[r]
rule : { $n } { $n := $n - 1; } 100 { $n > 0 }
rule : 9 100 { t }
";

/// Three cells, the middle one in two zones: the first holds.
pub(crate) const ZONES: &str = "[top]
components : line
[line]
type : cell
dim : (1,3)
neighbors : line(0,0)
initialvalue : 0
localtransition : r
zone : a { (0,0)..(0,1) }
zone : b { (0,1) }
[r]
rule : 0 100 { t }
[a]
rule : 1 100 { t }
[b]
rule : 2 100 { t }
";

/// Three cells with a delay that is replaced: the ends change at 10 and at 30, and the middle one
/// counts them.
pub(crate) const REPLACED: &str = "[top]
components : line
[line]
type : cell
dim : (1,3)
border : nowrapped
delay : inertial
neighbors : line(0,-1) line(0,1)
initialvalue : 0
localtransition : r
[r]
rule : 1 10 { cellpos(1) = 0 }
rule : 1 30 { cellpos(1) = 2 }
rule : { truecount } 100 { t }
";

/// A light whose states stand in the model.
pub(crate) const LIGHT: &str = "[top]
components : l@table
in : p
out : o
link : p a@l
link : out@l o
[l]
states : red green
hold : red 00:00:00:030 1 green
hold : green 00:00:00:050 2 red
take : green a 9 red
";

/// A cell with as many offsets as a group may have, before what follows them.
pub(crate) const OFFSETS: &str = "[top]
components : g
[g]
type : cell
dim : (1,1)
neighbors : g(0,-64) g(0,-63) g(0,-62) g(0,-61) g(0,-60) g(0,-59) g(0,-58) g(0,-57)
neighbors : g(0,-56) g(0,-55) g(0,-54) g(0,-53) g(0,-52) g(0,-51) g(0,-50) g(0,-49)
neighbors : g(0,-48) g(0,-47) g(0,-46) g(0,-45) g(0,-44) g(0,-43) g(0,-42) g(0,-41)
neighbors : g(0,-40) g(0,-39) g(0,-38) g(0,-37) g(0,-36) g(0,-35) g(0,-34) g(0,-33)
neighbors : g(0,-32) g(0,-31) g(0,-30) g(0,-29) g(0,-28) g(0,-27) g(0,-26) g(0,-25)
neighbors : g(0,-24) g(0,-23) g(0,-22) g(0,-21) g(0,-20) g(0,-19) g(0,-18) g(0,-17)
neighbors : g(0,-16) g(0,-15) g(0,-14) g(0,-13) g(0,-12) g(0,-11) g(0,-10) g(0,-9)
neighbors : g(0,-8) g(0,-7) g(0,-6) g(0,-5) g(0,-4) g(0,-3) g(0,-2) g(0,-1)
neighbors : g(0,0) g(0,1) g(0,2) g(0,3) g(0,4) g(0,5) g(0,6) g(0,7)
neighbors : g(0,8) g(0,9) g(0,10) g(0,11) g(0,12) g(0,13) g(0,14) g(0,15)
neighbors : g(0,16) g(0,17) g(0,18) g(0,19) g(0,20) g(0,21) g(0,22) g(0,23)
neighbors : g(0,24) g(0,25) g(0,26) g(0,27) g(0,28) g(0,29) g(0,30) g(0,31)
neighbors : g(0,32) g(0,33) g(0,34) g(0,35) g(0,36) g(0,37) g(0,38) g(0,39)
neighbors : g(0,40) g(0,41) g(0,42) g(0,43) g(0,44) g(0,45) g(0,46) g(0,47)
neighbors : g(0,48) g(0,49) g(0,50) g(0,51) g(0,52) g(0,53) g(0,54) g(0,55)
neighbors : g(0,56) g(0,57) g(0,58) g(0,59) g(0,60) g(0,61) g(0,62) g(0,63)
";

/// Rules that give 0, and the key that names them.
pub(crate) const ANY_RULE: &str = "localtransition : r
[r]
rule : 0 100 { t }
";

/// Two cells whose values stand in a file.
pub(crate) const MAPPED: &str = "[top]
components : g
in : p
[g]
type : cell
dim : (1,2)
initialmapvalue : v.map
localtransition : r
[r]
rule : 0 100 { t }
";

/// A cell that goes back in time.
pub(crate) const BACK: &str = "[top]
components : g
[g]
type : cell
dim : (1,1)
neighbors : g(0,0)
initialvalue : 0
localtransition : r
[r]
rule : 1 { -10 } { t }
";

/// A cell whose delay is `?`.
pub(crate) const NO_TIME: &str = "[top]
components : g
[g]
type : cell
dim : (1,1)
neighbors : g(0,0)
initialvalue : 0
localtransition : r
[r]
rule : 1 { ? } { t }
";

/// A cell whose delay is a part of a millisecond.
pub(crate) const HALF: &str = "[top]
components : g
[g]
type : cell
dim : (1,1)
neighbors : g(0,0)
initialvalue : 0
localtransition : r
[r]
rule : 1 { 1 / 2 } { t }
";

/// A generator that grows too large.
pub(crate) const GROWING: &str = "[top]
components : g@generator
[g]
period : 00:00:00:010
value : 6000000000
step : 6000000000
";
