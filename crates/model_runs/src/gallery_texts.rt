// The texts of the gallery: scripts/gallery-texts writes this file from examples/.

/// Each model, by the name of its folder.
pub(crate) const MODELS: [(&str, &str); 14] = [
    (
        "checkout",
        "% A checkout: customers come, wait in a queue, are served one by one, and are counted.
[top]
components : customers@generator line@queue till@cpu served@counter
out : left total
link : out@customers in@line
link : out@line in@till
link : out@till done@line
link : out@till in@served
link : out@till left
link : out@served total

[customers]
% customers 1 to 6, one every two seconds
start : 00:00:01:000
period : 00:00:02:000
value : 1
step : 1
count : 6

[line]
% from the queue to the till it takes half a second
preparation : 00:00:00:500

[till]
delay : 00:00:03:000
",
    ),
    (
        "crossing",
        "% A road with a crossing: a light with a button stops the cars before place 5.
[top]
components : cars@generator light@table road
in : button
link : button a@light
link : out@cars enter@road
link : out@light light@road

[cars]
period : 00:00:03:000
count : 4

[light]
% green until the button is pressed, then amber for a second and red for five; 0 closes the road and 1 opens it
states : green amber red
take : green a any amber
hold : amber 00:00:01:000 0 red
hold : red 00:00:05:000 1 green

[road]
type : cell
dim : (1,10)
delay : inertial
border : nowrapped
neighbors : road(0,-1) road(0,0) road(0,1)
initialvalue : 0
neighborports : open
portvalues : 1
in : enter light
link : enter car@road(0,0)
link : light lamp@road(0,5)
portintransition : car@road(0,0) arrive
portintransition : lamp@road(0,5) switch
localtransition : drive

[drive]
% a car comes in from the left, where the place is open
rule : 1 1000 { (0,0) = 0 and (0,-1) = 1 and (0,0)~open = 1 }
% a car goes on to the right, or off the road at its end
rule : 0 1000 { (0,0) = 1 and (isundefined((0,1)) or (0,1) = 0 and (0,1)~open = 1) }
rule : { (0,0) } 1000 { t }

[arrive]
% a car comes to the road where its first place is free; else it drives past, and what waits stays as it is
rule : 1 1000 { (0,0) = 0 }
rule : { ~open := (0,0)~open; } 0 { t }

[switch]
rule : { ~open := portvalue(thisport); } 0 { t }
",
    ),
    (
        "excitable",
        "% An excitable medium: 0 is at rest, 1 is excited, 2 recovers. A broken front winds itself up.
[top]
components : tissue

[tissue]
type : cell
dim : (9,9)
delay : transport
border : nowrapped
neighbors : tissue(0,0) tissue(-1,0) tissue(1,0) tissue(0,-1) tissue(0,1)
initialvalue : 0
initialrowvalue : 4 111110000
initialrowvalue : 5 222220000
localtransition : fire

[fire]
rule : 2 100 { (0,0) = 1 }
rule : 0 100 { (0,0) = 2 }
rule : 1 100 { (0,0) = 0 and truecount > 0 }
rule : { (0,0) } 100 { t }
",
    ),
    (
        "fire",
        "% Fire over a field with wind from the west. A cell holds the second at which the fire came, and ? before.
% From a burning neighbour the fire takes 20 s with the wind, 45 s across it, and 90 s against it.
[top]
components : field

[field]
type : cell
dim : (5,9)
delay : inertial
border : nowrapped
neighbors : field(0,0) field(0,-1) field(0,1) field(-1,0) field(1,0)
initialvalue : ?
initialrow : 2 ? ? 0 ? ? ? ? 0 ?
localtransition : burn
zone : stone { (0,4)..(1,4) }

[burn]
% a burnt cell stays as it is
rule : { (0,0) } 1000 { not isundefined((0,0)) }
% some neighbour burns: the least of all ways to here; a neighbour that doesn't burn is far away
rule : { min(min(ifu((0,-1) >= 0, (0,-1) + 20, 0, 99999), ifu((0,1) >= 0, (0,1) + 90, 0, 99999)),
             min(ifu((-1,0) >= 0, (-1,0) + 45, 0, 99999), ifu((1,0) >= 0, (1,0) + 45, 0, 99999))) } {
         1000 * min(min(ifu((0,-1) >= 0, (0,-1) + 20, 0, 99999), ifu((0,1) >= 0, (0,1) + 90, 0, 99999)),
                    min(ifu((-1,0) >= 0, (-1,0) + 45, 0, 99999), ifu((1,0) >= 0, (1,0) + 45, 0, 99999))) - time } { undefcount < 5 }
rule : ? 1000 { t }

[stone]
rule : ? 1000 { t }
",
    ),
    (
        "heat",
        "% A surface of 5 times 5 places, with a heater at one of them and a cooler at another.
[top]
components : surface heater@generator cooler@generator
link : out@heater warm@surface
link : out@cooler cold@surface

[surface]
type : cell
dim : (5,5)
delay : transport
border : wrapped
neighbors : surface(0,0) surface(-1,0) surface(1,0) surface(0,-1) surface(0,1)
initialvalue : 20
statevariables : power
statevalues : 0
in : warm cold
link : warm power@surface(1,1)
link : cold power@surface(3,3)
portintransition : power@surface(1,1) switch
portintransition : power@surface(3,3) switch
localtransition : spread

[spread]
% halfway to the mean of the four around, in tenths of a degree, and the power of this place
rule : { round(5 * (0,0) + ((-1,0) + (1,0) + (0,-1) + (0,1)) * 1.25) / 10 + $power } 100 { t }

[switch]
rule : { (0,0) + portvalue(thisport) } { $power := portvalue(thisport); } 100 { t }

[heater]
% 8 at the start, and 0 half a second later
value : 8
step : -8
period : 00:00:00:500
count : 2

[cooler]
value : -8
step : 8
period : 00:00:00:500
count : 2
",
    ),
    (
        "life-3d",
        "% Life in three dimensions, by the rule 4555: a live cell with 4 or 5 live neighbours goes on, and with 5 one is born.
[top]
components : life

[life]
type : cell
dim : (5,5,5)
delay : transport
border : wrapped
neighbors : life(-1,-1,-1) life(-1,-1,0) life(-1,-1,1)
neighbors : life(-1,0,-1) life(-1,0,0) life(-1,0,1)
neighbors : life(-1,1,-1) life(-1,1,0) life(-1,1,1)
neighbors : life(0,-1,-1) life(0,-1,0) life(0,-1,1)
neighbors : life(0,0,-1) life(0,0,0) life(0,0,1)
neighbors : life(0,1,-1) life(0,1,0) life(0,1,1)
neighbors : life(1,-1,-1) life(1,-1,0) life(1,-1,1)
neighbors : life(1,0,-1) life(1,0,0) life(1,0,1)
neighbors : life(1,1,-1) life(1,1,0) life(1,1,1)
initialvalue : 0
initialcellsvalue : blinker.val
localtransition : bays

[bays]
% truecount counts the cell itself too
rule : 1 100 { (0,0,0) = 1 and (truecount = 5 or truecount = 6) }
rule : 1 100 { (0,0,0) = 0 and truecount = 5 }
rule : 0 100 { t }
",
    ),
    (
        "life-blinker",
        "% Life with one blinker: three cells in a row, which turn upright and back.
[top]
components : life

[life]
type : cell
dim : (5,5)
delay : transport
border : wrapped
neighbors : life(-1,-1) life(-1,0) life(-1,1)
neighbors : life(0,-1) life(0,0) life(0,1)
neighbors : life(1,-1) life(1,0) life(1,1)
initialvalue : 0
initialrowvalue : 2 01110
localtransition : conway

[conway]
% truecount counts the cell itself too, since (0,0) is among the neighbours.
rule : 1 100 { (0,0) = 1 and (truecount = 3 or truecount = 4) }
rule : 1 100 { (0,0) = 0 and truecount = 3 }
rule : 0 100 { t }
",
    ),
    (
        "life-glider",
        "% Life with a glider, which walks down to the right over a ring of rows and columns.
[top]
components : life

[life]
type : cell
dim : (7,7)
delay : transport
border : wrapped
neighbors : life(-1,-1) life(-1,0) life(-1,1)
neighbors : life(0,-1) life(0,0) life(0,1)
neighbors : life(1,-1) life(1,0) life(1,1)
initialvalue : 0
initialcellsvalue : glider.val
localtransition : conway

[conway]
rule : 1 100 { (0,0) = 1 and (truecount = 3 or truecount = 4) }
rule : 1 100 { (0,0) = 0 and truecount = 3 }
rule : 0 100 { t }
",
    ),
    (
        "ring",
        "[top]
components : line
[line]
type : cell
dim : (1,3)
delay : transport
defaultDelayTime : 100
border : wrapped
neighbors : line(0,-1) line(0,0) line(0,1)
initialvalue : 0
initialrowvalue : 0 010
localtransition : r
[r]
rule : 1 100 { truecount = 1 }
rule : 0 100 { t }
",
    ),
    (
        "sandpile",
        "% A pile of sand. A place with four grains or more topples: one grain goes to each of the four around. Grains come by events.
[top]
components : pile
in : grain
link : grain drop@pile

[pile]
type : cell
dim : (5,5)
delay : transport
border : nowrapped
neighbors : pile(0,0) pile(-1,0) pile(1,0) pile(0,-1) pile(0,1)
initialmapvalue : grains.map
in : drop
link : drop grain@pile(2,2)
portintransition : grain@pile(2,2) feed
localtransition : topple

[topple]
% outside the pile a neighbour is ?, and gives nothing: what goes over the edge is lost
rule : { (0,0) - if((0,0) >= 4, 4, 0)
         + ifu((-1,0) >= 4, 1, 0, 0) + ifu((1,0) >= 4, 1, 0, 0)
         + ifu((0,-1) >= 4, 1, 0, 0) + ifu((0,1) >= 4, 1, 0, 0) } 100 { t }

[feed]
rule : { (0,0) + portvalue(thisport) } 100 { t }
",
    ),
    (
        "surface-tension",
        "% Surface tension: each place goes with the majority around it, but a narrow defeat wins.
[top]
components : film

[film]
type : cell
dim : (8,8)
delay : transport
border : wrapped
neighbors : film(-1,-1) film(-1,0) film(-1,1)
neighbors : film(0,-1) film(0,0) film(0,1)
neighbors : film(1,-1) film(1,0) film(1,1)
initialmapvalue : film.map
localtransition : vote

[vote]
rule : 1 100 { truecount = 4 or truecount > 5 }
rule : 0 100 { t }
",
    ),
    (
        "traffic",
        "% Cars on a ring of twenty places: rule 184, with a slow stretch.
% 0 is an empty place, 1 a car that may go on, 2 a car that has just come into a place of the slow stretch.
[top]
components : road

[road]
type : cell
dim : (1,20)
delay : transport
border : wrapped
neighbors : road(0,-1) road(0,0) road(0,1)
initialvalue : 0
initialrowvalue : 0 10101010101010101010
localtransition : free
zone : slow { (0,12)..(0,15) }

[free]
rule : 1 100 { (0,0) = 0 and (0,-1) = 1 }
rule : 0 100 { (0,0) = 1 and (0,1) = 0 }
rule : { (0,0) } 100 { t }

[slow]
rule : 2 100 { (0,0) = 0 and (0,-1) = 1 }
rule : 1 100 { (0,0) = 2 }
rule : 0 100 { (0,0) = 1 and (0,1) = 0 }
rule : { (0,0) } 100 { t }
",
    ),
    (
        "water",
        "% Rain over ground. A cell's value is the water on it, its port ground the height of the ground, and rain what is still to fall on it.
[top]
components : land

[land]
type : cell
dim : (4,5)
delay : transport
border : nowrapped
neighbors : land(0,0) land(-1,0) land(1,0) land(0,-1) land(0,1)
initialmapvalue : heights.map
statevariables : rain
statevalues : 2
neighborports : ground
localtransition : flow

[flow]
% at the start the value is the height: it moves to the port, and the cell is dry
rule : { ~ground := (0,0); ~out := 0; } 100 { time = 0 }
% from each neighbour, or to it, a fifth of the difference of the surfaces, but no more than a quarter of the water there
rule : { (0,0) + 0.5
         + if(isundefined((-1,0)), 0, max(0 - (0,0) / 4, min((-1,0) / 4, ((-1,0) + (-1,0)~ground - (0,0) - (0,0)~ground) / 5)))
         + if(isundefined((1,0)), 0, max(0 - (0,0) / 4, min((1,0) / 4, ((1,0) + (1,0)~ground - (0,0) - (0,0)~ground) / 5)))
         + if(isundefined((0,-1)), 0, max(0 - (0,0) / 4, min((0,-1) / 4, ((0,-1) + (0,-1)~ground - (0,0) - (0,0)~ground) / 5)))
         + if(isundefined((0,1)), 0, max(0 - (0,0) / 4, min((0,1) / 4, ((0,1) + (0,1)~ground - (0,0) - (0,0)~ground) / 5))) } { $rain := $rain - 0.5; } 100 { $rain > 0 }
% the same without rain
rule : { (0,0)
         + if(isundefined((-1,0)), 0, max(0 - (0,0) / 4, min((-1,0) / 4, ((-1,0) + (-1,0)~ground - (0,0) - (0,0)~ground) / 5)))
         + if(isundefined((1,0)), 0, max(0 - (0,0) / 4, min((1,0) / 4, ((1,0) + (1,0)~ground - (0,0) - (0,0)~ground) / 5)))
         + if(isundefined((0,-1)), 0, max(0 - (0,0) / 4, min((0,-1) / 4, ((0,-1) + (0,-1)~ground - (0,0) - (0,0)~ground) / 5)))
         + if(isundefined((0,1)), 0, max(0 - (0,0) / 4, min((0,1) / 4, ((0,1) + (0,1)~ground - (0,0) - (0,0)~ground) / 5))) } 100 { t }
",
    ),
    (
        "wireworld",
        "% WireWorld: 0 is bare, 3 is wire, 1 the head of an electron and 2 its tail. Two wires with a diode each, turned to either side.
[top]
components : board

[board]
type : cell
dim : (9,11)
delay : transport
border : nowrapped
neighbors : board(-1,-1) board(-1,0) board(-1,1)
neighbors : board(0,-1) board(0,0) board(0,1)
neighbors : board(1,-1) board(1,0) board(1,1)
initialvalue : 0
initialrowvalue : 1 00003300000
initialrowvalue : 2 21333033333
initialrowvalue : 3 00003300000
initialrowvalue : 5 00000330000
initialrowvalue : 6 21333033333
initialrowvalue : 7 00000330000
localtransition : wire

[wire]
rule : 0 100 { (0,0) = 0 }
rule : 2 100 { (0,0) = 1 }
rule : 3 100 { (0,0) = 2 }
rule : 1 100 { truecount = 1 or truecount = 2 }
rule : 3 100 { t }
",
    ),
];

/// The files of initial values, by the names that the models give them.
pub(crate) const FILES: [(&str, &str); 5] = [
    (
        "blinker.val",
        "% seven live cells: row, column, plane
(1,2,1) = 1
(1,2,2) = 1
(2,1,2) = 1
(2,2,3) = 1
(2,3,2) = 1
(3,2,1) = 1
(3,2,2) = 1
",
    ),
    (
        "glider.val",
        "% five live cells
(0,1) = 1
(1,2) = 1
(2,0) = 1
(2,1) = 1
(2,2) = 1
",
    ),
    (
        "grains.map",
        "1 2 1 2 1
2 3 3 2 2
1 3 3 3 1
2 2 3 3 2
1 2 1 2 1
",
    ),
    (
        "film.map",
        "1 0 0 1 0 0 1 0
0 1 1 1 1 0 0 0
0 1 0 1 1 1 0 1
1 1 1 1 0 1 1 0
0 0 1 1 1 1 0 0
0 1 1 0 1 0 1 0
0 0 1 0 0 0 0 1
1 0 0 0 1 0 0 0
",
    ),
    (
        "heights.map",
        "9 8 7 8 9
8 5 4 5 8
7 4 2 4 6
9 7 6 5 3
",
    ),
];
