// Models that are refused, each kind at least once: what is too large, and what is drawn of no group,
// is refused in the crate of whole runs.
use crate::refused_forms::{push_with_line, refuses};
use memory_runs::run;
use room_edge::MemoryRoom;
use std::process::Abort;
use std::test::Fail;

/// A model that runs. Each of the rows has another line in it.
const MODEL: &str = "[top]
components : g
in : p
out : o
link : p a@g
link : b@g o
[g]
type : cell
dim : (2,3)
neighbors : g(0,-1) g(0,0) g(0,1)
initialvalue : 0
in : a
out : b
link : a v@g(0,0)
link : out@g(0,2) b
localtransition : r
[r]
rule : 1 100 { (0,0) = 0 and truecount = 1 }
rule : { (0,0) } 100 { t }
";

/// The place of a line in the model, counted from 0, what stands there, and the line and the kind
/// of the refusal.
const CHANGED: [(u32, &str, &str); 66] = [
    (1, "components g", "2: 1 BadLine"),
    (6, "[g", "7: 1 BadLine"),
    (17, "rule : 1 100 { (0,0) = 0", "18: 1 BadLine"),
    (
        18,
        "rule : { (0,0) } 100 { t }\n[G]",
        "20: 2 DuplicateSection",
    ),
    (0, "[model]", "0: 3 NoTop"),
    (
        10,
        "initialvalue : 0\ninitialvalue : 1",
        "12: 5 DuplicateKey",
    ),
    (8, "dim : (2,3)\ndim : (3,3)", "10: 5 DuplicateKey"),
    (15, "", "7: 6 MissingKey"),
    (8, "height : 2", "7: 6 MissingKey"),
    (1, "components :", "1: 6 MissingKey"),
    (7, "type : cells", "8: 7 BadValue"),
    (8, "dim : (0,3)", "9: 7 BadValue"),
    (8, "dim : (2,3)\nheight : 2", "9: 7 BadValue"),
    (9, "neighbors : h(0,1)", "10: 7 BadValue"),
    (9, "neighbors : g(0,0) g(0,65)", "10: 7 BadValue"),
    (9, "neighbors : g(0,0,1)", "10: 7 BadValue"),
    (10, "initialvalue : none", "11: 7 BadValue"),
    (11, "in : a a", "12: 7 BadValue"),
    (13, "link : a", "14: 7 BadValue"),
    (
        10,
        "initialvalue : 0\ndefaultdelaytime : 1.5",
        "12: 7 BadValue",
    ),
    (10, "initialvalue : 0\nstatevalues : 1", "12: 7 BadValue"),
    (
        10,
        "initialvalue : 0\nneighborports : heat out",
        "12: 7 BadValue",
    ),
    (
        15,
        "localtransition : r\nportintransition : v@g(2,0) r",
        "17: 7 BadValue",
    ),
    (
        15,
        "localtransition : r\nportintransition : v@g(0,0) r\nportintransition : v@g(0,0) r",
        "18: 7 BadValue",
    ),
    (1, "components : g q@", "2: 7 BadValue"),
    (1, "components : g h", "2: 8 UnknownComponent"),
    (1, "components : g g@queue", "2: 9 DuplicateComponent"),
    (1, "components : g g", "2: 9 DuplicateComponent"),
    (1, "components : g top", "2: 10 ComponentCycle"),
    (1, "components : g s@server", "2: 11 UnknownClass"),
    (
        1,
        "components : g a@queue b@queue c@queue",
        "2: 12 OutOfStock",
    ),
    (4, "link : q a@g", "5: 14 UnknownPort"),
    (5, "link : o@g o", "6: 14 UnknownPort"),
    (13, "link : a v@g(2,0)", "14: 14 UnknownPort"),
    (14, "link : heat@g(0,2) b", "15: 14 UnknownPort"),
    (14, "link : b out@g(0,2)", "15: 14 UnknownPort"),
    (14, "link : out@g(0,2) v@g(0,2)", "15: 15 SelfLink"),
    (5, "link : b@g a@g", "6: 15 SelfLink"),
    (4, "link : p o", "5: 16 PassThrough"),
    (
        13,
        "link : a v@g(0,0)\nlink : a v@g(0, 0)",
        "15: 17 DuplicateLink",
    ),
    (18, "rule : { (0,0) } 100", "19: 19 BadRule"),
    (18, "rule : (0,0) + 1 100 { t }", "19: 19 BadRule"),
    (
        18,
        "rule : { if((0,0) = 1, 2) } 100 { t }",
        "19: 19 BadRule",
    ),
    (18, "rule : 1 100 { (0,0) == 1 }", "19: 19 BadRule"),
    (18, "rule : 1 100 { 0 < (0,0) < 2 }", "19: 19 BadRule"),
    (18, "rule : { (0,0) + t } 100 { t }", "19: 20 BadSort"),
    (18, "rule : 1 100 { (0,0) }", "19: 20 BadSort"),
    (18, "rule : { (0,0) = 1 } 100 { t }", "19: 20 BadSort"),
    (
        18,
        "rule : { uniform(0,1) } 100 { t }",
        "19: 21 RandomRefused",
    ),
    (
        18,
        "rule : { power((0,0), 2) } 100 { t }",
        "19: 22 UnknownFunction",
    ),
    (18, "rule : 1 100 { true }", "19: 22 UnknownFunction"),
    (18, "rule : { (1,0) } 100 { t }", "19: 23 NotANeighbour"),
    (18, "rule : { (0,0,0) } 100 { t }", "19: 23 NotANeighbour"),
    (9, "", "18: 23 NotANeighbour"),
    (
        15,
        "localtransition : r\nzone : r { (0,0)..(0,3) }",
        "17: 24 BadZone",
    ),
    (
        15,
        "localtransition : r\nzone : r { (1,2)..(0,0) }",
        "17: 24 BadZone",
    ),
    (
        15,
        "localtransition : r\nzone : r { (0,0), (0,1) }",
        "17: 24 BadZone",
    ),
    (15, "localtransition : r\nzone : r { }", "17: 24 BadZone"),
    (
        10,
        "initialvalue : 0\ninitialrowvalue : 0 01",
        "12: 25 BadInitial",
    ),
    (
        10,
        "initialvalue : 0\ninitialrowvalue : 2 010",
        "12: 25 BadInitial",
    ),
    (
        10,
        "initialvalue : 0\ninitialrow : 0 1 2",
        "12: 25 BadInitial",
    ),
    (8, "dim : (1024,1025)", "7: 26 TooLarge"),
    (15, "localtransition : rules", "16: 28 NoSection"),
    (
        15,
        "localtransition : r\nzone : edge { (0,0) }",
        "17: 28 NoSection",
    ),
    (18, "rule : { $n } 100 { t }", "19: 30 UnknownVariable"),
    (
        18,
        "rule : { (0,0)~heat } 100 { t }",
        "19: 31 UnknownNeighbourPort",
    ),
];

/// Models of a few lines, and the line and the kind of the refusal.
const SMALL: [(&str, &str); 8] = [
    (
        "[top]\ncomponents : a\n[a]\ncomponents : a\n",
        "4: 10 ComponentCycle",
    ),
    (
        "[top]\ncomponents : a\n[a]\ncomponents : b\n[b]\ncomponents : a\n",
        "6: 10 ComponentCycle",
    ),
    (
        "[top]\ncomponents : q@queue\n[q]\npreparation : 10\n",
        "4: 13 BadParameter",
    ),
    (
        "[top]\ncomponents : g@generator\n[g]\nperiod : 00:00:00:000\n",
        "4: 13 BadParameter",
    ),
    (
        "[top]\ncomponents : g@generator\n[g]\nvalue : 1\ncount : 0\n",
        "5: 13 BadParameter",
    ),
    (
        "[top]\ncomponents : c@cpu\n[c]\ndelay : 5\n",
        "4: 13 BadParameter",
    ),
    (
        "[top]\ncomponents : c@counter\n[c]\nstart : none\n",
        "4: 13 BadParameter",
    ),
    (
        "[top]\ncomponents : t@table\n[t]\nhold : red 0:0:1:0 1 green\n",
        "4: 13 BadParameter",
    ),
];

/// How a model is refused, of which the line and the kind are told.
fn is_refused(rt: &(impl Abort + AllocGlobal), model: &str, kind: &str) -> Result<(), Fail> {
    let mut refused = String::from_str(rt.alloc(), "model refused: line ")?;
    refused.push_str(kind)?;
    refused.push_str("\n")?;
    refuses(rt, model, &refused)
}

/// Runs the model with another line.
fn changed_is_refused(
    rt: &(impl Abort + AllocGlobal),
    place: u32,
    line: &str,
    kind: &str,
) -> Result<(), Fail> {
    let mut model = String::new(rt.alloc());
    push_with_line(&mut model, MODEL, place, line)?;
    is_refused(rt, &model, kind)
}

/// Compares what was answered with the end of a run.
fn has_run(rt: &impl Abort, status: u8, room: &MemoryRoom) {
    assert_eq!(rt;
        (status, room.shown()),
        (0, b"end 00:00:00:100 cycles 1\n".as_slice())
    );
}

/// Runs the model as it is in the room.
fn runs_in(rt: &(impl Abort + AllocGlobal), room: &mut MemoryRoom) -> Result<(), Fail> {
    room.put_file("m.ma", MODEL.as_bytes())?;
    let status = run(rt.alloc(), "cdpp -m m.ma -t 00:00:00:100", room)?;
    has_run(rt, status.number(), room);
    Ok(())
}

/// Runs the model as it is: it is refused for the changed line alone.
fn unchanged_runs(rt: &(impl Abort + AllocGlobal)) -> Result<(), Fail> {
    let mut room = MemoryRoom::new(rt.alloc(), 4096);
    runs_in(rt, &mut room)
}

/// Runs each small model.
fn small_are_refused(rt: &(impl Abort + AllocGlobal)) -> Result<(), Fail> {
    for (model, kind) in &SMALL {
        is_refused(rt, model, kind)?;
    }
    Ok(())
}

#[test]
fn each_kind_is_refused(rt: HostRuntime) -> Result<(), Fail> {
    unchanged_runs(&rt)?;
    small_are_refused(&rt)?;
    for (place, line, kind) in &CHANGED {
        changed_is_refused(&rt, *place, line, kind)?;
    }
    Ok(())
}
