// The options of both programs: a row for each, and the usage lines that are made of them.
ghost use Rattle.std.specs.Prelude.{◌≡◌, ◌++◌, IfOk, map, codes};
ghost use Rattle.text_forms.specs.Lines.{line_with_end};
ghost use Rattle.answer_model.specs.Options.{usage_by};
ghost use Rattle.answer_model.specs.ByWords.{usage};
ghost use Rattle.answer_model.specs.AskedDrawing.{drawing_usage};
ghost use Rattle.asked_words.specs.Table.{row_of};

use quantity::OutOfMemory;
use std::alloc::Global;

/// What a word names that is taken as it stands.
#[derive(Clone, Copy)]
pub(crate) enum Place {
    Model,
    Events,
    Log,
    Out,
    Drawn,
    Group,
    Space,
    Save,
    State,
}

/// What a number says that lies between two bounds.
#[derive(Clone, Copy)]
pub(crate) enum Bounded {
    Size,
    Limit,
    Width,
    Decimals,
    Plane,
}

/// What the value of an option says.
#[derive(Clone, Copy)]
pub(crate) enum Field {
    Word(Place),
    Bounded(Bounded),
    End,
    Letters,
    Seed,
}

/// An option with one value: its name and its letter, which are the same, how it stands in the usage
/// line, whether its value names a file, and what its value says.
pub(crate) struct Opt {
    pub id: &'static str,
    pub letter: char,
    pub shown: &'static str,
    pub is_file: bool,
    pub field: Field,
}

// How frames look: options of both programs.
const WIDTH: Opt = Opt {
    id: "w",
    letter: 'w',
    shown: " [-w WIDTH]",
    is_file: false,
    field: Field::Bounded(Bounded::Width),
};

const DECIMALS: Opt = Opt {
    id: "p",
    letter: 'p',
    shown: " [-p DECIMALS]",
    is_file: false,
    field: Field::Bounded(Bounded::Decimals),
};

const PLANE: Opt = Opt {
    id: "f",
    letter: 'f',
    shown: " [-f PLANE]",
    is_file: false,
    field: Field::Bounded(Bounded::Plane),
};

/// The options of the simulator.
pub(crate) const CDPP: [Opt; 16] = [
    Opt {
        id: "m",
        letter: 'm',
        shown: " (-m MODEL",
        is_file: true,
        field: Field::Word(Place::Model),
    },
    Opt {
        id: "G",
        letter: 'G',
        shown: " | -G N)",
        is_file: false,
        field: Field::Bounded(Bounded::Size),
    },
    Opt {
        id: "t",
        letter: 't',
        shown: " -t END",
        is_file: false,
        field: Field::End,
    },
    Opt {
        id: "e",
        letter: 'e',
        shown: " [-e EVENTS]",
        is_file: true,
        field: Field::Word(Place::Events),
    },
    Opt {
        id: "l",
        letter: 'l',
        shown: " [-l LOG]",
        is_file: true,
        field: Field::Word(Place::Log),
    },
    Opt {
        id: "o",
        letter: 'o',
        shown: " [-o OUT]",
        is_file: true,
        field: Field::Word(Place::Out),
    },
    Opt {
        id: "d",
        letter: 'd',
        shown: " [-d FRAMES",
        is_file: true,
        field: Field::Word(Place::Drawn),
    },
    Opt {
        id: "g",
        letter: 'g',
        shown: " -g GROUP]",
        is_file: false,
        field: Field::Word(Place::Group),
    },
    Opt {
        id: "L",
        letter: 'L',
        shown: " [-L LETTERS]",
        is_file: false,
        field: Field::Letters,
    },
    Opt {
        id: "c",
        letter: 'c',
        shown: " [-c LIMIT]",
        is_file: false,
        field: Field::Bounded(Bounded::Limit),
    },
    WIDTH,
    DECIMALS,
    PLANE,
    Opt {
        id: "T",
        letter: 'T',
        shown: " [-T SEED]",
        is_file: false,
        field: Field::Seed,
    },
    Opt {
        id: "S",
        letter: 'S',
        shown: " [-S SAVE]",
        is_file: true,
        field: Field::Word(Place::Save),
    },
    Opt {
        id: "R",
        letter: 'R',
        shown: " [-R STATE]",
        is_file: true,
        field: Field::Word(Place::State),
    },
];

/// The options of the drawing program.
pub(crate) const DRAWLOG: [Opt; 6] = [
    Opt {
        id: "l",
        letter: 'l',
        shown: " -l LOG",
        is_file: true,
        field: Field::Word(Place::Log),
    },
    Opt {
        id: "g",
        letter: 'g',
        shown: " -g GROUP",
        is_file: false,
        field: Field::Word(Place::Group),
    },
    Opt {
        id: "s",
        letter: 's',
        shown: " -s SIZE",
        is_file: false,
        field: Field::Word(Place::Space),
    },
    WIDTH,
    DECIMALS,
    PLANE,
];

/// The usage line of the simulator, as it is complained.
pub fn usage_line(alloc: Global) -> Result<Vec<u8>, OutOfMemory>
    ensures { IfOk result (λ line. line.items ≡ line_with_end (codes "usage: " ++ usage)) }
{
    usage_of(alloc, "cdpp", &CDPP)
}

/// The usage line of the drawing program, as it is complained.
pub fn drawing_usage_line(alloc: Global) -> Result<Vec<u8>, OutOfMemory>
    ensures { IfOk result (λ line. line.items ≡ line_with_end (codes "usage: " ++ drawing_usage)) }
{
    usage_of(alloc, "drawlog", &DRAWLOG)
}

/// The usage line of a program of this name with these options.
fn usage_of(alloc: Global, name: &str, options: &[Opt]) -> Result<Vec<u8>, OutOfMemory>
    ensures { IfOk result (λ line. line.items
        ≡ line_with_end (codes "usage: " ++ usage_by name.now (map row_of options.now))) }
{
    let mut line = b"usage: ".to_vec(alloc)?;
    line.extend_from_slice(name.as_bytes())?;
    for option in options {
        line.extend_from_slice(option.shown.as_bytes())?;
    }
    line.extend_from_slice(b"\n")?;
    Ok(line)
}
