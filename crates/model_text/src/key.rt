// The keys of sections.

/// The form of the values of a key.
#[derive(Clone, Copy)]
pub enum Form {
    /// Any text.
    Any,
    /// A number of 1 to 7 digits, at least 1.
    Size,
    /// A tuple of two or three sizes.
    Sizes,
    /// `transport` or `inertial`.
    DelayKind,
    /// Whole milliseconds of 1 to 9 digits, at most 99:59:59:999.
    DelayTime,
    /// `wrapped` or `nowrapped`.
    Border,
    /// Tuples, each behind the group's name or behind nothing.
    Tuples,
    /// A value, or `?`.
    Value,
    /// Any text but none.
    FileName,
    /// A name.
    Name,
    /// A port at a cell of the group, and the name of rules.
    PortRule,
    /// 1 to 8 different words of the rule language.
    Variables,
    /// As many values as `statevariables` has words.
    VariableValues,
    /// 1 to 3 different words of the rule language, none of them `out`.
    Ports,
    /// As many values as `neighborports` has words.
    PortValues,
    /// Names between blanks.
    Names,
    /// Two ends, or nothing at all.
    Link,
}

/// A key: its word, whether it may stand once in a section, and the form of its values.
pub type Key = (&'static [u8], bool, Form);

const ONCE: bool = true;

const OFTEN: bool = false;

/// The keys of a group.
pub const GROUP_KEYS: [Key; 20] = [
    (b"type", ONCE, Form::Any),
    (b"dim", ONCE, Form::Sizes),
    (b"height", ONCE, Form::Size),
    (b"width", ONCE, Form::Size),
    (b"delay", ONCE, Form::DelayKind),
    (b"defaultdelaytime", ONCE, Form::DelayTime),
    (b"border", ONCE, Form::Border),
    (b"neighbors", OFTEN, Form::Tuples),
    (b"initialvalue", ONCE, Form::Value),
    (b"initialmapvalue", ONCE, Form::FileName),
    (b"initialcellsvalue", ONCE, Form::FileName),
    (b"localtransition", ONCE, Form::Name),
    (b"portintransition", OFTEN, Form::PortRule),
    (b"statevariables", ONCE, Form::Variables),
    (b"statevalues", ONCE, Form::VariableValues),
    (b"neighborports", ONCE, Form::Ports),
    (b"portvalues", ONCE, Form::PortValues),
    (b"in", OFTEN, Form::Names),
    (b"out", OFTEN, Form::Names),
    (b"link", OFTEN, Form::Link),
];

/// The keys of a section of components.
pub const COMPONENT_KEYS: [Key; 4] = [
    (b"type", ONCE, Form::Any),
    (b"in", OFTEN, Form::Names),
    (b"out", OFTEN, Form::Names),
    (b"link", OFTEN, Form::Link),
];
