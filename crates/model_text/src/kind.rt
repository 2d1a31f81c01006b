// The kinds of refusals of models.
ghost use Rattle.std.specs.Prelude.{◌≡◌};
ghost use Rattle.model_text.specs.Refusals.{kind_number, kind_text};

/// Why a model is refused.
#[derive(Clone, Copy, PartialEq, Eq, Debug)]
pub enum Kind {
    /// A line of the model file is off its form.
    BadLine,
    /// A section has the name of one before.
    DuplicateSection,
    /// There is no section `top`.
    NoTop,
    /// A key that may stand once stands again.
    DuplicateKey,
    /// A section lacks a key or an item.
    MissingKey,
    /// A value is off its form, or doesn't go with another.
    BadValue,
    /// A component without a class has no section.
    UnknownComponent,
    /// A component has the name of one before.
    DuplicateComponent,
    /// A component stands inside itself.
    ComponentCycle,
    /// There is no such class, or no box of it.
    UnknownClass,
    /// All boxes of the class are taken.
    OutOfStock,
    /// A parameter of an atomic component is off its form.
    BadParameter,
    /// An end of a link isn't a port that a link may join.
    UnknownPort,
    /// Both ends of a link are at one child.
    SelfLink,
    /// Both ends of a link are the section's own.
    PassThrough,
    /// A link stands again.
    DuplicateLink,
    /// There are too many paths along links.
    TooManyRoutes,
    /// A rule is off the grammar.
    BadRule,
    /// A part of a rule isn't of the sort that is wanted there.
    BadSort,
    /// A rule names a random function.
    RandomRefused,
    /// A rule has a word that isn't of its language.
    UnknownFunction,
    /// A rule names a cell outside the neighbourhood.
    NotANeighbour,
    /// A zone is off its form.
    BadZone,
    /// Initial values are off their form.
    BadInitial,
    /// A limit on sizes or numbers is passed.
    TooLarge,
    /// A file is too long.
    TooLong,
    /// A rules section that is named isn't there.
    NoSection,
    /// What is to be drawn isn't a plane of a group.
    NoSuchPlane,
    /// A rule names a variable that the group doesn't have.
    UnknownVariable,
    /// A rule names a port that the group doesn't have.
    UnknownNeighbourPort,
}

impl Kind {
    /// The number of the kind, as it is shown.
    pub fn number(self) -> u8
        ensures { result ≡ kind_number self }
    {
        match self {
            Kind::BadLine => 1,
            Kind::DuplicateSection => 2,
            Kind::NoTop => 3,
            Kind::DuplicateKey => 5,
            Kind::MissingKey => 6,
            Kind::BadValue => 7,
            Kind::UnknownComponent => 8,
            Kind::DuplicateComponent => 9,
            Kind::ComponentCycle => 10,
            Kind::UnknownClass => 11,
            Kind::OutOfStock => 12,
            Kind::BadParameter => 13,
            Kind::UnknownPort => 14,
            Kind::SelfLink => 15,
            Kind::PassThrough => 16,
            Kind::DuplicateLink => 17,
            Kind::TooManyRoutes => 18,
            Kind::BadRule => 19,
            Kind::BadSort => 20,
            Kind::RandomRefused => 21,
            Kind::UnknownFunction => 22,
            Kind::NotANeighbour => 23,
            Kind::BadZone => 24,
            Kind::BadInitial => 25,
            Kind::TooLarge => 26,
            Kind::TooLong => 27,
            Kind::NoSection => 28,
            Kind::NoSuchPlane => 29,
            Kind::UnknownVariable => 30,
            Kind::UnknownNeighbourPort => 31,
        }
    }

    /// The number and the name of the kind, as they are shown.
    #[tactic(auto, unfolding(crate::specs::Opened::digits))]
    pub fn text(self) -> &'static str
        ensures { result.now ≡ kind_text self }
    {
        match self {
            Kind::BadLine => "1 BadLine",
            Kind::DuplicateSection => "2 DuplicateSection",
            Kind::NoTop => "3 NoTop",
            Kind::DuplicateKey => "5 DuplicateKey",
            Kind::MissingKey => "6 MissingKey",
            Kind::BadValue => "7 BadValue",
            Kind::UnknownComponent => "8 UnknownComponent",
            Kind::DuplicateComponent => "9 DuplicateComponent",
            Kind::ComponentCycle => "10 ComponentCycle",
            Kind::UnknownClass => "11 UnknownClass",
            Kind::OutOfStock => "12 OutOfStock",
            Kind::BadParameter => "13 BadParameter",
            Kind::UnknownPort => "14 UnknownPort",
            Kind::SelfLink => "15 SelfLink",
            Kind::PassThrough => "16 PassThrough",
            Kind::DuplicateLink => "17 DuplicateLink",
            Kind::TooManyRoutes => "18 TooManyRoutes",
            Kind::BadRule => "19 BadRule",
            Kind::BadSort => "20 BadSort",
            Kind::RandomRefused => "21 RandomRefused",
            Kind::UnknownFunction => "22 UnknownFunction",
            Kind::NotANeighbour => "23 NotANeighbour",
            Kind::BadZone => "24 BadZone",
            Kind::BadInitial => "25 BadInitial",
            Kind::TooLarge => "26 TooLarge",
            Kind::TooLong => "27 TooLong",
            Kind::NoSection => "28 NoSection",
            Kind::NoSuchPlane => "29 NoSuchPlane",
            Kind::UnknownVariable => "30 UnknownVariable",
            Kind::UnknownNeighbourPort => "31 UnknownNeighbourPort",
        }
    }
}
